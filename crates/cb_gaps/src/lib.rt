//! Repairing gaps from the receiver's side: casts and bursts of one sender that were lost, repeated or reordered.
//!
//! A `Reorder` keeps what is received too early, gives it back in the order of the numbers with none missing, and names the
//! numbers that are missing; `request_of` asks their sender for them, `help_of` a third member. Stands on `cb_frames`, whose
//! units and ranges these are, on `cb_times` for the limits of windows, and on `bytes` for what a unit carries.
#![tactic(auto)]

mod buffer;
mod laws;
mod request;
mod slots;

pub use buffer::{Admission, Reorder};
pub use laws::{casts_come_out_as_reported, one_message_never_overlaps, ranges_are_one_list};
pub use request::{help_of, request_of};
