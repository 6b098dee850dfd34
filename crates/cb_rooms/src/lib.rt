//! Conference rooms over causal broadcast: lines that are said in rooms, and answers to them.
//!
//! A `Line` is what a message of a conference says, with its payload both ways. A `Conference` is shown the messages of one
//! member in the order of its events, and keeps the lines of each room and the last lines for a screen. Stands on `cb_varint` for
//! numbers in payloads, on `cb_times` for names, and on `indexmap` and `circular_buffer`.
#![tactic(auto)]

mod conference;
mod fault;
pub mod laws;
mod line;
mod reading;
mod rooms;
mod shown;
mod writing;

pub use conference::{Conference, LONGEST_SCREEN};
pub use fault::{ComposeFault, ConferenceFault};
pub use line::{LONGEST_PAYLOAD, LONGEST_ROOM, Line};
pub use shown::{Showing, Shown};
