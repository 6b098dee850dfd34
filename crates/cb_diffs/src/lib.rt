//! Between vector times and the increments that travel in cast frames.
//!
//! Stands on `cb_times` and on the cast frames of `cb_frames`.
#![tactic(auto)]

mod differences;
mod expander;
mod laws;

pub use differences::difference;
pub use expander::{ExpandFault, Expander, grow_by};
pub use laws::{differences_expand_back, expanding_is_summing, repeats_count_once};
