//! `confer expand`: casts and bursts in hexadecimal, a frame a line, and for each its messages with their
//! vector times, or why it is refused.
//!
//! From the streams down: `streams` reads and writes, `lines` cuts what was read into lines, `answers`
//! answers one line, `messages` writes the lines of its messages, and `expansion` finds the cast or burst that
//! it is and its time. Stands on `cb_frames` and `cb_diffs`.
#![tactic(auto)]

mod answers;
mod expansion;
mod fault;
mod lines;
mod messages;
mod refusal;
mod streams;

pub use streams::expand_lines;
