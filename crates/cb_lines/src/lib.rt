//! The lines in which a group and the entries of a history stand in a text, and how each is read.
//!
//! A line is words with one space between each two. Each number and each frame has one spelling, and no other is read: so a line is that
//! of one group or of one entry. Traces and journals are made of such lines.
//!
//! Stands on `cb_history` for groups and entries and on `cb_times` for names. It takes frames as bytes and does not look into them.
#![tactic(auto)]

mod cutting;
mod fault;
mod spelling;
mod words;
mod writing;

pub use cutting::first_line;
pub use fault::LineFault;
pub use spelling::{entry_of, group_of, parameters_of};
pub use words::{is, number_of, words_of};
pub use writing::{put_entry, put_group, put_number};
