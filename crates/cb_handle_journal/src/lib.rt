//! A member that is held, and its journal: it comes back by the bytes of one, and tells its own lines to whoever writes them.
//!
//! `resume` reads a journal and makes the calls that its entries tell again. `journal_head` and `journal_line` spell the head line and the
//! line of an entry. No file is touched here: who holds the member writes its lines, and makes them outlast a crash, before a frame of the
//! call is sent.
//!
//! Stands on `cb_handle`, on `cb_journal` for the text, and on `cb_replay` for the calls.
#![tactic(auto)]

mod fault;
mod lines;
mod resuming;
mod taking;
#[cfg(test)]
mod tests;

pub use fault::{LineRefusal, ResumeFault};
pub use lines::{journal_head, journal_line};
pub use resuming::{Resumed, resume};
