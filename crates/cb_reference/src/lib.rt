//! The slow member: it keeps nothing but its history, and works everything out from the entries at each call.
//!
//! It is the definitions of `cb_history` as a program, and there to compare a fast member with: `ReferenceMember` is a `GroupMember`, and
//! the suite of worked examples in `tests_member` runs over that trait. Stands on `cb_history`, and on `cb_frames`, `cb_times` and
//! `cb_delay` for what its answers are made of. But for tests no other crate stands on it.
#![tactic(auto)]

mod arrival;
mod asked;
mod cast;
mod casts;
mod events;
mod facts;
mod handed_on;
mod help;
mod known;
mod member;
mod past;
mod reading;
mod tick;
mod view;

pub use member::ReferenceMember;
