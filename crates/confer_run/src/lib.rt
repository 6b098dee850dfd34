//! `confer run`: a conference whose members run in threads.
//!
//! `participant` is who talks for a member: it asks or answers the questions in its conference. `running`
//! runs the group and prints what became of each member, with the audit of their histories or their trace.
//! Stands on `cb_threads` for the members, on `cb_rooms` for their conferences. Threads, waiting and sockets
//! are here and in no other subcommand.
#![tactic(auto)]

#[cfg(test)]
mod failing;
mod fault;
#[cfg(test)]
mod helped;
#[cfg(test)]
mod pacing;
mod participant;
mod running;
mod setting;
#[cfg(test)]
mod spoken;
#[cfg(test)]
mod tests;

pub use fault::{RunFault, ThreadFault};
pub use running::run_conference;
pub use setting::{LinkKind, RunSetting};
