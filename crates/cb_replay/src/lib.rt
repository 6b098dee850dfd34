//! A history is replayed: a member makes the call that each entry tells, and is to add just that entry. So a member comes back by its
//! history, a core by its entries one by one, and the audit finds the first entry that no call adds.
//!
//! Stands on `cb_member`, which makes the calls, and on `cb_history` for what they mean.
#![tactic(auto)]

mod core_replaying;
mod fault;
mod load;
mod replaying;
mod resuming;
mod returning;
mod same;

pub use core_replaying::replay_entry;
pub use fault::ResumeFault;
pub use load::{Load, slices_of};
pub use replaying::replay;
pub use resuming::resume;
pub use returning::{Returning, resume_core};
