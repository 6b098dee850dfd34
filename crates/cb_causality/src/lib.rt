//! Causal broadcast as a machine, and the law that ties vector times to it.
//!
//! `specs/` says what happened-before is (Lamport 1978), what a group of members may do in causal broadcast, and how vector
//! times and the delay rule do it (Birman, Schiper and Stephenson 1991). The laws, of every run of any length, are the
//! contracts of functions that do nothing. `CausalGroup` and `StampedGroup` are the two machines as programs.
//!
//! Stands on `cb_times` for names and times and on `cb_delay` for events and the delay rule; payloads are buffers of `bytes`.
#![tactic(auto)]

mod causal;
mod event;
mod fault;
mod laws;
mod lists;
mod stamped;

pub use causal::CausalGroup;
pub use cb_delay::{Event, Message};
pub use cb_times::Name;
pub use event::CausalEvent;
pub use fault::CastFault;
pub use laws::{
    a_name_tells_its_message, causal_broadcast_can_be_stamped, closed_parts_of_runs_are_runs,
    groups_follow_as_one_run, happened_before_is_strict_order, machines_know_the_lists_alone,
    past_has_a_smaller_sum, runs_are_extended_by_several_steps, stamped_broadcast_is_causal,
    steps_keep_the_past,
};
pub use stamped::StampedGroup;
