//! One member of a group, quick where the slow member of `cb_reference` reads its history again.
//!
//! A bare machine without clock, link or thread: what it answers is a function of its history, which `cb_history` defines. What it keeps
//! beside its history is tied to the entries by named facts: the counts of the view, the messages that are expanded and not delivered,
//! the casts that wait for those before them, what is known of the others, the own casts above stable.
//!
//! `CoreMember` keeps no history. A `Kept` is a core with its history beside it, or with what its last call added, as its limit says; a
//! `Member` is one that keeps its history.
//!
//! Stands on the crates below: on `cb_times`, `cb_frames`, `cb_diffs`, `cb_delay`, `cb_gaps` and `cb_stability` for the work, on
//! `cb_history` for types and meaning.
#![tactic(auto)]

mod arrival;
mod core_member;
mod delivery;
mod foretelling;
mod helping;
mod kept;
mod knowledge;
mod laws;
mod member;
mod named;
mod own_burst;
mod own_cast;
mod readings;
mod received;
mod reception;
mod relaying;
mod sending;
mod singles;
mod state;
mod taking;
mod text;
mod tick;
mod wanted;

pub use cb_frames::{FrameFault, Range};
pub use cb_history::{
    Arrival, ArriveRefusal, BadGroup, BurstDone, BurstRefusal, CastDone, CastRefusal, Entry, Event,
    Group, GroupMember, HelpFault, History, Identity, LONGEST_HISTORY, Message, MissingFault, Name,
    NewFault, Outgoing, TickRefusal, Ticked,
};
pub use cb_times::{NoMemory, TimeOrder, VectorTime};
pub use core_member::CoreMember;
pub use kept::Kept;
pub use laws::{cores_answer_by_their_history, help_goes_to_one_of_these};
pub use member::Member;
pub use readings::{Awaited, Delayed};
pub use received::Received;
