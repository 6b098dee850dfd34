//! A member, its link and its pace, driven from one thread.
//!
//! A `Node` has no lock and no thread. Each `turn` sends what is to be sent, sleeps in the link until
//! a frame comes, takes what is there, and ticks when a tick is due. What it hands out are the events
//! of its member, in their order. Entries go to a `Keeper` first: what is not kept is neither sent nor
//! handed out.
//!
//! Stands on `cb_member` for the member and on `cb_links` for the link. Nothing says that a frame
//! arrives or when; `docs/GUIDE.md` shows a program's loop.
#![tactic(auto)]

mod bounds;
mod desk;
mod ends;
mod fault;
mod kept;
mod named;
mod node;
mod pace;
mod refused;

pub use bounds::{BadBounds, Bounds};
pub use cb_journal::{KeepFault, Keeper, NoJournal};
pub use cb_links::{Inlet, LinkFault, Outlet, Received, Unsent, WaitingInlet};
pub use cb_member::{
    ArriveRefusal, BurstRefusal, CastRefusal, Entry, Event, Group, History, Identity, Member,
    Message, Name, NewFault, VectorTime,
};
pub use desk::for_all;
pub use ends::{Counts, Ends};
pub use fault::{NodeBurstFault, NodeCastFault, TurnFault};
pub use kept::KeptMember;
pub use named::Named;
pub use node::{MOST_FRAMES, Node, now, shorter};
pub use pace::Pacing;
pub use refused::Refused;
