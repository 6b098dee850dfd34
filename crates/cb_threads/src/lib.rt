//! Members that run in threads: the workers of a member, and a whole group.
//!
//! `run_member` runs four workers at one shared member: one takes what is received, one ticks, one
//! casts what a talker says, and one sends what the others sent. `run_group` runs a member in each
//! thread, and hands out the members' histories.
//!
//! Stands on `cb_lock` for the shared member and on `cb_links` for the links between members. Nothing
//! says that a frame arrives or that a worker gets on; `docs/GUIDE.md` says what a user may rely on.
#![tactic(auto)]

mod again;
mod asking;
mod ended;
mod gathering;
mod group;
mod life;
mod limits;
mod member;
mod pace;
mod per_worker;
mod report;
mod talker;
mod threads;
mod workers;

pub use again::outcome;
pub use asking::{Ticks, help_frames};
pub use cb_links::{
    ChannelInlet, ChannelLink, ChannelOutlet, FailInlet, FailOutlet, Inlet, LONGEST_FRAME,
    LinkFault, Outlet, Received, TcpInlet, TcpLink, TcpOutlet, UdpInlet, UdpLink, UdpOutlet,
    Unsent, each_frame_fits,
};
pub use gathering::Gathering;
pub use group::{GroupFault, run_group};
pub use limits::{Limits, Stop};
pub use member::run_member;
pub use pace::{Every, Pace, PaceFault};
pub use report::{GroupReport, MemberReport, WorkerFault};
pub use talker::{Talk, Talker};

#[cfg(test)]
mod tests;
