//! A whole group of members in one thread, for schedules: a program of the definitions in `cb_schedules`.
//!
//! A step says what happens: a member casts, a frame that was sent arrives somewhere, a member ticks, or it asks a third member for
//! another's casts. Which frames are lost, come again or come late is the schedule's choice. `World` takes one step after another, `play`
//! those of a whole schedule.
//!
//! Stands on `cb_member` for the members, and on `cb_schedules` for what is true after every schedule.
#![tactic(auto)]

mod outcome;
mod payloads;
mod run;
mod step;
mod taking;
mod world;

pub use outcome::{Answer, Outcome, Sent};
pub use payloads::payload_slices;
pub use run::{Run, play};
pub use step::Step;
pub use world::{PlayFault, World};
