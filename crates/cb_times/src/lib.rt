//! Vector times of a group and their order, the names of messages, and the limits of groups.
//!
//! A `VectorTime` counts each member's messages, and `TimeOrder` says how two compare. `NoMemory` is the one word for an
//! allocation that was refused, here and in the crates above. Stands on no crate of ours, and on `smallvec` for the fields of a time.
#![tactic(auto)]

mod group;
pub mod laws;
mod name;
mod order;
mod room;
mod time;

pub use group::{FEWEST_MEMBERS, MOST_MEMBERS, WIDEST_WINDOW};
pub use name::Name;
pub use order::TimeOrder;
pub use room::make_room;
pub use time::{NoMemory, VectorTime};
