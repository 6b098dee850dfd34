//! The delay queue of CBCAST: messages that wait until all before them are delivered.
//!
//! A `Message` has the name and the time that its sender gave it, an `Event` is its cast or its delivery; a `DelayQueue` holds
//! messages that were received too early. Stands on `cb_times`, and on `bytes` for what a message says.
#![tactic(auto)]

mod index;
pub mod laws;
mod lists;
mod members;
mod message;
mod place;
mod queue;

pub use cb_times::Name;
pub use message::{Event, Message, is_ready};
pub use place::candidate;
pub use queue::DelayQueue;
