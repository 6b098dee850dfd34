//! The four workers of a member. Each has a seat of its own at the shared member, and hands it
//! back.

mod desk;
mod post;
mod receiver;
mod sender;
mod speaker;
mod timer;
mod turns;

pub use desk::{Desk, Job, Worked, Worker};
pub use post::{MOST_AT_ONCE, Post};
pub use receiver::Receiving;
pub use speaker::Talking;
pub use timer::Ticking;
