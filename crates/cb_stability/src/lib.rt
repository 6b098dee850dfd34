//! Acknowledgements and the frames kept until they are stable: the sender's side of repair.
//!
//! A cast is stable once every other member has delivered it. `Acks` says of each sender how far its casts are stable;
//! a `SentWindow` keeps a member's own frames until then, so that it can send them again, and a `HelperWindow` the last of
//! another member's, so that it can hand them on. `Relays` keeps those from when they are accepted on, and hands them on once
//! they are delivered. Stands on `cb_times`, on `cb_frames` for ranges of numbers, and on `bytes` and `circular_buffer` for
//! the frames.
#![tactic(auto)]

mod acks;
mod helper_window;
mod laws;
mod relays;
mod ring;
mod window;

pub use acks::Acks;
pub use helper_window::HelperWindow;
pub use laws::helper_windows_keep_the_last_frames;
pub use relays::Relays;
pub use window::SentWindow;
