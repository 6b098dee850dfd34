//! The lists of a queue: the messages held of each sender, in the order of their numbers.
ghost use Rattle.std.specs.Prelude.{◌≡◌, ◌<◌, [], length, map, false};
ghost use Rattle.cb_delay.specs.Lists.{list_of};

use crate::message::Message;
use std::collections::VecDeque;

/// Whether any message is held of this sender.
pub fn holds_some(lists: &[VecDeque<Message>], sender: u32) -> bool
    requires { sender < length lists.now }
    ensures { result ≡ false → list_of (map (λ list. list.items) lists.now) sender ≡ [] }
{
    !lists[sender as usize].is_empty()
}
