//! The frames of others that are accepted, kept for who will miss them.

ghost use Rattle.std.specs.Prelude.{◌≡◌, ◌<◌, [], IfOk, length};
ghost use Rattle.cb_history.specs.Group.{IsIdentity};
ghost use Rattle.cb_member.specs.Relaying.{KeepsAllRelays, RelaysFrame, TrimsRelays};

use bytes::Bytes;
use cb_history::Identity;
use cb_history::laws::relays_keep_what_is_handed_on;
use cb_stability::{Acks, Relays};
use cb_times::NoMemory;
use std::alloc::Global;

/// Without frames, for each member of the group.
pub fn no_relays(alloc: Global, seat: Identity) -> Result<Vec<Relays>, NoMemory>
    requires { IsIdentity seat }
    ensures { IfOk result (λ relays. KeepsAllRelays seat [] relays.items) }
{
    // asked for what is true of relays without frames
    relays_keep_what_is_handed_on();
    let (size, window) = (seat.group().size(), seat.group().window());
    let mut relays = Vec::with_capacity(alloc, size as usize)?;
    for _ in 0..size {
        relays.push(Relays::new(alloc, window)?)?;
    }
    Ok(relays)
}

/// Keeps the frame of a cast or a burst of another member that was received. It takes no memory.
#[inline(always)]
pub fn relay(relays: &mut [Relays], sender: u32, first: u32, last: u32, frame: Bytes)
    requires { sender < length relays.old }
    ensures relays { RelaysFrame sender first last frame relays.old relays.new }
    ensures as_many { length relays.new ≡ length relays.old }
{
    // asked for what is true of relays with a frame more
    relays_keep_what_is_handed_on();
    relays[sender as usize].put(first, last, frame);
}

/// Lets go of the frames of this sender that every member but it is known to have delivered.
pub fn trim_relays(relays: &mut [Relays], sender: u32, acks: &Acks)
    requires relays { sender < length relays.old }
    requires acks { sender < acks.now.size }
    ensures trims { TrimsRelays acks.now relays.old relays.new }
    ensures as_many { length relays.new ≡ length relays.old }
{
    // asked for what is true of relays with frames fewer
    relays_keep_what_is_handed_on();
    relays[sender as usize].trim(acks.stable(sender));
}
