//! The sender hands on all that waits for it.

ghost use Rattle.std.specs.Prelude.{◌≡◌};

use super::naps::desk;
use crate::limits::Stop;
use crate::workers::{Job, Worker};
use crate::{ChannelInlet, ChannelLink, ChannelOutlet, Inlet, Received};
use bytes::Bytes;
use cb_links::{Mailbox, new_mailbox};
use cb_lock::{Seat, SharedMember};
use cb_member::{Group, Member, Outgoing};
use std::alloc::Global;
use std::marker::Brand;
use std::process::Abort;
use std::sync::Wait;
use std::sync::ledger::{Blank, Ledger};
use std::test::*;
use std::time::Clock;

/// How many frames wait, and how many of them stand in a list.
const WAITING: u8 = 200;

const IN_A_LIST: u8 = 40;

#[test]
fn all_frames_that_wait_are_sent_in_order(rt: HostRuntime) {
    let mut links = ChannelLink::group(rt.alloc(), 2).expect(&rt, "links");
    let (mut inlet, outlet) = links.pop().expect(&rt, "a link");
    let (unread, from) = links.pop().expect(&rt, "a link");
    let counts = work::<Brand, _>(&rt, rt.alloc(), Blank::new(4), from);
    assert_eq!(&rt; counts, (200, 0, 0));
    assert_eq!(&rt; in_order(&rt, &mut inlet), WAITING);
    drop(outlet);
    drop(unread);
}

/// How many frames come, each the one that is next.
fn in_order<R: Wait + Clock + Abort>(rt: &R, inlet: &mut ChannelInlet) -> u8 {
    for number in 0..WAITING {
        let received = inlet.receive(rt);
        let is_next =
            matches!(&received, Ok(Received::Frame(frame)) if frame.as_slice() == [number].as_slice());
        if !is_next {
            return number;
        }
    }
    WAITING
}

/// What a sender counts for whom all these frames wait.
fn work<L: Ledger + Send + Sync, R: Wait + Clock + Abort>(
    rt: &R,
    alloc: Global,
    blank: Blank,
    outlet: ChannelOutlet,
) -> (u64, u64, u64)
    requires { (blank.name ≡ L.name) × (blank.parts ≡ L.parts) × (blank.parts ≡ 4) }
{
    let group = Group::new(7, 2, 4).expect(rt, "a group");
    let member = Member::new(alloc, group, 0, 100).expect(rt, "a member");
    let (shared, seat) = SharedMember::<L>::new(alloc, blank, member);
    let counts = send(rt, alloc, &shared, seat, outlet);
    drop(shared);
    counts
}

fn send<L: Ledger + Send + Sync, R: Wait + Clock + Abort>(
    rt: &R,
    alloc: Global,
    shared: &SharedMember<L>,
    seat: Seat<L>,
    part: ChannelOutlet,
) -> (u64, u64, u64) {
    let stop = Stop::new();
    let desk = desk(alloc, shared, &stop, 7);
    let end = waiting(rt, alloc);
    let worked = Worker { part, seat, end }.run(rt, &desk);
    let counts = (worked.offered, worked.lost, worked.failures);
    drop(worked);
    counts
}

/// A mailbox in which these frames wait, and to which no more will come.
fn waiting<R: Wait + Abort>(rt: &R, alloc: Global) -> Mailbox<Vec<Outgoing>> {
    let (slot, mailbox) = new_mailbox(alloc).expect(rt, "a mailbox");
    for first in (0..WAITING).step_by(IN_A_LIST as usize) {
        assert!(rt; slot.put(rt, list_from(rt, alloc, first)).is_ok());
    }
    mailbox
}

/// A list of frames that have the numbers from this one on.
fn list_from(rt: &impl Abort, alloc: Global, first: u8) -> Vec<Outgoing> {
    let mut frames = Vec::new(alloc);
    for number in first..first.saturating_add(IN_A_LIST) {
        let mut text = Vec::new(alloc);
        text.push(number).expect(rt, "memory");
        let bytes = Bytes::from_vec(text).expect(rt, "memory");
        frames
            .push(Outgoing { to: None, bytes })
            .expect(rt, "memory");
    }
    frames
}
