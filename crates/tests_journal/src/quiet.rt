//! How often a node ticks, by a clock that is set.

use crate::fakes::{Broken, SetClock, Short, Silent, Timed};
use cb_journal::{KeepFault, NoJournal};
use cb_links::{ChannelInlet, ChannelLink, ChannelOutlet, Inlet, Outlet, Received, WaitingInlet};
use cb_member::{Group, Member};
use cb_node::{Bounds, Node, TurnFault, for_all};
use std::alloc::Global;
use std::process::Abort;
use std::sync::Wait;
use std::time::{Clock, Duration};

fn bounds(rt: &impl Abort) -> Bounds {
    Bounds::new(Duration::from_millis(10), Duration::from_secs(1)).expect(rt, "bounds")
}

fn member(rt: &impl Abort, alloc: Global) -> Member {
    member_at(rt, alloc, 0)
}

fn member_at(rt: &impl Abort, alloc: Global, me: u32) -> Member {
    let group = Group::new(7, 3, 4).expect(rt, "a group");
    Member::new(alloc, group, me, 100).expect(rt, "a member")
}

/// Its frames go nowhere: the others' inlets are gone.
fn outlet(rt: &impl Abort, alloc: Global) -> ChannelOutlet {
    let mut links = ChannelLink::group(alloc, 3).expect(rt, "memory");
    links.pop().expect(rt, "a link").1
}

fn alone<I: WaitingInlet>(
    rt: &impl Abort,
    alloc: Global,
    inlet: I,
) -> Node<I, ChannelOutlet, NoJournal> {
    let link = (inlet, outlet(rt, alloc));
    Node::new(alloc, member(rt, alloc), link, bounds(rt), NoJournal)
}

/// How many ticks the node makes in so many milliseconds, in turns of a quarter of a second at most.
fn ticks_in<I: WaitingInlet, R: Wait + Clock + Abort>(
    rt: &R,
    node: &mut Node<I, ChannelOutlet, NoJournal>,
    millis: u64,
) -> u64 {
    let clock = SetClock::new();
    let timed = Timed { rt, clock: &clock };
    let before = node.ticks();
    for _turn in 0..10_000u64 {
        if clock.micros() >= millis.saturating_mul(1_000) {
            break;
        }
        node.turn(&timed, Duration::from_millis(250))
            .expect(rt, "a turn");
    }
    node.ticks().wrapping_sub(before)
}

/// The first status is new. The time to the next tick is 10 milliseconds, then twice the one before
/// each time, up to a second: eight ticks by 1,270 milliseconds, and then one a second.
#[test]
fn a_quiet_node_ticks_slowly(rt: HostRuntime) {
    let mut node = alone(&rt, rt.alloc(), Silent);
    let ticks = ticks_in(&rt, &mut node, 10_500);
    assert!(&rt; ticks == 17);
}

/// What it casts nobody acknowledges, and nothing comes: it ticks at first, and after 10, 30, 70, 150,
/// 310 and 630 milliseconds.
#[test]
fn a_cast_that_nobody_acknowledges_is_no_news_for_ever(rt: HostRuntime) {
    let mut node = alone(&rt, rt.alloc(), Silent);
    let _named = node.cast(b"hi").expect(&rt, "a cast");
    let ticks = ticks_in(&rt, &mut node, 1_000);
    assert!(&rt; ticks == 7);
}

#[test]
fn a_link_that_fails_is_counted_and_slept_on(rt: HostRuntime) {
    let mut node = alone(&rt, rt.alloc(), Broken::new());
    let clock = SetClock::new();
    let timed = Timed {
        rt: &rt,
        clock: &clock,
    };
    for _turn in 0..5u32 {
        node.turn(&timed, Duration::from_secs(1))
            .expect(&rt, "a turn");
    }
    assert!(&rt; node.counts().receive_failures == 5);
    assert!(&rt; clock.micros() == 5_000);
}

/// The first entry is kept, the second is not: its frame is not sent and its event not shown.
#[test]
fn what_is_not_kept_is_neither_sent_nor_shown(rt: HostRuntime) {
    let alloc = rt.alloc();
    let link = (Silent, outlet(&rt, alloc));
    let keeper = Short { left: 1 };
    let mut node = Node::new(alloc, member(&rt, alloc), link, bounds(&rt), keeper);
    let _named = node.cast(b"one").expect(&rt, "a cast");
    let second = node.cast(b"two").is_err();
    assert!(&rt; second);
    let turned = node.turn(&rt, Duration::ZERO);
    assert!(&rt; turned == Err(TurnFault::NotKept(KeepFault::Device)));
    let news = node.news().len();
    assert!(&rt; news == 1);
    assert!(&rt; node.counts().offered == 1);
    let again = node.turn(&rt, Duration::ZERO);
    assert!(&rt; again == Err(TurnFault::NotKept(KeepFault::Device)));
    assert!(&rt; node.news().is_empty());
}

/// A node with a keeper of so many entries, to which a cast of member 2 has come, and that one's
/// inlet.
fn spoken_to<R: Wait + Abort>(
    rt: &R,
    alloc: Global,
    left: u64,
) -> (Node<ChannelInlet, ChannelOutlet, Short>, ChannelInlet) {
    let mut links = ChannelLink::group(alloc, 3).expect(rt, "memory");
    let (inlet, mut outlet) = links.pop().expect(rt, "a link");
    let _third = links.pop();
    let link = links.pop().expect(rt, "a link");
    let cast = member_at(rt, alloc, 2).cast(b"one").expect(rt, "a cast");
    outlet.send(rt, &for_all(cast.out)).expect(rt, "memory");
    let node = Node::new(alloc, member(rt, alloc), link, bounds(rt), Short { left });
    (node, inlet)
}

/// How many frames are there.
fn frames<R: Wait + Clock>(rt: &R, inlet: &mut ChannelInlet) -> u32 {
    let mut count = 0u32;
    for _frame in 0..100u32 {
        match inlet.receive(rt) {
            Ok(Received::Frame(_)) => count = count.saturating_add(1),
            _ => return count,
        }
    }
    count
}

/// Of a frame that comes the entry is not kept, and the next turn does nothing more.
#[test]
fn what_comes_and_is_not_kept_is_neither_sent_nor_shown(rt: HostRuntime) {
    let (mut node, mut inlet) = spoken_to(&rt, rt.alloc(), 0);
    let turned = node.turn(&rt, Duration::ZERO);
    let shown = node.news().len();
    let again = node.turn(&rt, Duration::ZERO);
    let shown_again = node.news().len();
    let sent = frames(&rt, &mut inlet);
    let counted = node.counts().offered;
    drop(node);
    drop(inlet);
    assert!(&rt; turned == Err(TurnFault::NotKept(KeepFault::Device)) && again == turned);
    assert!(&rt; shown == 0 && shown_again == 0);
    assert!(&rt; sent == 0 && counted == 0);
}

/// The entry of the frame is kept, and that of the first status is not.
#[test]
fn a_status_that_is_not_kept_is_not_sent(rt: HostRuntime) {
    let (mut node, mut inlet) = spoken_to(&rt, rt.alloc(), 1);
    let turned = node.turn(&rt, Duration::ZERO);
    let shown = node.news().len();
    let sent = frames(&rt, &mut inlet);
    let counted = node.counts().offered;
    drop(node);
    drop(inlet);
    assert!(&rt; turned == Err(TurnFault::NotKept(KeepFault::Device)));
    assert!(&rt; shown == 1 && sent == 0 && counted == 0);
}
