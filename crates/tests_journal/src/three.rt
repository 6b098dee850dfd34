//! Three nodes over channels, by turns.

use crate::fakes::{Lossy, SetClock, Timed};
use cb_journal::NoJournal;
use cb_links::{ChannelInlet, ChannelLink, ChannelOutlet};
use cb_member::{Group, Member};
use cb_node::{Bounds, Node, TurnFault};
use std::alloc::Global;
use std::process::Abort;
use std::sync::Wait;
use std::time::{Clock, Duration};

type LossyNode = Node<ChannelInlet, Lossy<ChannelOutlet>, NoJournal>;

/// Three nodes that lose each frame of which the number is a multiple of `each`; with 0 none.
fn three(rt: &impl Abort, alloc: Global, each: u64, history_max: usize) -> Vec<LossyNode> {
    let group = Group::new(7, 3, 4).expect(rt, "a group");
    let bounds = Bounds::new(Duration::from_millis(10), Duration::from_secs(1)).expect(
        rt, "bounds",
    );
    let mut nodes = Vec::new(alloc);
    let mut me = 0u32;
    for (inlet, inner) in ChannelLink::group(alloc, 3).expect(rt, "memory") {
        let member = Member::new(alloc, group, me, history_max).expect(rt, "a member");
        let sent = me as u64;
        let link = (inlet, Lossy { inner, each, sent });
        let node = Node::new(alloc, member, link, bounds, NoJournal);
        nodes.push(node).expect(rt, "memory");
        me = me.wrapping_add(1);
    }
    nodes
}

/// So many rounds of turns, five milliseconds each; each casts until it has cast so many. How many
/// events were handed out.
fn rounds<R: Wait + Clock + Abort>(
    rt: &R,
    nodes: &mut Vec<LossyNode>,
    rounds: u32,
    casts: u32,
) -> u64 {
    let clock = SetClock::new();
    let timed = Timed { rt, clock: &clock };
    let mut shown = 0u64;
    for _round in 0..rounds {
        for node in nodes.as_mut_slice() {
            shown = shown.saturating_add(one_turn(&timed, node, casts));
        }
        clock.pass(Duration::from_millis(5));
    }
    shown
}

fn one_turn<R: Wait + Clock>(rt: &R, node: &mut LossyNode, casts: u32) -> u64 {
    let me = node.member().seat().me() as usize;
    let own = match node.member().time().as_slice().get(me) {
        Some(own) => *own,
        None => casts,
    };
    if own < casts {
        let _answer = node.cast(b"hello");
    }
    let _answer = node.turn(rt, Duration::ZERO);
    node.news().len() as u64
}

/// Whether each has delivered so many of each.
fn all_have(nodes: &[LossyNode], casts: u32) -> bool {
    nodes.iter().all(|node| node
        .member()
        .time()
        .as_slice()
        .iter()
        .all(|count| *count == casts))
}

#[test]
fn what_each_casts_all_are_shown(rt: HostRuntime) {
    let mut nodes = three(&rt, rt.alloc(), 0, 1_000);
    let shown = rounds(&rt, &mut nodes, 60, 20);
    assert!(&rt; all_have(&nodes, 20));
    assert!(&rt; shown == 180);
}

#[test]
fn what_is_lost_comes_again(rt: HostRuntime) {
    let mut nodes = three(&rt, rt.alloc(), 3, 1_000);
    let shown = rounds(&rt, &mut nodes, 400, 20);
    assert!(&rt; all_have(&nodes, 20));
    assert!(&rt; shown == 180);
}

/// Member 2 is gone, and never acknowledges what the others cast. Their statuses are soon no news to
/// each other: in the fourth and the fifth second each ticks twice.
#[test]
fn beside_a_dead_member_the_others_tick_slowly(rt: HostRuntime) {
    let mut nodes = three(&rt, rt.alloc(), 0, 1_000);
    let _dead = nodes.pop();
    let clock = SetClock::new();
    let timed = Timed {
        rt: &rt,
        clock: &clock,
    };
    let mut by_then = 0u64;
    for round in 0..100u32 {
        if round == 60 {
            by_then = ticks_of(&nodes);
        }
        for node in nodes.as_mut_slice() {
            let _shown = one_turn(&timed, node, 4);
        }
        clock.pass(Duration::from_millis(50));
    }
    assert!(&rt; ticks_of(&nodes).wrapping_sub(by_then) == 4);
}

/// How many ticks they made together.
fn ticks_of(nodes: &[LossyNode]) -> u64 {
    let mut sum = 0u64;
    for node in nodes {
        sum = sum.wrapping_add(node.ticks());
    }
    sum
}

#[test]
fn a_full_history_is_said_and_what_was_delivered_is_shown(rt: HostRuntime) {
    let mut nodes = three(&rt, rt.alloc(), 0, 3);
    let clock = SetClock::new();
    let timed = Timed {
        rt: &rt,
        clock: &clock,
    };
    let mut full = 0u32;
    for _round in 0..20u32 {
        for node in nodes.as_mut_slice() {
            let _answer = node.cast(b"hello");
            if node.turn(&timed, Duration::ZERO) == Err(TurnFault::HistoryFull) {
                full = full.saturating_add(1);
            }
        }
        clock.pass(Duration::from_millis(5));
    }
    assert!(&rt; full > 0);
    let entries = nodes.iter().all(|node| node.member().history().len() == 3);
    assert!(&rt; entries);
    assert!(&rt; nodes.iter().any(|node| node.refused().history_full > 0));
}
