//! The loop of a program round its node, as the guide shows it.

use crate::fakes::{SetClock, Silent, Timed};
use cb_journal::NoJournal;
use cb_links::{ChannelLink, ChannelOutlet};
use cb_member::{Event, Group, Member};
use cb_node::{Bounds, Node, TurnFault};
use std::sync::Wait;
use std::time::{Clock, Duration};

type QuietNode = Node<Silent, ChannelOutlet, NoJournal>;

// GUIDE: begin
/// Says these lines, one in each turn, and shows what is said.
fn talk<R: Wait + Clock>(rt: &R, node: &mut QuietNode, lines: &[&[u8]], turns: u32) -> u32 {
    let mut said = 0usize;
    let mut shown = 0u32;
    for _turn in 0..turns {
        if let Some(line) = lines.get(said) {
            if node.cast(line).is_ok() {
                said = said.saturating_add(1); // else it waits until the window has room
            }
        }
        if node.turn(rt, Duration::from_millis(50)) == Err(TurnFault::HistoryFull) {
            break; // begin anew under another group number
        }
        for event in node.news() {
            shown = shown.saturating_add(show(event));
        }
    }
    shown
}
// GUIDE: end

fn show(event: &Event) -> u32 {
    match event {
        Event::Cast(message) | Event::Deliver(message) => message.name.number,
    }
}

/// Its window is two, and nobody acknowledges: the third line waits.
#[test]
fn what_is_said_is_shown_once(rt: HostRuntime) {
    let alloc = rt.alloc();
    let group = Group::new(7, 3, 2).expect(&rt, "a group");
    let member = Member::new(alloc, group, 0, 100).expect(&rt, "a member");
    let bounds = Bounds::new(Duration::from_millis(10), Duration::from_secs(1)).expect(
        &rt, "bounds",
    );
    let mut links = ChannelLink::group(alloc, 3).expect(&rt, "memory");
    let outlet = links.pop().expect(&rt, "a link").1;
    let mut node = Node::new(alloc, member, (Silent, outlet), bounds, NoJournal);
    let clock = SetClock::new();
    let timed = Timed {
        rt: &rt,
        clock: &clock,
    };
    let lines: [&[u8]; 3] = [b"one", b"two", b"three"];
    let shown = talk(&timed, &mut node, &lines, 10);
    drop(links);
    assert!(&rt; shown == 3);
}
