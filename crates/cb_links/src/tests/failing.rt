//! Links of which one call fails.

ghost use Rattle.std.specs.Prelude.{◌≡◌};

use crate::{ChannelLink, FailInlet, FailOutlet, Inlet, LinkFault, Outlet, Received, Unsent};
use bytes::Bytes;
use cb_history::Outgoing;
use std::alloc::Global;
use std::process::Abort;
use std::sync::Wait;
use std::test::*;
use std::time::Clock;

/// A link that counts its calls, and of which this one fails.
#[derive(Drop)]
struct Counted {
    calls: u64,
    at: u64,
    failures: u64,
}

impl Counted {
    fn failing_at(at: u64) -> Counted {
        Counted {
            calls: 0,
            at,
            failures: 0,
        }
    }
}

impl Inlet for Counted {
    ghost failed = { λ c. c.failures };

    fn failures(&self) -> u64 {
        self.failures
    }

    fn receive<R: Wait + Clock>(&mut self, _rt: &R) -> Result<Received, LinkFault> {
        self.calls = self.calls.saturating_add(1);
        if self.calls == self.at {
            self.failures = self.failures.saturating_add(1);
            return Err(LinkFault::Device);
        }
        Ok(Received::Nothing)
    }
}

/// At which of five calls the inlet fails, and how many failures it has counted then.
fn failed<R: Wait + Clock>(rt: &R, inlet: &mut FailInlet<Counted>) -> ([bool; 5], u64) {
    let mut failed = [false; 5];
    for answer in &mut failed {
        *answer = inlet.receive(rt) == Err(LinkFault::Device);
    }
    (failed, inlet.failures())
}

/// The third call of the inlet in it is the fourth of all, since the second does not come to it.
#[test]
fn an_inlet_fails_at_its_call_and_where_the_one_in_it_does(rt: HostRuntime) {
    let mut both = FailInlet::new(Counted::failing_at(3), 2);
    let found = failed(&rt, &mut both);
    drop(both);
    assert_eq!(&rt; found, ([false, true, false, true, false], 2));
    let mut first = FailInlet::new(Counted::failing_at(0), 1);
    let found = failed(&rt, &mut first);
    drop(first);
    assert_eq!(&rt; found, ([true, false, false, false, false], 1));
    let mut none = FailInlet::new(Counted::failing_at(0), 0);
    let found = failed(&rt, &mut none);
    drop(none);
    assert_eq!(&rt; found, ([false; 5], 0));
}

/// Three frames to all.
fn frames(rt: &impl Abort, alloc: Global) -> Vec<Outgoing> {
    let mut frames = Vec::new(alloc);
    for text in [b"one", b"two", b"six"] {
        let bytes = Bytes::from_static(text);
        frames
            .push(Outgoing { to: None, bytes })
            .expect(rt, "memory");
    }
    frames
}

/// Of three frames to all, this one is lost, and no other.
fn loses<R: Wait + Clock + Abort>(rt: &R, alloc: Global, at: u64, came: &[&'static str]) {
    let mut links = ChannelLink::group(alloc, 3).expect(rt, "links");
    let (mut inlet, unused) = links.pop().expect(rt, "a link");
    let (unread, outlet) = links.pop().expect(rt, "a link");
    let mut outlet = FailOutlet::new(outlet, at);
    let unsent = outlet.send_all(rt, &frames(rt, alloc));
    let failures = outlet.failures();
    for text in came {
        let frame = Received::Frame(Bytes::from_static(text.as_bytes()));
        assert!(rt; inlet.receive(rt) == Ok(frame), "a frame has come");
    }
    assert!(rt; inlet.receive(rt) == Ok(Received::Nothing));
    drop(unread);
    drop(unused);
    drop(links);
    let lost = u64::from(at > 0);
    assert_eq!(rt; (unsent, failures), (unsent_of(lost), lost));
}

fn unsent_of(lost: u64) -> Unsent {
    Unsent {
        offered: 3,
        failures: lost,
        refused: 0,
    }
}

#[test]
fn an_outlet_loses_the_frame_of_its_call_alone(rt: HostRuntime) {
    loses(&rt, rt.alloc(), 0, &["one", "two", "six"]);
    loses(&rt, rt.alloc(), 1, &["two", "six"]);
    loses(&rt, rt.alloc(), 2, &["one", "six"]);
    loses(&rt, rt.alloc(), 3, &["one", "two"]);
}

/// An inlet that was closed takes no more frames.
#[test]
fn an_inlet_that_may_fail_is_closed_as_the_one_in_it(rt: HostRuntime) {
    let mut links = ChannelLink::group(rt.alloc(), 2).expect(&rt, "links");
    let (inlet, unused) = links.pop().expect(&rt, "a link");
    let (unread, mut outlet) = links.pop().expect(&rt, "a link");
    let mut inlet = FailInlet::new(inlet, 0);
    inlet.close();
    let unsent = outlet.send_all(&rt, &frames(&rt, rt.alloc()));
    drop(inlet);
    drop(unread);
    drop(unused);
    assert_eq!(&rt; unsent, unsent_of(3));
}
