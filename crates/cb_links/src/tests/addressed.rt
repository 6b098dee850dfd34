//! Over UDP a frame comes to whom it is to, and to nobody else.

ghost use Rattle.std.specs.Prelude.{◌≡◌};

use crate::{Inlet, Outlet, Received, UdpInlet, UdpLink, UdpOutlet};
use bytes::Bytes;
use cb_history::Outgoing;
use std::process::Abort;
use std::sync::Wait;
use std::test::*;
use std::time::Clock;

/// To all, and to each of two members.
const FRAMES: [(Option<u32>, &str); 3] = [(None, "all"), (Some(1), "one"), (Some(2), "two")];

fn sends<R: Wait + Abort>(rt: &R, outlet: &mut UdpOutlet) {
    for (to, text) in FRAMES {
        let bytes = Bytes::from_static(text.as_bytes());
        assert!(rt; outlet.send(rt, &Outgoing { to, bytes }).is_ok());
    }
}

/// The next frame within a hundred looks.
fn next<R: Wait + Clock>(rt: &R, inlet: &mut UdpInlet) -> Option<Bytes> {
    for _look in 0..100u32 {
        if let Ok(Received::Frame(frame)) = inlet.receive(rt) {
            return Some(frame);
        }
    }
    None
}

/// These frames have come, in this order, and no other.
fn came<R: Wait + Clock + Abort>(rt: &R, inlet: &mut UdpInlet, expected: &[&'static str]) {
    for text in expected {
        let frame = Bytes::from_static(text.as_bytes());
        assert!(rt; next(rt, inlet) == Some(frame), "a frame has come");
    }
    assert!(rt;
        inlet.receive(rt) == Ok(Received::Nothing),
        "no more has come"
    );
}

#[test]
fn over_udp_each_frame_goes_to_whom_it_is_to(rt: HostRuntime) {
    let mut links = UdpLink::group(&rt, rt.alloc(), 3).expect(&rt, "links");
    let (mut of_2, last) = links.pop().expect(&rt, "a link");
    let (mut of_1, second) = links.pop().expect(&rt, "a link");
    let (mut of_0, mut first) = links.pop().expect(&rt, "a link");
    sends(&rt, &mut first);
    came(&rt, &mut of_1, &["all", "one"]);
    came(&rt, &mut of_2, &["all", "two"]);
    came(&rt, &mut of_0, &[]);
    drop(last);
    drop(second);
}
