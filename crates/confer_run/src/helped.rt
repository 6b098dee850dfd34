//! A conference of which one link never brings anything.

ghost use Rattle.std.specs.Prelude.{◌≡◌, length};

use crate::running::{RunText, run_over};
use crate::setting::{LinkKind, RunSetting};
use cb_member::Outgoing;
use cb_threads::{ChannelInlet, ChannelLink, ChannelOutlet, LinkFault, Outlet};
use confer_fakes::is_report;
use std::alloc::{AllocError, Global};
use std::process::Abort;
use std::sync::Wait;
use std::test::*;

/// An outlet of which frames come to one member alone, where one is named.
#[derive(Drop)]
struct Narrow<O> {
    inner: O,
    only: Option<u32>,
}

impl<O: Outlet> Outlet for Narrow<O> {
    ghost failed = { λ narrow. O.failed narrow.inner };

    fn failures(&self) -> u64 {
        self.inner.failures()
    }

    fn send<R: Wait>(&mut self, rt: &R, out: &Outgoing) -> Result<(), LinkFault> {
        match rest(self.only, out)? {
            Some(rest) => self.inner.send(rt, &rest),
            None => Ok(()),
        }
    }
}

/// What is left of a frame that comes to this member alone.
fn rest(only: Option<u32>, out: &Outgoing) -> Result<Option<Outgoing>, AllocError> {
    let to = match (only, out.to) {
        (Some(only), Some(to)) if to != only => return Ok(None),
        (Some(only), _) => Some(only),
        (None, to) => to,
    };
    let bytes = out.bytes.clone()?;
    Ok(Some(Outgoing { to, bytes }))
}

type Link = (ChannelInlet, Narrow<ChannelOutlet>);

/// Links of three members. Of those of member 0 only that to member 1 brings frames.
fn links(rt: &impl Abort, alloc: Global) -> Vec<Link>
    ensures { length result.items ≡ 3 }
{
    let mut links = ChannelLink::group(alloc, 3).expect(rt, "links");
    let third = link(rt, &mut links, None);
    let second = link(rt, &mut links, None);
    let first = link(rt, &mut links, Some(1));
    drop(links);
    vec![in alloc; first, second, third].expect(rt, "memory")
}

fn link(
    rt: &impl Abort,
    links: &mut Vec<(ChannelInlet, ChannelOutlet)>,
    only: Option<u32>,
) -> Link {
    let (inlet, inner) = links.pop().expect(rt, "a link");
    (inlet, Narrow { inner, only })
}

/// Member 1 hands member 2 the questions that never come, and the audit finds nothing wrong with it.
#[test]
fn a_third_member_hands_on_what_a_link_never_brings(rt: HostRuntime) {
    let setting = RunSetting {
        size: 3,
        window: 4,
        questions: 2,
        turns: 20_000,
        link: LinkKind::Channel,
        trace: false,
    };
    let alloc = rt.alloc();
    let links = links(&rt, alloc);
    let Ok(RunText { refused, text }) = run_over(&rt, alloc, setting, links) else {
        panic!(&rt; "the conference ran");
    };
    let text = String::from_utf8(text).expect(&rt, "a text");
    let is_said = is_report(alloc, &text, 3, "casts 2 deliveries 4");
    drop(text);
    assert!(&rt; is_said && !refused);
}
