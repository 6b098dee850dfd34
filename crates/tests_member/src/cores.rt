//! What a member that keeps no history tells beforehand: whether it casts, and whether a tick has news.

use cb_member::{BurstRefusal, CastRefusal, CoreMember, Event, Group};
use std::alloc::Global;
use std::process::Abort;

/// A core of three members with a window of 2, and the events that it was given.
#[derive(Drop)]
struct Caster {
    core: CoreMember,
    events: Vec<Event>,
}

fn new_caster(rt: &impl Abort, alloc: Global) -> Caster {
    let group = Group::new(7, 3, 2).expect(rt, "the numbers are those of a group");
    Caster {
        core: CoreMember::new(alloc, group, 0).expect(rt, "a core"),
        events: Vec::new(alloc),
    }
}

#[test]
fn a_core_says_beforehand_whether_it_casts(rt: HostRuntime) {
    const ROWS: &[(&[u8], Option<CastRefusal>)] = &[
        (&[0; 1025], Some(CastRefusal::PayloadTooLong)),
        (&[0; 1024], None),
        (&[], None),
        (&[], Some(CastRefusal::WindowFull)),
        (&[0; 1025], Some(CastRefusal::PayloadTooLong)),
    ];
    let mut caster = new_caster(&rt, rt.alloc());
    for (payload, refusal) in ROWS {
        assert_eq!(rt; caster.core.may_cast(payload).err(), *refusal);
        let cast = caster.core.cast(payload, &mut caster.events);
        assert_eq!(rt; cast.err(), *refusal);
    }
}

/// A payload without bytes, and many of them.
const NONE: &[u8] = b"";

const THIRTY_THREE: &[&[u8]] = &[NONE; 33];

#[test]
fn a_core_says_beforehand_whether_it_casts_a_burst(rt: HostRuntime) {
    const ROWS: &[(&[&[u8]], Option<BurstRefusal>)] = &[
        (&[], Some(BurstRefusal::EmptyBurst)),
        (THIRTY_THREE, Some(BurstRefusal::BurstTooLong)),
        (&[&[0; 1000], &[0; 25]], Some(BurstRefusal::PayloadTooLong)),
        (&[NONE; 3], Some(BurstRefusal::WindowFull)),
        (&[NONE; 2], None),
        (&[NONE], Some(BurstRefusal::WindowFull)),
    ];
    let mut caster = new_caster(&rt, rt.alloc());
    for (payloads, refusal) in ROWS {
        assert_eq!(rt; caster.core.may_cast_burst(payloads).err(), *refusal);
        let burst = caster.core.cast_burst(payloads, &mut caster.events);
        assert_eq!(rt; burst.err(), *refusal);
    }
}

#[test]
fn a_core_has_news_until_it_tells_them(rt: HostRuntime) {
    let mut caster = new_caster(&rt, rt.alloc());
    for is_new in [true, false, false] {
        assert_eq!(rt; caster.core.has_news(), is_new);
        let ticked = caster.core.tick().expect(&rt, "a tick");
        assert_eq!(rt; ticked.entered, is_new);
    }
    let cast = caster.core.cast(b"no", &mut caster.events);
    assert!(rt; cast.is_ok());
    assert!(rt; caster.core.has_news());
}
