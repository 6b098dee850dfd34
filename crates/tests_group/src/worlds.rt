//! A group in which nothing has happened.

use cb_member::Group;
use cb_world::{PlayFault, World};
use std::process::Abort;

fn group(rt: &impl Abort) -> Group {
    Group::new(7, 3, 4).expect(rt, "the numbers are those of a group")
}

#[test]
fn a_limit_is_1_to_16777216(rt: HostRuntime) {
    const ROWS: &[(usize, Option<PlayFault>)] = &[
        (0, Some(PlayFault::BadLimit)),
        (1, None),
        (16_777_216, None),
        (16_777_217, Some(PlayFault::BadLimit)),
    ];
    let group = group(&rt);
    for (limit, fault) in ROWS {
        assert_eq!(rt; World::new(rt.alloc(), group, *limit).err(), *fault);
    }
}

#[test]
fn a_new_group_has_its_members_and_nothing_else(rt: HostRuntime) {
    let world = World::new(rt.alloc(), group(&rt), 100).expect(&rt, "a group");
    assert_eq!(rt; world.member(2).map(|member| member.seat().me()), Some(2));
    assert!(rt; world.member(3).is_none());
    assert_eq!(rt; world.events(0).map(|events| events.len()), Some(0));
    assert_eq!(rt; world.history(3).map(|entries| entries.len()), None);
    assert!(rt; world.frames().is_empty());
    assert!(rt; world.outcomes().is_empty());
}
