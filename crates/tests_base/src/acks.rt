//! Worked examples: how far the casts of a sender are stable.
//!
//! What is asserted is taken first: acknowledgements that live from assert to assert take the prover many times as long.

use crate::asserts::same;
use cb_stability::Acks;
use cb_times::VectorTime;
use std::process::Abort;
use std::test::*;

fn are(rt: &impl Abort, found: &[u32], expected: &[u32]) {
    same(rt, found, expected);
}

#[test]
fn a_cast_is_stable_once_every_other_member_has_delivered_it(rt: HostRuntime) {
    let mut acks = Acks::new(rt.alloc(), 3).expect(&rt, "memory");
    let at_first = acks.stable(0);
    acks.learn(1, 0, 2);
    let behind_one = acks.stable(0);
    acks.learn(2, 0, 1);
    let behind_both = acks.stable(0);
    drop(acks);
    are(&rt, &[at_first, behind_one, behind_both], &[0, 0, 1]);
}

#[test]
fn what_was_learnt_is_of_one_member_and_one_sender(rt: HostRuntime) {
    let mut acks = Acks::new(rt.alloc(), 3).expect(&rt, "memory");
    acks.learn(1, 0, 2);
    acks.learn(2, 1, 7);
    let reported = [acks.learnt(1, 0), acks.learnt(2, 1)];
    let others = [acks.learnt(0, 1), acks.learnt(1, 2), acks.learnt(2, 0)];
    drop(acks);
    are(&rt, &reported, &[2, 7]);
    are(&rt, &others, &[0, 0, 0]);
}

#[test]
fn a_late_report_and_what_the_sender_itself_says_change_nothing(rt: HostRuntime) {
    let mut acks = Acks::new(rt.alloc(), 3).expect(&rt, "memory");
    acks.learn(1, 0, 2);
    acks.learn(2, 0, 1);
    acks.learn(2, 0, 0);
    let behind_a_late_report = [acks.stable(0), acks.learnt(2, 0)];
    acks.learn(0, 0, 9);
    let stable = [acks.stable(0), acks.stable(1), acks.stable(2)];
    drop(acks);
    are(&rt, &behind_a_late_report, &[1, 1]);
    are(&rt, &stable, &[1, 0, 0]);
}

#[test]
fn what_is_stable_rises_with_the_last_who_stood_at_the_least(rt: HostRuntime) {
    let mut acks = Acks::new(rt.alloc(), 4).expect(&rt, "memory");
    acks.learn(1, 0, 1);
    acks.learn(2, 0, 1);
    acks.learn(3, 0, 1);
    let all_at_it = acks.stable(0);
    acks.learn(1, 0, 2);
    acks.learn(1, 0, 3);
    acks.learn(2, 0, 2);
    let one_at_it = acks.stable(0);
    acks.learn(3, 0, 5);
    let none_left = acks.stable(0);
    acks.learn(2, 0, 9);
    let stable = [all_at_it, one_at_it, none_left, acks.stable(0)];
    drop(acks);
    are(&rt, &stable, &[1, 1, 2, 3]);
}

#[test]
fn a_time_tells_of_each_sender_as_if_it_were_learnt_alone(rt: HostRuntime) {
    let mut acks = Acks::new(rt.alloc(), 3).expect(&rt, "memory");
    let mut time = VectorTime::zero(rt.alloc(), 3).expect(&rt, "memory");
    acks.learn(1, 0, 2);
    acks.learn(2, 0, 1);
    acks.learn(2, 1, 4);
    time.set(0, 3);
    time.set(1, 3);
    time.set(2, 7);
    acks.learn_time(2, &time);
    let learnt = [acks.learnt(2, 0), acks.learnt(2, 1), acks.learnt(2, 2)];
    let others = [acks.learnt(0, 1), acks.learnt(1, 0), acks.learnt(1, 2)];
    let stable = [acks.stable(0), acks.stable(1), acks.stable(2)];
    acks.learn_time(0, &time);
    acks.learn_time(1, &time);
    let behind_all = [acks.stable(0), acks.stable(1), acks.stable(2)];
    drop(time);
    drop(acks);
    are(&rt, &learnt, &[3, 4, 7]);
    are(&rt, &others, &[0, 2, 0]);
    are(&rt, &stable, &[2, 0, 0]);
    are(&rt, &behind_all, &[3, 3, 7]);
}

#[test]
fn what_is_stable_of_a_sender_is_the_same_where_it_is_watched(rt: HostRuntime) {
    let mut acks = Acks::new(rt.alloc(), 3).expect(&rt, "memory");
    acks.learn(0, 1, 4);
    acks.learn(2, 1, 6);
    let before = [acks.stable(0), acks.stable(1)];
    acks.watch(1);
    let watched = [acks.stable(0), acks.stable(1), acks.learnt(2, 1)];
    acks.learn(1, 0, 2);
    acks.learn(2, 0, 3);
    acks.learn(0, 1, 7);
    let later = [acks.stable(0), acks.stable(1)];
    drop(acks);
    are(&rt, &before, &[0, 4]);
    are(&rt, &watched, &[0, 4, 6]);
    are(&rt, &later, &[2, 6]);
}

#[test]
fn a_copy_goes_on_alike_and_what_one_learns_the_other_does_not(rt: HostRuntime) {
    let mut acks = Acks::new(rt.alloc(), 3).expect(&rt, "memory");
    acks.learn(1, 0, 2);
    acks.learn(2, 0, 1);
    let mut copy = acks.copy().expect(&rt, "memory");
    let copied = [copy.stable(0), copy.learnt(1, 0), copy.learnt(2, 0)];
    copy.learn(2, 0, 5);
    let behind_the_copy = [copy.stable(0), acks.stable(0), acks.learnt(2, 0)];
    acks.learn(1, 0, 4);
    acks.learn(2, 0, 3);
    let behind_both = [acks.stable(0), copy.stable(0), copy.learnt(1, 0)];
    drop(acks);
    drop(copy);
    are(&rt, &copied, &[1, 2, 1]);
    are(&rt, &behind_the_copy, &[2, 1, 1]);
    are(&rt, &behind_both, &[3, 2, 2]);
}

#[test]
fn in_the_largest_group_the_last_member_counts_too(rt: HostRuntime) {
    let mut acks = Acks::new(rt.alloc(), 64).expect(&rt, "memory");
    acks.watch(5);
    for member in 0..63 {
        acks.learn(member, 5, 4294967295);
    }
    let without_it = acks.stable(5);
    acks.learn(63, 5, 7);
    let with_it = acks.stable(5);
    acks.learn(63, 5, 4294967295);
    let at_the_greatest = acks.stable(5);
    drop(acks);
    are(
        &rt,
        &[without_it, with_it, at_the_greatest],
        &[0, 7, 4294967295],
    );
}
