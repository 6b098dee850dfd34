//! Vector times and their order, names of messages, and room in lists.

ghost use Rattle.std.specs.Prelude.{◌≡◌, length};

use crate::asserts::{holds_at, same, says};
use cb_times::{Name, TimeOrder, VectorTime, make_room};
use std::alloc::Global;
use std::process::Abort;
use std::test::*;

/// A time of three members.
pub fn time_of(rt: &impl Abort, alloc: Global, fields: &[u32; 3]) -> VectorTime
    ensures { length result ≡ 3 }
{
    let mut time = VectorTime::zero(alloc, 3).expect(rt, "memory");
    time.set(0, fields[0]);
    time.set(1, fields[1]);
    time.set(2, fields[2]);
    time
}

/// The first time stands so to the second.
fn compares(
    rt: &impl Abort,
    alloc: Global,
    fields: &[u32; 3],
    others: &[u32; 3],
    order: TimeOrder,
) {
    let time = time_of(rt, alloc, fields);
    let other = time_of(rt, alloc, others);
    let found = time.compare(&other);
    drop(time);
    drop(other);
    same(rt, (fields, others, found), (fields, others, order));
}

#[test]
fn first_messages_are_concurrent_and_an_answer_comes_after(rt: HostRuntime) {
    const OF_0: &[u32; 3] = &[1, 0, 0];
    const OF_1: &[u32; 3] = &[0, 1, 0];
    const ANSWER: &[u32; 3] = &[1, 1, 0];
    compares(&rt, rt.alloc(), OF_0, OF_1, TimeOrder::Concurrent);
    compares(&rt, rt.alloc(), OF_0, ANSWER, TimeOrder::Before);
    compares(&rt, rt.alloc(), ANSWER, OF_0, TimeOrder::After);
    compares(&rt, rt.alloc(), OF_0, OF_0, TimeOrder::Same);
}

#[test]
fn a_copy_is_the_same_time(rt: HostRuntime) {
    let time = time_of(&rt, rt.alloc(), &[1, 0, 0]);
    let copy = time.copy().expect(&rt, "memory");
    let order = time.compare(&copy);
    drop(time);
    drop(copy);
    same(&rt, order, TimeOrder::Same);
}

/// These are the fields of the time.
fn has_fields(rt: &impl Abort, time: VectorTime, fields: &[u32]) {
    same(rt, time.as_slice(), fields);
    drop(time);
}

#[test]
fn a_sender_counts_its_own_and_a_receiver_raises(rt: HostRuntime) {
    let mut sender = VectorTime::zero(rt.alloc(), 3).expect(&rt, "memory");
    sender.add_one(0);
    sender.set(1, 7);
    sender.add_one(1);
    sender.set(2, 4294967295);
    let mut receiver = time_of(&rt, rt.alloc(), &[0, 9, 5]);
    receiver.raise(&sender);
    has_fields(&rt, sender, &[1, 8, 4294967295]);
    has_fields(&rt, receiver, &[1, 9, 4294967295]);
}

#[test]
fn a_time_is_copied_over_another(rt: HostRuntime) {
    let time = time_of(&rt, rt.alloc(), &[1, 8, 4294967295]);
    let mut other = time_of(&rt, rt.alloc(), &[2, 9, 0]);
    other.copy_from(&time);
    drop(time);
    has_fields(&rt, other, &[1, 8, 4294967295]);
}

#[test]
fn a_time_of_nine_fields_is_copied_counted_and_raised(rt: HostRuntime) {
    let mut time = VectorTime::zero(rt.alloc(), 9).expect(&rt, "memory");
    time.set(0, 5);
    let mut other = time.copy().expect(&rt, "memory");
    other.add_one(8);
    let before = time.compare(&other);
    let copy = time.copy().expect(&rt, "memory");
    time.raise(&other);
    let raised = time.compare(&other);
    has_fields(&rt, copy, &[5, 0, 0, 0, 0, 0, 0, 0, 0]);
    has_fields(&rt, other, &[5, 0, 0, 0, 0, 0, 0, 0, 1]);
    has_fields(&rt, time, &[5, 0, 0, 0, 0, 0, 0, 0, 1]);
    same(&rt, (before, raised), (TimeOrder::Before, TimeOrder::Same));
}

#[test]
fn each_field_is_read(rt: HostRuntime) {
    let time = time_of(&rt, rt.alloc(), &[1, 8, 4294967295]);
    let (size, fields) = (time.size(), [time.get(0), time.get(1), time.get(2)]);
    drop(time);
    same(&rt, (size, fields), (3, [1, 8, 4294967295]));
}

#[test]
fn a_time_prints_its_fields(rt: HostRuntime) {
    let time = time_of(&rt, rt.alloc(), &[203, 0, 4294967295]);
    let text = time.to_string(rt.alloc());
    drop(time);
    says(&rt, text, "[203,0,4294967295]");
}

#[test]
fn a_time_of_64_fields_prints_them_all(rt: HostRuntime) {
    let mut time = VectorTime::zero(rt.alloc(), 64).expect(&rt, "memory");
    time.set(63, 4294967295);
    let text = time.to_string(rt.alloc()).expect(&rt, "memory");
    drop(time);
    holds_at(&rt, has_64_fields(&text), &text.as_str());
    drop(text);
}

fn has_64_fields(text: &str) -> bool {
    text.starts_with("[0,0,") && text.ends_with(",0,4294967295]") && text.len() == 2 + 63 + 63 + 10
}

#[test]
fn a_name_prints_its_sender_and_its_number(rt: HostRuntime) {
    let name = Name {
        sender: 63,
        number: 4294967295,
    };
    says(&rt, name.to_string(rt.alloc()), "63.4294967295");
}

#[test]
fn a_full_list_grows_to_four_times_its_length(rt: HostRuntime) {
    let list = Vec::from_slice(rt.alloc(), &[1, 2, 3, 4, 5, 6, 7, 8]).expect(&rt, "memory");
    let (first, list) = with_room(&rt, list, 1);
    let (second, list) = with_room(&rt, list, 24);
    let (third, list) = with_room(&rt, list, 100);
    drop(list);
    let has_room = first >= 32 && second == first && third >= 108;
    holds_at(&rt, has_room, &(first, second, third));
}

/// The list with room for so many more, and for how many it has room then. Its items stay.
fn with_room(rt: &impl Abort, list: Vec<u32>, more: usize) -> (usize, Vec<u32>) {
    let mut list = list;
    make_room(&mut list, more).expect(rt, "memory");
    same(rt, list.as_slice(), &[1, 2, 3, 4, 5, 6, 7, 8]);
    (list.capacity(), list)
}
