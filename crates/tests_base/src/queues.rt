//! Worked examples of three members: what is ready when, and which come out.
//!
//! A test is a line of calls, each of which makes what it needs and lets it go: values with a destructor that live on from assert to
//! assert take the prover many times as long.
ghost use Rattle.std.specs.Prelude.{◌≡◌, ◌+◌, ◌<◌, length, IfOk};
ghost use Rattle.cb_delay.specs.Message.{IsOfGroup};
ghost use Rattle.cb_delay.specs.Queue.{IsHeld, Holds};

use crate::asserts::{same, says};
use crate::times::time_of;
use bytes::Bytes;
use cb_delay::{DelayQueue, Message};
use cb_times::{Name, NoMemory, VectorTime};
use std::alloc::Global;
use std::process::Abort;
use std::test::*;

const QUESTION: Name = Name {
    sender: 0,
    number: 1,
};

const ANSWER: Name = Name {
    sender: 1,
    number: 1,
};

// Of this name, and with this many messages of member 0 delivered before.
fn message_of(rt: &impl Abort, alloc: Global, name: Name, of_0: u32) -> Message
    requires { name.sender < 3 }
    ensures name { result.name ≡ name }
    ensures group { IsOfGroup 3 result }
{
    let mut time = VectorTime::zero(alloc, 3).expect(rt, "memory");
    time.set(0, of_0);
    time.set(name.sender, name.number);
    Message {
        name,
        time,
        payload: Bytes::new(),
    }
}

fn queue_with(alloc: Global, message: Message) -> Result<DelayQueue, NoMemory>
    requires { IsOfGroup 3 message }
    ensures size { IfOk result (λ queue. queue.size ≡ 3) }
    ensures window { IfOk result (λ queue. queue.window ≡ 4) }
    ensures only { IfOk result (λ queue. (held : Message)
        → IsHeld queue held → held.name ≡ message.name) }
{
    let mut queue = DelayQueue::new(alloc, 3, 4)?;
    let _none = queue.len();
    queue.hold(message);
    Ok(queue)
}

fn hold_second(queue: &mut DelayQueue, first: Name, message: Message)
    requires group { IsOfGroup 3 message }
    requires size { queue.old.size ≡ 3 }
    requires window { queue.old.window ≡ 4 }
    requires only { (held : Message) → IsHeld queue.old held → held.name ≡ first }
    requires next { message.name.sender ≡ first.sender → message.name.number ≡ first.number + 1 }
    ensures { queue.new.size ≡ 3 }
{
    let _one = queue.len();
    queue.hold(message);
}

/// Where so much of each member is delivered, a message of this sender is ready, or none.
fn is_ready_at(
    rt: &impl Abort,
    alloc: Global,
    queue: &mut DelayQueue,
    now: [u32; 3],
    sender: Option<u32>,
)
    requires { queue.old.size ≡ 3 }
    ensures { Holds queue.old queue.new queue.old.held }
{
    let time = time_of(rt, alloc, &now);
    let ready = queue.next_ready(&time);
    drop(time);
    same(rt, (now, ready), (now, sender));
}

/// The message of this name comes out, or none.
fn releases(rt: &impl Abort, queue: &mut DelayQueue, sender: u32, name: Option<Name>)
    ensures { queue.new.size ≡ queue.old.size }
{
    let released = queue.release(sender).map(|message| message.name);
    same(rt, released, name);
}

/// The message of this name is the first held of its sender, or none is.
fn is_first(rt: &impl Abort, queue: &DelayQueue, sender: u32, name: Option<Name>) {
    let first = queue.first_of(sender).map(|message| message.name);
    same(rt, first, name);
}

/// Where so much of each member is delivered, the message of this name is the next one of member 1, or none that is held is.
fn is_next_of_1(
    rt: &impl Abort,
    alloc: Global,
    queue: &DelayQueue,
    now: [u32; 3],
    name: Option<Name>,
)
    requires { queue.now.size ≡ 3 }
{
    let time = time_of(rt, alloc, &now);
    let next = queue.next_of(1, &time).map(|message| message.name);
    drop(time);
    same(rt, (now, next), (now, name));
}

#[test]
fn an_answer_waits_for_its_question(rt: HostRuntime) {
    let alloc = rt.alloc();
    let answer = message_of(&rt, alloc, ANSWER, 1);
    let mut queue = queue_with(alloc, answer).expect(&rt, "memory");
    is_ready_at(&rt, alloc, &mut queue, [0, 0, 0], None);
    hold_second(&mut queue, ANSWER, message_of(&rt, alloc, QUESTION, 0));
    is_ready_at(&rt, alloc, &mut queue, [0, 0, 0], Some(0));
    the_answer_is_next(&rt, alloc, queue);
}

#[test]
fn what_comes_next_of_a_member_is_found_though_it_waits(rt: HostRuntime) {
    let alloc = rt.alloc();
    let answer = message_of(&rt, alloc, ANSWER, 1);
    let queue = queue_with(alloc, answer).expect(&rt, "memory");
    is_next_of_1(&rt, alloc, &queue, [0, 0, 0], Some(ANSWER));
    is_next_of_1(&rt, alloc, &queue, [1, 1, 0], None);
    drop(queue);
}

/// Once the question is released the answer is ready, and the only one left.
fn the_answer_is_next(rt: &impl Abort, alloc: Global, queue: DelayQueue)
    requires { queue.size ≡ 3 }
{
    let mut queue = queue;
    releases(rt, &mut queue, 0, Some(QUESTION));
    is_ready_at(rt, alloc, &mut queue, [1, 0, 0], Some(1));
    let (len, window) = (queue.len(), queue.window());
    drop(queue);
    same(rt, (len, window), (1, 4));
}

#[test]
fn of_two_that_are_ready_the_smaller_sender_comes_first(rt: HostRuntime) {
    let alloc = rt.alloc();
    let answer = message_of(&rt, alloc, ANSWER, 0);
    let mut queue = queue_with(alloc, answer).expect(&rt, "memory");
    hold_second(&mut queue, ANSWER, message_of(&rt, alloc, QUESTION, 0));
    is_ready_at(&rt, alloc, &mut queue, [0, 0, 0], Some(0));
    drop(queue);
}

#[test]
fn a_later_message_may_be_the_ready_one(rt: HostRuntime) {
    let alloc = rt.alloc();
    let second = Name {
        sender: 0,
        number: 2,
    };
    let question = message_of(&rt, alloc, QUESTION, 0);
    let mut queue = queue_with(alloc, question).expect(&rt, "memory");
    hold_second(&mut queue, QUESTION, message_of(&rt, alloc, second, 0));
    is_first(&rt, &queue, 0, Some(QUESTION));
    is_first(&rt, &queue, 2, None);
    is_first(&rt, &queue, 64, None);
    is_ready_at(&rt, alloc, &mut queue, [1, 0, 0], Some(0));
    is_ready_at(&rt, alloc, &mut queue, [5, 0, 0], None);
    releases(&rt, &mut queue, 0, Some(QUESTION));
    releases(&rt, &mut queue, 2, None);
    releases(&rt, &mut queue, 64, None);
    drop(queue);
}

#[test]
fn a_message_waits_for_the_one_before_it_of_its_sender(rt: HostRuntime) {
    let alloc = rt.alloc();
    let second = Name {
        sender: 2,
        number: 2,
    };
    let message = message_of(&rt, alloc, second, 0);
    let mut queue = queue_with(alloc, message).expect(&rt, "memory");
    is_ready_at(&rt, alloc, &mut queue, [0, 0, 0], None);
    is_ready_at(&rt, alloc, &mut queue, [0, 0, 1], Some(2));
    drop(queue);
}

#[test]
fn a_message_is_ready_once_all_before_it_is_delivered(rt: HostRuntime) {
    let answer = message_of(&rt, rt.alloc(), ANSWER, 1);
    for (now, is_ready) in [
        ([0, 0, 0], false),
        ([1, 0, 0], true),
        ([2, 0, 5], true),
        ([1, 1, 0], false),
        ([1, 2, 0], false),
        ([0, 0, 1], false),
    ] {
        may_be_delivered(&rt, rt.alloc(), &answer, now, is_ready);
    }
    drop(answer);
}

/// Of its sender, here the last member, it has to be the next message.
#[test]
fn a_later_message_is_not_ready_before_the_next_one(rt: HostRuntime) {
    let later = Name {
        sender: 2,
        number: 2,
    };
    let message = message_of(&rt, rt.alloc(), later, 0);
    for (now, is_ready) in [
        ([0, 0, 0], false),
        ([0, 0, 1], true),
        ([0, 7, 1], true),
        ([0, 0, 2], false),
    ] {
        may_be_delivered(&rt, rt.alloc(), &message, now, is_ready);
    }
    drop(message);
}

fn may_be_delivered(
    rt: &impl Abort,
    alloc: Global,
    message: &Message,
    now: [u32; 3],
    expected: bool,
)
    requires { IsOfGroup 3 message.now }
{
    let time = time_of(rt, alloc, &now);
    let is_ready = message.is_ready(&time);
    drop(time);
    same(rt, (now, is_ready), (now, expected));
}

#[test]
fn a_copy_has_the_same_time_and_payload(rt: HostRuntime) {
    let mut message = message_of(&rt, rt.alloc(), ANSWER, 1);
    message.payload = Bytes::from_static(b"yo");
    let copy = message.copy().expect(&rt, "memory");
    drop(message);
    is_the_answer(&rt, rt.alloc(), copy);
}

fn is_the_answer(rt: &impl Abort, alloc: Global, message: Message) {
    let Message {
        name,
        time,
        payload,
    } = message;
    same(rt, name, ANSWER);
    same(rt, payload.as_slice(), b"yo");
    drop(payload);
    let text = time.to_string(alloc);
    drop(time);
    says(rt, text, "[1,1,0]");
}
