//! The index of a delay queue: how often it looks, and that it answers as a queue that looks at all that it holds.
ghost use Rattle.std.specs.Prelude.{◌≡◌, ◌+◌, ◌<◌, ◌≤◌, ℕ, length, slice_index, true};
ghost use Rattle.std.specs.FinMap as map;
ghost use Rattle.cb_times.specs.Group.{IsGroupSize};
ghost use Rattle.cb_delay.specs.declared.message.Message.{Message};
ghost use Rattle.cb_delay.specs.Message.{IsOfGroup};
ghost use Rattle.cb_delay.specs.Queue.{IsHeld};
ghost use Rattle.tests_base.specs.Tracked.{IsTracked};

use crate::asserts::same;
use bytes::Bytes;
use cb_delay::{DelayQueue, Message};
use cb_times::{Name, VectorTime};
use std::alloc::Global;
use std::collections::VecDeque;
use std::process::Abort;
use std::test::*;

/// How many messages a queue may hold of one sender, and here in all.
const WINDOW: u32 = 12;

/// A queue and the number of the next message of each sender.
#[derive(Drop)]
struct Tracked {
    queue: DelayQueue,
    next: Vec<u32>,
}

impl Tracked {
    fn new(rt: &impl Abort, alloc: Global, size: u32) -> Tracked
        requires { IsGroupSize size }
        ensures tracked { IsTracked result.queue result.next.items }
        ensures size { result.queue.size ≡ size }
    {
        Tracked {
            queue: DelayQueue::new(alloc, size, WINDOW).expect(rt, "memory"),
            next: vec![in alloc; 1; size as usize].expect(rt, "memory"),
        }
    }

    fn has_room(&self, sender: u32) -> bool
        requires { sender < length self.now.next.items }
        ensures room { result ≡ true → map.len self.now.queue.held < 12 }
        ensures few { result ≡ true → slice_index self.now.next.items sender < 1000 }
    {
        self.queue.len() < 12 && self.next[sender as usize] < 1000
    }

    fn hold(&mut self, message: Message)
        requires tracked { IsTracked self.old.queue self.old.next.items }
        requires group { IsOfGroup self.old.queue.size message }
        requires next { message.name.number ≡ slice_index self.old.next.items message.name.sender }
        requires room { map.len self.old.queue.held < 12 }
        requires few { message.name.number < 1000 }
        ensures tracked { IsTracked self.new.queue self.new.next.items }
        ensures size { self.new.queue.size ≡ self.old.queue.size }
    {
        let Name { sender, number } = message.name;
        self.queue.hold(message);
        self.next[sender as usize] = number + 1;
    }

    fn release(&mut self, sender: u32)
        requires { IsTracked self.old.queue self.old.next.items }
        ensures tracked { IsTracked self.new.queue self.new.next.items }
        ensures size { self.new.queue.size ≡ self.old.queue.size }
    {
        let Some(message) = self.queue.release(sender) else {
            return;
        };
        drop(message);
    }

    fn hear_delivered(&mut self, sender: u32)
        requires tracked { IsTracked self.old.queue self.old.next.items }
        requires sender { sender < self.old.queue.size }
        ensures tracked { IsTracked self.new.queue self.new.next.items }
        ensures size { self.new.queue.size ≡ self.old.queue.size }
    {
        self.queue.hear_delivered(sender);
    }

    fn next_ready(&mut self, now: &VectorTime) -> Option<u32>
        requires tracked { IsTracked self.old.queue self.old.next.items }
        requires size { length now.now ≡ self.old.queue.size }
        ensures tracked { IsTracked self.new.queue self.new.next.items }
        ensures size { self.new.queue.size ≡ self.old.queue.size }
    {
        self.queue.next_ready(now)
    }

    fn leaves_waiting(&mut self, now: &VectorTime, sender: u32) -> bool
        requires tracked { IsTracked self.old.queue self.old.next.items }
        requires size { length now.now ≡ self.old.queue.size }
        requires sender { sender < self.old.queue.size }
        ensures tracked { IsTracked self.new.queue self.new.next.items }
        ensures size { self.new.queue.size ≡ self.old.queue.size }
    {
        self.queue.leaves_waiting(now, sender)
    }
}

/// The stamps of what is held, a list for each sender.
#[derive(Drop)]
struct Plain {
    lists: Vec<VecDeque<Vec<u32>>>,
}

impl Plain {
    fn new(rt: &impl Abort, alloc: Global, size: u32) -> Plain {
        let mut lists = Vec::new(alloc);
        for _ in 0..size {
            lists.push(VecDeque::new(alloc)).expect(rt, "memory");
        }
        Plain { lists }
    }

    fn hold(&mut self, rt: &impl Abort, sender: u32, stamp: Vec<u32>) {
        let Some(list) = self.lists.get_mut(sender as usize) else {
            drop(stamp);
            return;
        };
        list.push_back(stamp).expect(rt, "memory");
    }

    fn release(&mut self, sender: u32) {
        let Some(list) = self.lists.get_mut(sender as usize) else {
            return;
        };
        drop(list.pop_front());
    }

    /// The least sender of whom some stamp may be delivered, by a look at each.
    fn next_ready(&self, now: &[u32]) -> Option<u32> {
        for (sender, list) in self.lists.iter().enumerate() {
            if list.iter().any(|stamp| may_come(sender, stamp, now)) {
                return u32::try_from(sender).ok();
            }
        }
        None
    }
}

/// Whether a message of this stamp may be delivered at this time.
fn may_come(sender: usize, stamp: &[u32], now: &[u32]) -> bool {
    for (k, (stamp, count)) in stamp.iter().zip(now).enumerate() {
        let in_time = if k == sender {
            count.checked_add(1) == Some(*stamp)
        } else {
            stamp <= count
        };
        if !in_time {
            return false;
        }
    }
    true
}

/// Numbers from a fixed beginning, by xorshift.
#[derive(Clone, Copy)]
struct Numbers {
    state: u64,
}

impl Numbers {
    fn below(&mut self, bound: u32) -> u32
        requires { 0 < bound }
        ensures { result < bound }
    {
        self.state ^= self.state << 13;
        self.state ^= self.state >> 7;
        self.state ^= self.state << 17;
        (self.state % u64::from(bound)) as u32
    }

    /// A member of a group of this size, of those at this stride.
    fn member(&mut self, size: u32, stride: u32) -> u32
        requires size { 0 < size }
        requires stride { 0 < stride }
        ensures { result < size }
    {
        let member = self.below(size);
        member - member % stride
    }
}

fn time_at(rt: &impl Abort, alloc: Global, fields: &[u32]) -> VectorTime
    requires { IsGroupSize (length fields.now) }
    ensures { length result ≡ length fields.now }
{
    let mut time = VectorTime::zero(alloc, fields.len() as u32).expect(rt, "memory");
    for k in 0..fields.len() {
        time.set(k as u32, fields[k]);
    }
    time
}

fn message_of(rt: &impl Abort, alloc: Global, name: Name, stamp: &[u32]) -> Message
    requires size { IsGroupSize (length stamp.now) }
    requires sender { name.sender < length stamp.now }
    ensures name { result.name ≡ name }
    ensures group { IsOfGroup (length stamp.now) result }
{
    let mut time = time_at(rt, alloc, stamp);
    time.set(name.sender, name.number);
    Message {
        name,
        time,
        payload: Bytes::new(),
    }
}

/// A stamp with some fields up to 3.
fn stamp_of(
    rt: &impl Abort,
    alloc: Global,
    numbers: &mut Numbers,
    size: u32,
    stride: u32,
) -> Vec<u32>
    requires size { IsGroupSize size }
    requires stride { 0 < stride }
    ensures { length result.items ≡ size }
{
    let mut stamp = vec![in alloc; 0; size as usize].expect(rt, "memory");
    for _ in 0..numbers.below(4) {
        let k = numbers.member(size, stride);
        stamp[k as usize] = numbers.below(4);
    }
    stamp
}

/// Both queues, and the time at which they are asked.
#[derive(Drop)]
struct Pair {
    tracked: Tracked,
    plain: Plain,
    now: Vec<u32>,
}

impl Pair {
    fn new(rt: &impl Abort, alloc: Global, size: u32) -> Pair
        requires { IsGroupSize size }
        ensures tracked { IsTracked result.tracked.queue result.tracked.next.items }
        ensures queue { result.tracked.queue.size ≡ size }
        ensures now { length result.now.items ≡ size }
    {
        Pair {
            tracked: Tracked::new(rt, alloc, size),
            plain: Plain::new(rt, alloc, size),
            now: vec![in alloc; 0; size as usize].expect(rt, "memory"),
        }
    }

    /// The sender's next message comes to both, where there is room.
    fn hold(&mut self, rt: &impl Abort, alloc: Global, sender: u32, stamp: Vec<u32>)
        requires tracked { IsTracked self.old.tracked.queue self.old.tracked.next.items }
        requires size { length stamp.items ≡ self.old.tracked.queue.size }
        requires sender { sender < length stamp.items }
        ensures tracked { IsTracked self.new.tracked.queue self.new.tracked.next.items }
        ensures size { self.new.tracked.queue.size ≡ self.old.tracked.queue.size }
        ensures now { self.new.now.items ≡ self.old.now.items }
    {
        let mut stamp = stamp;
        if !self.tracked.has_room(sender) {
            drop(stamp);
            return;
        }
        let number = self.tracked.next[sender as usize];
        stamp[sender as usize] = number;
        let message = message_of(rt, alloc, Name { sender, number }, &stamp);
        self.tracked.hold(message);
        self.plain.hold(rt, sender, stamp);
    }

    /// The member's count grows by one, or falls by one.
    fn count(&mut self, member: u32, falls: bool)
        requires { member < length self.old.now.items }
        ensures now { length self.new.now.items ≡ length self.old.now.items }
        ensures tracked { self.new.tracked ≡ self.old.tracked }
    {
        let count = self.now[member as usize];
        self.now[member as usize] = if falls {
            count.saturating_sub(1)
        } else {
            count.saturating_add(1)
        };
    }

    fn agrees(&mut self, rt: &impl Abort, alloc: Global) -> bool
        requires tracked { IsTracked self.old.tracked.queue self.old.tracked.next.items }
        requires size { length self.old.now.items ≡ self.old.tracked.queue.size }
        ensures tracked { IsTracked self.new.tracked.queue self.new.tracked.next.items }
        ensures size { self.new.tracked.queue.size ≡ self.old.tracked.queue.size }
        ensures now { self.new.now.items ≡ self.old.now.items }
    {
        let time = time_at(rt, alloc, &self.now);
        let ready = self.tracked.next_ready(&time);
        drop(time);
        ready == self.plain.next_ready(&self.now)
    }

    /// Whether nothing may be delivered where the queue leaves all waiting, at once and after one more message of this sender.
    fn waits_rightly(&mut self, rt: &impl Abort, alloc: Global, sender: u32) -> bool
        requires tracked { IsTracked self.old.tracked.queue self.old.tracked.next.items }
        requires size { length self.old.now.items ≡ self.old.tracked.queue.size }
        requires sender { sender < length self.old.now.items }
        ensures tracked { IsTracked self.new.tracked.queue self.new.tracked.next.items }
        ensures size { self.new.tracked.queue.size ≡ self.old.tracked.queue.size }
        ensures now { length self.new.now.items ≡ length self.old.now.items }
    {
        let time = time_at(rt, alloc, &self.now);
        let waits = self.tracked.leaves_waiting(&time, sender);
        drop(time);
        let none_now = self.plain.next_ready(&self.now).is_none();
        self.count(sender, false);
        let none_next = self.plain.next_ready(&self.now).is_none();
        self.count(sender, true);
        !waits || none_now && none_next
    }

    /// One call of both queues, or a change of the time; then whether they answer alike.
    fn step(
        &mut self,
        rt: &impl Abort,
        alloc: Global,
        numbers: &mut Numbers,
        stride: u32,
        falls: bool,
    ) -> bool
        requires tracked { IsTracked self.old.tracked.queue self.old.tracked.next.items }
        requires size { length self.old.now.items ≡ self.old.tracked.queue.size }
        requires stride { 0 < stride }
        ensures tracked { IsTracked self.new.tracked.queue self.new.tracked.next.items }
        ensures size { length self.new.now.items ≡ self.new.tracked.queue.size }
    {
        let size = self.now.len() as u32;
        let member = numbers.member(size, stride);
        match numbers.below(8) {
            0..=3 => {
                let stamp = stamp_of(rt, alloc, numbers, size, stride);
                self.hold(rt, alloc, member, stamp);
            }
            4 => self.release(member),
            5 => self.count(member, falls),
            // it may also hear of what is not delivered
            6 => self.tracked.hear_delivered(member),
            _ => self.count(member, false),
        }
        self.agrees(rt, alloc)
    }

    fn release(&mut self, sender: u32)
        requires tracked { IsTracked self.old.tracked.queue self.old.tracked.next.items }
        ensures tracked { IsTracked self.new.tracked.queue self.new.tracked.next.items }
        ensures size { self.new.tracked.queue.size ≡ self.old.tracked.queue.size }
        ensures now { self.new.now.items ≡ self.old.now.items }
    {
        self.tracked.release(sender);
        self.plain.release(sender);
    }
}

/// One sequence of calls: whether both answered alike all along.
fn sequence(rt: &impl Abort, alloc: Global, numbers: &mut Numbers) -> bool {
    let most = 1 + numbers.below(63);
    let size = 2 + numbers.below(most);
    let stride = (size / (2 + numbers.below(5))).max(1);
    let falls = numbers.below(2) == 0;
    let mut pair = Pair::new(rt, alloc, size);
    let mut alike = true;
    for _ in 0..12 {
        let agrees = pair.step(rt, alloc, numbers, stride, falls);
        alike = alike && agrees;
    }
    let sender = numbers.below(pair.now.len() as u32);
    let waits_rightly = pair.waits_rightly(rt, alloc, sender);
    drop(pair);
    alike && waits_rightly
}

#[test]
fn index_equals_rescan(rt: HostRuntime) {
    let mut numbers = Numbers { state: 1 };
    let mut alike: u32 = 0;
    for _ in 0..10_000 {
        let agrees = sequence(&rt, rt.alloc(), &mut numbers);
        alike = alike.saturating_add(u32::from(agrees));
    }
    same(&rt, alike, 10_000);
}

/// What the queue answers at the time of 64 members with this in the first two fields, and how many looks it made by then.
fn asked(
    rt: &impl Abort,
    alloc: Global,
    queue: &mut DelayQueue,
    of_0: u32,
    of_1: u32,
) -> (Option<u32>, u64)
    requires { queue.old.size ≡ 64 }
    ensures { queue.new.size ≡ 64 }
{
    let mut time = VectorTime::zero(alloc, 64).expect(rt, "memory");
    time.set(0, of_0);
    time.set(1, of_1);
    let ready = queue.next_ready(&time);
    drop(time);
    (ready, queue.looked())
}

/// Whether the queue leaves all waiting at the time of 64 members with this in the first field, for a message of this sender.
fn left_waiting(
    rt: &impl Abort,
    alloc: Global,
    queue: &mut DelayQueue,
    of_0: u32,
    sender: u32,
) -> bool
    requires size { queue.old.size ≡ 64 }
    requires sender { sender < 64 }
    ensures { queue.new.size ≡ 64 }
{
    let mut time = VectorTime::zero(alloc, 64).expect(rt, "memory");
    time.set(0, of_0);
    let waits = queue.leaves_waiting(&time, sender);
    drop(time);
    waits
}

/// The sender's first message, which waits for so many of member 0.
fn waits_for_member_0(rt: &impl Abort, alloc: Global, sender: u32, count: u32) -> Message
    requires { sender < 64 }
    ensures sender { result.name.sender ≡ sender }
    ensures group { IsOfGroup 64 result }
{
    let mut time = VectorTime::zero(alloc, 64).expect(rt, "memory");
    time.set(0, count);
    time.set(sender, 1);
    Message {
        name: Name { sender, number: 1 },
        time,
        payload: Bytes::new(),
    }
}

/// Of each member from 2 on the first message waits for one of member 0.
fn all_wait_for_member_0(rt: &impl Abort, alloc: Global) -> DelayQueue
    ensures { result.size ≡ 64 }
{
    let mut queue = DelayQueue::new(alloc, 64, 1).expect(rt, "memory");
    for sender in 2..64 {
        hold_first(&mut queue, waits_for_member_0(rt, alloc, sender, 1));
    }
    queue
}

/// Of each member k from 1 on the first message waits for k messages of member 0.
fn each_waits_for_its_own_count(rt: &impl Abort, alloc: Global) -> DelayQueue
    ensures { result.size ≡ 64 }
{
    let mut queue = DelayQueue::new(alloc, 64, 1).expect(rt, "memory");
    for sender in 1..64 {
        hold_first(&mut queue, waits_for_member_0(rt, alloc, sender, sender));
    }
    queue
}

fn hold_first(queue: &mut DelayQueue, message: Message)
    requires group { IsOfGroup queue.old.size message }
    requires window { queue.old.window ≡ 1 }
    requires first { (held : Message) → IsHeld queue.old held → held.name.sender < message.name.sender }
    ensures size { queue.new.size ≡ queue.old.size }
    ensures window { queue.new.window ≡ 1 }
    ensures held { (held : Message) → IsHeld queue.new held → held.name.sender < message.name.sender + 1 }
{
    let _before = queue.len();
    queue.hold(message);
}

#[test]
fn a_queue_looks_at_those_alone_that_an_answer_may_have_changed(rt: HostRuntime) {
    let alloc = rt.alloc();
    let mut queue = all_wait_for_member_0(&rt, alloc);
    let first = asked(&rt, alloc, &mut queue, 0, 0);
    let again = asked(&rt, alloc, &mut queue, 0, 0);
    let other = asked(&rt, alloc, &mut queue, 0, 1);
    let grown = asked(&rt, alloc, &mut queue, 1, 1);
    drop(queue);
    for (found, expected) in [
        (first, (None, 62)),
        (again, (None, 62)),
        (other, (None, 62)),
        (grown, (Some(2), 124)),
    ] {
        same(&rt, found, expected);
    }
}

/// Whether the queue finds by one look that member k's message is ready once k of member 0 are delivered. It is delivered too.
fn finds_by_one_look(queue: &mut DelayQueue, now: &mut VectorTime, k: u32) -> bool
    requires queue { queue.old.size ≡ 64 }
    requires now { length now.old ≡ 64 }
    requires member { k < 64 }
    ensures queue { queue.new.size ≡ 64 }
    ensures now { length now.new ≡ 64 }
{
    let before = queue.looked();
    now.set(0, k);
    let ready = queue.next_ready(now);
    drop(queue.release(k));
    now.set(k, 1);
    ready == Some(k) && queue.looked().checked_sub(before) == Some(1)
}

/// Of how many members it does so, member 0's count growing by one each time.
fn found_by_one_look(rt: &impl Abort, alloc: Global, queue: &mut DelayQueue) -> u32
    requires { queue.old.size ≡ 64 }
{
    let mut now = VectorTime::zero(alloc, 64).expect(rt, "memory");
    let mut found: u32 = 0;
    for k in 1..64 {
        let is_so = finds_by_one_look(queue, &mut now, k);
        found = found.saturating_add(u32::from(is_so));
    }
    drop(now);
    found
}

#[test]
fn each_count_that_is_reached_costs_one_look(rt: HostRuntime) {
    let alloc = rt.alloc();
    let mut queue = each_waits_for_its_own_count(&rt, alloc);
    let first = asked(&rt, alloc, &mut queue, 0, 0);
    let found = found_by_one_look(&rt, alloc, &mut queue);
    drop(queue);
    same(&rt, first, (None, 63));
    same(&rt, found, 63);
}

#[test]
fn all_is_left_waiting_but_for_the_message_that_it_waits_for(rt: HostRuntime) {
    let alloc = rt.alloc();
    let mut queue = all_wait_for_member_0(&rt, alloc);
    let another = left_waiting(&rt, alloc, &mut queue, 0, 1);
    let waited_for = left_waiting(&rt, alloc, &mut queue, 0, 0);
    let held = left_waiting(&rt, alloc, &mut queue, 0, 2);
    let come = left_waiting(&rt, alloc, &mut queue, 1, 1);
    drop(queue);
    for (found, expected) in [
        (another, true),
        (waited_for, false),
        (held, false),
        (come, false),
    ] {
        same(&rt, found, expected);
    }
}
