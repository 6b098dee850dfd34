//! Worked examples, on both machines at once.

ghost use Rattle.std.specs.Prelude.{◌≡◌, ◌<◌, length};
ghost use Rattle.cb_times.specs.Group.{IsGroupSize};

use bytes::Bytes;
use cb_causality::{CastFault, CausalEvent, CausalGroup, StampedGroup};
use cb_delay::Event;
use cb_times::{Name, NoMemory};
use std::alloc::Global;
use std::process::Abort;
use std::test::Fail;

/// The member casts the text in both groups, and both give it the same name.
fn cast(
    rt: &impl Abort,
    causal: &mut CausalGroup,
    stamped: &mut StampedGroup,
    member: usize,
    text: &'static [u8],
) -> Result<Name, CastFault>
    requires causal { member < length causal.old }
    requires stamped { member < length stamped.old }
    ensures causal { length causal.new ≡ length causal.old }
    ensures stamped { length stamped.new ≡ length stamped.old }
{
    let name = causal.cast(member, Bytes::from_static(text))?;
    let same = stamped.cast(member, Bytes::from_static(text))?;
    assert_eq!(rt; name, same);
    Ok(name)
}

/// The member delivers the message where it may, and both groups agree on whether it may.
fn deliver(
    rt: &impl Abort,
    causal: &mut CausalGroup,
    stamped: &mut StampedGroup,
    receiver: usize,
    name: Name,
) -> Result<bool, NoMemory>
    requires causal { receiver < length causal.old }
    requires stamped { receiver < length stamped.old }
    ensures causal { length causal.new ≡ length causal.old }
    ensures stamped { length stamped.new ≡ length stamped.old }
{
    let may = causal.may_deliver(receiver, name);
    let same = stamped.may_deliver(receiver, name);
    let done = (
        causal.deliver(receiver, name)?,
        stamped.deliver(receiver, name)?,
    );
    assert_eq!(rt; (same, done), (may, (may, may)));
    Ok(may)
}

/// A message as it is expected: its name, its time and its text.
#[derive(Clone, Copy)]
struct Expected {
    name: Name,
    time: &'static [u32],
    text: &'static [u8],
}

/// A step of both groups, and what it gives.
#[derive(Clone, Copy)]
enum Move {
    /// The message's sender casts it.
    Cast(Expected),
    /// The member delivers the message.
    Deliver(usize, Expected),
    /// The member may not deliver the message.
    Waits(usize, Expected),
}

/// The message of this name that is expected.
fn message(sender: u32, number: u32, time: &'static [u32], text: &'static [u8]) -> Expected {
    Expected {
        name: Name { sender, number },
        time,
        text,
    }
}

/// Whether the last event of the member is this, in the causal machine.
fn ends_causally(group: &CausalGroup, member: usize, is_cast: bool, expected: Expected) -> bool
    requires { member < length group.now }
{
    match group.events(member).last() {
        Some(event) => {
            event.is_cast() == is_cast
                && event.is_cast_of(expected.name) == is_cast
                && event.name() == expected.name
                && event.payload().as_slice() == expected.text
        }
        None => false,
    }
}

/// Whether it is this in the stamped machine.
fn ends_stamped(group: &StampedGroup, member: usize, is_cast: bool, expected: Expected) -> bool
    requires { member < length group.now }
{
    let Some(event) = group.events(member).last() else {
        return false;
    };
    let (casts, message) = match event {
        Event::Cast(message) => (true, message),
        Event::Deliver(message) => (false, message),
    };
    casts == is_cast
        && message.name == expected.name
        && message.time.as_slice() == expected.time
        && message.payload.as_slice() == expected.text
}

/// Whether it is this in both machines.
fn end(
    causal: &CausalGroup,
    stamped: &StampedGroup,
    member: usize,
    is_cast: bool,
    expected: Expected,
) -> bool {
    member < causal.size()
        && member < stamped.size()
        && ends_causally(causal, member, is_cast, expected)
        && ends_stamped(stamped, member, is_cast, expected)
}

/// Makes one move in both groups.
fn make(
    rt: &impl Abort,
    causal: &mut CausalGroup,
    stamped: &mut StampedGroup,
    step: &Move,
) -> Result<(), CastFault> {
    match step {
        Move::Cast(expected) => {
            let member = expected.name.sender as usize;
            assert!(rt; member < causal.size() && member < stamped.size());
            let got = cast(rt, causal, stamped, member, expected.text)?;
            assert_eq!(rt; got, expected.name);
            assert!(rt; end(causal, stamped, member, true, *expected), "{got}");
        }
        Move::Deliver(receiver, expected) => {
            assert!(rt; *receiver < causal.size() && *receiver < stamped.size());
            let name = expected.name;
            let done = deliver(rt, causal, stamped, *receiver, name)?;
            let is_it = done && end(causal, stamped, *receiver, false, *expected);
            assert!(rt; is_it, "{name} at {receiver}");
        }
        Move::Waits(receiver, expected) => {
            assert!(rt; *receiver < causal.size() && *receiver < stamped.size());
            let name = expected.name;
            let done = deliver(rt, causal, stamped, *receiver, name)?;
            assert!(rt; !done, "{name} at {receiver}");
        }
    }
    Ok(())
}

/// Makes the moves in two new groups of this size.
fn make_all(rt: &impl Abort, alloc: Global, size: usize, moves: &[Move]) -> Result<(), CastFault>
    requires { IsGroupSize size }
{
    let mut causal = CausalGroup::new(alloc, size)?;
    let mut stamped = StampedGroup::new(alloc, size)?;
    assert_eq!(rt; (causal.size(), stamped.size()), (size, size));
    for step in moves {
        make(rt, &mut causal, &mut stamped, step)?;
    }
    Ok(())
}

#[test]
fn two_answers_overtake_their_question(rt: HostRuntime) -> Result<(), Fail> {
    let question = message(0, 1, &[1, 0, 0], b"hi");
    let first = message(1, 1, &[1, 1, 0], b"yo");
    let second = message(1, 2, &[1, 2, 0], b"ok");
    let moves = [
        Move::Cast(question),
        Move::Deliver(1, question),
        Move::Cast(first),
        Move::Cast(second),
        // Both answers come to member 2 before the question, the second one first.
        Move::Waits(2, second),
        Move::Waits(2, first),
        Move::Deliver(2, question),
        Move::Waits(2, second),
        Move::Deliver(2, first),
        Move::Deliver(2, second),
        // Nothing is delivered twice, to its own sender, or without a cast.
        Move::Waits(2, question),
        Move::Waits(0, question),
        Move::Waits(0, message(2, 1, &[], b"")),
        Move::Waits(0, message(3, 1, &[], b"")),
        Move::Cast(message(2, 1, &[1, 2, 1], b"so")),
    ];
    make_all(&rt, rt.alloc(), 3, &moves)?;
    Ok(())
}

#[test]
fn four_members_cast_at_once(rt: HostRuntime) -> Result<(), Fail> {
    // Two casts of which neither happened before the other, two more that each happened after both, and one after all.
    let a = message(0, 1, &[1, 0, 0, 0], b"a");
    let b = message(1, 1, &[0, 1, 0, 0], b"b");
    let c = message(2, 1, &[1, 1, 1, 0], b"c");
    let d = message(0, 2, &[2, 1, 0, 0], b"d");
    let e = message(3, 1, &[2, 1, 1, 1], b"e");
    let moves = [
        Move::Cast(a),
        Move::Cast(b),
        Move::Deliver(2, b),
        Move::Deliver(2, a),
        Move::Cast(c),
        Move::Deliver(0, b),
        Move::Cast(d),
        Move::Waits(3, c),
        Move::Deliver(3, a),
        Move::Waits(3, c),
        Move::Waits(3, d),
        Move::Deliver(3, b),
        Move::Deliver(3, d),
        Move::Deliver(3, c),
        Move::Cast(e),
        Move::Deliver(1, a),
        Move::Waits(1, e),
        Move::Deliver(0, c),
        Move::Deliver(0, e),
    ];
    make_all(&rt, rt.alloc(), 4, &moves)?;
    Ok(())
}

#[test]
fn a_fault_prints_its_name(rt: HostRuntime) {
    prints(&rt, rt.alloc(), CastFault::Full, "Full");
    prints(&rt, rt.alloc(), CastFault::NoMemory, "NoMemory");
}

fn prints(rt: &impl Abort, alloc: Global, fault: CastFault, name: &str) {
    match fault.to_string(alloc) {
        Ok(text) => assert_eq!(rt; text.as_str(), name),
        Err(_) => panic!(rt; "out of memory"),
    }
}
