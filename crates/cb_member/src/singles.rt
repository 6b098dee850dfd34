//! A received unit as its singles, casts that carry its messages one by one, and the spares for their times.
//!
//! The member judges a unit as a whole and keeps its singles. That of a cast is the cast itself.

ghost use Rattle.std.specs.Prelude.{◌≡◌, ◌+◌, ◌<◌, ◌≤◌, ◌++◌, ◌∷◌, [], All, IfOk, IfSome, IfNone, length};
ghost use Rattle.std.specs.Vec.{vec_capacity, vec_len};
ghost use Rattle.cb_times.specs.Group.{IsGroupSize};
ghost use Rattle.cb_frames.specs.declared.frame.TheConstants.{LAST_NUMBER};
ghost use Rattle.cb_frames.specs.Fields.{One, IsSome, burst_fields, cast_fields, unit_fields};
ghost use Rattle.cb_history.specs.BufferLaws.{AreKept};
ghost use Rattle.cb_history.specs.Singles.{IsSingle, singles_of};
ghost use Rattle.cb_member.specs.Singles.{AreSparesFor, CanKeepInTurn, HaveNumbers, left_in, times_in};

use bytes::Bytes;
use cb_frames::{Burst, Cast, Unit};
use cb_gaps::Reorder;
use cb_times::{NoMemory, VectorTime};
use std::alloc::Global;
use std::vec::IntoIter;

/// The singles of a burst, in the order of their numbers. They share its bytes, and take no memory.
#[derive(Drop)]
pub struct Singles {
    /// The first of those that are left, which alone may change a field.
    next: Option<Cast>,
    /// The payloads of the others.
    others: IntoIter<Bytes>,
}

/// Times to write over, one for each message of a unit. The first is no part of a list, which a cast thus does not have.
#[derive(Drop)]
pub struct Spares {
    first: VectorTime,
    others: Vec<VectorTime>,
}

/// The cast of a unit that carries one message.
pub fn only_cast(unit: Unit) -> Cast
    requires { IsSingle (unit_fields unit) }
    ensures { cast_fields result ≡ unit_fields unit }
{
    match unit {
        Unit::One(cast) => cast,
        Unit::Many(_) => unreachable!("it carries one message"),
    }
}

/// The burst of a unit that carries several messages.
pub fn only_burst(unit: Unit) -> Burst
    requires { ¬ IsSingle (unit_fields unit) }
    ensures { burst_fields result ≡ unit_fields unit }
{
    match unit {
        Unit::Many(burst) => burst,
        Unit::One(_) => unreachable!("it carries several messages"),
    }
}

impl Singles {
    fn of_burst(burst: Burst) -> Singles
        ensures { left_in result ≡ singles_of (burst_fields burst) }
    {
        let Burst {
            group,
            sender,
            first,
            changes,
            payloads,
        } = burst;
        let mut others = payloads.into_iter();
        let next = match others.next() {
            Some(payload) => Some(Cast {
                group,
                sender,
                number: first,
                changes,
                payload,
            }),
            None => None,
        };
        Singles { next, others }
    }

    fn next(&mut self) -> Option<Cast>
        requires { HaveNumbers self.old }
        ensures some { IfSome result (λ single.
            left_in self.old ≡ cast_fields single ∷ left_in self.new) }
        ensures none { IfNone result (left_in self.old ≡ []) }
    {
        let single = self.next.take()?;
        if let Some(payload) = self.others.next() {
            self.next = Some(single_behind(&single, payload));
        }
        Some(single)
    }

    fn keep_in(self, buffer: &mut Reorder, delivered: u32)
        requires { CanKeepInTurn delivered (left_in self) buffer.old }
        ensures { AreKept buffer.old (left_in self) buffer.new }
    {
        let mut left = self;
        'singles: while let Some(single) = left.next() {
            let _kept = buffer.keep(delivered, Unit::One(single));
        }
    }
}

/// Keeps the singles of a unit in their sender's buffer. That many of the sender's messages are delivered.
pub fn keep_singles(unit: Unit, buffer: &mut Reorder, delivered: u32)
    requires { CanKeepInTurn delivered (singles_of (unit_fields unit)) buffer.old }
    ensures { AreKept buffer.old (singles_of (unit_fields unit)) buffer.new }
{
    match unit {
        Unit::One(_) => {
            let _kept = buffer.keep(delivered, unit);
        }
        Unit::Many(burst) => Singles::of_burst(burst).keep_in(buffer, delivered),
    }
}

/// The single of this payload behind that one. Only the first of a burst changes a field.
fn single_behind(single: &Cast, payload: Bytes) -> Cast
    requires { single.now.number < LAST_NUMBER }
    ensures { cast_fields result ≡ record {
      group = single.now.group;
      sender = single.now.sender;
      number = single.now.number + 1;
      changes = [];
      load = One payload;
    } }
{
    Cast {
        group: single.group,
        sender: single.sender,
        number: single.number + 1,
        changes: Vec::new(*single.changes.allocator()),
        payload,
    }
}

impl Spares {
    /// For a unit in a group of this size.
    pub fn for_cast(alloc: Global, size: u32, unit: &Unit) -> Result<Spares, NoMemory>
        requires group { IsGroupSize size }
        requires some { IsSome (unit_fields unit.now).load }
        ensures { IfOk result (λ spares. AreSparesFor (unit_fields unit.now) size
            (times_in spares)) }
    {
        let first = VectorTime::zero(alloc, size)?;
        let mut others = Vec::new(alloc);
        for _ in 1..unit.count() {
            others.push(VectorTime::zero(alloc, size)?)?;
        }
        Ok(Spares { first, others })
    }

    /// How many they are.
    pub fn len(&self) -> usize
        ensures { result ≡ length (times_in self.now) }
    {
        1 + self.others.len()
    }

    /// Puts them on the stack, which has room for them.
    pub fn put_on(self, stack: &mut Vec<VectorTime>)
        requires { vec_len stack.old + length (times_in self) ≤ vec_capacity stack.old }
        ensures { stack.new.items ≡ stack.old.items ++ times_in self }
    {
        let Spares { first, mut others } = self;
        stack.push_reserved(first);
        let Ok(()) = stack.append(&mut others) else {
            unreachable!("there is room")
        };
    }
}
