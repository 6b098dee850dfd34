//! The casts and bursts received from others, until the delay queue has them.

ghost use Rattle.std.specs.Prelude.{◌≡◌, ◌<◌, ◌+◌, true, None, IfOk, IfSome, IfNone, OnOk, OnSome, length};
ghost use Rattle.std.specs.FinMap as fin;
ghost use Rattle.cb_times.specs.Group.{IsGroupSize, IsWindow};
ghost use Rattle.cb_diffs.specs.Expansion.{IsGrown, time_of};
ghost use Rattle.cb_diffs.specs.Expansion.{IsNext as IsNextCast};
ghost use Rattle.cb_gaps.specs.Buffer.{IsNext, Takes};
ghost use Rattle.cb_frames.specs.Fields.{burst_fields, cast_fields, unit_fields, first_number, last_number, messages_of};
ghost use Rattle.cb_frames.specs.Carrying.{IsNumberedCast};
ghost use Rattle.cb_member.specs.Reception.{IsNewReception, IsAlike, HasPlaceFor, spares_of};
ghost use Rattle.cb_member.specs.Singles.{KeepsSingles, times_in};
ghost use Rattle.cb_member.specs.Taking.{WouldExpand, CanKeep, KeepsCast, IsReceiving, ExpandsNext, HasNoNextOf, Tells};
ghost use Rattle.cb_member.specs.Passing.{IsInOrder, TakesAt, TakesBurst, TakesInOrder, message_at};

use crate::singles::{Spares, keep_singles};
use cb_delay::Message;
use cb_diffs::Expander;
use cb_frames::{Burst, Cast, Unit};
use cb_gaps::Reorder;
use cb_times::{Name, NoMemory, VectorTime};
use std::alloc::Global;

/// The singles of received casts and bursts that wait for those before them, and the times of those that don't.
#[derive(Drop)]
pub struct Reception {
    /// One for each member; the member's own stays empty.
    pub buffers: Vec<Reorder>,
    pub expander: Expander,
    /// For each member as many times as singles wait in its buffer, to write their messages' times over, so that expanding takes no memory.
    pub spares: Vec<Vec<VectorTime>>,
}

impl Reception {
    /// Nothing was received yet.
    pub fn new(alloc: Global, size: u32, window: u32) -> Result<Reception, NoMemory>
        requires group { IsGroupSize size }
        requires window { IsWindow window }
        ensures { IfOk result (IsNewReception size window) }
    {
        let mut buffers = Vec::with_capacity(alloc, size as usize)?;
        let mut spares = Vec::with_capacity(alloc, size as usize)?;
        for _ in 0..size {
            buffers.push(Reorder::new(alloc, window)?)?;
            spares.push(Vec::new(alloc))?;
        }
        Ok(Reception {
            buffers,
            expander: Expander::new(alloc, size)?,
            spares,
        })
    }

    /// How many more messages of the sender could be expanded, were this unit there as well.
    pub fn would_expand(&self, unit: &Unit) -> u32
        requires numbered { IsNumberedCast (unit_fields unit.now) }
        requires member { (unit_fields unit.now).sender < length self.now.buffers.items }
        ensures { WouldExpand (unit_fields unit.now).sender (first_number (unit_fields unit.now))
            (last_number (unit_fields unit.now)) self.now result }
    {
        self.buffers[unit.sender() as usize].ready_with(unit.first(), unit.last())
    }

    /// Makes room for this many more spares of this sender.
    pub fn reserve(&mut self, sender: u32, count: usize) -> Result<(), NoMemory>
        requires { sender < length self.old.spares.items }
        ensures same { IsAlike self.old self.new }
        ensures place { OnOk result (HasPlaceFor sender count self.new) }
    {
        self.spares[sender as usize].reserve(count)
    }

    /// Keeps the singles of a unit of another member until those before them are received, and what is made for them.
    pub fn keep(&mut self, delivered: u32, unit: Unit, spares: Spares)
        requires numbered { IsNumberedCast (unit_fields unit) }
        requires can_keep { CanKeep delivered (unit_fields unit) self.old }
        requires many { length (times_in spares) ≡ length (messages_of (unit_fields unit)) }
        requires place { HasPlaceFor (unit_fields unit).sender (length (times_in spares))
            self.old }
        ensures { KeepsCast (unit_fields unit) (times_in spares) self.old self.new }
    {
        let sender = unit.sender() as usize;
        spares.put_on(&mut self.spares[sender]);
        keep_singles(unit, &mut self.buffers[sender], delivered);
    }

    /// Whether the cast is its sender's next one, and none of the sender's waits behind it.
    pub fn is_in_order(&self, cast: &Cast) -> bool
        requires { cast.now.sender < length self.now.buffers.items }
        ensures { result ≡ true
            → IsInOrder cast.now.sender (first_number (cast_fields cast.now)) self.now }
    {
        self.buffers[cast.sender as usize].is_in_order(cast.number)
    }

    /// Whether the burst is its sender's next one, and none of the sender's waits behind it.
    pub fn is_next_burst(&self, burst: &Burst) -> bool
        requires { burst.now.sender < length self.now.buffers.items }
        ensures { result ≡ true
            → IsInOrder burst.now.sender (first_number (burst_fields burst.now)) self.now }
    {
        self.buffers[burst.sender as usize].is_in_order(burst.first)
    }

    /// The message of a cast of another member that carries just this one and comes in order, once its time was looked at. It is as if
    /// the cast were kept and taken out.
    #[inline(always)]
    pub fn take_in_order(&mut self, cast: Cast, time: VectorTime) -> Message
        requires { TakesAt (cast_fields cast) time self.old }
        ensures takes { TakesInOrder (cast_fields cast) self.old self.new result }
        ensures message { result ≡ message_at (cast_fields cast) time }
    {
        self.buffers[cast.sender as usize].take_in_order(cast.number);
        self.expander.take(&cast, &time);
        Message {
            name: name_of(&cast),
            time,
            payload: cast.payload,
        }
    }

    /// Takes a burst of another member that comes in order, up to its last number: it is as if its singles were kept and taken out.
    /// Its first message has this time.
    pub fn take_burst(&mut self, burst: &Burst, last: u32, time: &VectorTime)
        requires numbered { IsNumberedCast (burst_fields burst.now) }
        requires last { last ≡ last_number (burst_fields burst.now) }
        requires in_order { IsInOrder burst.now.sender (first_number (burst_fields burst.now))
            self.old }
        requires next { IsNextCast self.old.expander (burst_fields burst.now) }
        requires grown { IsGrown (time_of self.old.expander burst.now.sender)
            (burst_fields burst.now) time.now }
        ensures { TakesBurst (burst_fields burst.now) self.old self.new }
    {
        self.buffers[burst.sender as usize].take_in_order(last);
        self.expander.take_burst(burst, time);
    }

    /// The sender's next message, where its single is there and none is missing before it.
    pub fn expand_next(&mut self, sender: u32) -> Option<Message>
        requires { IsReceiving sender self.old }
        ensures some { IfSome result (λ message. ExpandsNext sender self.old self.new message) }
        ensures none { IfNone result (HasNoNextOf sender self.old self.new) }
        ensures fewer { OnSome result (spares_of sender self.new + 1 ≡ spares_of sender self.old) }
    {
        let cast = take_single(&mut self.buffers[sender as usize])?;
        let Some(spare) = self.spares[sender as usize].pop() else {
            unreachable!("there is one for each single that waits")
        };
        Some(expanded(&mut self.expander, cast, spare))
    }
}

/// The next of the singles that wait in a buffer, where none is missing before it.
pub fn take_single(buffer: &mut Reorder) -> Option<Cast>
    requires { KeepsSingles buffer.old }
    ensures next { IfSome result (λ cast. IsNext buffer.old (cast_fields cast)) }
    ensures taken { IfSome result (λ cast. Takes buffer.old (cast_fields cast) buffer.new) }
    ensures none { IfNone result (fin.get buffer.old.kept (buffer.old.taken + 1) ≡ None) }
    ensures same { IfNone result (buffer.new ≡ buffer.old) }
{
    match buffer.take_next()? {
        Unit::One(cast) => Some(cast),
        Unit::Many(_) => unreachable!("each that is kept carries one message"),
    }
}

/// The message of the sender's next single, whose time is written over the spare.
fn expanded(expander: &mut Expander, cast: Cast, mut spare: VectorTime) -> Message
    requires next { IsNextCast expander.old (cast_fields cast) }
    requires size { length spare ≡ length expander.old }
    ensures { Tells (cast_fields cast) expander.old expander.new result }
{
    let name = name_of(&cast);
    let Ok(()) = expander.expand_into(&cast, &mut spare) else {
        unreachable!("it is the next one")
    };
    Message {
        name,
        time: spare,
        payload: cast.payload,
    }
}

/// The name of its first message.
#[tactic(auto, using(cb_frames::proofs::Carried::first_is_number))]
pub fn name_of(cast: &Cast) -> Name
    ensures { result ≡ record {
      sender = cast.now.sender;
      number = first_number (cast_fields cast.now);
    } }
{
    Name {
        sender: cast.sender,
        number: cast.number,
    }
}
