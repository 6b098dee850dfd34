//! Casts that were read, and the messages that they carry.

ghost use Rattle.std.specs.Prelude.{◌≡◌, ◌≤◌, ◌+◌, IfOk, filter, length, map, nat_le, nat_lt};
ghost use Rattle.cb_frames.specs.declared.frame.TheConstants.{LAST_NUMBER};
ghost use Rattle.cb_frames.specs.Carrying.{IsNumbered, IsNumberedCast};
ghost use Rattle.cb_frames.specs.Fields.{CastFrame, first_number, last_number, messages_of, numbered, unit_fields};
ghost use Rattle.cb_frames.specs.Text.{text_of};
ghost use Rattle.cb_history.specs.Facts.{messages_in};
ghost use Rattle.cb_reference.specs.Messages.{cast_of, carried_of};

use bytes::Bytes;
use cb_frames::{Change, Unit};
use cb_times::NoMemory;
use std::alloc::Global;
use std::marker::Model;

/// A message that a cast carries.
#[derive(Clone, Copy, Drop)]
pub struct Message<'a> {
    pub sender: u32,
    pub number: u32,
    pub payload: &'a Bytes,
}

/// A cast of one message or of several, and the bytes that it was read from. It carries some message, and each has a number.
#[derive(Drop)]
pub struct CastRead {
    unit: Unit,
    frame: Bytes,
}

impl Model for CastRead {
    ghost use Rattle.cb_frames.specs.Fields.{CastFields, unit_fields};
    ghost use Rattle.cb_reference.specs.Casts.{IsCastRead};

    ghost Value = { CastFields };

    ghost view = { λ c. unit_fields c.unit };

    ghost invariant = { λ c. IsCastRead c.unit c.frame };
}

impl CastRead {
    /// The cast that the unit is, which was read from this frame.
    pub fn of(unit: Unit, frame: Bytes) -> CastRead
        requires numbered { IsNumbered unit }
        requires text { frame ≡ text_of (CastFrame (unit_fields unit)) }
        ensures { result ≡ unit_fields unit }
    {
        CastRead { unit, frame }
    }

    /// The number of the group.
    pub fn group(&self) -> u32
        ensures { result ≡ self.now.group }
    {
        self.unit.group()
    }

    /// Who casts.
    pub fn sender(&self) -> u32
        ensures { result ≡ self.now.sender }
    {
        self.unit.sender()
    }

    /// The number of its first message.
    pub fn first(&self) -> u32
        ensures { result ≡ first_number self.now }
    {
        self.unit.first()
    }

    /// The number of its last message.
    pub fn last(&self) -> u32
        ensures { result ≡ last_number self.now }
    {
        self.unit.last()
    }

    /// By how much the other fields of the sender's time have grown before its first message.
    pub fn changes(&self) -> &[Change]
        ensures { result.now ≡ self.now.changes }
    {
        self.unit.changes()
    }

    /// Its messages, in the order of their numbers.
    #[tactic(auto, unfolding(cb_frames::specs::Fields::messages_of))]
    pub fn messages(&self, alloc: Global) -> Result<Vec<Message<'_>>, NoMemory>
        ensures { IfOk result (λ messages. map carried_of messages.items ≡ messages_of self.now) }
    {
        match &self.unit {
            Unit::One(cast) => {
                let mut messages = Vec::new(alloc);
                messages.push(Message {
                    sender: cast.sender,
                    number: cast.number,
                    payload: &cast.payload,
                })?;
                Ok(messages)
            }
            Unit::Many(burst) => numbered(alloc, burst.sender, burst.first, &burst.payloads),
        }
    }

    /// Its frame, byte for byte.
    pub fn frame(&self) -> Result<Bytes, NoMemory>
        ensures { IfOk result (λ bytes. bytes ≡ text_of (CastFrame self.now)) }
    {
        self.frame.clone()
    }
}

/// The payloads as messages of the sender, numbered from the first number on.
fn numbered(
    alloc: Global,
    sender: u32,
    first: u32,
    payloads: &[Bytes],
) -> Result<Vec<Message<'_>>, NoMemory>
    requires { first + length payloads.now ≤ LAST_NUMBER + 1 }
    ensures { IfOk result (λ messages. map carried_of messages.items
        ≡ numbered sender first payloads.now) }
{
    let mut messages = Vec::new(alloc);
    let mut next = u64::from(first);
    for payload in payloads {
        messages.push(Message {
            sender,
            number: next as u32,
            payload,
        })?;
        next += 1;
    }
    Ok(messages)
}

/// Casts, and all messages that they carry.
#[derive(Drop)]
pub struct Casts<'a> {
    frames: Vec<&'a CastRead>,
    messages: Vec<Message<'a>>,
}

impl<'a> Model for Casts<'a> {
    ghost use Rattle.std.specs.Prelude.{◌≡◌, List, map};
    ghost use Rattle.cb_frames.specs.Fields.{CastFields};
    ghost use Rattle.cb_history.specs.Facts.{messages_in};
    ghost use Rattle.cb_reference.specs.Messages.{cast_of, carried_of};

    ghost Value = { List CastFields };

    ghost view = { λ c. map cast_of c.frames.items };

    ghost invariant = { λ c. map carried_of c.messages.items
        ≡ messages_in (map cast_of c.frames.items) };
}

impl<'a> Casts<'a> {
    /// These casts.
    pub fn of(alloc: Global, casts: &[&'a CastRead]) -> Result<Casts<'a>, NoMemory>
        ensures { IfOk result (λ all. all ≡ map cast_of casts.now) }
    {
        Ok(Casts {
            frames: Vec::from_slice(alloc, casts)?,
            messages: messages_in(alloc, casts)?,
        })
    }

    /// One after another.
    pub fn frames(&self) -> &[&'a CastRead]
        ensures { map cast_of result.now ≡ self.now }
    {
        self.frames.as_slice()
    }

    /// The messages of all.
    pub fn messages(&self) -> &[Message<'a>]
        ensures { map carried_of result.now ≡ messages_in self.now }
    {
        self.messages.as_slice()
    }
}

/// The messages of all casts.
fn messages_in<'a>(alloc: Global, casts: &[&'a CastRead]) -> Result<Vec<Message<'a>>, NoMemory>
    ensures { IfOk result (λ messages. map carried_of messages.items
        ≡ messages_in (map cast_of casts.now)) }
{
    let mut messages = Vec::new(alloc);
    for cast in casts {
        messages.extend_from_slice(&cast.messages(alloc)?)?;
    }
    Ok(messages)
}

/// The casts whose last message is none after number n.
pub fn ending_upto<'a>(
    alloc: Global,
    casts: &[&'a CastRead],
    n: u32,
) -> Result<Vec<&'a CastRead>, NoMemory>
    ensures { IfOk result (λ ending. map cast_of ending.items
        ≡ filter (λ c. nat_le (last_number c) n) (map cast_of casts.now)) }
{
    let mut ending = Vec::new(alloc);
    for cast in casts {
        if cast.last() <= n {
            ending.push(*cast)?;
        }
    }
    Ok(ending)
}

/// The casts whose last message is one after number n.
pub fn ending_above<'a>(
    alloc: Global,
    casts: &[&'a CastRead],
    n: u32,
) -> Result<Vec<&'a CastRead>, NoMemory>
    ensures { IfOk result (λ ending. map cast_of ending.items
        ≡ filter (λ c. nat_lt n (last_number c)) (map cast_of casts.now)) }
{
    let mut ending = Vec::new(alloc);
    for cast in casts {
        if n < cast.last() {
            ending.push(*cast)?;
        }
    }
    Ok(ending)
}
