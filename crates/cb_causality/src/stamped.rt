//! The stamped machine as a program: each member's list of events with their times, and the two steps.

ghost use Rattle.std.specs.Prelude.{◌≡◌, ℕ, ◌+◌, ◌*◌, ◌^◌, ◌<◌, ◌≤◌, ◌↔◌, List, [], ◌∷◌, ◌++◌, length, replicate, IsTrue, IsFalse, IsSome, IsNone, IfSome, IfOk, OnOk, OnErr};
ghost use Rattle.cb_times.specs.Order.{field};
ghost use Rattle.cb_delay.specs.Rule.{IsReady};
ghost use Rattle.cb_causality.specs.Events.{casts_of, next_name};
ghost use Rattle.cb_times.specs.Group.{IsGroupSize};
ghost use Rattle.cb_causality.specs.Lists.{contents, lists_in, lists_of};
ghost use Rattle.cb_causality.specs.StampedGroup.{IsStampedGroup, IsAllowed, IsAllowedAs, DeliversStamped, IsCastIn, IsStampAfter};
ghost use Rattle.cb_causality.specs.StampedMachine.{without_times, counts_of, CastsStamped, StampedRun};
ghost use Rattle.cb_delay.specs.Message.{message_of};

use crate::fault::CastFault;
use crate::lists::{append, empty_lists, list_of};
use bytes::Bytes;
use cb_delay::{Event, Message};
use cb_times::{Name, NoMemory, VectorTime};
use std::alloc::Global;
use std::marker::Model;

/// How many messages of a member a list has, casts and deliveries.
fn count(events: &[Event], member: usize) -> usize
    ensures counts { result ≡ counts_of events.now member }
    ensures fits { result ≤ length events.now }
{
    events
        .iter()
        .filter(|event| event.message().name.sender as usize == member)
        .count()
}

/// How many casts a list has.
fn cast_count(events: &[Event]) -> usize
    ensures counts { result ≡ casts_of (without_times events.now) }
    ensures fits { result ≤ length events.now }
{
    events
        .iter()
        .filter(|event| matches!(event, Event::Cast(_)))
        .count()
}

/// The time of the member's next cast: what its list has of each member, that cast included.
fn time_after(
    alloc: Global,
    events: &[Event],
    member: usize,
    size: usize,
) -> Result<VectorTime, NoMemory>
    requires room { length events.now < u32.MAX }
    requires member { member < size }
    requires group { IsGroupSize size }
    ensures { IfOk result (λ time. IsStampAfter size member time events.now) }
{
    let mut time = VectorTime::zero(alloc, size as u32)?;
    for k in 0..size {
        time.set(k as u32, count(events, k) as u32);
    }
    time.add_one(member as u32);
    Ok(time)
}

/// Whether the delay rule lets a member whose list this is deliver a message of the sender with this time.
fn is_ready(events: &[Event], sender: usize, time: &VectorTime) -> bool
    ensures { IsTrue result ↔ IsReady sender (field time.now) (counts_of events.now) }
{
    for k in 0..time.size() as usize {
        let delivered = count(events, k);
        let stamped = time.get(k as u32) as usize;
        let allowed = if k == sender {
            stamped == delivered + 1
        } else {
            stamped <= delivered
        };
        if !allowed {
            return false;
        }
    }
    sender < time.size() as usize
}

/// The message of this name, if the list has its cast.
fn cast_of(events: &[Event], name: Name) -> Option<&Message>
    ensures found { IfSome result (λ message. IsCastIn events.now name message.now) }
    ensures missing { IsNone result → (message : Message) → ¬ IsCastIn events.now name message }
{
    for event in events {
        if let Event::Cast(message) = event
            && message.name == name
        {
            return Some(message);
        }
    }
    None
}

/// The message of this name, if the delay rule lets the receiver deliver it.
fn allowed(lists: &[Vec<Event>], receiver: usize, name: Name) -> Option<&Message>
    requires receiver { receiver < length lists.now }
    requires run { IsStampedGroup (contents lists.now) }
    ensures found { IfSome result
        (λ message. IsAllowedAs (lists_of lists.now) receiver name message.now) }
    ensures missing { IsNone result → ¬ IsAllowed (lists_of lists.now) receiver name }
{
    let sender = name.sender as usize;
    if sender == receiver || sender >= lists.len() {
        return None;
    }
    let message = cast_of(list_of(lists, sender), name)?;
    if is_ready(list_of(lists, receiver), sender, &message.time) {
        Some(message)
    } else {
        None
    }
}

/// A group of 2 to 64 members in which each has a list of events with their times. Whatever is called, the lists are a run
/// of the stamped machine.
#[derive(Debug, Drop)]
pub struct StampedGroup {
    lists: Vec<Vec<Event>>,
    alloc: Global,
}

impl Model for StampedGroup {
    ghost use Rattle.std.specs.Prelude.{List};
    ghost use Rattle.cb_delay.specs.declared.message.Event.{Event};
    ghost use Rattle.cb_causality.specs.Lists.{contents};
    ghost use Rattle.cb_causality.specs.StampedGroup.{IsStampedGroup};

    ghost Value = { List (List Event) };

    ghost view = { λ g. contents g.lists.items };

    ghost invariant = { λ g. IsStampedGroup (contents g.lists.items) };
}

impl StampedGroup {
    /// A group of this size in which nothing has happened.
    pub fn new(alloc: Global, size: usize) -> Result<Self, NoMemory>
        requires { IsGroupSize size }
        ensures { IfOk result (λ group. group ≡ replicate size []) }
    {
        let lists = empty_lists(alloc, size)?;
        Ok(StampedGroup { lists, alloc })
    }

    /// How many members the group has.
    pub fn size(&self) -> usize
        ensures size { result ≡ length self.now }
        ensures run { StampedRun (length self.now) (lists_in self.now) }
    {
        self.lists.len()
    }

    /// The events of a member with their times, the first one first.
    pub fn events(&self, member: usize) -> &[Event]
        requires { member < length self.now }
        ensures { result.now ≡ lists_in self.now member }
    {
        list_of(self.lists.as_slice(), member)
    }

    /// The member casts its next message, with this payload and what it has counted, and answers its name.
    pub fn cast(&mut self, member: usize, payload: Bytes) -> Result<Name, CastFault>
        requires { member < length self.old }
        ensures cast { OnOk result (let size = length self.old in
            CastsStamped size (lists_in self.old) (lists_in self.new) member payload) }
        ensures name { IfOk result
            (λ name. name ≡ next_name member (without_times (lists_in self.old member))) }
        ensures size { length self.new ≡ length self.old }
        ensures full { (result ≡ Err CastFault.Full)
            ↔ (u32.MAX ≤ length (lists_in self.old member)) }
        ensures err { OnErr result (self.new ≡ self.old) }
    {
        let list = list_of(self.lists.as_slice(), member);
        if list.len() >= u32::MAX as usize {
            return Err(CastFault::Full);
        }
        let name = Name {
            sender: member as u32,
            number: (cast_count(list) + 1) as u32,
        };
        let time = time_after(self.alloc, list, member, self.lists.len())?;
        let message = Message {
            name,
            time,
            payload,
        };
        append(&mut self.lists, member, Event::Cast(message))?;
        Ok(name)
    }

    /// Whether the delay rule lets the receiver deliver the message.
    pub fn may_deliver(&self, receiver: usize, name: Name) -> bool
        requires { receiver < length self.now }
        ensures { IsTrue result ↔ IsAllowed (lists_in self.now) receiver name }
    {
        allowed(self.lists.as_slice(), receiver, name).is_some()
    }

    /// The receiver delivers the message where the delay rule lets it, and answers whether it did.
    pub fn deliver(&mut self, receiver: usize, name: Name) -> Result<bool, NoMemory>
        requires { receiver < length self.old }
        ensures delivered { IfOk result (λ done. IsTrue done
            → DeliversStamped (lists_in self.old) (lists_in self.new) receiver name) }
        ensures refused { IfOk result (λ done. IsFalse done
            → ¬ IsAllowed (lists_in self.old) receiver name) }
        ensures unchanged { IfOk result (λ done. IsFalse done → self.new ≡ self.old) }
        ensures size { length self.new ≡ length self.old }
        ensures err { OnErr result (self.new ≡ self.old) }
    {
        let Some(message) = allowed(self.lists.as_slice(), receiver, name) else {
            return Ok(false);
        };
        let copy = message.copy()?;
        append(&mut self.lists, receiver, Event::Deliver(copy))?;
        Ok(true)
    }
}
