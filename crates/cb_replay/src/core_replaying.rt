//! One entry is replayed by a core, which keeps no history.

ghost use Rattle.std.specs.Prelude.{List, IfOk};
ghost use Rattle.cb_delay.specs.declared.message.Event.{Event};
ghost use Rattle.cb_frames.specs.Fields.{One};
ghost use Rattle.cb_history.specs.Facts.{entry_fields};
ghost use Rattle.cb_history.specs.Legal.{ToCast, ToTake, ToTick};
ghost use Rattle.cb_history.specs.Load.{many_of};
ghost use Rattle.cb_history.specs.ReplayLaws.{call_of};
ghost use Rattle.cb_replay.specs.CoreReplaying.{SaysAddedOnEach};
ghost use Rattle.cb_replay.specs.Loads.{load_fields};

use crate::load::{Load, slices_of};
use crate::same::is_noted;
use bytes::Bytes;
use cb_member::{
    ArriveRefusal, BurstRefusal, CastRefusal, CoreMember, Entry, Event, NoMemory, TickRefusal,
};
use std::alloc::{AllocError, Global};

/// Whether the call that the entry tells adds just this entry to what the core did so far. Then the core has made the call, and stands for
/// its history with the entry; the events of the call join the caller's.
///
/// Where the answer is `false`, or memory ran out, drop the core and the events: the call may have been made, and another entry added.
pub fn replay_entry(
    alloc: Global,
    core: &mut CoreMember,
    entry: &Entry,
    events: &mut Vec<Event>,
) -> Result<bool, NoMemory>
    ensures { IfOk result (SaysAddedOnEach core.old core.new events.old.items events.new.items
        (call_of (entry_fields entry.now))
        (entry_fields entry.now)) }
{
    match entry {
        Entry::Cast { frame } => {
            let load = Load::of(alloc, frame)?;
            casts_load(alloc, core, &load, entry, events)
        }
        Entry::Arrive { frame, .. } => takes(core, frame, entry, events),
        Entry::Tick { .. } => ticks(core, entry),
    }
}

fn casts_load(
    alloc: Global,
    core: &mut CoreMember,
    load: &Load,
    entry: &Entry,
    events: &mut Vec<Event>,
) -> Result<bool, NoMemory>
    ensures { IfOk result (SaysAddedOnEach core.old core.new events.old.items events.new.items
        (ToCast (load_fields load.now))
        (entry_fields entry.now)) }
{
    match load {
        Load::One(payload) => casts(core, payload.as_slice(), entry, events),
        Load::Many(payloads) => {
            let slices = slices_of(alloc, payloads)?;
            casts_burst(core, &slices, entry, events)
        }
    }
}

fn casts(
    core: &mut CoreMember,
    payload: &[u8],
    entry: &Entry,
    events: &mut Vec<Event>,
) -> Result<bool, NoMemory>
    ensures { IfOk result (SaysAddedOnEach core.old core.new events.old.items events.new.items
        (ToCast (One payload.now))
        (entry_fields entry.now)) }
{
    match core.cast(payload, events) {
        Ok((_frame, noted)) => Ok(is_noted(Some(noted), entry)),
        Err(CastRefusal::NoMemory) => Err(AllocError),
        Err(_refusal) => Ok(false),
    }
}

fn casts_burst(
    core: &mut CoreMember,
    payloads: &[&[u8]],
    entry: &Entry,
    events: &mut Vec<Event>,
) -> Result<bool, NoMemory>
    ensures { IfOk result (SaysAddedOnEach core.old core.new events.old.items events.new.items
        (ToCast (many_of payloads.now))
        (entry_fields entry.now)) }
{
    match core.cast_burst(payloads, events) {
        Ok((_frame, noted)) => Ok(is_noted(Some(noted), entry)),
        Err(BurstRefusal::NoMemory) => Err(AllocError),
        Err(_refusal) => Ok(false),
    }
}

fn takes(
    core: &mut CoreMember,
    frame: &Bytes,
    entry: &Entry,
    events: &mut Vec<Event>,
) -> Result<bool, NoMemory>
    ensures { IfOk result (SaysAddedOnEach core.old core.new events.old.items events.new.items
        (ToTake frame.now)
        (entry_fields entry.now)) }
{
    match core.receive_noted(frame, events) {
        Ok((_received, noted)) => Ok(is_noted(noted, entry)),
        Err(ArriveRefusal::NoMemory) => Err(AllocError),
        Err(_refusal) => Ok(false),
    }
}

fn ticks(core: &mut CoreMember, entry: &Entry) -> Result<bool, NoMemory>
    ensures { IfOk result (λ is_added. (events : List Event) → SaysAddedOnEach core.old core.new
        events events ToTick (entry_fields entry.now) is_added) }
{
    match core.tick_noted() {
        Ok((_ticked, noted)) => Ok(is_noted(noted, entry)),
        Err(TickRefusal::NoMemory) => Err(AllocError),
        Err(_refusal) => Ok(false),
    }
}
