//! A history is replayed by a member without entries, entry by entry.

ghost use Rattle.std.specs.Prelude.{◌≡◌, [], IfOk, map};
ghost use Rattle.cb_frames.specs.Fields.{One};
ghost use Rattle.cb_history.specs.Facts.{entry_fields};
ghost use Rattle.cb_history.specs.Legal.{ToCast, ToTake, ToTick};
ghost use Rattle.cb_history.specs.Load.{many_of};
ghost use Rattle.cb_history.specs.ReplayLaws.{call_of};
ghost use Rattle.cb_replay.specs.Loads.{load_fields};
ghost use Rattle.cb_replay.specs.Replaying.{HasRoom, SaysAdded, SaysReplayed};

use crate::load::{Load, slices_of};
use crate::same::is_noted;
use bytes::Bytes;
use cb_member::{ArriveRefusal, BurstRefusal, CastRefusal, Entry, Member, NoMemory, TickRefusal};
use std::alloc::{AllocError, Global};

/// The number of the first entry, counted from 1, that this member does not add, called as the entries tell; `None` where it has them all
/// then. It begins without entries, and has room for these or for as many as there can be. Where memory runs out it has some of them.
pub fn replay(
    alloc: Global,
    member: &mut Member,
    entries: &[Entry],
) -> Result<Option<usize>, NoMemory>
    requires new { member.old.entries ≡ [] }
    requires room { HasRoom member.old.limit (map entry_fields entries.now) }
    ensures { IfOk result
        (SaysReplayed member.old member.new (map entry_fields entries.now)) }
{
    for entry in entries {
        let given = member.history().len();
        if !gives(alloc, member, entry)? {
            return Ok(Some(given + 1));
        }
    }
    let _legal = member.history();
    Ok(None)
}

/// Whether the call that the entry tells adds just this entry.
fn gives(alloc: Global, member: &mut Member, entry: &Entry) -> Result<bool, NoMemory>
    ensures { IfOk result (SaysAdded member.old member.new (call_of (entry_fields entry.now))
        (entry_fields entry.now)) }
{
    match entry {
        Entry::Cast { frame } => {
            let load = Load::of(alloc, frame)?;
            casts_load(alloc, member, &load, entry)
        }
        Entry::Arrive { frame, .. } => takes(member, frame, entry),
        Entry::Tick { .. } => ticks(member, entry),
    }
}

fn casts_load(
    alloc: Global,
    member: &mut Member,
    load: &Load,
    entry: &Entry,
) -> Result<bool, NoMemory>
    ensures { IfOk result (SaysAdded member.old member.new (ToCast (load_fields load.now))
        (entry_fields entry.now)) }
{
    match load {
        Load::One(payload) => casts(member, payload.as_slice(), entry),
        Load::Many(payloads) => {
            let slices = slices_of(alloc, payloads)?;
            casts_burst(member, &slices, entry)
        }
    }
}

fn casts(member: &mut Member, payload: &[u8], entry: &Entry) -> Result<bool, NoMemory>
    ensures { IfOk result (SaysAdded member.old member.new (ToCast (One payload.now))
        (entry_fields entry.now)) }
{
    match member.cast_noted(payload) {
        Ok((_done, noted)) => Ok(noted.is_same(entry)),
        Err(CastRefusal::NoMemory) => Err(AllocError),
        Err(_refusal) => Ok(false),
    }
}

fn casts_burst(member: &mut Member, payloads: &[&[u8]], entry: &Entry) -> Result<bool, NoMemory>
    ensures { IfOk result (SaysAdded member.old member.new (ToCast (many_of payloads.now))
        (entry_fields entry.now)) }
{
    match member.cast_burst_noted(payloads) {
        Ok((_done, noted)) => Ok(noted.is_same(entry)),
        Err(BurstRefusal::NoMemory) => Err(AllocError),
        Err(_refusal) => Ok(false),
    }
}

fn takes(member: &mut Member, frame: &Bytes, entry: &Entry) -> Result<bool, NoMemory>
    ensures { IfOk result (SaysAdded member.old member.new (ToTake frame.now)
        (entry_fields entry.now)) }
{
    match member.arrive_noted(frame) {
        Ok((_arrival, noted)) => Ok(is_noted(noted, entry)),
        Err(ArriveRefusal::NoMemory) => Err(AllocError),
        Err(_refusal) => Ok(false),
    }
}

fn ticks(member: &mut Member, entry: &Entry) -> Result<bool, NoMemory>
    ensures { IfOk result (SaysAdded member.old member.new ToTick (entry_fields entry.now)) }
{
    match member.tick_noted() {
        Ok((_ticked, noted)) => Ok(is_noted(noted, entry)),
        Err(TickRefusal::NoMemory) => Err(AllocError),
        Err(_refusal) => Ok(false),
    }
}
