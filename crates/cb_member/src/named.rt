//! Entries of what is received: the frame, and the names of what it delivers.
//!
//! They join the entries without names before anything changes, and get their names where they lie.

ghost use Rattle.std.specs.Prelude.{◌≡◌, ◌≤◌, ◌++◌, ◌∷◌, [], ℕ, List, OnOk, OnErr, length};
ghost use Rattle.cb_history.specs.declared.history.Entry.{Entry as Entries};
ghost use Rattle.cb_history.specs.Facts.{ArriveEntry, entry_fields};
ghost use Rattle.cb_member.specs.Received.{HasNamed, HasNamedAt, HasOpened, IsOpen, IsOpenAt, names_of};

use crate::text::another;
use crate::wanted::Asked;
use bytes::Bytes;
use cb_delay::Event;
use cb_history::{Entry, Names};
use cb_times::{NoMemory, make_room};
use std::alloc::AllocError;

/// Entries of these bytes without names join the entries, as many as are asked for, with room for this many names. After a refusal the
/// entries are as they were.
pub fn open_entries(
    asked: Asked,
    entries: &mut Vec<Entry>,
    bytes: &Bytes,
    room: usize,
) -> Result<(), NoMemory>
    ensures opened { OnOk result (HasOpened asked bytes.now room entries.old.items
        entries.new.items) }
    ensures same { OnErr result (entries.new.items ≡ entries.old.items) }
{
    if !asked.joins_entries() {
        return Ok(());
    }
    open_entry(entries, bytes, room)?;
    if !asked.joins_twice() {
        return Ok(());
    }
    match open_entry(entries, bytes, room) {
        Ok(()) => Ok(()),
        Err(_refused) => {
            drop(entries.pop());
            Err(AllocError)
        }
    }
}

fn open_entry(entries: &mut Vec<Entry>, bytes: &Bytes, room: usize) -> Result<(), NoMemory>
    ensures opened { OnOk result ((e : Entries) × IsOpen bytes.now room e
        × (entries.new.items ≡ entries.old.items ++ e ∷ [])) }
    ensures same { OnErr result (entries.new.items ≡ entries.old.items) }
{
    make_room(entries, 1)?;
    let frame = another(bytes)?;
    let delivered = Names::with_capacity(*entries.allocator(), room)?;
    entries.push_reserved(Entry::Arrive { frame, delivered });
    Ok(())
}

/// The entries that were opened get the names of what these events deliver.
pub fn name_entries(asked: Asked, entries: &mut Vec<Entry>, delivered: &[Event])
    requires { (bytes : List ℕ) × (started : List Entries)
        × HasOpened asked bytes (length delivered.now) started entries.old.items }
    ensures { (bytes : List ℕ) (started : List Entries)
        → HasOpened asked bytes (length delivered.now) started entries.old.items
        → HasNamed asked bytes (names_of delivered.now) started entries.new.items }
{
    if !asked.joins_entries() {
        return;
    }
    let last = entries.len() - 1;
    name_entry(entries, last, delivered);
    if asked.joins_twice() {
        name_entry(entries, last - 1, delivered);
    }
}

/// Gives an entry the names of what these events deliver. It keeps no more room than they need.
fn name_entry(entries: &mut Vec<Entry>, place: usize, events: &[Event])
    requires { (bytes : List ℕ) × (before after : List Entries) × (e : Entries)
        × IsOpenAt place bytes (length events.now) before after e entries.old.items }
    ensures { (bytes : List ℕ) (before after : List Entries) (e : Entries)
        → IsOpenAt place bytes (length events.now) before after e entries.old.items
        → HasNamedAt bytes (names_of events.now) before after entries.new.items }
{
    match entries.get_mut(place) {
        Some(entry) => add_names(entry, events),
        None => unreachable!("it is there"),
    }
}

fn add_names(entry: &mut Entry, events: &[Event])
    requires { (bytes : List ℕ) × IsOpen bytes (length events.now) entry.old }
    ensures { (bytes : List ℕ) → IsOpen bytes (length events.now) entry.old
        → entry_fields entry.new ≡ ArriveEntry bytes (names_of events.now) }
{
    match entry {
        Entry::Arrive {
            frame: _,
            delivered,
        } => push_names(delivered, events),
        _ => unreachable!("it was opened"),
    }
}

/// Puts in the names of what these events deliver, and keeps no more room than they need.
fn push_names(names: &mut Names, events: &[Event])
    requires empty { names.old.items ≡ [] }
    requires room { length events.now ≤ names.old.capacity }
    ensures { names.new.items ≡ names_of events.now }
{
    for event in events {
        if let Event::Deliver(message) = event {
            names.push_reserved(message.name);
        }
    }
    if names.spilled() {
        names.shrink_to_fit();
    }
}
