//! Events, entries, ranges and what waits in a caller's memory.

ghost use Rattle.std.specs.Prelude.{◌≡◌, drop, map, slice_get, MatchOption, OnErr, Ok, Err};
ghost use Rattle.cb_history.specs.Facts.{CastEntry, entry_fields};
ghost use Rattle.cb_handle.specs.Copies.{copied};
ghost use Rattle.cb_handle.specs.Events.{event_head, ShowsEvent, ShowsEvents};
ghost use Rattle.cb_handle.specs.Entries.{kind_in, frame_in, names_in, ShowsEntry, delayed_row, name_row, range_row};

use crate::copies::{copy_at, copy_front, from};
use crate::held::NoneThere;
use crate::rows::{ARRIVE, CAST, Delayed, EntryHead, EventHead, Name, Range, TICK};
use bytes::Bytes;
use cb_member::{Entry, Event, Outgoing};

fn head_of(event: &Event) -> EventHead
    ensures { result ≡ event_head event.now }
{
    let message = event.message();
    EventHead {
        is_own: matches!(event, Event::Cast(_)),
        sender: message.name.sender,
        number: message.name.number,
        length: message.payload.len(),
    }
}

/// Shows the event of this index: its head, and its payload and its time as far as they fit.
pub fn event_at(
    events: &[Event],
    index: usize,
    head: &mut EventHead,
    payload: &mut [u8],
    time: &mut [u32],
) -> Result<(), NoneThere>
    ensures shown { MatchOption (slice_get events.now index)
        (result ≡ Err record {}) (λ event. (result ≡ Ok tt)
        × ShowsEvent event head.new payload.old payload.new time.old time.new) }
    ensures same { OnErr result ((head.new ≡ head.old) × (payload.new ≡ payload.old)
        × (time.new ≡ time.old)) }
{
    let Some(event) = events.get(index) else {
        return Err(NoneThere);
    };
    *head = head_of(event);
    let message = event.message();
    copy_front(payload, message.payload.as_slice());
    copy_front(time, message.time.as_slice());
    Ok(())
}

/// Shows the events from this one on, as many as fit, and tells how many.
pub fn events_from(
    events: &[Event],
    first: usize,
    heads: &mut [EventHead],
    payloads: &mut [u8],
    times: &mut [u32],
) -> usize
    ensures { ShowsEvents (drop first events.now) heads.old heads.new payloads.old payloads.new
        times.old times.new result }
{
    show_events(from(events, first), heads, payloads, times)
}

/// Shows the first events, as many as fit, and tells how many.
fn show_events(
    events: &[Event],
    heads: &mut [EventHead],
    payloads: &mut [u8],
    times: &mut [u32],
) -> usize
    ensures { ShowsEvents events.now heads.old heads.new payloads.old payloads.new times.old
        times.new result }
{
    let (mut end, mut times_end) = (0, 0);
    for count in 0..events.len() {
        let event = &events[count];
        let message = event.message();
        if count == heads.len() {
            return count;
        }
        if payloads.len() - end < message.payload.len() {
            return count;
        }
        let time = message.time.as_slice();
        if times.len() - times_end < time.len() {
            return count;
        }
        heads[count] = head_of(event);
        end = copy_at(payloads, end, message.payload.as_slice());
        times_end = copy_at(times, times_end, time);
    }
    events.len()
}

/// Shows the entry of this index: its head, and its frame and the names of what it delivered as far as they fit.
pub fn entry_at(
    entries: &[Entry],
    index: usize,
    head: &mut EntryHead,
    frame: &mut [u8],
    delivered: &mut [Name],
) -> Result<(), NoneThere>
    ensures shown { MatchOption (slice_get (map entry_fields entries.now) index)
        (result ≡ Err record {}) (λ entry. (result ≡ Ok tt)
        × ShowsEntry entry head.new frame.old frame.new delivered.old delivered.new) }
    ensures same { OnErr result ((head.new ≡ head.old) × (frame.new ≡ frame.old)
        × (delivered.new ≡ delivered.old)) }
{
    let Some(entry) = entries.get(index) else {
        return Err(NoneThere);
    };
    show_entry(entry, head, frame, delivered);
    Ok(())
}

/// Shows an entry: its head, and its frame and the names of what it delivered as far as they fit.
pub fn show_entry(entry: &Entry, head: &mut EntryHead, frame: &mut [u8], delivered: &mut [Name])
    ensures { ShowsEntry (entry_fields entry.now) head.new frame.old frame.new delivered.old
        delivered.new }
{
    let bytes = frame_of(entry);
    let names = names_of(entry);
    *head = EntryHead {
        kind: kind_of(entry),
        length: bytes.len(),
        delivered: names.len(),
    };
    copy_front(frame, bytes.as_slice());
    show_names(names, delivered);
}

fn kind_of(entry: &Entry) -> u32
    ensures { result ≡ kind_in (entry_fields entry.now) }
{
    match entry {
        Entry::Cast { .. } => CAST,
        Entry::Arrive { .. } => ARRIVE,
        Entry::Tick { .. } => TICK,
    }
}

fn frame_of(entry: &Entry) -> &Bytes
    ensures { result.now ≡ frame_in (entry_fields entry.now) }
{
    match entry {
        Entry::Cast { frame } | Entry::Arrive { frame, .. } => frame,
        Entry::Tick { status } => status,
    }
}

fn names_of(entry: &Entry) -> &[cb_member::Name]
    ensures { result.now ≡ names_in (entry_fields entry.now) }
{
    match entry {
        Entry::Arrive { delivered, .. } => delivered.as_slice(),
        Entry::Cast { .. } | Entry::Tick { .. } => &[],
    }
}

/// Shows names, as far as they fit.
fn show_names(names: &[cb_member::Name], to: &mut [Name])
    ensures { to.new ≡ copied (map name_row names.now) to.old }
{
    for k in 0..names.len() {
        if k == to.len() {
            return;
        }
        let name = &names[k];
        to[k] = Name {
            sender: name.sender,
            number: name.number,
        };
    }
}

/// Shows ranges, as far as they fit.
pub fn show_ranges(ranges: &[cb_member::Range], to: &mut [Range])
    ensures { to.new ≡ copied (map range_row ranges.now) to.old }
{
    for k in 0..ranges.len() {
        if k == to.len() {
            return;
        }
        let range = &ranges[k];
        to[k] = Range {
            first: range.first,
            last: range.last,
        };
    }
}

/// A message that waits, and what it waits for.
pub fn delayed_row(delayed: cb_member::Delayed) -> Delayed
    ensures { result ≡ delayed_row delayed }
{
    let number = delayed.name.number;
    match delayed.awaits {
        Some(awaited) => Delayed {
            is_ready: false,
            number,
            sender: awaited.sender,
            first: awaited.numbers.first,
            last: awaited.numbers.last,
        },
        None => Delayed {
            is_ready: true,
            number,
            sender: 0,
            first: 0,
            last: 0,
        },
    }
}
