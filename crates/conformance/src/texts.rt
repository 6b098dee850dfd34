//! Answers, as lines that begin with a space. The only error is out of memory; the text may then have a beginning of the piece.

ghost use Rattle.std.specs.Prelude.{◌≡◌, ◌++◌, OnOk};
ghost use Rattle.conformance.specs.Texts.{answer_line, changed_words, is_words};

use bytes::Bytes;
use cb_frames::Range;
use cb_lines::put_entry;
use cb_member::{
    Arrival, ArriveRefusal, Awaited, BurstDone, BurstRefusal, CastDone, CastRefusal, Delayed,
    Entry, Event, HelpFault, Message, MissingFault, Name, Outgoing, Received, TickRefusal, Ticked,
};
use cb_times::{NoMemory, VectorTime};
use confer_text::{put_fault, put_hex, put_name, put_number, put_payload, put_time};
use std::fmt::Display;

/// This many equal bytes and more are written as one byte and their number.
const LONG: u32 = 16;

/// Words, unchanged.
pub fn put(text: &mut Vec<u8>, words: &str) -> Result<(), NoMemory>
    ensures { OnOk result (text.new.items ≡ text.old.items ++ words.now) }
{
    text.extend_from_slice(words.as_bytes())
}

/// A line of these words.
#[tactic(auto, unfolding(crate::specs::Texts::answer_line))]
pub fn put_line(text: &mut Vec<u8>, words: &str) -> Result<(), NoMemory>
    ensures { OnOk result (text.new.items ≡ text.old.items ++ answer_line words.now) }
{
    put(text, " ")?;
    put(text, words)?;
    put(text, "\n")
}

/// A line that names a refusal or a fault.
pub fn put_refusal<F: Display + Copy + Drop>(
    text: &mut Vec<u8>,
    refusal: F,
) -> Result<(), NoMemory> {
    put_fault(text, " ", refusal)
}

/// Equal bytes, one after another.
#[derive(Clone, Copy)]
struct Run {
    byte: u8,
    count: u32,
}

/// The last piece that was written of some bytes.
#[derive(Clone, Copy, PartialEq, Eq)]
enum Last {
    Nothing,
    Digits,
    /// A word of its own for many equal bytes.
    Many,
}

/// Bytes in hexadecimal; many equal ones are a word of their own, as `00*1024`.
pub fn put_bytes(text: &mut Vec<u8>, bytes: &[u8]) -> Result<(), NoMemory> {
    let mut run = Run { byte: 0, count: 0 };
    let mut last = Last::Nothing;
    for byte in bytes {
        if *byte == run.byte && run.count < u32::MAX {
            run.count += 1;
        } else {
            last = put_run(text, run, last)?;
            run = Run {
                byte: *byte,
                count: 1,
            };
        }
    }
    put_run(text, run, last)?;
    Ok(())
}

fn put_run(text: &mut Vec<u8>, run: Run, last: Last) -> Result<Last, NoMemory> {
    if run.count == 0 {
        return Ok(last);
    }
    let is_many = run.count >= LONG;
    if last == Last::Many || (is_many && last == Last::Digits) {
        put(text, " ")?;
    }
    if is_many {
        put_many(text, run)?;
        return Ok(Last::Many);
    }
    put_each(text, run)?;
    Ok(Last::Digits)
}

fn put_many(text: &mut Vec<u8>, run: Run) -> Result<(), NoMemory> {
    put_hex(text, &[run.byte])?;
    put(text, "*")?;
    put_number(text, run.count)
}

fn put_each(text: &mut Vec<u8>, run: Run) -> Result<(), NoMemory> {
    for _ in 0..run.count {
        put_hex(text, &[run.byte])?;
    }
    Ok(())
}

/// A payload in quotation marks, or an `x` and its bytes if some are no plain letters, or if they are many equal ones.
pub fn put_content(text: &mut Vec<u8>, payload: &[u8]) -> Result<(), NoMemory> {
    if are_many(payload) {
        put(text, "x")?;
        return put_bytes(text, payload);
    }
    put_payload(text, payload)
}

fn are_many(payload: &[u8]) -> bool {
    let Some(first) = payload.first() else {
        return false;
    };
    payload.len() >= LONG as usize && payload.iter().all(|byte| byte == first)
}

/// A name and a time, after spaces.
fn put_stamp(text: &mut Vec<u8>, name: Name, time: &VectorTime) -> Result<(), NoMemory> {
    put(text, " ")?;
    put_name(text, name)?;
    put(text, " ")?;
    put_time(text, time)
}

/// A message after this mark.
fn put_message(text: &mut Vec<u8>, mark: &str, message: &Message) -> Result<(), NoMemory> {
    put(text, mark)?;
    put_stamp(text, message.name, &message.time)?;
    put(text, " ")?;
    put_content(text, &message.payload)?;
    put(text, "\n")
}

/// A line for each message that is delivered.
pub fn put_deliveries(text: &mut Vec<u8>, messages: &[Message]) -> Result<(), NoMemory> {
    for message in messages {
        put_message(text, " =", message)?;
    }
    Ok(())
}

/// A line for each cast and each delivery, or that there is none.
pub fn put_all_events(text: &mut Vec<u8>, events: &[Event]) -> Result<(), NoMemory> {
    if events.is_empty() {
        return put_line(text, "none");
    }
    put_events(text, events)
}

/// A line for each cast and each delivery.
pub fn put_events(text: &mut Vec<u8>, events: &[Event]) -> Result<(), NoMemory> {
    for event in events {
        match event {
            Event::Cast(message) => put_message(text, " cast", message)?,
            Event::Deliver(message) => put_message(text, " =", message)?,
        }
    }
    Ok(())
}

/// The answer to a cast.
pub fn put_cast(
    text: &mut Vec<u8>,
    answer: Result<&CastDone, &CastRefusal>,
) -> Result<(), NoMemory> {
    match answer {
        Ok(CastDone { name, time, out }) => put_sent(text, *name, time, out),
        Err(refusal) => put_refusal(text, *refusal),
    }
}

/// A cast, and its frame to all others.
fn put_sent(
    text: &mut Vec<u8>,
    name: Name,
    time: &VectorTime,
    frame: &[u8],
) -> Result<(), NoMemory> {
    put(text, " cast")?;
    put_stamp(text, name, time)?;
    put(text, "\n to all ")?;
    put_bytes(text, frame)?;
    put(text, "\n")
}

/// The answer to a burst: the number of its messages, and the first one as a cast.
pub fn put_burst(
    text: &mut Vec<u8>,
    answer: Result<&BurstDone, &BurstRefusal>,
) -> Result<(), NoMemory> {
    match answer {
        Ok(done) => {
            put_burst_of(text, done.count)?;
            put_sent(text, done.first, &done.time, &done.out)
        }
        Err(refusal) => put_refusal(text, *refusal),
    }
}

fn put_burst_of(text: &mut Vec<u8>, count: u32) -> Result<(), NoMemory> {
    put(text, " burst of ")?;
    put_number(text, count)?;
    put(text, "\n")
}

/// The answer to a cast that returns the frame: the event has the rest.
pub fn put_made(
    text: &mut Vec<u8>,
    answer: Result<&Bytes, &CastRefusal>,
    events: &[Event],
) -> Result<(), NoMemory> {
    match (answer, events) {
        (Ok(frame), [Event::Cast(message)]) => put_sent(text, message.name, &message.time, frame),
        (Ok(_), _) => put_line(text, "not one cast"),
        (Err(refusal), _) => put_refusal(text, *refusal),
    }
}

/// The answer to a burst that returns the frame: the events have the rest.
pub fn put_made_burst(
    text: &mut Vec<u8>,
    answer: Result<&Bytes, &BurstRefusal>,
    events: &[Event],
) -> Result<(), NoMemory> {
    match (answer, events) {
        (Ok(frame), [Event::Cast(message), ..]) => {
            put_burst_of(text, count_of(events))?;
            put_sent(text, message.name, &message.time, frame)
        }
        (Ok(_), _) => put_line(text, "no burst"),
        (Err(refusal), _) => put_refusal(text, *refusal),
    }
}

fn count_of(events: &[Event]) -> u32 {
    u32::try_from(events.len()).unwrap_or(u32::MAX)
}

/// A line for each frame that is to be sent.
pub fn put_frames(text: &mut Vec<u8>, out: &[Outgoing]) -> Result<(), NoMemory> {
    for frame in out {
        put_frame(text, frame)?;
    }
    Ok(())
}

fn put_frame(text: &mut Vec<u8>, frame: &Outgoing) -> Result<(), NoMemory> {
    put(text, " to ")?;
    match frame.to {
        Some(member) => put_number(text, member)?,
        None => put(text, "all")?,
    }
    put(text, " ")?;
    put_bytes(text, &frame.bytes)?;
    put(text, "\n")
}

/// Whether the call added an entry.
pub fn put_changed(text: &mut Vec<u8>, changed: bool) -> Result<(), NoMemory>
    ensures { OnOk result
        (text.new.items ≡ text.old.items ++ answer_line (changed_words changed)) }
{
    if changed {
        return put_line(text, "changed");
    }
    put_line(text, "unchanged")
}

/// The answer to received bytes.
pub fn put_arrival(
    text: &mut Vec<u8>,
    answer: Result<&Arrival, &ArriveRefusal>,
) -> Result<(), NoMemory> {
    match answer {
        Ok(
            Arrival::Accepted {
                deliveries,
                changed,
                out,
            },
        ) => {
            put_changed(text, *changed)?;
            put_deliveries(text, deliveries)?;
            put_frames(text, out)
        }
        Ok(Arrival::Repeat) => put_line(text, "repeat"),
        Err(refusal) => put_refusal(text, *refusal),
    }
}

/// The answer to received bytes, whose deliveries are the last events.
pub fn put_received(
    text: &mut Vec<u8>,
    answer: Result<&Received, &ArriveRefusal>,
    events: &[Event],
) -> Result<(), NoMemory> {
    match answer {
        Ok(
            Received::Accepted {
                delivered,
                changed,
                out,
            },
        ) => {
            put_changed(text, *changed)?;
            put_last(text, events, *delivered)?;
            put_frames(text, out)
        }
        Ok(Received::Repeat) => put_line(text, "repeat"),
        Err(refusal) => put_refusal(text, *refusal),
    }
}

/// The last events, `count` of them.
fn put_last(text: &mut Vec<u8>, events: &[Event], count: usize) -> Result<(), NoMemory> {
    match events.get(events.len().saturating_sub(count)..) {
        Some(last) => put_events(text, last),
        None => Ok(()),
    }
}

/// The answer to received bytes, whose deliveries are all events.
pub fn put_received_all(
    text: &mut Vec<u8>,
    answer: Result<&Received, &ArriveRefusal>,
    events: &[Event],
) -> Result<(), NoMemory> {
    put_received(text, answer, events)?;
    match answer {
        Ok(received) if delivered_by(received) != events.len() => put_line(text, "other events"),
        _ => Ok(()),
    }
}

fn delivered_by(received: &Received) -> usize {
    match received {
        Received::Accepted { delivered, .. } => *delivered,
        Received::Repeat => 0,
    }
}

/// The answer to a tick.
pub fn put_tick(text: &mut Vec<u8>, answer: Result<&Ticked, &TickRefusal>) -> Result<(), NoMemory> {
    match answer {
        Ok(ticked) => {
            put_changed(text, ticked.entered)?;
            put_frames(text, &ticked.out)
        }
        Err(refusal) => put_refusal(text, *refusal),
    }
}

/// The answer to a tick that returns the frames: a new status is an entry.
pub fn put_reported(
    text: &mut Vec<u8>,
    answer: Result<&Vec<Outgoing>, &TickRefusal>,
    entries: &[Entry],
) -> Result<(), NoMemory> {
    match answer {
        Ok(out) => {
            put_changed(text, !entries.is_empty())?;
            put_frames(text, out)
        }
        Err(refusal) => put_refusal(text, *refusal),
    }
}

/// A line for each entry, or that there is none.
pub fn put_all_entries(text: &mut Vec<u8>, entries: &[Entry]) -> Result<(), NoMemory> {
    if entries.is_empty() {
        return put_line(text, "none");
    }
    put_entries(text, entries)
}

/// A line for each entry, as a journal has it.
pub fn put_entries(text: &mut Vec<u8>, entries: &[Entry]) -> Result<(), NoMemory> {
    for entry in entries {
        put(text, " ")?;
        put_entry(text, entry)?;
        put(text, "\n")?;
    }
    Ok(())
}

pub fn put_time_line(text: &mut Vec<u8>, time: &VectorTime) -> Result<(), NoMemory> {
    put(text, " ")?;
    put_time(text, time)?;
    put(text, "\n")
}

/// The count, of who is no member none.
pub fn put_count(text: &mut Vec<u8>, count: Option<u32>) -> Result<(), NoMemory> {
    let Some(count) = count else {
        return put_line(text, "none");
    };
    put(text, " ")?;
    put_number(text, count)?;
    put(text, "\n")
}

pub fn put_is(text: &mut Vec<u8>, is: bool) -> Result<(), NoMemory>
    ensures { OnOk result (text.new.items ≡ text.old.items ++ answer_line (is_words is)) }
{
    if is {
        return put_line(text, "yes");
    }
    put_line(text, "no")
}

/// The first message that waits, and what it waits for.
pub fn put_waits(text: &mut Vec<u8>, delayed: Option<Delayed>) -> Result<(), NoMemory> {
    let Some(Delayed { name, awaits }) = delayed else {
        return put_line(text, "none");
    };
    put(text, " ")?;
    put_name(text, name)?;
    put_awaited(text, awaits)?;
    put(text, "\n")
}

fn put_awaited(text: &mut Vec<u8>, awaits: Option<Awaited>) -> Result<(), NoMemory> {
    let Some(Awaited { sender, numbers }) = awaits else {
        return put(text, " awaits none");
    };
    put(text, " awaits ")?;
    put_number(text, sender)?;
    put(text, ".")?;
    put_range(text, numbers)
}

pub fn put_range(text: &mut Vec<u8>, range: Range) -> Result<(), NoMemory> {
    put_number(text, range.first)?;
    put(text, "-")?;
    put_number(text, range.last)
}

/// Ranges in one line.
pub fn put_ranges(text: &mut Vec<u8>, ranges: &[Range]) -> Result<(), NoMemory> {
    for range in ranges {
        put(text, " ")?;
        put_range(text, *range)?;
    }
    if ranges.is_empty() {
        put(text, " none")?;
    }
    Ok(())
}

pub fn put_missing(
    text: &mut Vec<u8>,
    missing: &Result<Vec<Range>, MissingFault>,
) -> Result<(), NoMemory> {
    match missing {
        Ok(ranges) => {
            put_ranges(text, ranges)?;
            put(text, "\n")
        }
        Err(fault) => put_refusal(text, *fault),
    }
}

pub fn put_help(
    text: &mut Vec<u8>,
    help: &Result<Option<Outgoing>, HelpFault>,
) -> Result<(), NoMemory> {
    match help {
        Ok(Some(frame)) => put_frame(text, frame),
        Ok(None) => put_line(text, "none"),
        Err(fault) => put_refusal(text, *fault),
    }
}
