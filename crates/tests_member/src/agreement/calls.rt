//! Calls of a member, whichever it is, and what they did as texts.

use bytes::Bytes;
use cb_frames::Range;
use cb_history::{
    Arrival, ArriveRefusal, BurstDone, BurstRefusal, CastDone, CastRefusal, Entry, Event, Group,
    GroupMember, HelpFault, Message, MissingFault, Name, Outgoing, TickRefusal, Ticked,
};
use cb_member::Member;
use cb_reference::ReferenceMember;
use std::alloc::Global;
use std::test::Fail;

/// A member that the runs can make.
pub trait Made: GroupMember + Drop {
    /// A member without entries.
    fn made(alloc: Global, group: Group, me: u32, limit: usize) -> Result<Self, Fail>;
}

impl Made for ReferenceMember {
    fn made(alloc: Global, group: Group, me: u32, limit: usize) -> Result<Self, Fail> {
        let made = ReferenceMember::new(alloc, group, me, limit);
        Ok(made.ok().ok_or("a member")?)
    }
}

impl Made for Member {
    fn made(alloc: Global, group: Group, me: u32, limit: usize) -> Result<Self, Fail> {
        let made = Member::new(alloc, group, me, limit);
        Ok(made.ok().ok_or("a member")?)
    }
}

/// What is asked of a member.
#[derive(Clone, Copy)]
pub enum Call<'a> {
    /// To cast this payload.
    Cast(&'a [u8]),
    /// To cast a message of each of these payloads.
    Burst(&'a [&'a [u8]]),
    /// To take these bytes, which were received.
    Take(&'a [u8]),
    /// To report to the others what it has.
    Tick,
    /// To ask a third member for what is missing of one.
    Help(u32),
    /// Its time, events, entries, how many own casts are stable, how many of a member's, and what is missing of one.
    Time,
    Events,
    Entries,
    Stable,
    StableOf(u32),
    Missing(u32),
}

pub fn group_of(number: u32, size: u32, window: u32) -> Result<Group, Fail> {
    Ok(Group::new(number, size, window).ok().ok_or("a group")?)
}

/// Takes the second text by value: who calls this has but one to drop.
fn add(text: &mut String, more: String) -> Result<(), Fail> {
    Ok(text.push_str(more.as_str())?)
}

pub fn hexadecimal(alloc: Global, bytes: &[u8]) -> Result<String, Fail> {
    let mut text = String::new(alloc);
    for byte in bytes {
        add(&mut text, format!(in alloc; "{byte:02x}")?)?;
    }
    Ok(text)
}

/// Each message with its name, its time and its payload.
fn messages(alloc: Global, deliveries: &[Message]) -> Result<String, Fail> {
    let mut text = String::new(alloc);
    for message in deliveries {
        add(&mut text, message_text(alloc, message)?)?;
    }
    Ok(text)
}

fn message_text(alloc: Global, message: &Message) -> Result<String, Fail> {
    let Message {
        name,
        time,
        payload,
    } = message;
    let payload = hexadecimal(alloc, payload.as_slice())?;
    Ok(format!(in alloc; ", {name} {time} ({payload})")?)
}

/// Each frame with whom it goes to.
fn frames(alloc: Global, out: &[Outgoing]) -> Result<String, Fail> {
    let mut text = String::new(alloc);
    for frame in out {
        add(&mut text, frame_text(alloc, frame)?)?;
    }
    Ok(text)
}

fn frame_text(alloc: Global, frame: &Outgoing) -> Result<String, Fail> {
    let bytes = hexadecimal(alloc, frame.bytes.as_slice())?;
    match frame.to {
        Some(member) => Ok(format!(in alloc; ", to {member}: {bytes}")?),
        None => Ok(format!(in alloc; ", to all: {bytes}")?),
    }
}

pub fn cast_text(alloc: Global, answer: &Result<CastDone, CastRefusal>) -> Result<String, Fail> {
    match answer {
        Ok(CastDone { name, time, out }) => {
            let out = hexadecimal(alloc, out.as_slice())?;
            Ok(format!(in alloc; "{name} {time} {out}")?)
        }
        Err(refusal) => Ok(format!(in alloc; "{refusal}")?),
    }
}

/// The name and the time of the first message, how many there are, and the frame.
pub fn burst_text(alloc: Global, answer: &Result<BurstDone, BurstRefusal>) -> Result<String, Fail> {
    match answer {
        Ok(
            BurstDone {
                first,
                count,
                time,
                out,
            },
        ) => {
            let out = hexadecimal(alloc, out.as_slice())?;
            Ok(format!(in alloc; "{first} {time} {count} {out}")?)
        }
        Err(refusal) => Ok(format!(in alloc; "{refusal}")?),
    }
}

pub fn arrival_text(
    alloc: Global,
    answer: &Result<Arrival, ArriveRefusal>,
) -> Result<String, Fail> {
    match answer {
        Ok(
            Arrival::Accepted {
                deliveries,
                changed,
                out,
            },
        ) => {
            let deliveries = messages(alloc, deliveries)?;
            let out = frames(alloc, out)?;
            let state = if *changed { "changed" } else { "unchanged" };
            Ok(format!(in alloc; "{state}{deliveries}{out}")?)
        }
        Ok(Arrival::Repeat) => Ok(format!(in alloc; "repeat")?),
        Err(refusal) => Ok(format!(in alloc; "{refusal}")?),
    }
}

pub fn tick_text(alloc: Global, answer: &Result<Ticked, TickRefusal>) -> Result<String, Fail> {
    match answer {
        Ok(Ticked { entered, out }) => {
            let out = frames(alloc, out)?;
            let state = if *entered { "entered" } else { "not entered" };
            Ok(format!(in alloc; "{state}{out}")?)
        }
        Err(refusal) => Ok(format!(in alloc; "{refusal}")?),
    }
}

/// The frame with whom it goes to, where there is one.
pub fn help_text(
    alloc: Global,
    answer: &Result<Option<Outgoing>, HelpFault>,
) -> Result<String, Fail> {
    match answer {
        Ok(Some(frame)) => {
            let frame = frame_text(alloc, frame)?;
            Ok(format!(in alloc; "asks{frame}")?)
        }
        Ok(None) => Ok(format!(in alloc; "asks nobody")?),
        Err(fault) => Ok(format!(in alloc; "{fault}")?),
    }
}

/// What a call that changes something did: how many entries there are after it, and its answer.
pub fn answer<M: Made>(alloc: Global, member: &mut M, call: Call<'_>) -> Result<String, Fail> {
    match call {
        Call::Cast(_) | Call::Burst(_) | Call::Take(_) | Call::Tick => {
            let text = changing(alloc, member, call)?;
            counted(alloc, member, text)
        }
        _ => reading(alloc, member, call),
    }
}

/// The answer, behind how many entries there are then.
pub fn counted<M: Made>(alloc: Global, member: &M, text: String) -> Result<String, Fail> {
    let entries = member.entries()?.len();
    Ok(format!(in alloc; "{entries}: {text}")?)
}

/// What a call that changes something answers.
fn changing<M: Made>(alloc: Global, member: &mut M, call: Call<'_>) -> Result<String, Fail> {
    match call {
        Call::Cast(payload) => cast_text(alloc, &member.cast(payload)),
        Call::Burst(payloads) => burst_text(alloc, &member.cast_burst(payloads)),
        Call::Take(bytes) => taken_text(alloc, member, bytes),
        Call::Tick => tick_text(alloc, &member.tick()),
        _ => Err(Fail::new("a call that reads")),
    }
}

fn taken_text<M: Made>(alloc: Global, member: &mut M, bytes: &[u8]) -> Result<String, Fail> {
    let bytes = Bytes::copy_from_slice(alloc, bytes)?;
    arrival_text(alloc, &member.arrive(&bytes))
}

/// What a call that reads answers.
fn reading<M: Made>(alloc: Global, member: &M, call: Call<'_>) -> Result<String, Fail> {
    match call {
        Call::Time => time_text(alloc, member),
        Call::Events => events_text(alloc, member),
        Call::Entries => entries_text(alloc, member),
        Call::Stable => stable_text(alloc, member),
        Call::StableOf(i) => count_text(alloc, member.stable_of(i)?),
        Call::Missing(i) => missing_text(alloc, member, i),
        Call::Help(i) => help_text(alloc, &member.help(i)),
        _ => Err(Fail::new("a call that changes something")),
    }
}

fn time_text<M: Made>(alloc: Global, member: &M) -> Result<String, Fail> {
    Ok(member.time()?.to_string(alloc)?)
}

fn events_text<M: Made>(alloc: Global, member: &M) -> Result<String, Fail> {
    events(alloc, &member.events()?)
}

fn entries_text<M: Made>(alloc: Global, member: &M) -> Result<String, Fail> {
    entries(alloc, &member.entries()?)
}

fn stable_text<M: Made>(alloc: Global, member: &M) -> Result<String, Fail> {
    Ok(member.stable()?.to_string(alloc)?)
}

/// The count, of who is none nothing.
pub fn count_text(alloc: Global, count: Option<u32>) -> Result<String, Fail> {
    match count {
        Some(count) => Ok(count.to_string(alloc)?),
        None => Ok(format!(in alloc; "none")?),
    }
}

fn missing_text<M: Made>(alloc: Global, member: &M, i: u32) -> Result<String, Fail> {
    missing(alloc, &member.missing(i))
}

/// The names of the messages that were delivered then.
fn names(alloc: Global, delivered: &[Name]) -> Result<String, Fail> {
    let mut text = String::new(alloc);
    for name in delivered {
        add(&mut text, format!(in alloc; " {name}")?)?;
    }
    Ok(text)
}

/// The entries of the history, one after another.
pub fn entries(alloc: Global, entries: &[Entry]) -> Result<String, Fail> {
    let mut text = String::new(alloc);
    for entry in entries {
        add(&mut text, entry_text(alloc, entry)?)?;
    }
    Ok(text)
}

fn entry_text(alloc: Global, entry: &Entry) -> Result<String, Fail> {
    match entry {
        Entry::Cast { frame } => entry_of(alloc, "cast", frame, &[]),
        Entry::Arrive { frame, delivered } => entry_of(alloc, "arrive", frame, delivered),
        Entry::Tick { status } => entry_of(alloc, "tick", status, &[]),
    }
}

fn entry_of(alloc: Global, kind: &str, frame: &Bytes, delivered: &[Name]) -> Result<String, Fail> {
    let frame = hexadecimal(alloc, frame.as_slice())?;
    let delivered = names(alloc, delivered)?;
    Ok(format!(in alloc; "{kind} {frame}{delivered};")?)
}

pub fn missing(alloc: Global, answer: &Result<Vec<Range>, MissingFault>) -> Result<String, Fail> {
    match answer {
        Ok(found) => ranges(alloc, found),
        Err(fault) => Ok(format!(in alloc; "{fault}")?),
    }
}

/// The first and the last number of each range.
fn ranges(alloc: Global, ranges: &[Range]) -> Result<String, Fail> {
    let mut text = String::new(alloc);
    for range in ranges {
        add(
            &mut text,
            format!(in alloc; "{}-{};", range.first, range.last)?,
        )?;
    }
    Ok(text)
}

/// The events, one after another.
pub fn events(alloc: Global, events: &[Event]) -> Result<String, Fail> {
    let mut text = String::new(alloc);
    for event in events {
        add(&mut text, event_text(alloc, event)?)?;
    }
    Ok(text)
}

fn event_text(alloc: Global, event: &Event) -> Result<String, Fail> {
    let (kind, Message { name, time, .. }) = match event {
        Event::Cast(message) => ("cast", message),
        Event::Deliver(message) => ("deliver", message),
    };
    Ok(format!(in alloc; "{kind} {name} {time};")?)
}
