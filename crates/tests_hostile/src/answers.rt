//! What a member answered, as a text. Bytes are in hexadecimal.

use cb_frames::Range;
use cb_history::{Arrival, ArriveRefusal, Message, MissingFault, Outgoing, TickRefusal, Ticked};
use hex::encode;
use std::alloc::{AllocError, Global};

/// Takes the second text by value: who calls this has but one to drop.
fn add(text: &mut String, more: String) -> Result<(), AllocError> {
    Ok(text.push_str(more.as_str())?)
}

/// A refusal, or whether the state changed, what was delivered and what is sent.
pub fn arrival_text(
    alloc: Global,
    answer: &Result<Arrival, ArriveRefusal>,
) -> Result<String, AllocError> {
    match answer {
        Ok(
            Arrival::Accepted {
                deliveries,
                changed,
                out,
            },
        ) => {
            let deliveries = names(alloc, deliveries)?;
            let out = frames(alloc, out)?;
            let state = if *changed { "changed" } else { "unchanged" };
            Ok(format!(in alloc; "{state}{deliveries}{out}")?)
        }
        Ok(Arrival::Repeat) => Ok(format!(in alloc; "repeat")?),
        Err(refusal) => Ok(format!(in alloc; "{refusal}")?),
    }
}

/// Each message with its name and its time.
fn names(alloc: Global, deliveries: &[Message]) -> Result<String, AllocError> {
    let mut text = String::new(alloc);
    for Message { name, time, .. } in deliveries {
        add(&mut text, format!(in alloc; ", {name} {time}")?)?;
    }
    Ok(text)
}

/// Each frame with whom it goes to.
fn frames(alloc: Global, out: &[Outgoing]) -> Result<String, AllocError> {
    let mut text = String::new(alloc);
    for frame in out {
        add(&mut text, frame_text(alloc, frame)?)?;
    }
    Ok(text)
}

fn frame_text(alloc: Global, frame: &Outgoing) -> Result<String, AllocError> {
    let bytes = encode(alloc, &frame.bytes)?;
    match frame.to {
        Some(member) => Ok(format!(in alloc; ", to {member}: {bytes}")?),
        None => Ok(format!(in alloc; ", to all: {bytes}")?),
    }
}

pub fn tick_text(
    alloc: Global,
    answer: &Result<Ticked, TickRefusal>,
) -> Result<String, AllocError> {
    match answer {
        Ok(Ticked { entered, out }) => {
            let out = frames(alloc, out)?;
            let state = if *entered { "entered" } else { "not entered" };
            Ok(format!(in alloc; "{state}{out}")?)
        }
        Err(refusal) => Ok(format!(in alloc; "{refusal}")?),
    }
}

/// The first and the last number of each range.
pub fn missing_text(
    alloc: Global,
    answer: &Result<Vec<Range>, MissingFault>,
) -> Result<String, AllocError> {
    match answer {
        Ok(found) => ranges(alloc, found),
        Err(fault) => Ok(format!(in alloc; "{fault}")?),
    }
}

fn ranges(alloc: Global, ranges: &[Range]) -> Result<String, AllocError> {
    let mut text = String::new(alloc);
    for range in ranges {
        add(
            &mut text,
            format!(in alloc; "{}-{};", range.first, range.last)?,
        )?;
    }
    Ok(text)
}
