//! Answers as texts: the names of messages that are delivered, and what is sent, in hexadecimal.

use bytes::Bytes;
use cb_member::{
    Arrival, ArriveRefusal, BurstDone, BurstRefusal, CastDone, CastRefusal, HelpFault, Message,
    Outgoing, TickRefusal, Ticked,
};
use std::alloc::{AllocError, Global};

fn append(text: &mut String, more: String) -> Result<(), AllocError> {
    let done = text.push_str(more.as_str());
    drop(more);
    done
}

fn hexadecimal(alloc: Global, bytes: &Bytes) -> Result<String, AllocError> {
    let mut text = String::new(alloc);
    for byte in bytes.as_slice() {
        append(&mut text, format!(in alloc; "{byte:02x}")?)?;
    }
    Ok(text)
}

fn names(alloc: Global, deliveries: &[Message]) -> Result<String, AllocError> {
    let mut text = String::new(alloc);
    for message in deliveries {
        append(&mut text, format!(in alloc; " {}", message.name)?)?;
    }
    Ok(text)
}

fn frames(alloc: Global, out: &[Outgoing]) -> Result<String, AllocError> {
    let mut text = String::new(alloc);
    for frame in out {
        append(&mut text, one_frame(alloc, frame)?)?;
    }
    Ok(text)
}

fn one_frame(alloc: Global, frame: &Outgoing) -> Result<String, AllocError> {
    let bytes = hexadecimal(alloc, &frame.bytes)?;
    match frame.to {
        Some(member) => format!(in alloc; ", to {member}: {bytes}"),
        None => format!(in alloc; ", to all: {bytes}"),
    }
}

pub fn by_cast(alloc: Global, answer: Result<CastDone, CastRefusal>) -> Result<String, AllocError> {
    let said = of_cast(alloc, &answer);
    drop(answer);
    said
}

pub fn by_burst(
    alloc: Global,
    answer: Result<BurstDone, BurstRefusal>,
) -> Result<String, AllocError> {
    let said = of_burst(alloc, &answer);
    drop(answer);
    said
}

pub fn by_arrival(
    alloc: Global,
    answer: Result<Arrival, ArriveRefusal>,
) -> Result<String, AllocError> {
    let said = of_arrival(alloc, &answer);
    drop(answer);
    said
}

pub fn by_tick(alloc: Global, answer: Result<Ticked, TickRefusal>) -> Result<String, AllocError> {
    let said = of_tick(alloc, &answer);
    drop(answer);
    said
}

pub fn by_help(
    alloc: Global,
    answer: Result<Option<Outgoing>, HelpFault>,
) -> Result<String, AllocError> {
    let said = of_help(alloc, &answer);
    drop(answer);
    said
}

fn of_cast(alloc: Global, answer: &Result<CastDone, CastRefusal>) -> Result<String, AllocError> {
    match answer {
        Ok(CastDone { name, time, out }) => {
            let out = hexadecimal(alloc, out)?;
            format!(in alloc; "{name} {time} {out}")
        }
        Err(refusal) => format!(in alloc; "{refusal}"),
    }
}

/// The first name, how many messages there are, and the rest as of a cast.
fn of_burst(alloc: Global, answer: &Result<BurstDone, BurstRefusal>) -> Result<String, AllocError> {
    match answer {
        Ok(
            BurstDone {
                first,
                count,
                time,
                out,
            },
        ) => {
            let out = hexadecimal(alloc, out)?;
            format!(in alloc; "{first} {count} {time} {out}")
        }
        Err(refusal) => format!(in alloc; "{refusal}"),
    }
}

fn of_arrival(
    alloc: Global,
    answer: &Result<Arrival, ArriveRefusal>,
) -> Result<String, AllocError> {
    match answer {
        Ok(
            Arrival::Accepted {
                deliveries,
                changed,
                out,
            },
        ) => {
            let state = if *changed { "changed" } else { "unchanged" };
            let names = names(alloc, deliveries)?;
            let out = frames(alloc, out)?;
            format!(in alloc; "{state}{names}{out}")
        }
        Ok(Arrival::Repeat) => format!(in alloc; "repeat"),
        Err(refusal) => format!(in alloc; "{refusal}"),
    }
}

fn of_tick(alloc: Global, answer: &Result<Ticked, TickRefusal>) -> Result<String, AllocError> {
    match answer {
        Ok(Ticked { entered, out }) => {
            let state = if *entered { "entered" } else { "not entered" };
            let out = frames(alloc, out)?;
            format!(in alloc; "{state}{out}")
        }
        Err(refusal) => format!(in alloc; "{refusal}"),
    }
}

fn of_help(
    alloc: Global,
    answer: &Result<Option<Outgoing>, HelpFault>,
) -> Result<String, AllocError> {
    match answer {
        Ok(Some(help)) => {
            let help = one_frame(alloc, help)?;
            format!(in alloc; "help{help}")
        }
        Ok(None) => format!(in alloc; "no help"),
        Err(fault) => format!(in alloc; "{fault}"),
    }
}
