//! The calls of members.

use crate::words::{bytes_of, numbers_of, payload_of, payloads_of};
use bytes::Bytes;
use cb_lines::{LineFault, number_of};
use cb_times::NoMemory;
use std::alloc::Global;

/// A call of a member.
#[derive(Drop)]
pub enum Call {
    /// To cast this payload.
    Cast(Vec<u8>),
    /// To cast a message of each of these payloads.
    Burst(Vec<Vec<u8>>),
    /// To take these bytes, which were received.
    Take(Bytes),
    Tick,
    Read(Reading),
    /// To ask one of these members for what is missing of one.
    HelpAmong(u32, Vec<u32>),
}

/// A reading of a member.
#[derive(Clone, Copy)]
pub enum Reading {
    Time,
    Events,
    Entries,
    Waiting,
    OwnStable,
    /// Something of another member.
    Of(Matter, u32),
}

/// A reading about another member.
#[derive(Clone, Copy)]
pub enum Matter {
    Stable,
    Delivered,
    Acknowledged,
    Full,
    Waits,
    Missing,
    Help,
}

/// The readings without a number.
const ALONE: [(&str, Reading); 5] = [
    ("time", Reading::Time),
    ("events", Reading::Events),
    ("entries", Reading::Entries),
    ("waiting", Reading::Waiting),
    ("stable", Reading::OwnStable),
];

/// The readings with the number of a member.
const MATTERS: [(&str, Matter); 7] = [
    ("stable", Matter::Stable),
    ("delivered", Matter::Delivered),
    ("acknowledged", Matter::Acknowledged),
    ("full", Matter::Full),
    ("waits", Matter::Waits),
    ("missing", Matter::Missing),
    ("help", Matter::Help),
];

/// The value of the word.
fn found<T: Copy>(table: &[(&str, T)], word: &str) -> Result<T, LineFault> {
    for (name, value) in table {
        if *name == word {
            return Ok(*value);
        }
    }
    Err(LineFault::NoLine)
}

/// The first word, and the others.
pub fn split_word(line: &str) -> (&str, &str) {
    line.split_once(' ').unwrap_or((line, ""))
}

/// The call of this line.
pub fn call_of(alloc: Global, line: &str) -> Result<Call, LineFault> {
    let (word, rest) = split_word(line);
    match word {
        "cast" => Ok(Call::Cast(payload_of(alloc, rest)?)),
        "burst" => Ok(Call::Burst(payloads_of(alloc, rest)?)),
        "take" => taken(bytes_of(alloc, rest)?),
        "tick" => Ok(Call::Tick),
        _ => reading_call(alloc, word, rest),
    }
}

fn taken(bytes: Vec<u8>) -> Result<Call, LineFault> {
    Ok(Call::Take(Bytes::from_vec(bytes)?))
}

fn reading_call(alloc: Global, word: &str, rest: &str) -> Result<Call, LineFault> {
    if rest.is_empty() {
        return Ok(Call::Read(found(&ALONE, word)?));
    }
    let matter = found(&MATTERS, word)?;
    match rest.split_once(" among") {
        Some((number, members)) if matches!(matter, Matter::Help) => among(alloc, number, members),
        _ => Ok(Call::Read(Reading::Of(matter, number_of(rest.as_bytes())?))),
    }
}

fn among(alloc: Global, number: &str, members: &str) -> Result<Call, LineFault> {
    let number = number_of(number.as_bytes())?;
    Ok(Call::HelpAmong(number, numbers_of(alloc, members)?))
}

/// A slice of each payload.
pub fn slices_of(alloc: Global, payloads: &[Vec<u8>]) -> Result<Vec<&[u8]>, NoMemory> {
    payloads
        .iter()
        .map(|payload| payload.as_slice())
        .collect(alloc)
}
