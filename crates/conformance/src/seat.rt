//! The member of a stanza, whichever kind it is of.

use crate::call::{Call, Reading, call_of, slices_of, split_word};
use crate::player::Player;
use crate::texts::put_refusal;
use bytes::Bytes;
use cb_lines::{LineFault, number_of};
use cb_member::{BadGroup, Group, NewFault};
use cb_times::NoMemory;
use std::alloc::{AllocError, Global};
use std::str::SplitWhitespace;

/// The limit of the history, if the stanza has none.
const ROOM: usize = 1_000;

/// A member of a group, and the limit of its history, if the stanza has one.
#[derive(Clone, Copy)]
pub struct Place {
    pub group: Group,
    pub me: u32,
    pub limit: Option<usize>,
}

impl Place {
    pub fn room(&self) -> usize {
        self.limit.unwrap_or(ROOM)
    }
}

/// A member of some kind, which writes what it answers.
pub trait Seated: Drop + Sized {
    /// The name of its kind, for answers that differ. The kind without a name answers first.
    fn name() -> Option<&'static str>;

    /// `None` if its kind does not play.
    fn seated(alloc: Global, place: Place) -> Result<Option<Self>, NewFault>;

    fn cast(&mut self, payload: &[u8], text: &mut Vec<u8>) -> Result<(), NoMemory>;

    fn burst(&mut self, payloads: &[&[u8]], text: &mut Vec<u8>) -> Result<(), NoMemory>;

    fn take(&mut self, bytes: &Bytes, text: &mut Vec<u8>) -> Result<(), NoMemory>;

    fn tick(&mut self, text: &mut Vec<u8>) -> Result<(), NoMemory>;

    /// Writes nothing where its kind has no such reading.
    fn read(&self, reading: Reading, text: &mut Vec<u8>) -> Result<(), NoMemory>;

    /// Writes nothing where its kind has no such call.
    fn help_among(&self, i: u32, members: &[u32], text: &mut Vec<u8>) -> Result<(), NoMemory>;
}

/// The seat of the member of a stanza.
#[derive(Drop)]
pub struct Seat<M> {
    alloc: Global,
    /// None where no member was made, or its kind does not play.
    member: Option<M>,
}

impl<M: Seated> Player for Seat<M> {
    fn new(alloc: Global) -> Seat<M> {
        Seat {
            alloc,
            member: None,
        }
    }

    fn name() -> Option<&'static str> {
        M::name()
    }

    fn play(&mut self, call: &str, text: &mut Vec<u8>) -> Result<bool, LineFault> {
        let (word, rest) = split_word(call);
        match word {
            "decode" | "stream" | "feed" => Ok(false),
            "member" => self.begin(rest, text),
            _ => self.answer(call, text),
        }
    }
}

impl<M: Seated> Seat<M> {
    /// Makes the member of these words. Whether it plays, or is refused.
    fn begin(&mut self, words: &str, text: &mut Vec<u8>) -> Result<bool, LineFault> {
        self.member = None;
        match place_of(words)? {
            Some(place) => Ok(self.sit(place, text)?),
            None => {
                put_refusal(text, BadGroup)?;
                Ok(true)
            }
        }
    }

    fn sit(&mut self, place: Place, text: &mut Vec<u8>) -> Result<bool, NoMemory> {
        match M::seated(self.alloc, place) {
            Ok(member) => {
                self.member = member;
                Ok(self.member.is_some())
            }
            Err(NewFault::NoMemory) => Err(AllocError),
            Err(fault) => {
                put_refusal(text, fault)?;
                Ok(true)
            }
        }
    }

    fn answer(&mut self, call: &str, text: &mut Vec<u8>) -> Result<bool, LineFault> {
        let call = call_of(self.alloc, call)?;
        let played = match &mut self.member {
            Some(member) => play(self.alloc, member, &call, text),
            None => Ok(()),
        };
        drop(call);
        played?;
        Ok(!text.is_empty())
    }
}

/// Writes the member's answer to the call.
fn play<M: Seated>(
    alloc: Global,
    member: &mut M,
    call: &Call,
    text: &mut Vec<u8>,
) -> Result<(), NoMemory> {
    match call {
        Call::Cast(payload) => member.cast(payload, text),
        Call::Burst(payloads) => play_burst(alloc, member, payloads, text),
        Call::Take(bytes) => member.take(bytes, text),
        Call::Tick => member.tick(text),
        Call::Read(reading) => member.read(*reading, text),
        Call::HelpAmong(i, members) => member.help_among(*i, members, text),
    }
}

fn play_burst<M: Seated>(
    alloc: Global,
    member: &mut M,
    payloads: &[Vec<u8>],
    text: &mut Vec<u8>,
) -> Result<(), NoMemory> {
    let slices = slices_of(alloc, payloads)?;
    member.burst(&slices, text)
}

/// The number after this word.
fn next(words: &mut SplitWhitespace<'_>, name: &str) -> Result<u32, LineFault> {
    if words.next() != Some(name) {
        return Err(LineFault::NoLine);
    }
    number(words)
}

fn number(words: &mut SplitWhitespace<'_>) -> Result<u32, LineFault> {
    match words.next() {
        Some(word) => number_of(word.as_bytes()),
        None => Err(LineFault::NoLine),
    }
}

/// The member of these words, as `2 of 3 group 7 window 4`. `None` if there is no such group.
fn place_of(words: &str) -> Result<Option<Place>, LineFault> {
    let mut words = words.split_whitespace();
    let me = number(&mut words)?;
    let size = next(&mut words, "of")?;
    let group = next(&mut words, "group")?;
    let window = next(&mut words, "window")?;
    let limit = limit_of(&mut words)?;
    match Group::new(group, size, window) {
        Ok(group) => Ok(Some(Place { group, me, limit })),
        Err(_) => Ok(None),
    }
}

/// The limit of the history, where the words go on with one.
fn limit_of(words: &mut SplitWhitespace<'_>) -> Result<Option<usize>, LineFault> {
    match words.next() {
        Some("history") => Ok(Some(number(words)? as usize)),
        Some(_) => Err(LineFault::NoLine),
        None => Ok(None),
    }
}
