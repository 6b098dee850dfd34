//! A member that keeps no history.

use crate::call::{Matter, Reading};
use crate::seat::{Place, Seated};
use crate::texts::{
    put_count, put_entries, put_help, put_is, put_line, put_made, put_made_burst, put_missing,
    put_received_all, put_reported, put_time_line, put_waits,
};
use bytes::Bytes;
use cb_member::{Kept, NewFault};
use cb_times::NoMemory;
use std::alloc::Global;

/// A member that keeps no history, and the lines of the entries that its calls added.
#[derive(Drop)]
pub struct Bare {
    kept: Kept,
    entries: Vec<u8>,
}

impl Bare {
    /// Notes the entry of the last call, unless that was refused.
    fn note(&mut self, is_done: bool) -> Result<(), NoMemory> {
        if is_done {
            return put_entries(&mut self.entries, self.kept.entries());
        }
        Ok(())
    }

    fn put_noted(&self, text: &mut Vec<u8>) -> Result<(), NoMemory> {
        if self.entries.is_empty() {
            return put_line(text, "none");
        }
        text.extend_from_slice(&self.entries)
    }
}

impl Seated for Bare {
    fn name() -> Option<&'static str> {
        Some("without history")
    }

    /// It does not know a limit.
    fn seated(alloc: Global, place: Place) -> Result<Option<Bare>, NewFault> {
        if place.limit.is_some() {
            return Ok(None);
        }
        let kept = Kept::new(alloc, place.group, place.me, 0)?;
        Ok(Some(Bare {
            kept,
            entries: Vec::new(alloc),
        }))
    }

    fn cast(&mut self, payload: &[u8], text: &mut Vec<u8>) -> Result<(), NoMemory> {
        let answer = self.kept.cast(payload);
        let put = put_made(text, answer.as_ref(), self.kept.events());
        let noted = self.note(answer.is_ok());
        drop(answer);
        put?;
        noted
    }

    fn burst(&mut self, payloads: &[&[u8]], text: &mut Vec<u8>) -> Result<(), NoMemory> {
        let answer = self.kept.cast_burst(payloads);
        let put = put_made_burst(text, answer.as_ref(), self.kept.events());
        let noted = self.note(answer.is_ok());
        drop(answer);
        put?;
        noted
    }

    fn take(&mut self, bytes: &Bytes, text: &mut Vec<u8>) -> Result<(), NoMemory> {
        let answer = self.kept.receive(bytes, false);
        let put = put_received_all(text, answer.as_ref(), self.kept.events());
        let noted = self.note(answer.is_ok());
        drop(answer);
        put?;
        noted
    }

    fn tick(&mut self, text: &mut Vec<u8>) -> Result<(), NoMemory> {
        let answer = self.kept.tick();
        let put = put_reported(text, answer.as_ref(), self.kept.entries());
        let noted = self.note(answer.is_ok());
        drop(answer);
        put?;
        noted
    }

    fn read(&self, reading: Reading, text: &mut Vec<u8>) -> Result<(), NoMemory> {
        match reading {
            Reading::Time => put_time_line(text, self.kept.time()),
            Reading::Events => Ok(()),
            Reading::Entries => self.put_noted(text),
            Reading::Waiting => put_count(text, Some(self.kept.waiting())),
            Reading::OwnStable => put_count(text, Some(self.kept.stable())),
            Reading::Of(matter, i) => read_of(&self.kept, matter, i, text),
        }
    }

    fn help_among(&self, i: u32, members: &[u32], text: &mut Vec<u8>) -> Result<(), NoMemory> {
        put_help(text, &self.kept.help_among(i, members))
    }
}

fn read_of(kept: &Kept, matter: Matter, i: u32, text: &mut Vec<u8>) -> Result<(), NoMemory> {
    match matter {
        Matter::Stable => put_count(text, kept.stable_of(i)),
        Matter::Delivered => put_count(text, kept.delivered_of(i)),
        Matter::Acknowledged => put_count(text, kept.acknowledged_by(i)),
        Matter::Full => put_is(text, kept.keeps_window_full(i)),
        Matter::Waits => put_waits(text, kept.waits_for(i)),
        Matter::Missing => put_missing(text, &kept.missing(i)),
        Matter::Help => put_help(text, &kept.help(i)),
    }
}
