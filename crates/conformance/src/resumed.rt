//! A member that comes back by its journal before each call.

use crate::call::Reading;
use crate::readings::read_member;
use crate::seat::{Place, Seated};
use crate::texts::{put_arrival, put_burst, put_cast, put_help, put_line, put_tick};
use bytes::Bytes;
use cb_journal::{JournalWriter, read_journal};
use cb_member::{
    Arrival, ArriveRefusal, BurstDone, BurstRefusal, CastDone, CastRefusal, Entry, Member,
    NewFault, Outgoing, TickRefusal, Ticked,
};
use cb_replay::resume;
use cb_times::NoMemory;
use std::alloc::Global;
use std::mem;

/// The journal of a member, which is all of it between two calls.
#[derive(Drop)]
pub struct Resumed {
    alloc: Global,
    journal: Vec<u8>,
    limit: usize,
}

/// A member's answer, and the entry that its call added. `None` if the member did not come back.
type Noted<D, F> = Option<Result<(D, Option<Entry>), F>>;

impl Resumed {
    /// The member that comes back.
    fn member(&self) -> Option<Member> {
        let journal = read_journal(self.alloc, &self.journal).ok()?;
        resume(self.alloc, journal.history, self.limit).ok()
    }

    /// The writer that continues the journal, which is empty from then on.
    fn writer(&mut self) -> Option<JournalWriter<Vec<u8>>> {
        let journal = read_journal(self.alloc, &self.journal).ok()?;
        let device = mem::replace(&mut self.journal, Vec::new(self.alloc));
        let writer = JournalWriter::go_on(self.alloc, device, &journal);
        drop(journal);
        writer.ok()
    }

    /// Writes the entry's line.
    fn append(&mut self, entry: &Entry) -> bool {
        match self.writer() {
            Some(writer) => self.write(writer, entry),
            None => false,
        }
    }

    fn write(&mut self, writer: JournalWriter<Vec<u8>>, entry: &Entry) -> bool {
        let mut writer = writer;
        let is_written = writer.append(entry).is_ok();
        self.journal = writer.into_device();
        is_written
    }

    /// Writes the line of the entry, where there is one. Whether it was written.
    fn keep<D, F>(&mut self, noted: &Noted<D, F>) -> bool {
        match noted {
            Some(Ok((_, Some(entry)))) => self.append(entry),
            _ => true,
        }
    }

    fn cast_noted(&self, payload: &[u8]) -> Noted<CastDone, CastRefusal> {
        let mut member = self.member()?;
        let noted = member.cast_noted(payload);
        drop(member);
        Some(entered(noted))
    }

    fn burst_noted(&self, payloads: &[&[u8]]) -> Noted<BurstDone, BurstRefusal> {
        let mut member = self.member()?;
        let noted = member.cast_burst_noted(payloads);
        drop(member);
        Some(entered(noted))
    }

    fn arrive_noted(&self, bytes: &Bytes) -> Noted<Arrival, ArriveRefusal> {
        let mut member = self.member()?;
        let noted = member.arrive_noted(bytes);
        drop(member);
        Some(noted)
    }

    fn receive_noted(&self, bytes: &Bytes) -> Noted<Vec<Outgoing>, ArriveRefusal> {
        let mut member = self.member()?;
        let noted = member.receive_noted(bytes);
        drop(member);
        Some(noted)
    }

    fn tick_noted(&self) -> Noted<Ticked, TickRefusal> {
        let mut member = self.member()?;
        let noted = member.tick_noted();
        drop(member);
        Some(noted)
    }

    /// Whether `receive_noted` returns the same frames and entry.
    fn is_received(&self, bytes: &Bytes, arrived: &Noted<Arrival, ArriveRefusal>) -> bool {
        let received = self.receive_noted(bytes);
        let is_same = is_told(&received, arrived);
        drop(received);
        is_same
    }
}

impl Seated for Resumed {
    fn name() -> Option<&'static str> {
        Some("resumed")
    }

    fn seated(alloc: Global, place: Place) -> Result<Option<Resumed>, NewFault> {
        let member = Member::new(alloc, place.group, place.me, place.room())?;
        let seat = member.seat();
        drop(member);
        match JournalWriter::begin(alloc, Vec::new(alloc), seat) {
            Ok(writer) => Ok(Some(Resumed {
                alloc,
                journal: writer.into_device(),
                limit: place.room(),
            })),
            Err(_) => Err(NewFault::NoMemory),
        }
    }

    fn cast(&mut self, payload: &[u8], text: &mut Vec<u8>) -> Result<(), NoMemory> {
        let noted = self.cast_noted(payload);
        let put = match answer_in(&noted) {
            Some(answer) => put_cast(text, answer),
            None => put_not_back(text),
        };
        let is_kept = self.keep(&noted);
        drop(noted);
        put?;
        put_unless(is_kept, text)
    }

    fn burst(&mut self, payloads: &[&[u8]], text: &mut Vec<u8>) -> Result<(), NoMemory> {
        let noted = self.burst_noted(payloads);
        let put = match answer_in(&noted) {
            Some(answer) => put_burst(text, answer),
            None => put_not_back(text),
        };
        let is_kept = self.keep(&noted);
        drop(noted);
        put?;
        put_unless(is_kept, text)
    }

    fn take(&mut self, bytes: &Bytes, text: &mut Vec<u8>) -> Result<(), NoMemory> {
        let noted = self.arrive_noted(bytes);
        let put = match answer_in(&noted) {
            Some(answer) => put_arrival(text, answer),
            None => put_not_back(text),
        };
        let is_kept = self.is_received(bytes, &noted) && self.keep(&noted);
        drop(noted);
        put?;
        put_unless(is_kept, text)
    }

    fn tick(&mut self, text: &mut Vec<u8>) -> Result<(), NoMemory> {
        let noted = self.tick_noted();
        let put = match answer_in(&noted) {
            Some(answer) => put_tick(text, answer),
            None => put_not_back(text),
        };
        let is_kept = self.keep(&noted);
        drop(noted);
        put?;
        put_unless(is_kept, text)
    }

    fn read(&self, reading: Reading, text: &mut Vec<u8>) -> Result<(), NoMemory> {
        match self.member() {
            Some(member) => {
                let put = read_member(&member, reading, text);
                drop(member);
                put
            }
            None => put_not_back(text),
        }
    }

    fn help_among(&self, i: u32, members: &[u32], text: &mut Vec<u8>) -> Result<(), NoMemory> {
        match self.member() {
            Some(member) => {
                let help = member.help_among(i, members);
                drop(member);
                put_help(text, &help)
            }
            None => put_not_back(text),
        }
    }
}

fn put_not_back(text: &mut Vec<u8>) -> Result<(), NoMemory> {
    put_line(text, "not back")
}

fn put_unless(is_kept: bool, text: &mut Vec<u8>) -> Result<(), NoMemory> {
    if is_kept {
        return Ok(());
    }
    put_line(text, "noted otherwise")
}

/// A cast always adds an entry.
fn entered<D, F>(noted: Result<(D, Entry), F>) -> Result<(D, Option<Entry>), F> {
    match noted {
        Ok((done, entry)) => Ok((done, Some(entry))),
        Err(refusal) => Err(refusal),
    }
}

fn answer_in<D, F>(noted: &Noted<D, F>) -> Option<Result<&D, &F>> {
    match noted {
        Some(Ok((done, _))) => Some(Ok(done)),
        Some(Err(refusal)) => Some(Err(refusal)),
        None => None,
    }
}

/// Whether both calls returned the same, but for the deliveries.
fn is_told(
    received: &Noted<Vec<Outgoing>, ArriveRefusal>,
    arrived: &Noted<Arrival, ArriveRefusal>,
) -> bool {
    match (received, arrived) {
        (Some(Ok((sent, entry))), Some(Ok((arrival, noted)))) => {
            *entry == *noted && are_same(sent, sent_by(arrival))
        }
        (Some(Err(one)), Some(Err(other))) => *one == *other,
        _ => false,
    }
}

fn sent_by(arrival: &Arrival) -> &[Outgoing] {
    match arrival {
        Arrival::Accepted { out, .. } => out,
        Arrival::Repeat => &[],
    }
}

fn are_same(one: &[Outgoing], other: &[Outgoing]) -> bool {
    one.len() == other.len() && one.iter().zip(other.iter()).all(is_same)
}

fn is_same(both: (&Outgoing, &Outgoing)) -> bool {
    both.0.to == both.1.to && both.0.bytes == both.1.bytes
}
