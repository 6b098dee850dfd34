//! A member, and its journal.

use crate::fault::Fault;
use crate::member::{cast, receive, tick};
use bytes::Bytes;
use cb_history::Outgoing;
use cb_journal::{Device, JournalWriter};
use cb_member::Member;
use std::alloc::Global;

/// A member, and its journal where one is kept.
#[derive(Drop)]
pub struct Desk<D> {
    member: Member,
    journal: Option<JournalWriter<D>>,
    /// How many entries stand in the journal.
    kept: usize,
}

impl<D: Device + Drop> Desk<D> {
    /// A member whose journal, where one is kept, goes to this device.
    pub fn new(alloc: Global, member: Member, device: Option<D>) -> Result<Desk<D>, Fault> {
        let journal = match device {
            Some(device) => Some(JournalWriter::begin(alloc, device, member.seat())?),
            None => None,
        };
        Ok(Desk {
            member,
            journal,
            kept: 0,
        })
    }

    /// How many entries the member has.
    pub fn entries(&self) -> usize {
        self.member.history().len()
    }

    /// The frame of one more cast; none where a rule refuses it.
    pub fn cast(&mut self, payload: &[u8]) -> Result<Option<Bytes>, Fault> {
        let frame = cast(&mut self.member, payload)?;
        self.keep()?;
        Ok(frame)
    }

    /// How many messages are delivered by this frame.
    pub fn take(&mut self, frame: &Bytes) -> Result<u64, Fault> {
        let delivered = receive(&mut self.member, frame)?;
        self.keep()?;
        Ok(delivered as u64)
    }

    /// What a tick sends.
    pub fn tick(&mut self) -> Result<Vec<Outgoing>, Fault> {
        let out = tick(&mut self.member)?;
        self.keep()?;
        Ok(out)
    }

    /// Writes the entry that the last call added, if it did. A call adds one at most.
    fn keep(&mut self) -> Result<(), Fault> {
        let Some(journal) = &mut self.journal else {
            return Ok(());
        };
        if let Some(entry) = self.member.history().get(self.kept) {
            journal.append(entry)?;
            self.kept = self.kept.saturating_add(1);
        }
        Ok(())
    }
}
