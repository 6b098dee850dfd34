//! What is counted of all members.

use crate::caster::Caster;
use crate::soak::Uneven;
use cb_member::Entry;
use cb_threads::{Gathering, MemberReport};
use std::fmt;

/// So many names of what was delivered lie in the entry itself; more have memory of their own.
const NAMES_IN_ENTRY: usize = 2;

/// What is counted of all members. The counts stay at their greatest value.
#[derive(Clone, Copy, Drop)]
pub struct Tally {
    pub casts: u64,
    /// The messages of others that were delivered.
    pub deliveries: u64,
    /// The messages that talkers were shown.
    shown: u64,
    entries: u64,
    /// The frames that members made, in their histories.
    frames: u64,
    /// Their bytes.
    made: u64,
    /// The bytes of the frames that came.
    came: u64,
    /// The names of what was delivered that lie outside of their entries.
    names: u64,
    refused: u64,
    lost: u64,
    /// How often a link or a pace failed.
    failures: u64,
    /// How many workers did not run.
    faults: u64,
    /// How many histories are full.
    full: u64,
}

impl Tally {
    /// Of no member.
    pub fn none() -> Tally {
        Tally {
            casts: 0,
            deliveries: 0,
            shown: 0,
            entries: 0,
            frames: 0,
            made: 0,
            came: 0,
            names: 0,
            refused: 0,
            lost: 0,
            failures: 0,
            faults: 0,
            full: 0,
        }
    }

    /// And what this member reports.
    pub fn add_report<I, O>(&mut self, report: &MemberReport<I, O, Uneven, Gathering<Caster>>) {
        self.casts = self.casts.saturating_add(report.casts);
        self.deliveries = self.deliveries.saturating_add(report.deliveries);
        self.entries = self.entries.saturating_add(report.entries);
        self.refused = self.refused.saturating_add(report.refused);
        self.lost = self.lost.saturating_add(report.lost);
        let failures = report.receive_failures.saturating_add(report.send_failures);
        self.failures = self.failures.saturating_add(failures);
        if report.fault.is_some() {
            self.faults = self.faults.saturating_add(1);
        }
        if let Some(talker) = &report.talker {
            self.shown = self.shown.saturating_add(talker.inner().seen());
        }
    }

    /// And the frames of a history that may have so many entries.
    pub fn add_history(&mut self, history_max: usize, entries: &[Entry]) {
        if entries.len() >= history_max {
            self.full = self.full.saturating_add(1);
        }
        for entry in entries {
            self.add_entry(entry);
        }
    }

    fn add_entry(&mut self, entry: &Entry) {
        match entry {
            Entry::Cast { frame } => self.add_made(frame.len()),
            Entry::Arrive { frame, delivered } => {
                self.came = self.came.saturating_add(frame.len() as u64);
                if delivered.len() > NAMES_IN_ENTRY {
                    self.names = self.names.saturating_add(delivered.len() as u64);
                }
            }
            Entry::Tick { status } => self.add_made(status.len()),
        }
    }

    /// And a frame of so many bytes that a member made.
    fn add_made(&mut self, bytes: usize) {
        self.frames = self.frames.saturating_add(1);
        self.made = self.made.saturating_add(bytes as u64);
    }
}

impl fmt::Display for Tally {
    fn fmt<W: fmt::Write>(&self, f: &mut fmt::Formatter<W>) -> fmt::Result {
        write!(f, "casts {} deliveries {}", self.casts, self.deliveries)?;
        write!(f, " shown {} entries {}", self.shown, self.entries)?;
        write!(f, " frames {} made {}", self.frames, self.made)?;
        write!(f, " came {} names {}", self.came, self.names)?;
        write!(f, " refused {} lost {}", self.refused, self.lost)?;
        write!(
            f,
            " failures {} faults {} full {}",
            self.failures, self.faults, self.full
        )
    }
}
