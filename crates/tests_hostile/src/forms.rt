//! One member in three forms, which are asked the same: a plain one, a quick one, and one that keeps no history.

use crate::answers::{arrival_text, missing_text, tick_text};
use bytes::Bytes;
use cb_frames::Range;
use cb_history::{Arrival, ArriveRefusal, Entry, Event, Group, Message, MissingFault};
use cb_member::{CoreMember, Member};
use cb_reference::ReferenceMember;
use std::alloc::{AllocError, Global};
use std::process::Abort;
use std::test::*;

/// More entries than any of these tests makes.
const ROOM: usize = 100;

#[derive(Drop)]
pub struct Forms {
    plain: ReferenceMember,
    quick: Member,
    core: CoreMember,
    /// What the member without history handed out.
    entries: Vec<Entry>,
    events: Vec<Event>,
}

impl Forms {
    /// A member of the group without entries.
    pub fn new(rt: &impl Abort, alloc: Global, group: Group, me: u32) -> Forms {
        Forms {
            plain: ReferenceMember::new(alloc, group, me, ROOM).expect(rt, "a member"),
            quick: Member::new(alloc, group, me, ROOM).expect(rt, "a member"),
            core: CoreMember::new(alloc, group, me).expect(rt, "a core"),
            entries: Vec::new(alloc),
            events: Vec::new(alloc),
        }
    }

    /// What all three answer to these bytes.
    pub fn take(&mut self, rt: &impl Abort, alloc: Global, bytes: &[u8]) -> String {
        let bytes = Bytes::copy_from_slice(alloc, bytes).expect(rt, "memory");
        let plain = arrival_text(alloc, &self.plain.arrive(&bytes));
        let quick = arrival_text(alloc, &self.quick.arrive(&bytes));
        let core = arrival_text(alloc, &self.arrive_at_core(rt, alloc, &bytes));
        drop(bytes);
        agreed(rt, plain, quick, core)
    }

    fn arrive_at_core(
        &mut self,
        rt: &impl Abort,
        alloc: Global,
        bytes: &Bytes,
    ) -> Result<Arrival, ArriveRefusal> {
        let before = self.events.len();
        let (received, entry) = self.core.receive_noted(bytes, &mut self.events)?;
        self.keep(rt, entry);
        Ok(received.arrival(self.deliveries_from(rt, alloc, before)))
    }

    fn keep(&mut self, rt: &impl Abort, entry: Option<Entry>) {
        if let Some(entry) = entry {
            self.entries.push(entry).expect(rt, "memory");
        }
    }

    /// The messages of the events from this one on.
    fn deliveries_from(&self, rt: &impl Abort, alloc: Global, first: usize) -> Vec<Message> {
        let mut deliveries = Vec::new(alloc);
        for event in self.events.iter().skip(first) {
            let message = event.message().copy().expect(rt, "memory");
            deliveries.push(message).expect(rt, "memory");
        }
        deliveries
    }

    /// What all three send when they tick.
    pub fn tick(&mut self, rt: &impl Abort, alloc: Global) -> String {
        let plain = tick_text(alloc, &self.plain.tick());
        let quick = tick_text(alloc, &self.quick.tick());
        let core = match self.core.tick_noted() {
            Ok((ticked, entry)) => {
                self.keep(rt, entry);
                tick_text(alloc, &Ok(ticked))
            }
            Err(refusal) => tick_text(alloc, &Err(refusal)),
        };
        agreed(rt, plain, quick, core)
    }

    /// All three cast an empty message.
    pub fn cast(&mut self, rt: &impl Abort) {
        let plain = self.plain.cast(b"").is_ok();
        let quick = self.quick.cast(b"").is_ok();
        let core = match self.core.cast(b"", &mut self.events) {
            Ok((frame, entry)) => {
                drop(frame);
                self.keep(rt, Some(entry));
                true
            }
            Err(_) => false,
        };
        assert!(rt; plain && quick && core);
    }

    /// The casts of a member that all three miss.
    pub fn missing(&self, rt: &impl Abort, alloc: Global, i: u32) -> String {
        let plain = missing_text(alloc, &self.plain.missing(i));
        let quick = missing_text(alloc, &self.quick.missing(i));
        let core = missing_text(alloc, &self.core.missing(i));
        agreed(rt, plain, quick, core)
    }

    /// The time of all three.
    pub fn time(&self, rt: &impl Abort, alloc: Global) -> String {
        let time = self.quick.time().to_string(alloc).expect(rt, "memory");
        assert!(rt; self.core.time().as_slice() == self.quick.time().as_slice());
        time
    }

    /// Gives another member, which has no entries, the frames of the entries.
    pub fn replay(&self, rt: &impl Abort, alloc: Global, other: &mut Forms) {
        for entry in self.quick.history() {
            if let Entry::Arrive { frame, .. } = entry {
                drop(other.take(rt, alloc, frame.as_slice()));
            }
        }
    }

    /// Whether both members have done the same and know the same of the others. All that a plain one knows stands in its history.
    pub fn is_like(&self, other: &Forms) -> bool {
        self.quick.history() == other.quick.history()
            && self.plain.history() == other.quick.history()
            && self.entries.as_slice() == other.quick.history()
            && are_same_events(self.quick.events(), other.quick.events())
            && are_same_events(self.events.as_slice(), other.quick.events())
            && self.quick.time().as_slice() == other.quick.time().as_slice()
            && self.core.time().as_slice() == other.quick.time().as_slice()
            && self.knows_as(other)
    }

    /// Whether both know the same of each member.
    fn knows_as(&self, other: &Forms) -> bool {
        for i in 0..self.quick.seat().group().size() {
            let stable = other.quick.stable_of(i);
            let missing = other.quick.missing(i);
            let is_same = self.quick.stable_of(i) == stable
                && self.core.stable_of(i) == stable
                && are_same_ranges(&self.quick.missing(i), &missing)
                && are_same_ranges(&self.core.missing(i), &missing);
            drop(missing);
            if !is_same {
                return false;
            }
        }
        true
    }
}

/// The answer, which all gave.
fn agreed(
    rt: &impl Abort,
    plain: Result<String, AllocError>,
    quick: Result<String, AllocError>,
    core: Result<String, AllocError>,
) -> String {
    let plain = plain.expect(rt, "memory");
    is_text(rt, quick.expect(rt, "memory"), &plain);
    is_text(rt, core.expect(rt, "memory"), &plain);
    plain
}

pub fn is_text(rt: &impl Abort, text: String, expected: &str) {
    assert_eq!(rt; text.as_str(), expected);
}

fn are_same_ranges(
    one: &Result<Vec<Range>, MissingFault>,
    other: &Result<Vec<Range>, MissingFault>,
) -> bool {
    match (one, other) {
        (Ok(one), Ok(other)) => one.as_slice() == other.as_slice(),
        (Err(one), Err(other)) => one == other,
        _ => false,
    }
}

fn are_same_events(one: &[Event], other: &[Event]) -> bool {
    one.len() == other.len() && one.iter().zip(other).all(is_same_event)
}

fn is_same_event((one, other): (&Event, &Event)) -> bool {
    let is_same_kind = matches!(one, Event::Cast(_)) == matches!(other, Event::Cast(_));
    let (one, other) = (one.message(), other.message());
    is_same_kind
        && one.name == other.name
        && one.time.as_slice() == other.time.as_slice()
        && one.payload == other.payload
}
