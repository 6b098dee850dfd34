//! Calls of a member that keeps no history, whose texts are those of a member whose history has room.

use crate::agreement::calls::{
    Call, arrival_text, burst_text, cast_text, count_text, entries, events, help_text, missing,
    tick_text,
};
use bytes::Bytes;
use cb_history::{
    Arrival, ArriveRefusal, BurstDone, BurstRefusal, CastDone, CastRefusal, Entry, Event, Group,
    Message, TickRefusal, Ticked,
};
use cb_member::{CoreMember, Received};
use std::alloc::Global;
use std::test::Fail;

pub fn core_of(alloc: Global, group: Group, me: u32) -> Result<CoreMember, Fail> {
    let made = CoreMember::new(alloc, group, me);
    Ok(made.ok().ok_or("a core")?)
}

/// What a core answers.
pub fn answer(alloc: Global, core: &mut CoreMember, call: Call<'_>) -> Result<String, Fail> {
    match call {
        Call::Cast(payload) => {
            let mut events = Vec::new(alloc);
            let cast = core.cast(payload, &mut events);
            cast_text(alloc, &told_of_cast(cast, &events)?.0)
        }
        Call::Burst(payloads) => {
            let mut events = Vec::new(alloc);
            let burst = core.cast_burst(payloads, &mut events);
            burst_text(alloc, &told_of_burst(burst, &events)?.0)
        }
        Call::Take(bytes) => taken_text(alloc, core, bytes),
        Call::Tick => tick_text(alloc, &core.tick()),
        _ => reading(alloc, core, call),
    }
}

fn taken_text(alloc: Global, core: &mut CoreMember, bytes: &[u8]) -> Result<String, Fail> {
    let bytes = Bytes::copy_from_slice(alloc, bytes)?;
    let mut events = Vec::new(alloc);
    match core.receive(&bytes, &mut events) {
        Ok(received) => arrival_text(alloc, &Ok(arrival_of(alloc, received, events)?)),
        Err(refusal) => arrival_text(alloc, &Err(refusal)),
    }
}

/// The answer, with all that was delivered.
fn arrival_of(alloc: Global, received: Received, events: Vec<Event>) -> Result<Arrival, Fail> {
    let mut deliveries = Vec::new(alloc);
    for event in events {
        if let Event::Deliver(message) = event {
            deliveries.push(message)?;
        }
    }
    Ok(received.arrival(deliveries))
}

fn reading(alloc: Global, core: &CoreMember, call: Call<'_>) -> Result<String, Fail> {
    match call {
        Call::Time => Ok(core.time().to_string(alloc)?),
        Call::Stable => Ok(core.stable().to_string(alloc)?),
        Call::StableOf(i) => count_text(alloc, core.stable_of(i)),
        Call::Missing(i) => missing(alloc, &core.missing(i)),
        Call::Help(i) => help_text(alloc, &core.help(i)),
        _ => Err(Fail::new("a call that a core knows")),
    }
}

/// A core, and beside it all that it hands out.
#[derive(Drop)]
pub struct Noting {
    core: CoreMember,
    entries: Vec<Entry>,
    events: Vec<Event>,
}

impl Noting {
    pub fn made(alloc: Global, group: Group, me: u32) -> Result<Noting, Fail> {
        Ok(Noting {
            core: core_of(alloc, group, me)?,
            entries: Vec::new(alloc),
            events: Vec::new(alloc),
        })
    }

    /// What the call did: of one that changes something also how many entries were handed out until then.
    pub fn answer(&mut self, alloc: Global, call: Call<'_>) -> Result<String, Fail> {
        match call {
            Call::Cast(_) | Call::Burst(_) | Call::Take(_) | Call::Tick => {
                let text = self.changing(alloc, call)?;
                self.counted(alloc, text)
            }
            Call::Entries => entries(alloc, &self.entries),
            Call::Events => events(alloc, &self.events),
            _ => reading(alloc, &self.core, call),
        }
    }

    /// The answer, behind how many entries were handed out.
    pub fn counted(&self, alloc: Global, text: String) -> Result<String, Fail> {
        let entries = self.entries.len();
        Ok(format!(in alloc; "{entries}: {text}")?)
    }

    fn changing(&mut self, alloc: Global, call: Call<'_>) -> Result<String, Fail> {
        match call {
            Call::Cast(payload) => cast_text(alloc, &self.cast(payload)?),
            Call::Burst(payloads) => burst_text(alloc, &self.cast_burst(payloads)?),
            Call::Take(bytes) => self.taken_text(alloc, bytes),
            Call::Tick => tick_text(alloc, &self.tick()?),
            _ => Err(Fail::new("a call that reads")),
        }
    }

    fn cast(&mut self, payload: &[u8]) -> Result<Result<CastDone, CastRefusal>, Fail> {
        let before = self.events.len();
        let cast = self.core.cast(payload, &mut self.events);
        let added = self.events.get(before..).ok_or("the events so far")?;
        let (told, entry) = told_of_cast(cast, added)?;
        self.keep_entry(entry)?;
        Ok(told)
    }

    fn cast_burst(&mut self, payloads: &[&[u8]]) -> Result<Result<BurstDone, BurstRefusal>, Fail> {
        let before = self.events.len();
        let burst = self.core.cast_burst(payloads, &mut self.events);
        let added = self.events.get(before..).ok_or("the events so far")?;
        let (told, entry) = told_of_burst(burst, added)?;
        self.keep_entry(entry)?;
        Ok(told)
    }

    fn taken_text(&mut self, alloc: Global, bytes: &[u8]) -> Result<String, Fail> {
        let arrival = self.take(alloc, &Bytes::copy_from_slice(alloc, bytes)?)?;
        let text = arrival_text(alloc, &arrival)?;
        self.keep_deliveries(arrival)?;
        Ok(text)
    }

    fn take(
        &mut self,
        alloc: Global,
        bytes: &Bytes,
    ) -> Result<Result<Arrival, ArriveRefusal>, Fail> {
        let mut events = Vec::new(alloc);
        match self.core.receive_noted(bytes, &mut events) {
            Ok((received, entry)) => {
                self.keep_entry(entry)?;
                Ok(Ok(arrival_of(alloc, received, events)?))
            }
            Err(refusal) => Ok(Err(refusal)),
        }
    }

    fn tick(&mut self) -> Result<Result<Ticked, TickRefusal>, Fail> {
        match self.core.tick_noted() {
            Ok((ticked, entry)) => {
                self.keep_entry(entry)?;
                Ok(Ok(ticked))
            }
            Err(refusal) => Ok(Err(refusal)),
        }
    }

    fn keep_entry(&mut self, entry: Option<Entry>) -> Result<(), Fail> {
        match entry {
            Some(entry) => Ok(self.entries.push(entry)?),
            None => Ok(()),
        }
    }

    fn keep_deliveries(&mut self, arrival: Result<Arrival, ArriveRefusal>) -> Result<(), Fail> {
        match arrival {
            Ok(Arrival::Accepted { deliveries, .. }) => self.keep_messages(deliveries),
            Ok(Arrival::Repeat) | Err(_) => Ok(()),
        }
    }

    fn keep_messages(&mut self, deliveries: Vec<Message>) -> Result<(), Fail> {
        for message in deliveries {
            self.events.push(Event::Deliver(message))?;
        }
        Ok(())
    }

    pub fn entries(&self) -> &[Entry] {
        self.entries.as_slice()
    }

    pub fn events(&self) -> &[Event] {
        self.events.as_slice()
    }
}

/// The answer of a member with a history to the cast that has this event, and the cast's entry.
fn told_of_cast(
    cast: Result<(Bytes, Entry), CastRefusal>,
    events: &[Event],
) -> Result<(Result<CastDone, CastRefusal>, Option<Entry>), Fail> {
    let (out, entry) = match cast {
        Ok(cast) => cast,
        Err(refusal) => return Ok((Err(refusal), None)),
    };
    let first = events.first().ok_or("an event")?.message();
    let told = CastDone {
        name: first.name,
        time: first.time.copy()?,
        out,
    };
    Ok((Ok(told), Some(entry)))
}

/// The answer of a member with a history to the burst that has these events, and the burst's entry.
fn told_of_burst(
    burst: Result<(Bytes, Entry), BurstRefusal>,
    events: &[Event],
) -> Result<(Result<BurstDone, BurstRefusal>, Option<Entry>), Fail> {
    let (out, entry) = match burst {
        Ok(burst) => burst,
        Err(refusal) => return Ok((Err(refusal), None)),
    };
    let first = events.first().ok_or("an event")?.message();
    let Ok(count) = u32::try_from(events.len()) else {
        return Err(Fail::new("as many events as a burst has messages"));
    };
    let told = BurstDone {
        first: first.name,
        count,
        time: first.time.copy()?,
        out,
    };
    Ok((Ok(told), Some(entry)))
}
