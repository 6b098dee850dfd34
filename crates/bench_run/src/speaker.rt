//! The members that a run can have: with a history, or without one.

use crate::tally::Tally;
use bytes::Bytes;
use cb_history::{
    ArriveRefusal, BurstRefusal, CastRefusal, Event, Group, LONGEST_HISTORY, Outgoing, TickRefusal,
};
use cb_member::{CoreMember, Member, Received};
use cb_times::NoMemory;
use std::alloc::{AllocError, Global};

/// What a run asks of a member. A call that a rule refuses answers `None`.
pub trait Speaker: Drop + Sized {
    fn made(alloc: Global, group: Group, me: u32) -> Result<Self, NoMemory>;

    /// The frame of one more cast.
    fn cast(&mut self, payload: &[u8]) -> Result<Option<Bytes>, NoMemory>;

    /// The frame of that many casts more.
    fn cast_burst(&mut self, payloads: &[&[u8]]) -> Result<Option<Bytes>, NoMemory>;

    /// Takes a received frame, and tallies what it delivers: what is sent.
    fn take(&mut self, bytes: &Bytes, tally: &mut Tally) -> Result<Option<Vec<Outgoing>>, NoMemory>;

    fn tick(&mut self) -> Result<Option<Vec<Outgoing>>, NoMemory>;
}

impl Speaker for Member {
    fn made(alloc: Global, group: Group, me: u32) -> Result<Member, NoMemory> {
        // member and limit are in range, so that only memory can be wanting
        let Ok(member) = Member::new(alloc, group, me, LONGEST_HISTORY) else {
            return Err(AllocError);
        };
        Ok(member)
    }

    fn cast(&mut self, payload: &[u8]) -> Result<Option<Bytes>, NoMemory> {
        match self.cast(payload) {
            Ok(done) => Ok(Some(done.out)),
            Err(CastRefusal::NoMemory) => Err(AllocError),
            Err(_) => Ok(None),
        }
    }

    fn cast_burst(&mut self, payloads: &[&[u8]]) -> Result<Option<Bytes>, NoMemory> {
        match self.cast_burst(payloads) {
            Ok(done) => Ok(Some(done.out)),
            Err(BurstRefusal::NoMemory) => Err(AllocError),
            Err(_) => Ok(None),
        }
    }

    fn take(
        &mut self,
        bytes: &Bytes,
        tally: &mut Tally,
    ) -> Result<Option<Vec<Outgoing>>, NoMemory> {
        match self.receive(bytes) {
            Ok(Received::Accepted { delivered, out, .. }) => {
                tally.add_last(self.seat().me(), delivered, self.events());
                Ok(Some(out))
            }
            Err(ArriveRefusal::NoMemory) => Err(AllocError),
            Ok(Received::Repeat) | Err(_) => Ok(None),
        }
    }

    fn tick(&mut self) -> Result<Option<Vec<Outgoing>>, NoMemory> {
        match self.tick() {
            Ok(ticked) => Ok(Some(ticked.out)),
            Err(TickRefusal::NoMemory) => Err(AllocError),
            Err(TickRefusal::HistoryFull) => Ok(None),
        }
    }
}

/// A member without history, and the list that its casts and deliveries join.
#[derive(Drop)]
pub struct Core {
    member: CoreMember,
    events: Vec<Event>,
}

impl Speaker for Core {
    fn made(alloc: Global, group: Group, me: u32) -> Result<Core, NoMemory> {
        // the member is in range, so that only memory can be wanting
        let Ok(member) = CoreMember::new(alloc, group, me) else {
            return Err(AllocError);
        };
        Ok(Core {
            member,
            events: Vec::new(alloc),
        })
    }

    fn cast(&mut self, payload: &[u8]) -> Result<Option<Bytes>, NoMemory> {
        self.events.clear();
        match self.member.cast(payload, &mut self.events) {
            Ok((frame, _entry)) => Ok(Some(frame)),
            Err(CastRefusal::NoMemory) => Err(AllocError),
            Err(_) => Ok(None),
        }
    }

    fn cast_burst(&mut self, payloads: &[&[u8]]) -> Result<Option<Bytes>, NoMemory> {
        self.events.clear();
        match self.member.cast_burst(payloads, &mut self.events) {
            Ok((frame, _entry)) => Ok(Some(frame)),
            Err(BurstRefusal::NoMemory) => Err(AllocError),
            Err(_) => Ok(None),
        }
    }

    fn take(
        &mut self,
        bytes: &Bytes,
        tally: &mut Tally,
    ) -> Result<Option<Vec<Outgoing>>, NoMemory> {
        self.events.clear();
        match self.member.receive(bytes, &mut self.events) {
            Ok(Received::Accepted { delivered, out, .. }) => {
                tally.add_last(self.member.seat().me(), delivered, &self.events);
                Ok(Some(out))
            }
            Err(ArriveRefusal::NoMemory) => Err(AllocError),
            Ok(Received::Repeat) | Err(_) => Ok(None),
        }
    }

    fn tick(&mut self) -> Result<Option<Vec<Outgoing>>, NoMemory> {
        match self.member.tick() {
            Ok(ticked) => Ok(Some(ticked.out)),
            Err(TickRefusal::NoMemory) => Err(AllocError),
            Err(TickRefusal::HistoryFull) => Ok(None),
        }
    }
}
