//! A member by the calls that every member has.

use crate::call::{Matter, Reading};
use crate::seat::{Place, Seated};
use crate::texts::{
    put_all_entries, put_all_events, put_arrival, put_burst, put_cast, put_count, put_help,
    put_missing, put_tick, put_time_line,
};
use bytes::Bytes;
use cb_history::GroupMember;
use cb_member::{Group, Member, NewFault};
use cb_reference::ReferenceMember;
use cb_times::NoMemory;
use std::alloc::Global;

/// A member that can be made.
pub trait Made: GroupMember + Drop + Sized {
    /// The name of its kind, for answers that differ.
    fn name() -> Option<&'static str>;

    fn made(alloc: Global, group: Group, me: u32, limit: usize) -> Result<Self, NewFault>;
}

impl Made for Member {
    fn name() -> Option<&'static str> {
        Some("with history")
    }

    fn made(alloc: Global, group: Group, me: u32, limit: usize) -> Result<Member, NewFault> {
        Member::new(alloc, group, me, limit)
    }
}

impl Made for ReferenceMember {
    fn name() -> Option<&'static str> {
        Some("reference")
    }

    fn made(
        alloc: Global,
        group: Group,
        me: u32,
        limit: usize,
    ) -> Result<ReferenceMember, NewFault> {
        ReferenceMember::new(alloc, group, me, limit)
    }
}

/// A member that returns copies of its deliveries.
#[derive(Drop)]
pub struct Copying<M> {
    member: M,
}

impl<M: Made> Seated for Copying<M> {
    fn name() -> Option<&'static str> {
        M::name()
    }

    fn seated(alloc: Global, place: Place) -> Result<Option<Copying<M>>, NewFault> {
        let member = M::made(alloc, place.group, place.me, place.room())?;
        Ok(Some(Copying { member }))
    }

    fn cast(&mut self, payload: &[u8], text: &mut Vec<u8>) -> Result<(), NoMemory> {
        cast(&mut self.member, payload, text)
    }

    fn burst(&mut self, payloads: &[&[u8]], text: &mut Vec<u8>) -> Result<(), NoMemory> {
        burst(&mut self.member, payloads, text)
    }

    fn take(&mut self, bytes: &Bytes, text: &mut Vec<u8>) -> Result<(), NoMemory> {
        let answer = self.member.arrive(bytes);
        let put = put_arrival(text, answer.as_ref());
        drop(answer);
        put
    }

    fn tick(&mut self, text: &mut Vec<u8>) -> Result<(), NoMemory> {
        tick(&mut self.member, text)
    }

    fn read(&self, reading: Reading, text: &mut Vec<u8>) -> Result<(), NoMemory> {
        match reading {
            Reading::Time => put_time_line(text, &self.member.time()?),
            Reading::Events => put_all_events(text, &self.member.events()?),
            Reading::Entries => put_all_entries(text, &self.member.entries()?),
            Reading::OwnStable => put_count(text, Some(self.member.stable()?)),
            Reading::Waiting => Ok(()),
            Reading::Of(matter, i) => read_of(&self.member, matter, i, text),
        }
    }

    fn help_among(&self, _i: u32, _members: &[u32], _text: &mut Vec<u8>) -> Result<(), NoMemory> {
        Ok(())
    }
}

pub fn cast<M: GroupMember>(
    member: &mut M,
    payload: &[u8],
    text: &mut Vec<u8>,
) -> Result<(), NoMemory> {
    let answer = member.cast(payload);
    let put = put_cast(text, answer.as_ref());
    drop(answer);
    put
}

pub fn burst<M: GroupMember>(
    member: &mut M,
    payloads: &[&[u8]],
    text: &mut Vec<u8>,
) -> Result<(), NoMemory> {
    let answer = member.cast_burst(payloads);
    let put = put_burst(text, answer.as_ref());
    drop(answer);
    put
}

pub fn tick<M: GroupMember>(member: &mut M, text: &mut Vec<u8>) -> Result<(), NoMemory> {
    let answer = member.tick();
    let put = put_tick(text, answer.as_ref());
    drop(answer);
    put
}

fn read_of<M: GroupMember>(
    member: &M,
    matter: Matter,
    i: u32,
    text: &mut Vec<u8>,
) -> Result<(), NoMemory> {
    match matter {
        Matter::Stable => put_count(text, member.stable_of(i)?),
        Matter::Missing => put_missing(text, &member.missing(i)),
        Matter::Help => put_help(text, &member.help(i)),
        Matter::Delivered | Matter::Acknowledged | Matter::Full | Matter::Waits => Ok(()),
    }
}
