//! The calls of a member that are counted. Each has one caller in the whole program, so that the compiler puts its body in place there, as in a
//! program that measures nothing else.

use bytes::Bytes;
use cb_history::{ArriveRefusal, CastRefusal, Group, LONGEST_HISTORY, Outgoing, TickRefusal};
use cb_member::{Member, Received};
use cb_times::NoMemory;
use std::alloc::{AllocError, Global};

pub fn member_of(alloc: Global, group: Group, me: u32) -> Result<Member, NoMemory> {
    // member and limit are in range, so that only memory can be wanting
    let Ok(member) = Member::new(alloc, group, me, LONGEST_HISTORY) else {
        return Err(AllocError);
    };
    Ok(member)
}

/// The frame of one more cast; none where a rule refuses it.
pub fn cast(member: &mut Member, payload: &[u8]) -> Result<Option<Bytes>, NoMemory> {
    match member.cast(payload) {
        Ok(done) => Ok(Some(done.out)),
        Err(CastRefusal::NoMemory) => Err(AllocError),
        Err(_) => Ok(None),
    }
}

/// How many messages are delivered by this frame.
pub fn receive(member: &mut Member, frame: &Bytes) -> Result<usize, NoMemory> {
    match member.receive(frame) {
        Ok(Received::Accepted { delivered, .. }) => Ok(delivered),
        Err(ArriveRefusal::NoMemory) => Err(AllocError),
        Ok(Received::Repeat) | Err(_) => Ok(0),
    }
}

pub fn arrive(member: &mut Member, frame: &Bytes) -> Result<(), NoMemory> {
    match member.arrive(frame) {
        Ok(arrival) => drop(arrival),
        Err(ArriveRefusal::NoMemory) => return Err(AllocError),
        Err(_) => {}
    }
    Ok(())
}

/// What a tick sends.
pub fn tick(member: &mut Member) -> Result<Vec<Outgoing>, NoMemory> {
    // no history is full, so that only memory can be wanting
    match member.tick() {
        Ok(ticked) => Ok(ticked.out),
        Err(TickRefusal::NoMemory) | Err(TickRefusal::HistoryFull) => Err(AllocError),
    }
}
