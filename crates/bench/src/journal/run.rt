//! The members, and what they do in their turns.

use crate::fault::Fault;
use crate::journal::desk::Desk;
use crate::journal::plan::Plan;
use crate::journal::shelf::Shelf;
use crate::member::member_of;
use bytes::Bytes;
use cb_history::{Group, Outgoing};
use cb_journal::Device;

/// All tick after this many rounds: long before a window is full.
const ROUNDS_A_TICK: u32 = 16;

/// What was delivered by all, and how many entries the first member has.
#[derive(Clone, Copy, Drop)]
pub struct Outcome {
    pub deliveries: u64,
    pub entries: usize,
}

/// Runs the plan, with a journal of each member where one is kept.
pub fn outcome_of<D: Shelf>(
    rt: &HostRuntime,
    plan: &Plan,
    is_kept: bool,
) -> Result<Outcome, Fault> {
    let mut desks = desks_of::<D>(rt, plan.group, is_kept)?;
    let outcome = run(rt, plan, &mut desks);
    drop(desks);
    outcome
}

fn run<D: Device + Drop>(
    rt: &HostRuntime,
    plan: &Plan,
    desks: &mut [Desk<D>],
) -> Result<Outcome, Fault> {
    let payload = vec![in rt.alloc(); b'a'; plan.payload]?;
    let deliveries = rounds(desks, plan.rounds, &payload);
    drop(payload);
    Ok(Outcome {
        deliveries: deliveries?,
        entries: entries_of(desks),
    })
}

fn entries_of<D: Device + Drop>(desks: &[Desk<D>]) -> usize {
    match desks.first() {
        Some(desk) => desk.entries(),
        None => 0,
    }
}

fn desks_of<D: Shelf>(
    rt: &HostRuntime,
    group: Group,
    is_kept: bool,
) -> Result<Vec<Desk<D>>, Fault> {
    let mut desks = Vec::with_capacity(rt.alloc(), group.size() as usize)?;
    for me in 0..group.size() {
        desks.push(desk_of::<D>(rt, group, me, is_kept)?)?;
    }
    Ok(desks)
}

fn desk_of<D: Shelf>(
    rt: &HostRuntime,
    group: Group,
    me: u32,
    is_kept: bool,
) -> Result<Desk<D>, Fault> {
    let device = if is_kept {
        Some(D::made(rt, me)?)
    } else {
        None
    };
    Desk::new(rt.alloc(), member_of(rt.alloc(), group, me)?, device)
}

/// In each round each member casts, and all others take that; after some rounds all tick. How many messages were delivered.
fn rounds<D: Device + Drop>(
    desks: &mut [Desk<D>],
    count: u32,
    payload: &[u8],
) -> Result<u64, Fault> {
    let mut deliveries = 0u64;
    for round in 0..count {
        deliveries = deliveries.wrapping_add(casts(desks, payload)?);
        if round % ROUNDS_A_TICK == ROUNDS_A_TICK - 1 {
            ticks(desks)?;
        }
    }
    Ok(deliveries)
}

fn casts<D: Device + Drop>(desks: &mut [Desk<D>], payload: &[u8]) -> Result<u64, Fault> {
    let mut deliveries = 0u64;
    for me in 0..desks.len() {
        let Some(desk) = desks.get_mut(me) else {
            return Ok(deliveries);
        };
        if let Some(frame) = desk.cast(payload)? {
            deliveries = deliveries.wrapping_add(send(desks, me, &frame)?);
        }
    }
    Ok(deliveries)
}

fn ticks<D: Device + Drop>(desks: &mut [Desk<D>]) -> Result<(), Fault> {
    for me in 0..desks.len() {
        let Some(desk) = desks.get_mut(me) else {
            return Ok(());
        };
        let out = desk.tick()?;
        send_all(desks, me, &out)?;
    }
    Ok(())
}

fn send_all<D: Device + Drop>(
    desks: &mut [Desk<D>],
    from: usize,
    out: &[Outgoing],
) -> Result<(), Fault> {
    for outgoing in out {
        send(desks, from, &outgoing.bytes)?;
    }
    Ok(())
}

/// All others take the frame: in order nothing is missing, so that what is sent goes to all. How many messages it delivers.
fn send<D: Device + Drop>(desks: &mut [Desk<D>], from: usize, frame: &Bytes) -> Result<u64, Fault> {
    let mut deliveries = 0u64;
    let mut to = 0usize;
    for desk in desks {
        if to != from {
            deliveries = deliveries.wrapping_add(desk.take(frame)?);
        }
        to = to.wrapping_add(1);
    }
    Ok(deliveries)
}
