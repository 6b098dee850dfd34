//! How a program drives members: three of them in one thread, over a network that loses every fifth frame; then a restart, and a
//! silent member.
//!
//! The README and the guide show the lines between the marks.
#![tactic(auto)]

mod network;
mod restart;
mod silent;

use crate::network::Network;
use crate::restart::restart;
use crate::silent::wait;
use cb_member::{Arrival, Group, Member, Message};
use std::alloc::Global;

const SIZE: u32 = 3;

const WINDOW: u32 = 1;

const HISTORY_LIMIT: usize = 1_000;

const ROUNDS: u32 = 8;

/// What each member casts, in this order.
const LINES: [&str; 2] = ["hello", "bye"];

// README: begin
fn turn(rt: &HostRuntime, member: &mut Member, network: &mut Network) -> anyhow::Result<()> {
    let me = member.seat().me(); // its number in the group
    for bytes in network.take(me) {
        match member.arrive(&bytes) {
            Ok(arrival) => take(rt, me, arrival, network)?, // Accepted or Repeat, see below
            Err(refusal) => println!(rt; "{me} drops a frame: {refusal}")?,
        }
    }
    if let Some(line) = LINES.get(casts_of(member)) {
        match member.cast(line.as_bytes()) {
            Ok(done) => network.send_to_others(me, &done.out)?,
            Err(refusal) => println!(rt; "{me} keeps {line:?}: {refusal}")?,
        }
    }
    network.send(me, member.tick()?.out)?; // says what it has, asks for what it misses
    Ok(())
}
// README: end

/// Shows what the arrival delivered, and sends what another member asked for again.
fn take(rt: &HostRuntime, me: u32, arrival: Arrival, network: &mut Network) -> anyhow::Result<()> {
    match arrival {
        Arrival::Accepted {
            deliveries,
            out,
            changed: _,
        } => {
            show(rt, me, deliveries)?;
            Ok(network.send(me, out)?)
        }
        Arrival::Repeat => Ok(()),
    }
}

/// How many messages the member has cast: its own field of its time.
fn casts_of(member: &Member) -> usize {
    let me = member.seat().me() as usize;
    match member.time().as_slice().get(me) {
        Some(count) => *count as usize,
        None => 0,
    }
}

/// Prints each message that member `me` delivered.
fn show(rt: &HostRuntime, me: u32, deliveries: Vec<Message>) -> anyhow::Result<()> {
    for message in deliveries {
        let text = String::from_utf8_lossy(rt.alloc(), &message.payload)?;
        println!(rt; "{me} delivers {} {:?}", message.name, text)?;
    }
    Ok(())
}

fn members_of(alloc: Global, group: Group) -> anyhow::Result<Vec<Member>> {
    let mut members = Vec::with_capacity(alloc, group.size() as usize)?;
    for me in 0..group.size() {
        members.push(Member::new(alloc, group, me, HISTORY_LIMIT)?)?;
    }
    Ok(members)
}

fn main(rt: HostRuntime) -> anyhow::Result<()> {
    let group = Group::new(7, SIZE, WINDOW)?;
    let mut members = members_of(rt.alloc(), group)?;
    let mut network = Network::new(rt.alloc(), SIZE)?;
    for _ in 0..ROUNDS {
        for member in &mut members {
            turn(&rt, member, &mut network)?;
        }
    }
    restart(&rt, &mut members)?;
    wait(&rt, &mut members)
}
