//! The members, and what they do in their turns.

use crate::network::Network;
use crate::plan::Plan;
use crate::speaker::Speaker;
use crate::stage::{Stage, stage_of};
use crate::tally::Tally;
use bytes::Bytes;
use cb_frames::MOST_MESSAGES;
use cb_history::Group;
use cb_times::NoMemory;
use std::alloc::Global;

/// A run ends after so many rounds, whatever is delivered.
const MOST_ROUNDS: u64 = 1_000_000_000;

#[derive(Drop)]
struct Run<M: Speaker> {
    plan: Plan,
    members: Vec<M>,
    network: Network,
    tally: Tally,
    payload: Vec<u8>,
    inbox: Vec<Bytes>,
    /// How many casts were made.
    made: u64,
}

fn members_of<M: Speaker>(alloc: Global, group: Group) -> Result<Vec<M>, NoMemory> {
    let mut members = Vec::with_capacity(alloc, group.size() as usize)?;
    for me in 0..group.size() {
        members.push(M::made(alloc, group, me)?)?;
    }
    Ok(members)
}

/// Runs the plan, and answers what was delivered.
pub fn tally_of<M: Speaker>(alloc: Global, plan: Plan) -> Result<Tally, NoMemory> {
    let mut run = Run::<M>::new(alloc, plan)?;
    let ended = run.go();
    let tally = run.tally;
    drop(run);
    ended?;
    Ok(tally)
}

impl<M: Speaker> Run<M> {
    fn new(alloc: Global, plan: Plan) -> Result<Run<M>, NoMemory> {
        let payload = vec![in alloc; b'a'; plan.payload]?;
        Run::with_payload(alloc, plan, payload)
    }

    fn with_payload(alloc: Global, plan: Plan, payload: Vec<u8>) -> Result<Run<M>, NoMemory> {
        let members = members_of(alloc, plan.group)?;
        let network = Network::new(alloc, plan.group.size())?;
        Ok(Run {
            plan,
            members,
            network,
            tally: Tally::new(),
            payload,
            inbox: Vec::new(alloc),
            made: 0,
        })
    }

    /// In each round each member has its turn, and then all tick, until everything is delivered.
    fn go(&mut self) -> Result<(), NoMemory> {
        let size = self.plan.group.size();
        let all = self
            .plan
            .casts
            .saturating_mul(u64::from(size).saturating_sub(1));
        for round in 0..MOST_ROUNDS {
            if self.tally.deliveries >= all {
                return Ok(());
            }
            let stage = self.begin(round);
            for me in 0..size {
                self.turn(me, stage)?;
            }
            if matches!(stage, Stage::Quiet | Stage::Disturbed) {
                self.ticks()?;
            }
        }
        Ok(())
    }

    /// The stage of this round; with the last one chance begins.
    fn begin(&mut self, round: u64) -> Stage {
        let stage = stage_of(self.plan.is_full, self.plan.group.window(), round);
        if matches!(stage, Stage::Disturbed) {
            self.network.disturb(self.plan.lost, self.plan.exchanged);
        }
        stage
    }

    /// The member takes all and casts, by the stage.
    #[inline(always)]
    fn turn(&mut self, me: u32, stage: Stage) -> Result<(), NoMemory> {
        let is_first = matches!(stage, Stage::MissAll | Stage::MissOne);
        if !is_first {
            self.take(me)?;
        }
        let count = self.casts_in(stage);
        self.cast_some(me, count)?;
        if is_first {
            self.miss(me, stage);
        }
        Ok(())
    }

    /// The member's cast in this round is lost to all, or to the member before it.
    fn miss(&mut self, me: u32, stage: Stage) {
        let size = self.plan.group.size();
        let before = me.checked_sub(1).unwrap_or(size.saturating_sub(1));
        for to in 0..size {
            let is_lost = matches!(stage, Stage::MissAll) || to == before;
            if to != me && is_lost {
                self.network.lose_last(to);
            }
        }
    }

    /// How often a member may cast in its turn: a fourth of the window, or once where windows begin to fill.
    fn casts_in(&self, stage: Stage) -> u32 {
        match stage {
            Stage::MissAll | Stage::MissOne => 1,
            Stage::Fill | Stage::Disturbed => (self.plan.group.window() / 4).max(1),
            Stage::Quiet => 0,
        }
    }

    /// The member takes all that is on its way to it.
    fn take(&mut self, me: u32) -> Result<(), NoMemory> {
        self.network.swap(me, &mut self.inbox);
        let Some(member) = self.members.get_mut(me as usize) else {
            return Ok(());
        };
        for bytes in self.inbox.iter() {
            if let Some(out) = member.take(bytes, &mut self.tally)? {
                if !out.is_empty() {
                    self.network.send_all(me, out)?;
                }
            }
        }
        self.inbox.clear();
        Ok(())
    }

    /// The member casts that many messages, as long as it may.
    fn cast_some(&mut self, me: u32, count: u32) -> Result<(), NoMemory> {
        let mut left = u64::from(count).min(self.plan.casts.saturating_sub(self.made));
        for _ in 0..count {
            let some = left.min(self.plan.burst as u64);
            if some == 0 {
                return Ok(());
            }
            let Some(bytes) = self.cast(me, some as usize)? else {
                return Ok(());
            };
            self.network.send_to_others(me, &bytes)?;
            self.made = self.made.saturating_add(some);
            left -= some;
        }
        Ok(())
    }

    /// The frame of that many messages more, where the member may cast them.
    fn cast(&mut self, me: u32, count: usize) -> Result<Option<Bytes>, NoMemory> {
        let Some(member) = self.members.get_mut(me as usize) else {
            return Ok(None);
        };
        if self.plan.burst == 1 {
            return member.cast(&self.payload);
        }
        burst_of(member, &self.payload, count)
    }

    fn ticks(&mut self) -> Result<(), NoMemory> {
        for me in 0..self.plan.group.size() {
            let Some(member) = self.members.get_mut(me as usize) else {
                return Ok(());
            };
            if let Some(out) = member.tick()? {
                self.network.send_all(me, out)?;
            }
        }
        Ok(())
    }
}

/// The frame of a burst of this payload, that many times. Apart, since the list of payloads is set to zero where the function begins.
#[inline(never)]
fn burst_of<M: Speaker>(
    member: &mut M,
    payload: &[u8],
    count: usize,
) -> Result<Option<Bytes>, NoMemory> {
    let payloads = [payload; MOST_MESSAGES];
    match payloads.get(..count) {
        Some(some) => member.cast_burst(some),
        None => Ok(None),
    }
}
