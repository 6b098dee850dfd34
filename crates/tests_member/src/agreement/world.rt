//! A group around the member under test: some other members of it, and all frames that were sent.

use crate::agreement::calls::Made;
use crate::agreement::dice::Dice;
use bytes::Bytes;
use cb_history::{Arrival, Group, Outgoing};
use cb_member::Member;
use std::alloc::Global;
use std::test::Fail;

/// Some other members of the group, and the frames that were sent in it so far.
#[derive(Drop)]
pub struct World {
    others: Vec<Member>,
    frames: Vec<Bytes>,
}

impl World {
    /// Up to three other members of the group.
    pub fn new(alloc: Global, group: Group, me: u32) -> Result<World, Fail> {
        Ok(World {
            others: others_of(alloc, group, me)?,
            frames: Vec::new(alloc),
        })
    }

    /// A frame that was sent lately, or long ago now and then.
    pub fn frame(&self, dice: &mut Dice) -> Result<Bytes, Fail> {
        let lately = if dice.one_in(4) { usize::MAX } else { 8 };
        let back = dice.place(self.frames.len().min(lately));
        match self.frames.iter().rev().nth(back) {
            Some(frame) => Ok(frame.clone()?),
            None => Ok(Bytes::new()),
        }
    }

    /// Keeps a frame that the member under test sent.
    pub fn keep(&mut self, frame: Bytes) -> Result<(), Fail> {
        Ok(self.frames.push(frame)?)
    }

    fn keep_all(&mut self, sent: Vec<Outgoing>) -> Result<(), Fail> {
        for frame in sent {
            self.frames.push(frame.bytes)?;
        }
        Ok(())
    }

    /// One of the others casts, reports its time, asks for help, or takes a frame that was sent.
    pub fn act(&mut self, alloc: Global, dice: &mut Dice) -> Result<(), Fail> {
        let came = self.frame(dice)?;
        let sent = self.sent(alloc, dice, &came)?;
        self.keep_all(sent)
    }

    /// What one of the others sends then.
    fn sent(
        &mut self,
        alloc: Global,
        dice: &mut Dice,
        came: &Bytes,
    ) -> Result<Vec<Outgoing>, Fail> {
        let place = dice.place(self.others.len());
        match self.others.get_mut(place) {
            Some(other) => sent_by(alloc, other, came, dice),
            None => Ok(Vec::new(alloc)),
        }
    }
}

/// Up to three other members of the group.
fn others_of(alloc: Global, group: Group, me: u32) -> Result<Vec<Member>, Fail> {
    let mut others = Vec::new(alloc);
    let first = me.saturating_sub(2);
    for other in first..group.size().min(first.saturating_add(4)) {
        if other != me {
            others.push(Member::made(alloc, group, other, 100_000)?)?;
        }
    }
    Ok(others)
}

/// What the member sends, whatever it does.
fn sent_by(
    alloc: Global,
    member: &mut Member,
    came: &Bytes,
    dice: &mut Dice,
) -> Result<Vec<Outgoing>, Fail> {
    match dice.below(9) {
        0 | 1 => cast_by(alloc, member, dice.byte()),
        2 => burst_by(alloc, member, dice),
        3 => reported_by(alloc, member),
        4 => asked_by(alloc, member, dice),
        _ => answered_by(alloc, member, came),
    }
}

fn cast_by(alloc: Global, member: &mut Member, payload: u8) -> Result<Vec<Outgoing>, Fail> {
    let mut sent = Vec::new(alloc);
    if let Ok(done) = member.cast(&[payload]) {
        let to = None;
        let bytes = done.out;
        sent.push(Outgoing { to, bytes })?;
    }
    Ok(sent)
}

/// A burst of up to three messages.
fn burst_by(alloc: Global, member: &mut Member, dice: &mut Dice) -> Result<Vec<Outgoing>, Fail> {
    let bytes = [dice.byte(), dice.byte()];
    let payloads: [&[u8]; 3] = [&bytes[..1], &bytes[1..], &[]];
    let count = dice.place(3).saturating_add(1).min(payloads.len());
    let mut sent = Vec::new(alloc);
    if let Ok(done) = member.cast_burst(&payloads[..count]) {
        let to = None;
        let bytes = done.out;
        sent.push(Outgoing { to, bytes })?;
    }
    Ok(sent)
}

fn reported_by(alloc: Global, member: &mut Member) -> Result<Vec<Outgoing>, Fail> {
    match member.tick() {
        Ok(ticked) => Ok(ticked.out),
        Err(_) => Ok(Vec::new(alloc)),
    }
}

/// The help frame for what is missing of some member.
fn asked_by(alloc: Global, member: &Member, dice: &mut Dice) -> Result<Vec<Outgoing>, Fail> {
    let mut sent = Vec::new(alloc);
    let sender = dice.below(member.seat().group().size());
    if let Ok(Some(help)) = member.help(sender) {
        sent.push(help)?;
    }
    Ok(sent)
}

fn answered_by(alloc: Global, member: &mut Member, came: &Bytes) -> Result<Vec<Outgoing>, Fail> {
    match member.arrive(came) {
        Ok(Arrival::Accepted { out, .. }) => Ok(out),
        Ok(Arrival::Repeat) | Err(_) => Ok(Vec::new(alloc)),
    }
}
