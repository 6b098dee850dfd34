//! Frames that no member of the group sent, and frames that were damaged on their way.

use crate::agreement::dice::Dice;
use bytes::Bytes;
use cb_frames::{Burst, Cast, Change, Frame, Help, LAST_MEMBER, Range, Request, Status, encode};
use cb_history::Group;
use std::alloc::Global;
use std::test::Fail;

/// What a forger knows: the group, and the time of the member that it deceives.
#[derive(Clone, Copy, Drop)]
pub struct Target<'a> {
    pub group: Group,
    pub me: u32,
    pub time: &'a [u32],
}

impl Target<'_> {
    /// Now and then another group.
    fn number(&self, dice: &mut Dice) -> u32 {
        if dice.one_in(30) {
            dice.near(self.group.number())
        } else {
            self.group.number()
        }
    }

    /// A member, the one that is deceived now and then, and one that the group does not have.
    fn member(&self, dice: &mut Dice) -> u32 {
        match dice.below(20) {
            0 => dice.below(LAST_MEMBER),
            1 | 2 => self.me,
            _ => dice.below(self.group.size()),
        }
    }

    /// How much of a member is delivered.
    fn delivered(&self, member: u32) -> u32 {
        self.time.get(member as usize).copied().unwrap_or(0)
    }
}

/// The bytes of the frame, and none where it breaks a rule of the format.
fn text(alloc: Global, frame: Frame) -> Bytes {
    encode(alloc, &frame).unwrap_or(Bytes::new())
}

/// By how much some fields have grown, mostly by one.
fn changes(
    alloc: Global,
    target: &Target<'_>,
    dice: &mut Dice,
    own: u32,
) -> Result<Vec<Change>, Fail> {
    let mut changes = Vec::new(alloc);
    for field in 0..target.group.size() {
        if field != own && dice.one_in(6) {
            let amount = dice.near(0).max(1);
            changes.push(Change { field, amount })?;
        }
    }
    Ok(changes)
}

/// Some fields, with values near the time.
fn values(alloc: Global, target: &Target<'_>, dice: &mut Dice) -> Result<Vec<Change>, Fail> {
    let mut values = Vec::new(alloc);
    let rarity = dice.below(4);
    for field in 0..target.group.size() {
        if dice.one_in(rarity) {
            let delivered = target.delivered(field);
            let amount = if dice.one_in(4) {
                dice.near(delivered)
            } else {
                delivered
            }
            .max(1);
            values.push(Change { field, amount })?;
        }
    }
    Ok(values)
}

/// Up to four ranges, with gaps between them.
fn ranges(alloc: Global, dice: &mut Dice, delivered: u32) -> Result<Vec<Range>, Fail> {
    let mut ranges = Vec::new(alloc);
    let mut next = Some(dice.near(delivered.saturating_sub(4)).max(1));
    for _ in 0..4 {
        let Some(first) = next else {
            break;
        };
        let last = first.saturating_add(dice.below(4));
        ranges.push(Range { first, last })?;
        next = last.checked_add(2);
        if dice.one_in(2) {
            break;
        }
    }
    Ok(ranges)
}

fn cast(alloc: Global, target: &Target<'_>, dice: &mut Dice) -> Result<Bytes, Fail> {
    let sender = target.member(dice);
    let group = target.number(dice);
    let number = dice.near(target.delivered(sender)).max(1);
    let changes = changes(alloc, target, dice, sender)?;
    let payload = Bytes::copy_from_slice(alloc, &[dice.byte()])?;
    Ok(text(
        alloc,
        Frame::Cast(Cast {
            group,
            sender,
            number,
            changes,
            payload,
        }),
    ))
}

/// Up to four messages of a byte each.
fn burst(alloc: Global, target: &Target<'_>, dice: &mut Dice) -> Result<Bytes, Fail> {
    let sender = target.member(dice);
    let group = target.number(dice);
    let first = dice.near(target.delivered(sender)).max(1);
    let changes = changes(alloc, target, dice, sender)?;
    let mut payloads = Vec::new(alloc);
    for _ in 0..=dice.below(4) {
        payloads.push(Bytes::copy_from_slice(alloc, &[dice.byte()])?)?;
    }
    Ok(text(
        alloc,
        Frame::Burst(Burst {
            group,
            sender,
            first,
            changes,
            payloads,
        }),
    ))
}

fn status(alloc: Global, target: &Target<'_>, dice: &mut Dice) -> Result<Bytes, Fail> {
    let group = target.number(dice);
    let sender = target.member(dice);
    let values = values(alloc, target, dice)?;
    Ok(text(
        alloc,
        Frame::Status(Status {
            group,
            sender,
            values,
        }),
    ))
}

fn request(alloc: Global, target: &Target<'_>, dice: &mut Dice) -> Result<Bytes, Fail> {
    let asked = if dice.one_in(4) {
        target.member(dice)
    } else {
        target.me
    };
    let group = target.number(dice);
    let requester = target.member(dice);
    let ranges = ranges(alloc, dice, target.delivered(asked))?;
    Ok(text(
        alloc,
        Frame::Request(Request {
            group,
            requester,
            asked,
            ranges,
        }),
    ))
}

/// One asks another, the one that is deceived mostly, for casts of a third. Now and then two of them are one.
fn help(alloc: Global, target: &Target<'_>, dice: &mut Dice) -> Result<Bytes, Fail> {
    let helper = if dice.one_in(4) {
        target.member(dice)
    } else {
        target.me
    };
    let group = target.number(dice);
    let requester = target.member(dice);
    let sender = target.member(dice);
    let ranges = ranges(alloc, dice, target.delivered(sender))?;
    Ok(text(
        alloc,
        Frame::Help(Help {
            group,
            requester,
            helper,
            sender,
            ranges,
        }),
    ))
}

/// A frame of any kind with fields near those that could be true.
pub fn forged(alloc: Global, target: &Target<'_>, dice: &mut Dice) -> Result<Bytes, Fail> {
    match dice.below(19) {
        0..=2 => request(alloc, target, dice),
        3..=8 => status(alloc, target, dice),
        9..=11 => burst(alloc, target, dice),
        12..=14 => help(alloc, target, dice),
        _ => cast(alloc, target, dice),
    }
}

/// The frame with a byte changed, cut or prolonged.
pub fn damaged(alloc: Global, frame: &[u8], dice: &mut Dice) -> Result<Bytes, Fail> {
    let mut bytes = Vec::from_slice(alloc, frame)?;
    let place = dice.place(bytes.len());
    let old = bytes.get(place).copied().unwrap_or(0);
    match dice.below(5) {
        0 => bytes.truncate(place),
        1 => bytes.push(dice.byte())?,
        2 => set(&mut bytes, place, dice.byte()),
        3 => set(&mut bytes, place, old.wrapping_sub(1)),
        _ => set(&mut bytes, place, old.wrapping_add(1)),
    }
    Ok(Bytes::copy_from_slice(alloc, &bytes)?)
}

fn set(bytes: &mut [u8], place: usize, to: u8) {
    if let Some(byte) = bytes.get_mut(place) {
        *byte = to;
    }
}
