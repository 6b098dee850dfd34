//! A member of 64 that misses one cast for which most others wait. Then one more member casts, of whom each cast is delivered as it comes,
//! or each second one lets the one after it go.

use crate::fault::Fault;
use crate::member::{arrive, cast, member_of, receive};
use crate::words::number;
use bytes::Bytes;
use cb_history::Group;
use cb_member::Member;
use cb_times::NoMemory;
use std::alloc::{AllocError, Global};
use std::process::ExitCode;

/// The number of the group, which only the frames say.
const NUMBER: u32 = 7;

const SIZE: u32 = 64;

const WINDOW: u32 = 256;

/// As many as 61 members cast that miss nothing.
const MOST_HELD: u32 = 15_616;

/// How what is delivered comes.
#[derive(Clone, Copy, Drop)]
enum Way {
    /// Each cast in its turn, to `receive`: it is delivered alone.
    Alone,
    /// Two by two, the later one first, to `receive`: the other one lets it go.
    Receive,
    /// The same to `arrive`.
    Arrive,
}

/// How many messages wait, and how many more are delivered then.
#[derive(Clone, Copy, Drop)]
struct Plan {
    group: Group,
    held: u32,
    casts: u32,
    way: Way,
}

fn plan_of(words: &[String]) -> Option<Plan> {
    let group = Group::new(NUMBER, SIZE, WINDOW).ok()?;
    let (held, casts) = (number(words, 2)?, number(words, 3)?);
    if held > MOST_HELD || casts > WINDOW {
        return None;
    }
    Some(Plan {
        group,
        held,
        casts,
        way: way_in(words.get(4)?.as_str())?,
    })
}

fn way_in(word: &str) -> Option<Way> {
    match word {
        "alone" => Some(Way::Alone),
        "receive" => Some(Way::Receive),
        "arrive" => Some(Way::Arrive),
        _ => None,
    }
}

/// Whose first cast the receiver never gets.
const LOST: u32 = 0;

/// Who waits for nobody.
const FREE: u32 = 62;

const RECEIVER: u32 = 63;

/// How many messages wait, and how many were delivered.
#[derive(Clone, Copy, Drop)]
struct Outcome {
    held: usize,
    delivered: usize,
}

/// The frame of one more cast.
fn frame_of(sender: &mut Member) -> Result<Bytes, NoMemory> {
    // the window is not full, so that only memory can be wanting
    match cast(sender, b"waits")? {
        Some(frame) => Ok(frame),
        None => Err(AllocError),
    }
}

/// The sender casts so often: the frames.
fn cast_all(sender: &mut Member, casts: u32, frames: &mut Vec<Bytes>) -> Result<(), NoMemory> {
    for _ in 0..casts {
        frames.push(frame_of(sender)?)?;
    }
    Ok(())
}

fn receive_all(member: &mut Member, frames: &[Bytes]) -> Result<(), NoMemory> {
    for bytes in frames {
        receive(member, bytes)?;
    }
    Ok(())
}

fn arrive_all(member: &mut Member, frames: &[Bytes]) -> Result<(), NoMemory> {
    for bytes in frames {
        arrive(member, bytes)?;
    }
    Ok(())
}

/// Of each two frames the later one comes first.
fn exchange(frames: &mut [Bytes]) {
    for pair in frames.chunks_exact_mut(2) {
        pair.reverse();
    }
}

fn take_all(member: &mut Member, frames: &mut [Bytes], way: Way) -> Result<(), NoMemory> {
    match way {
        Way::Alone => receive_all(member, frames),
        Way::Receive => {
            exchange(frames);
            receive_all(member, frames)
        }
        Way::Arrive => {
            exchange(frames);
            arrive_all(member, frames)
        }
    }
}

/// Adds the frames of so many casts of the sender, once it got the frames before.
fn cast_after(
    mut sender: Member,
    before: &[Bytes],
    casts: u32,
    frames: &mut Vec<Bytes>,
) -> Result<(), NoMemory> {
    let received = receive_all(&mut sender, before);
    let cast = cast_all(&mut sender, casts, frames);
    drop(sender);
    received?;
    cast
}

/// Adds so many frames of the others that got the lost cast, as many of each as the window lets it cast.
fn cast_by_others(
    alloc: Global,
    plan: &Plan,
    lost: &[Bytes],
    frames: &mut Vec<Bytes>,
) -> Result<(), NoMemory> {
    let mut left = plan.held;
    for me in LOST + 1..FREE {
        let casts = left.min(plan.group.window());
        cast_after(member_of(alloc, plan.group, me)?, lost, casts, frames)?;
        left = left.saturating_sub(casts);
    }
    Ok(())
}

/// The frames of the member's first casts.
fn frames_of(alloc: Global, group: Group, me: u32, casts: u32) -> Result<Vec<Bytes>, NoMemory> {
    let mut frames = Vec::with_capacity(alloc, casts as usize)?;
    cast_after(member_of(alloc, group, me)?, &[], casts, &mut frames)?;
    Ok(frames)
}

/// The frames that wait for the lost cast.
fn waiting_frames(alloc: Global, plan: &Plan) -> Result<Vec<Bytes>, NoMemory> {
    let lost = frames_of(alloc, plan.group, LOST, 1)?;
    let mut frames = Vec::new(alloc);
    let cast = cast_by_others(alloc, plan, lost.as_slice(), &mut frames);
    drop(lost);
    cast?;
    Ok(frames)
}

fn hold(alloc: Global, plan: &Plan, receiver: &mut Member) -> Result<(), NoMemory> {
    let waiting = waiting_frames(alloc, plan)?;
    let received = receive_all(receiver, waiting.as_slice());
    drop(waiting);
    received
}

fn deliver(alloc: Global, plan: &Plan, receiver: &mut Member) -> Result<(), NoMemory> {
    let mut frames = frames_of(alloc, plan.group, FREE, plan.casts)?;
    let taken = take_all(receiver, frames.as_mut_slice(), plan.way);
    drop(frames);
    taken
}

/// What is held is received before anything else is made, so that runs of other numbers of deliveries have the same memory until then.
fn run(alloc: Global, plan: &Plan, receiver: &mut Member) -> Result<Outcome, NoMemory> {
    hold(alloc, plan, receiver)?;
    let held = receiver.history().len();
    deliver(alloc, plan, receiver)?;
    let delivered = receiver.events().len();
    Ok(Outcome { held, delivered })
}

/// Lets so many messages wait, and delivers so many.
fn outcome_of(alloc: Global, plan: &Plan) -> Result<Outcome, NoMemory> {
    let mut receiver = member_of(alloc, plan.group, RECEIVER)?;
    let outcome = run(alloc, plan, &mut receiver);
    drop(receiver);
    outcome
}

/// Runs what the words order, and prints how many wait and how many were delivered.
pub fn print(rt: &HostRuntime, words: &[String]) -> Result<ExitCode, Fault> {
    let Some(plan) = plan_of(words) else {
        return Err(Fault::HeldWords);
    };
    let Outcome { held, delivered } = outcome_of(rt.alloc(), &plan)?;
    println!(rt; "held {held} delivered {delivered}")?;
    Ok(ExitCode::from(0))
}
