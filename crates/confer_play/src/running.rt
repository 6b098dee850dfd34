//! From a reader to a writer, by way of a group.

ghost use Rattle.std.specs.Prelude.{◌≡◌, [], OnOk, IfOk, IfErr, map, ◌+◌, ◌<◌, ◌^◌, drop, length};
ghost use Rattle.confer_play.specs.ScriptText.{RunsScript, WritesRun};
ghost use Rattle.confer_text.specs.Streams.{IsWithinLimit, WritesSome};
ghost use Rattle.confer_play.specs.Play.{IsNoScript, StopsPlaying};
ghost use Rattle.confer_play.specs.Playing.{AreShown, ComesOf, IsRunText, PutsRun, PutsStep, PutsSteps, Says, Shows, order_of, setting_in};

use crate::fault::ScriptFault;
use crate::reading::script_of;
use crate::rooms::{Composed, Rooms};
use crate::script::{Script, ScriptStep, Setting};
use crate::transcript::{put_member, put_no_member, put_not_composed, put_screen, put_step};
use cb_times::NoMemory;
use cb_world::{Sent, World};
use confer_text::{read_whole, write_whole};
use std::alloc::Global;
use std::io::{Read, Write};

/// Reads a script to the end of the input, runs it, and writes the outcome of each step and how each member
/// stands at the end.
///
/// The text of the run is made whole before any of it is written: where the script can't be read whole, has a
/// bad step, or memory runs out, nothing is written.
#[tactic(auto, using(crate::proofs::ScriptLines::writes_run))]
pub fn play_script<R: Read, W: Write>(
    alloc: Global,
    input: &mut R,
    output: &mut W,
) -> Result<(), ScriptFault>
    ensures limit { OnOk result (IsWithinLimit (R.remaining input.old)) }
    ensures written { OnOk result (WritesSome (W.contents output.old) (W.contents output.new)) }
    ensures runs { OnOk result (WritesRun (R.remaining input.old)
        (W.contents output.old) (W.contents output.new)) }
    ensures fault { IfErr result (λ fault. StopsPlaying fault (R.remaining input.old)
        (W.contents output.old) (W.contents output.new)) }
{
    let text = match read_whole(alloc, input) {
        Ok(text) => text,
        Err(fault) => return Err(ScriptFault::Lines(fault)),
    };
    let transcript = match transcript_of(alloc, &text) {
        Ok(transcript) => transcript,
        Err(fault) => return Err(fault),
    };
    match write_whole(output, &transcript) {
        Ok(()) => Ok(()),
        Err(fault) => Err(ScriptFault::Lines(fault)),
    }
}

/// What is printed of a script.
#[tactic(auto, using(crate::proofs::ScriptLines::runs_script))]
fn transcript_of(alloc: Global, text: &[u8]) -> Result<Vec<u8>, ScriptFault>
    ensures runs { IfOk result (λ printed. RunsScript text.now printed.items) }
    ensures fault { IfErr result IsNoScript }
{
    let Script { setting, steps } = script_of(alloc, text)?;
    Ok(run_text(alloc, setting, &steps)?)
}

/// What is printed of a run of these steps: of each step the outcome of it, and of all members behind them. A
/// line is composed in the conference of its member, and each screen is that of a conference that was shown
/// just its member's events: so where no plain cast carries an answer, no conference ever lacks the question
/// of an answer.
pub fn run_text(
    alloc: Global,
    setting: Setting,
    steps: &[ScriptStep<'_>],
) -> Result<Vec<u8>, NoMemory>
    ensures { IfOk result (λ text.
        IsRunText (setting_in setting) (map order_of steps.now) text.items) }
{
    let mut rooms = Rooms::new(alloc, setting)?;
    let mut text = Vec::new(alloc);
    let put = put_run(&mut text, setting.group.size(), steps, &mut rooms);
    // A call of `drop` takes the prover less time than a value that is left to the end.
    drop(rooms);
    match put {
        Ok(()) => Ok(text),
        Err(refused) => {
            drop(text);
            Err(refused)
        }
    }
}

/// Takes these steps and puts their lines, and those of all members behind them.
fn put_run(
    text: &mut Vec<u8>,
    size: u32,
    steps: &[ScriptStep<'_>],
    rooms: &mut Rooms,
) -> Result<(), NoMemory>
    ensures { OnOk result (AreShown rooms.old.world rooms.old.attendances.items
        → PutsRun rooms.old.world (map order_of steps.now) rooms.new.world
        text.old.items text.new.items) }
{
    put_steps(text, steps, rooms)?;
    let members = text_of_members(*text.allocator(), size, rooms.world())?;
    let put = text.extend_from_slice(&members);
    drop(members);
    put
}

/// Takes these steps and puts their lines. What the group does is the outcome of the script's orders.
fn put_steps(
    text: &mut Vec<u8>,
    steps: &[ScriptStep<'_>],
    rooms: &mut Rooms,
) -> Result<(), NoMemory>
    ensures { OnOk result (AreShown rooms.old.world rooms.old.attendances.items
        → PutsSteps rooms.old.world 1 (map order_of steps.now) rooms.new.world
        text.old.items text.new.items) }
{
    let mut number: usize = 0;
    for step in steps {
        number += 1;
        put_part(text, number, step, rooms)?;
    }
    Ok(())
}

/// Takes a step and puts its lines, under this number.
fn put_part(
    text: &mut Vec<u8>,
    number: usize,
    step: &ScriptStep<'_>,
    rooms: &mut Rooms,
) -> Result<(), NoMemory>
    ensures puts { OnOk result (AreShown rooms.old.world rooms.old.attendances.items
        → PutsStep number (order_of step.now) rooms.old.world rooms.new.world
        text.old.items text.new.items) }
    ensures shown { OnOk result (AreShown rooms.old.world rooms.old.attendances.items
        → AreShown rooms.new.world rooms.new.attendances.items) }
{
    let part = text_of_step(*text.allocator(), number, step, rooms)?;
    let put = text.extend_from_slice(&part);
    drop(part);
    put
}

/// Takes a step, of this number. Its lines.
fn text_of_step(
    alloc: Global,
    number: usize,
    step: &ScriptStep<'_>,
    rooms: &mut Rooms,
) -> Result<Vec<u8>, NoMemory>
    ensures comes { OnOk result (AreShown rooms.old.world rooms.old.attendances.items
        → ComesOf (order_of step.now) rooms.old.world rooms.new.world) }
    ensures shown { OnOk result (AreShown rooms.old.world rooms.old.attendances.items
        → AreShown rooms.new.world rooms.new.attendances.items) }
    ensures says { IfOk result (λ part. AreShown rooms.old.world rooms.old.attendances.items
        → Says number (order_of step.now) rooms.old.world part.items) }
{
    let mut text = Vec::new(alloc);
    match put_step_of(&mut text, number, step, rooms) {
        Ok(()) => Ok(text),
        Err(refused) => {
            drop(text);
            Err(refused)
        }
    }
}

/// Takes a step and puts its lines, under this number, into an empty text.
fn put_step_of(
    text: &mut Vec<u8>,
    number: usize,
    step: &ScriptStep<'_>,
    rooms: &mut Rooms,
) -> Result<(), NoMemory>
    requires { text.old.items ≡ [] }
    ensures comes { OnOk result (AreShown rooms.old.world rooms.old.attendances.items
        → ComesOf (order_of step.now) rooms.old.world rooms.new.world) }
    ensures shown { OnOk result (AreShown rooms.old.world rooms.old.attendances.items
        → AreShown rooms.new.world rooms.new.attendances.items) }
    ensures says { OnOk result (AreShown rooms.old.world rooms.old.attendances.items
        → Says number (order_of step.now) rooms.old.world text.new.items) }
{
    match step {
        ScriptStep::Take(step) => {
            rooms.step(step)?;
            put_last_step(text, number, rooms.world())
        }
        ScriptStep::Compose { member, line } => match rooms.compose(*member, line)? {
            Composed::Cast => put_last_step(text, number, rooms.world()),
            Composed::NoSuchMember => put_no_member(text, number),
            Composed::Refused(fault) => put_not_composed(text, number, fault),
        },
        ScriptStep::Screen { member } => put_screen_of(text, number, *member, rooms),
    }
}

/// The lines of a step that asks for the screen of a member, in an empty text.
fn put_screen_of(
    text: &mut Vec<u8>,
    number: usize,
    member: u32,
    rooms: &Rooms,
) -> Result<(), NoMemory>
    requires { text.old.items ≡ [] }
    ensures { OnOk result (AreShown rooms.now.world rooms.now.attendances.items
        → Says number (Shows member) rooms.now.world text.new.items) }
{
    let Some(screen) = rooms.screen(member)? else {
        return put_no_member(text, number);
    };
    let put = put_screen(text, number, member, &screen);
    drop(screen);
    put
}

/// The lines of the step that was taken last, which has this number.
fn put_last_step(text: &mut Vec<u8>, number: usize, world: &World) -> Result<(), NoMemory> {
    let Some(outcome) = world.outcomes().last() else {
        return Ok(());
    };
    let frames = frames_from(world.frames(), outcome.first_frame);
    put_step(text, number, outcome, frames)
}

/// The frames from this number on.
fn frames_from(frames: &[Sent], first: usize) -> &[Sent]
    ensures from { result.now ≡ drop first frames.now }
    ensures few { first + length result.now < 2 ^ 64 }
{
    if first < frames.len() {
        let (_, last) = frames.split_at(first);
        last
    } else {
        &[]
    }
}

/// The lines of all members.
fn text_of_members(alloc: Global, size: u32, world: &World) -> Result<Vec<u8>, NoMemory> {
    let mut text = Vec::new(alloc);
    match put_members(&mut text, size, world) {
        Ok(()) => Ok(text),
        Err(refused) => {
            drop(text);
            Err(refused)
        }
    }
}

fn put_members(text: &mut Vec<u8>, size: u32, world: &World) -> Result<(), NoMemory> {
    for number in 0..size {
        if let Some(member) = world.member(number) {
            put_member(text, number, member)?;
        }
    }
    Ok(())
}
