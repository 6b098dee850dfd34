//! What is printed of a run: the lines of each step, and at the end a line for each member.
//!
//! The lines are those of `docs/PROGRAM.md`. The only error is out of memory, after which a beginning of them may
//! stand behind the text.

ghost use Rattle.std.specs.Prelude.{◌≡◌, ◌++◌, ◌+◌, ◌<◌, ◌^◌, IfOk, OnOk, codes, decimal, flat_map, length, map};
ghost use Rattle.std.specs.Str.Lines.{lines};
ghost use Rattle.cb_history.specs.Refusals.{arrive_refusal_text, cast_refusal_text, help_fault_text, tick_refusal_text};
ghost use Rattle.cb_rooms.specs.FaultText.{compose_fault_text};
ghost use Rattle.cb_times.specs.Name.{name_text};
ghost use Rattle.cb_times.specs.Time.{text_of};
ghost use Rattle.confer_text.specs.Texts.{parameter_text};
ghost use Rattle.confer_play.specs.Playing.{behind_bar, screen_lines, screen_part};
ghost use Rattle.confer_play.specs.Transcript.{accepted_text, answer_text, deliveries_text, delivery_text, frame_text, frames_text, help_text, member_text, names_text, receiver_text, refused_text, step_text, ticked_text};

use cb_member::{Member, Message, Name, VectorTime};
use cb_rooms::ComposeFault;
use cb_times::NoMemory;
use cb_world::{Answer, Outcome, Sent};
use confer_text::{put_fault, put_hex, put_name, put_number, put_parameter, put_payload, put_time};
use std::alloc::Global;

/// The lines of a step of this number, counted from 1: what was answered, what was delivered, and the frames that
/// were sent.
pub fn put_step(
    text: &mut Vec<u8>,
    number: usize,
    outcome: &Outcome,
    frames: &[Sent],
) -> Result<(), NoMemory>
    requires { outcome.now.first_frame + length frames.now < 2 ^ 64 }
    ensures { OnOk result (text.new.items ≡ text.old.items
        ++ step_text number outcome.now frames.now) }
{
    put_answer(text, number, &outcome.answer)?;
    if let Answer::Accepted { deliveries, .. } = &outcome.answer {
        put_deliveries(text, deliveries)?;
    }
    put_frames(text, outcome.first_frame, frames)
}

/// The line of a step of this number, with what was answered.
#[tactic(auto, unfolding(confer_text::specs::Texts::parameter_text, crate::specs::Transcript::refused_text))]
fn put_answer(text: &mut Vec<u8>, number: usize, answer: &Answer) -> Result<(), NoMemory>
    ensures { OnOk result (text.new.items ≡ text.old.items
        ++ (decimal number ++ answer_text answer.now)) }
{
    put_parameter(text, b"", number)?;
    match answer {
        Answer::Cast { name, time } => put_cast(text, *name, time),
        Answer::CastRefused(refusal) => put_fault(text, " refused ", *refusal),
        Answer::Burst { first, count, time } => put_burst(text, *first, *count, time),
        Answer::BurstRefused(refusal) => put_fault(text, " refused ", *refusal),
        Answer::Accepted { changed, .. } => put_accepted(text, *changed),
        Answer::Repeat => text.extend_from_slice(b" arrive repeat\n"),
        Answer::ArrivalRefused(refusal) => put_fault(text, " refused ", *refusal),
        Answer::Ticked { entered } => put_ticked(text, *entered),
        Answer::TickRefused(refusal) => put_fault(text, " refused ", *refusal),
        Answer::Help { asked } => put_help(text, *asked),
        Answer::HelpRefused(refusal) => put_fault(text, " refused ", *refusal),
        Answer::NoSuchMember => text.extend_from_slice(b" refused NoSuchMember\n"),
        Answer::NoSuchFrame => text.extend_from_slice(b" refused NoSuchFrame\n"),
    }
}

fn put_cast(text: &mut Vec<u8>, name: Name, time: &VectorTime) -> Result<(), NoMemory>
    ensures { OnOk result (text.new.items ≡ text.old.items
        ++ (codes " cast " ++ name_text name ++ codes " " ++ text_of time.now ++ codes "\n")) }
{
    text.extend_from_slice(b" cast ")?;
    put_name(text, name)?;
    text.extend_from_slice(b" ")?;
    put_time(text, time)?;
    text.extend_from_slice(b"\n")
}

fn put_burst(text: &mut Vec<u8>, first: Name, count: u32, time: &VectorTime) -> Result<(), NoMemory>
    ensures { OnOk result (text.new.items ≡ text.old.items ++ (codes " burst "
        ++ names_text first count ++ codes " " ++ text_of time.now ++ codes "\n")) }
{
    text.extend_from_slice(b" burst ")?;
    put_names(text, first, count)?;
    text.extend_from_slice(b" ")?;
    put_time(text, time)?;
    text.extend_from_slice(b"\n")
}

/// The names of the first and of the last of so many messages.
#[tactic(auto, unfolding(confer_text::specs::Texts::parameter_text, crate::specs::Transcript::names_text))]
fn put_names(text: &mut Vec<u8>, first: Name, count: u32) -> Result<(), NoMemory>
    ensures { OnOk result (text.new.items ≡ text.old.items ++ names_text first count) }
{
    let behind = first.number as usize + count as usize;
    put_name(text, first)?;
    text.extend_from_slice(b" ")?;
    put_number(text, first.sender)?;
    put_parameter(text, b".", behind.saturating_sub(1))
}

fn put_accepted(text: &mut Vec<u8>, changed: bool) -> Result<(), NoMemory>
    ensures { OnOk result (text.new.items ≡ text.old.items ++ accepted_text changed) }
{
    if changed {
        text.extend_from_slice(b" arrive accepted changed\n")
    } else {
        text.extend_from_slice(b" arrive accepted same\n")
    }
}

fn put_ticked(text: &mut Vec<u8>, entered: bool) -> Result<(), NoMemory>
    ensures { OnOk result (text.new.items ≡ text.old.items ++ ticked_text entered) }
{
    if entered {
        text.extend_from_slice(b" tick entered\n")
    } else {
        text.extend_from_slice(b" tick same\n")
    }
}

fn put_help(text: &mut Vec<u8>, asked: bool) -> Result<(), NoMemory>
    ensures { OnOk result (text.new.items ≡ text.old.items ++ help_text asked) }
{
    if asked {
        text.extend_from_slice(b" help\n")
    } else {
        text.extend_from_slice(b" help none\n")
    }
}

fn put_deliveries(text: &mut Vec<u8>, deliveries: &[Message]) -> Result<(), NoMemory>
    ensures { OnOk result (text.new.items ≡ text.old.items
        ++ flat_map delivery_text deliveries.now) }
{
    for message in deliveries {
        put_delivery(text, message)?;
    }
    Ok(())
}

fn put_delivery(text: &mut Vec<u8>, message: &Message) -> Result<(), NoMemory>
    ensures { OnOk result (text.new.items ≡ text.old.items ++ delivery_text message.now) }
{
    text.extend_from_slice(b" = ")?;
    put_name(text, message.name)?;
    text.extend_from_slice(b" ")?;
    put_time(text, &message.time)?;
    text.extend_from_slice(b" ")?;
    put_payload(text, message.payload.as_slice())?;
    text.extend_from_slice(b"\n")
}

/// The frames that one step sent, the first of which has this number.
fn put_frames(text: &mut Vec<u8>, first: usize, frames: &[Sent]) -> Result<(), NoMemory>
    requires { first + length frames.now < 2 ^ 64 }
    ensures { OnOk result (text.new.items ≡ text.old.items ++ frames_text first frames.now) }
{
    let mut number = first;
    for sent in frames {
        put_frame(text, number, sent)?;
        number += 1;
    }
    Ok(())
}

fn put_frame(text: &mut Vec<u8>, number: usize, sent: &Sent) -> Result<(), NoMemory>
    ensures { OnOk result (text.new.items ≡ text.old.items ++ frame_text number sent.now) }
{
    put_parameter(text, b" > ", number)?;
    put_receiver(text, sent.to)?;
    text.extend_from_slice(b" ")?;
    put_hex(text, sent.bytes.as_slice())?;
    text.extend_from_slice(b"\n")
}

fn put_receiver(text: &mut Vec<u8>, to: Option<u32>) -> Result<(), NoMemory>
    ensures { OnOk result (text.new.items ≡ text.old.items ++ receiver_text to) }
{
    match to {
        None => text.extend_from_slice(b" all"),
        Some(member) => put_parameter(text, b" ", member as usize),
    }
}

/// The line of a step that named no member.
pub fn put_no_member(text: &mut Vec<u8>, number: usize) -> Result<(), NoMemory>
    ensures { OnOk result (text.new.items ≡ text.old.items
        ++ (decimal number ++ answer_text Answer.NoSuchMember)) }
{
    put_answer(text, number, &Answer::NoSuchMember)
}

/// The line of a step whose line could not be composed.
#[tactic(auto, unfolding(confer_text::specs::Texts::parameter_text, crate::specs::Transcript::refused_text))]
pub fn put_not_composed(
    text: &mut Vec<u8>,
    number: usize,
    fault: ComposeFault,
) -> Result<(), NoMemory>
    ensures { OnOk result (text.new.items ≡ text.old.items
        ++ (decimal number ++ refused_text (compose_fault_text fault))) }
{
    put_parameter(text, b"", number)?;
    put_fault(text, " refused ", fault)
}

/// The lines of a step that asked for the screen of a member.
pub fn put_screen(
    text: &mut Vec<u8>,
    number: usize,
    member: u32,
    screen: &str,
) -> Result<(), NoMemory>
    ensures { OnOk result (text.new.items
        ≡ text.old.items ++ screen_part number member screen.now) }
{
    let lines = lines_of(*text.allocator(), screen)?;
    let put = put_screen_lines(text, number, member, &lines);
    drop(lines);
    put
}

fn lines_of(alloc: Global, text: &str) -> Result<Vec<&str>, NoMemory>
    ensures { IfOk result (λ found. map (λ line. line.now) found.items ≡ lines text.now) }
{
    text.lines().collect(alloc)
}

#[tactic(auto, unfolding(crate::specs::Playing::screen_lines, confer_text::specs::Texts::parameter_text))]
fn put_screen_lines(
    text: &mut Vec<u8>,
    number: usize,
    member: u32,
    lines: &[&str],
) -> Result<(), NoMemory>
    ensures { OnOk result (text.new.items ≡ text.old.items
        ++ screen_lines number member (map (λ line. line.now) lines.now)) }
{
    put_parameter(text, b"", number)?;
    put_parameter(text, b" screen ", member as usize)?;
    text.extend_from_slice(b"\n")?;
    put_behind_bars(text, lines)
}

fn put_behind_bars(text: &mut Vec<u8>, lines: &[&str]) -> Result<(), NoMemory>
    ensures { OnOk result (text.new.items ≡ text.old.items
        ++ flat_map behind_bar (map (λ line. line.now) lines.now)) }
{
    for line in lines {
        put_behind_bar(text, line)?;
    }
    Ok(())
}

fn put_behind_bar(text: &mut Vec<u8>, line: &str) -> Result<(), NoMemory>
    ensures { OnOk result (text.new.items ≡ text.old.items ++ behind_bar line.now) }
{
    text.extend_from_slice(b" | ")?;
    text.extend_from_slice(line.as_bytes())?;
    text.extend_from_slice(b"\n")
}

/// The line of a member at the end.
pub fn put_member(text: &mut Vec<u8>, number: u32, member: &Member) -> Result<(), NoMemory>
    ensures { OnOk result (text.new.items ≡ text.old.items ++ member_text number member.now) }
{
    put_parameter(text, b"member ", number as usize)?;
    text.extend_from_slice(b" time ")?;
    put_time(text, member.time())?;
    put_parameter(text, b" stable ", member.stable() as usize)?;
    put_parameter(text, b" entries ", member.history().len())?;
    text.extend_from_slice(b"\n")
}
