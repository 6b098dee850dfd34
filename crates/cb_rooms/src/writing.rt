//! Lines to payloads.

ghost use Rattle.std.specs.Prelude.{◌≡◌, ◌≤◌, ◌<◌, ◌^◌, true, length, IfOk};
ghost use Rattle.cb_varint.specs.Reading.{spelling};
ghost use Rattle.cb_rooms.specs.Line.{SayLine, AnswerLine, fields_of, is_room, HasNumbers, KeepsRules, payload_of};

use crate::line::Line;
use crate::reading::{ANSWER, SAY};
use cb_times::{Name, NoMemory};
use std::alloc::Global;

/// How many bytes the payload has.
pub fn payload_length(line: &Line<'_>) -> usize
    requires { KeepsRules (fields_of line.now) }
    ensures exact { result ≡ length (payload_of (fields_of line.now)) }
    ensures numbers { HasNumbers (fields_of line.now) }
{
    match *line {
        Line::Say { room, text } => say_length(room, text),
        Line::Answer { question, text } => answer_length(question, text),
    }
}

#[tactic(auto, unfolding(crate::specs::Line::payload_of))]
fn say_length(room: &str, text: &str) -> usize
    requires { is_room room.now ≡ true }
    ensures { result ≡ length (payload_of (SayLine room.now text.now)) }
{
    let size = number_length(size_of(room));
    1 + size + room.len() + text.len()
}

#[tactic(auto, unfolding(crate::specs::Line::payload_of))]
fn answer_length(question: Name, text: &str) -> usize
    ensures exact { result ≡ length (payload_of (AnswerLine question text.now)) }
    ensures numbers { question.number < 2 ^ 32 }
{
    let name = number_length(question.sender) + number_length(question.number);
    1 + name + text.len()
}

fn number_length(number: u32) -> usize
    ensures exact { result ≡ length (spelling number) }
    ensures few { result ≤ 5 }
{
    cb_varint::length(number)
}

/// The length of a room's name as it is written.
#[tactic(auto, unfolding(crate::specs::Line::is_room))]
fn size_of(room: &str) -> u32
    requires { is_room room.now ≡ true }
    ensures { result ≡ length room.now }
{
    room.len() as u32
}

/// The payload of a line that keeps the rules. The only error is out of memory.
#[tactic(auto, unfolding(crate::specs::Line::payload_of))]
pub fn payload(alloc: Global, line: &Line<'_>) -> Result<Vec<u8>, NoMemory>
    requires { KeepsRules (fields_of line.now) }
    ensures { IfOk result (λ bytes. bytes.items ≡ payload_of (fields_of line.now)) }
{
    let mut out = Vec::new(alloc);
    match *line {
        Line::Say { room, text } => {
            out.push(SAY)?;
            cb_varint::put(size_of(room), &mut out)?;
            out.extend_from_slice(room.as_bytes())?;
            out.extend_from_slice(text.as_bytes())?;
        }
        Line::Answer { question, text } => {
            out.push(ANSWER)?;
            cb_varint::put(question.sender, &mut out)?;
            cb_varint::put(question.number, &mut out)?;
            out.extend_from_slice(text.as_bytes())?;
        }
    }
    Ok(out)
}
