//! The lines of a text: sentences, calls, and the answers below each call, which begin with a space.
//!
//! Each line ends with a line feed, so a text has no more lines than bytes.

use crate::texts::put;
use cb_lines::first_line;
use cb_times::NoMemory;

/// The calls at the end of a stanza, for each member in it. They are not shown.
const AT_THE_END: &str = ". entries\n. events\n";

fn is_answer(line: &[u8]) -> bool {
    line.starts_with(b" ")
}

/// An answer that differs, or a line that is no call, begins so.
fn is_fault(line: &[u8]) -> bool {
    line.starts_with(b" !")
}

pub fn put_line_of(text: &mut Vec<u8>, line: &[u8]) -> Result<(), NoMemory> {
    text.extend_from_slice(line)?;
    put(text, "\n")
}

/// Writes the lines of the input without the answers, and the calls at the end of each stanza.
pub fn put_calls(text: &mut Vec<u8>, input: &[u8]) -> Result<(), NoMemory> {
    let mut rest = input;
    for _ in 0..input.len() {
        let Some((line, behind)) = first_line(rest) else {
            break;
        };
        put_call(text, line)?;
        rest = behind;
    }
    put(text, AT_THE_END)
}

fn put_call(text: &mut Vec<u8>, line: &[u8]) -> Result<(), NoMemory> {
    if is_answer(line) {
        return Ok(());
    }
    if line.is_empty() || line.starts_with(b"member") {
        put(text, AT_THE_END)?;
    }
    put_line_of(text, line)
}

/// Writes all lines that are shown. Whether none is a fault.
pub fn put_shown(output: &mut Vec<u8>, text: &[u8]) -> Result<bool, NoMemory> {
    let (mut rest, mut shows, mut is_good) = (text, true, true);
    for _ in 0..text.len() {
        let Some((line, behind)) = first_line(rest) else {
            break;
        };
        shows = is_shown(line, shows);
        is_good = is_good && !is_fault(line);
        if shows {
            put_line_of(output, line)?;
        }
        rest = behind;
    }
    Ok(is_good)
}

/// Whether the line is shown, after a line that is shown or not. An answer is shown with its call, and a fault always.
fn is_shown(line: &[u8], is_before: bool) -> bool {
    if is_answer(line) {
        return is_before || is_fault(line);
    }
    !line.starts_with(b".")
}

/// The answer at the beginning of the text: its lines that begin with a space.
pub fn answer_in(text: &[u8]) -> &[u8] {
    let mut rest = text;
    for _ in 0..text.len() {
        match first_line(rest) {
            Some((line, behind)) if is_answer(line) => rest = behind,
            _ => break,
        }
    }
    before(text, rest)
}

/// The answer without the faults after it.
pub fn agreed(answer: &[u8]) -> &[u8] {
    let mut rest = answer;
    for _ in 0..answer.len() {
        match first_line(rest) {
            Some((line, behind)) if !is_fault(line) => rest = behind,
            _ => break,
        }
    }
    before(answer, rest)
}

/// The text before its end `rest`.
fn before<'a>(text: &'a [u8], rest: &[u8]) -> &'a [u8] {
    text.get(..text.len().saturating_sub(rest.len()))
        .unwrap_or(text)
}

/// The text after its beginning.
pub fn after<'a>(text: &'a [u8], beginning: &[u8]) -> &'a [u8] {
    text.get(beginning.len()..).unwrap_or(text)
}
