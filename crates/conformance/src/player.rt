//! Players answer the lines of a text.

use crate::lines::{after, agreed, answer_in, put_line_of};
use crate::texts::put;
use cb_lines::{LineFault, first_line};
use cb_times::NoMemory;
use std::alloc::{AllocError, Global};
use std::str;

/// A player answers some of the lines.
pub trait Player: Drop + Sized {
    fn new(alloc: Global) -> Self;

    /// Its name, for answers that differ. A player without a name is the first one, whose answers all others are compared with.
    fn name() -> Option<&'static str>;

    /// Writes its answer to the call. Whether it has one.
    fn play(&mut self, call: &str, text: &mut Vec<u8>) -> Result<bool, LineFault>;
}

/// The text, with the player's answers.
pub fn put_played<P: Player>(
    alloc: Global,
    text: &[u8],
    output: &mut Vec<u8>,
) -> Result<(), NoMemory> {
    let mut player = P::new(alloc);
    let played = play_each(&mut player, text, output);
    drop(player);
    played
}

fn play_each<P: Player>(player: &mut P, text: &[u8], output: &mut Vec<u8>) -> Result<(), NoMemory> {
    let mut rest = text;
    for _ in 0..text.len() {
        let Some((line, below)) = first_line(rest) else {
            break;
        };
        let answer = answer_in(below);
        put_line_of(output, line)?;
        answer_line(player, line, answer, output)?;
        rest = after(below, answer);
    }
    Ok(())
}

/// Writes the lines below the call: the answer of the players before, or this player's, or both if they differ.
fn answer_line<P: Player>(
    player: &mut P,
    line: &[u8],
    answer: &[u8],
    output: &mut Vec<u8>,
) -> Result<(), NoMemory> {
    let mut own = Vec::new(*output.allocator());
    let put = match play_line(player, line, &mut own) {
        Ok(true) => put_answers(P::name(), answer, &own, output),
        Ok(false) => output.extend_from_slice(answer),
        Err(fault) => Err(fault),
    };
    drop(own);
    put
}

fn put_answers(
    name: Option<&str>,
    answer: &[u8],
    own: &[u8],
    output: &mut Vec<u8>,
) -> Result<(), NoMemory> {
    let Some(name) = name else {
        return output.extend_from_slice(own);
    };
    output.extend_from_slice(answer)?;
    if *own == *agreed(answer) {
        return Ok(());
    }
    put(output, " ! ")?;
    put(output, name)?;
    put(output, ":\n")?;
    output.extend_from_slice(own)
}

/// Whether the player answers the line.
fn play_line<P: Player>(player: &mut P, line: &[u8], text: &mut Vec<u8>) -> Result<bool, NoMemory> {
    if line.is_empty() || line.starts_with(b"#") {
        return Ok(false);
    }
    match play_words(player, line, text) {
        Ok(has_answer) => Ok(has_answer),
        Err(LineFault::NoMemory) => Err(AllocError),
        Err(LineFault::NoLine) => {
            put(text, " ! no call\n")?;
            Ok(true)
        }
    }
}

fn play_words<P: Player>(
    player: &mut P,
    line: &[u8],
    text: &mut Vec<u8>,
) -> Result<bool, LineFault> {
    match str::from_utf8(line) {
        Ok(line) => player.play(asked(line), text),
        Err(_) => Err(LineFault::NoLine),
    }
}

/// The call of a line, without the mark of one that is not shown.
fn asked(line: &str) -> &str {
    line.strip_prefix(". ").unwrap_or(line)
}
