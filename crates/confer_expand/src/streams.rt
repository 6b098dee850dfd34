//! From a reader to a writer.

ghost use Rattle.std.specs.Prelude.{◌≡◌, ◌≤◌, [], Ok, length, IfOk, IfErr, OnOk, IfSome};
ghost use Rattle.std.specs.Io.KnownBytes.{Appends};
ghost use Rattle.cb_times.specs.Group.{IsGroupSize};
ghost use Rattle.confer_expand.specs.Lines.{ended, unended, last_line, output_of, is_refused};
ghost use Rattle.confer_expand.specs.Runs.{PutsLines, StopsIn, Stops, FailsToPut};

use crate::answers::Answers;
use crate::lines::Lines;
use cb_times::NoMemory;
use confer_text::{LONGEST_INPUT, LinesFault, read, room, write_whole};
use std::alloc::Global;
use std::io::{Read, Write};

/// Writes the answers that came with one read, also where memory ran out after them.
fn put<W: Write>(
    output: &mut W,
    answers: &mut Answers,
    taken: Result<(), NoMemory>,
) -> Result<(), LinesFault>
    ensures all { OnOk result (taken ≡ Ok tt) }
    ensures bytes { OnOk result
        (Appends (W.contents output.old) (W.contents output.new) answers.old.text) }
    ensures cleared { OnOk result (answers.new ≡ record answers.old { text = [] }) }
    ensures fault { IfErr result (λ fault.
        FailsToPut fault (W.contents output.old) (W.contents output.new) answers.old.text) }
{
    write_whole(output, answers.text())?;
    answers.clear();
    Ok(taken?)
}

/// Answers the lines that end in a piece of the input, and writes the answers.
fn answer_piece<W: Write>(output: &mut W, lines: &mut Lines, piece: &[u8]) -> Result<(), LinesFault>
    ensures ok { OnOk result (PutsLines (ended lines.old.begun.items piece.now)
        lines.old.expansion lines.new.expansion lines.old.answers lines.new.answers
        (W.contents output.old) (W.contents output.new)) }
    ensures begun { OnOk result (lines.new.begun.items ≡ unended lines.old.begun.items piece.now) }
    ensures fault { IfErr result (λ fault. StopsIn fault (ended lines.old.begun.items piece.now)
        lines.old.expansion lines.old.answers (W.contents output.old) (W.contents output.new)) }
{
    let taken = lines.take(piece);
    put(output, &mut lines.answers, taken)
}

/// Answers a last line that lacks its line feed, and writes the answer. Whether a line of the input was
/// refused.
fn answer_last<W: Write>(output: &mut W, lines: &mut Lines) -> Result<bool, LinesFault>
    ensures ok { OnOk result (PutsLines (last_line lines.old.begun.items)
        lines.old.expansion lines.new.expansion lines.old.answers lines.new.answers
        (W.contents output.old) (W.contents output.new)) }
    ensures refused { IfOk result (λ refused. refused ≡ lines.new.answers.refused) }
    ensures fault { IfErr result (λ fault. StopsIn fault (last_line lines.old.begun.items)
        lines.old.expansion lines.old.answers (W.contents output.old) (W.contents output.new)) }
{
    let taken = lines.end();
    match put(output, &mut lines.answers, taken) {
        Ok(()) => Ok(lines.answers.refused()),
        Err(fault) => Err(fault),
    }
}

/// Reads lines of hexadecimal to the end of the input, and writes for each the messages of the cast or burst that
/// it is, with their times, or why it is refused. Whether a line was refused.
///
/// Output is written once for each read; memory does not grow with the number of lines.
pub fn expand_lines<R: Read, W: Write>(
    alloc: Global,
    group: u32,
    size: u32,
    input: &mut R,
    output: &mut W,
) -> Result<bool, LinesFault>
    requires { IsGroupSize size }
    ensures text { IfOk result (λ _. IfSome (R.remaining input.old) (λ bytes.
        Appends (W.contents output.old) (W.contents output.new) (output_of group size bytes))) }
    ensures refused { IfOk result (λ refused. IfSome (R.remaining input.old) (λ bytes.
        refused ≡ is_refused group size bytes)) }
    ensures limit { IfOk result (λ _. IfSome (R.remaining input.old) (λ bytes.
        length bytes ≤ LONGEST_INPUT)) }
    ensures fault { IfErr result (λ fault. IfSome (R.remaining input.old) (λ bytes.
        Stops group size bytes fault (R.remaining input.new)
        (W.contents output.old) (W.contents output.new))) }
{
    let mut buffer = room(alloc)?;
    let mut lines = Lines::new(alloc, group, size)?;
    let mut left = LONGEST_INPUT;
    'pieces: loop {
        let count = match read(input, &mut buffer) {
            Ok(count) => count,
            Err(fault) => return Err(fault),
        };
        if count == 0 {
            return answer_last(output, &mut lines);
        }
        let within = count.min(left);
        if let Err(fault) = answer_piece(output, &mut lines, &buffer[..within]) {
            return Err(fault);
        }
        if within < count {
            return Err(LinesFault::TooLong);
        }
        left -= within;
    }
}
