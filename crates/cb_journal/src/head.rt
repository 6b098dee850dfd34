//! The head line of a journal.

ghost use Rattle.std.specs.Prelude.{◌≡◌, ◌++◌, IfOk, OnOk};
ghost use Rattle.std.specs.Bool.{Decides};
ghost use Rattle.cb_history.specs.Group.{IsIdentity};
ghost use Rattle.cb_lines.specs.Finding.{Finds};
ghost use Rattle.cb_journal.specs.Journal.{head_line};
ghost use Rattle.cb_journal.specs.Finding.{seat_words};

use cb_history::Identity;
use cb_lines::{LineFault, is, number_of, parameters_of, put_group, put_number, words_of};
use cb_times::NoMemory;
use std::alloc::Global;

/// How many words the head line has.
const HEAD_WORDS: usize = 10;

/// Appends the head line, without its line feed. Out of memory, `out` may have a part of it.
pub fn put_head(out: &mut Vec<u8>, seat: Identity) -> Result<(), NoMemory>
    ensures { OnOk result (out.new.items ≡ out.old.items ++ head_line seat) }
{
    put_group(out, seat.group())?;
    out.extend_from_slice(b" member ")?;
    put_number(out, seat.me())
}

/// The member of a head line, which comes without its line feed.
pub fn head_of(alloc: Global, line: &[u8]) -> Result<Identity, LineFault>
    ensures { Finds IsIdentity head_line (λ seat. seat) line.now result }
{
    let words = words_of(alloc, line)?;
    if words.len() != HEAD_WORDS {
        return Err(LineFault::NoLine);
    }
    let seat = seat_of(words[3], words[5], words[7], words[9])?;
    if is_head_line(alloc, line, seat)? {
        Ok(seat)
    } else {
        Err(LineFault::NoLine)
    }
}

fn is_head_line(alloc: Global, line: &[u8], seat: Identity) -> Result<bool, NoMemory>
    ensures { IfOk result (λ is. Decides is (line.now ≡ head_line seat)) }
{
    let mut spelled = Vec::new(alloc);
    put_head(&mut spelled, seat)?;
    Ok(is(line, &spelled))
}

/// The member of these four words: the group's number, its size and window, and the member's number.
fn seat_of(number: &[u8], size: &[u8], window: &[u8], me: &[u8]) -> Result<Identity, LineFault>
    ensures { Finds IsIdentity seat_words (λ seat. seat)
        (number.now, size.now, window.now, me.now) result }
{
    let group = parameters_of(number, size, window)?;
    let me = number_of(me)?;
    match Identity::new(group, me) {
        Some(seat) => Ok(seat),
        None => Err(LineFault::NoLine),
    }
}
