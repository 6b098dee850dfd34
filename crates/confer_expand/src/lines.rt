//! The lines of an input that comes in pieces.

ghost use Rattle.std.specs.Prelude.{◌≡◌, ◌<◌, ◌≤◌, [], ◌∷◌, ◌++◌, IfOk, OnOk, OnErr, length, vec_len};
ghost use Rattle.memchr.specs.Find.{IsFirstByte, is_byte};
ghost use Rattle.cb_times.specs.Group.{IsGroupSize};
ghost use Rattle.confer_expand.specs.Lines.{line_feed, ended, unended, last_line};
ghost use Rattle.confer_expand.specs.Progress.{Says, SaysFirst, IsFresh, NothingSaid};

use crate::answers::Answers;
use crate::expansion::Expansion;
use cb_times::NoMemory;
use memchr::memchr;
use std::alloc::Global;

/// How far the lines of an input have been answered.
#[derive(Drop)]
pub struct Lines {
    pub expansion: Expansion,
    pub answers: Answers,
    /// What has come of the line that no line feed has ended yet.
    pub begun: Vec<u8>,
}

impl Lines {
    /// Before the first byte.
    pub fn new(alloc: Global, group: u32, size: u32) -> Result<Lines, NoMemory>
        requires { IsGroupSize size }
        ensures fresh { IfOk result (λ lines. IsFresh group size lines.expansion) }
        ensures silent { IfOk result (λ lines. NothingSaid lines.answers) }
        ensures empty { IfOk result (λ lines. lines.begun.items ≡ []) }
    {
        Ok(Lines {
            expansion: Expansion::new(alloc, group, size)?,
            answers: Answers::new(alloc),
            begun: Vec::new(alloc),
        })
    }

    /// Answers the lines that end in the piece, and keeps what has come of the last one.
    pub fn take(&mut self, piece: &[u8]) -> Result<(), NoMemory>
        ensures ok { OnOk result (Says (ended self.old.begun.items piece.now)
            self.old.expansion self.new.expansion self.old.answers self.new.answers) }
        ensures begun { OnOk result
            (self.new.begun.items ≡ unended self.old.begun.items piece.now) }
        ensures err { OnErr result (SaysFirst (ended self.old.begun.items piece.now)
            self.old.expansion self.new.expansion self.old.answers self.new.answers) }
    {
        let mut rest = piece;
        while let Some(end) = memchr(b'\n', rest) {
            let (line, after) = rest.split_at(end);
            self.answer(line)?;
            rest = &after[1..];
        }
        self.begun.extend_from_slice(rest)
    }

    /// Answers the line of which this is the end. It is copied only where it was read in more than one piece.
    fn answer(&mut self, end: &[u8]) -> Result<(), NoMemory>
        ensures ok { OnOk result (Says ((self.old.begun.items ++ end.now) ∷ [])
            self.old.expansion self.new.expansion self.old.answers self.new.answers) }
        ensures begun { OnOk result (self.new.begun.items ≡ []) }
        ensures err { OnErr result
            ((self.new.expansion ≡ self.old.expansion) × (self.new.answers ≡ self.old.answers)) }
    {
        if self.begun.is_empty() {
            return self.answers.answer(&mut self.expansion, end);
        }
        self.begun.extend_from_slice(end)?;
        self.answers.answer(&mut self.expansion, &self.begun)?;
        self.begun.clear();
        Ok(())
    }

    /// Answers a last line that lacks its line feed, where there is one.
    pub fn end(&mut self) -> Result<(), NoMemory>
        ensures ok { OnOk result (Says (last_line self.old.begun.items)
            self.old.expansion self.new.expansion self.old.answers self.new.answers) }
        ensures err { OnErr result
            ((self.new.expansion ≡ self.old.expansion) × (self.new.answers ≡ self.old.answers)) }
    {
        if self.begun.is_empty() {
            return Ok(());
        }
        self.answers.answer(&mut self.expansion, &self.begun)
    }
}
