//! The answers to lines.

use crate::expansion::Expansion;
use crate::fault::LineFault;
use crate::messages::{LONGEST_ANSWER, show};
use crate::refusal::Refusal;
use cb_times::NoMemory;
use confer_text::put_fault;
use std::alloc::Global;
use std::marker::Model;

/// Answers to lines, one behind the other. A clause sees their text, and whether one of them is a refusal.
#[derive(Drop)]
pub struct Answers {
    text: Vec<u8>,
    refused: bool,
}

impl Model for Answers {
    ghost use Rattle.confer_expand.specs.Progress.{Said};

    ghost Value = { Said };

    ghost view = { λ a. record { text = a.text.items; refused = a.refused } };
}

impl Answers {
    ghost use Rattle.std.specs.Prelude.{◌≡◌, ◌∷◌, ◌++◌, [], codes, IfOk, OnOk, OnErr, false, true};
    ghost use Rattle.confer_expand.specs.Progress.{Says};
    ghost use Rattle.confer_expand.specs.Lines.{line_feed};
    ghost use Rattle.confer_expand.specs.Refusals.{refusal_text};

    pub fn new(alloc: Global) -> Answers
        ensures { result ≡ record { text = []; refused = false } }
    {
        Answers {
            text: Vec::new(alloc),
            refused: false,
        }
    }

    /// The answers that were given since the last `clear`.
    pub fn text(&self) -> &[u8]
        ensures { result.now ≡ self.now.text }
    {
        self.text.as_slice()
    }

    /// Whether a line was refused.
    pub fn refused(&self) -> bool
        ensures { result ≡ self.now.refused }
    {
        self.refused
    }

    /// Forgets the text.
    pub fn clear(&mut self)
        ensures { self.new ≡ record self.old { text = [] } }
    {
        self.text.clear();
    }

    /// Answers one line. When memory runs out all is as it was: no part of an answer is ever shown.
    pub fn answer(&mut self, expansion: &mut Expansion, line: &[u8]) -> Result<(), NoMemory>
        ensures ok { OnOk result
            (Says (line.now ∷ []) expansion.old expansion.new self.old self.new) }
        ensures err { OnErr result ((expansion.new ≡ expansion.old) × (self.new ≡ self.old)) }
    {
        self.text.reserve(LONGEST_ANSWER)?;
        match expansion.accept(line) {
            Ok(unit) => {
                show(&mut self.text, &unit, expansion);
                drop(unit);
                Ok(())
            }
            Err(LineFault::Refused(refusal)) => self.refuse(refusal),
            Err(LineFault::NoMemory(refused)) => Err(refused),
        }
    }

    fn refuse(&mut self, refusal: Refusal) -> Result<(), NoMemory>
        ensures ok { OnOk result (self.new ≡ record {
          text = self.old.text ++ codes "refused " ++ refusal_text refusal ++ line_feed ∷ [];
          refused = true;
        }) }
        ensures err { OnErr result (self.new ≡ self.old) }
    {
        put_fault(&mut self.text, "refused ", refusal)?;
        self.refused = true;
        Ok(())
    }
}
