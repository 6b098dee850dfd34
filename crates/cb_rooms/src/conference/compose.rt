//! Composing a line for the others: only what has a place here, and fits.

ghost use Rattle.std.specs.Prelude.{◌≡◌, None, IfOk, IfErr};
ghost use Rattle.cb_rooms.specs.Line.{fields_of, IsPayload};
ghost use Rattle.cb_rooms.specs.Compose.{HasPlace, place_fault, text_of, compose_fault, MayFail};

use super::Conference;
use crate::fault::ComposeFault;
use crate::line::{LONGEST_PAYLOAD, Line, is_room, is_text};
use crate::writing::{payload, payload_length};

impl Conference {
    /// The payload of a line, for a member that was shown what this conference was shown.
    ///
    /// Its faults, the first that holds: `BadRoom` (something is said in a room that can't have that name) or `UnknownQuestion`
    /// (the question of an answer has no line here), `BadText` (the text has a control character), `TooLong` (the payload would
    /// have more than 1,024 bytes), and out of memory.
    #[tactic(auto, unfolding(crate::specs::Compose::compose_fault))]
    pub fn compose(&self, line: &Line<'_>) -> Result<Vec<u8>, ComposeFault>
        ensures payload { IfOk result (λ bytes. IsPayload (fields_of line.now) bytes.items) }
        ensures no_fault { IfOk result (λ _.
            compose_fault self.now.lines (fields_of line.now) ≡ None) }
        ensures fault { let first = compose_fault self.now.lines (fields_of line.now) in
            IfErr result (MayFail first) }
    {
        if let Some(fault) = self.place_fault(line) {
            return Err(fault);
        }
        if !is_text(text(line)) {
            return Err(ComposeFault::BadText);
        }
        if payload_length(line) > LONGEST_PAYLOAD {
            return Err(ComposeFault::TooLong);
        }
        Ok(payload(*self.rooms.allocator(), line)?)
    }

    fn place_fault(&self, line: &Line<'_>) -> Option<ComposeFault>
        ensures exact { result ≡ place_fault self.now.lines (fields_of line.now) }
        ensures placed { result ≡ None → HasPlace (fields_of line.now) }
    {
        match *line {
            Line::Say { room, .. } if !is_room(room) => Some(ComposeFault::BadRoom),
            Line::Answer { question, .. } if !self.has_line(question) => {
                Some(ComposeFault::UnknownQuestion)
            }
            _ => None,
        }
    }
}

fn text<'a>(line: &Line<'a>) -> &'a str
    ensures { result.now ≡ text_of (fields_of line.now) }
{
    match *line {
        Line::Say { text, .. } | Line::Answer { text, .. } => text,
    }
}
