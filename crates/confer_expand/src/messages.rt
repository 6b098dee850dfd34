//! The lines of what was accepted, one for each message.

ghost use Rattle.std.specs.Prelude.{◌≡◌, ◌≤◌, ◌<◌, ◌+◌, ◌*◌, ◌∷◌, ◌++◌, [], OnOk, vec_capacity, vec_len, length, slice_set};
ghost use Rattle.std.specs.List.{concat};
ghost use Rattle.cb_frames.specs.Carrying.{IsNumbered};
ghost use Rattle.cb_frames.specs.Fields.{cast_fields, burst_fields, unit_fields};
ghost use Rattle.cb_frames.specs.declared.frame.Unit.TheVariants.{Many};
ghost use Rattle.confer_text.specs.Texts.{PutsAtMost};
ghost use Rattle.confer_expand.specs.Lines.{line_feed};
ghost use Rattle.confer_expand.specs.Progress.{SameButTime};
ghost use Rattle.confer_expand.specs.Steps.{IsRead};
ghost use Rattle.confer_expand.specs.Texts.{accepted_text, cast_lines};

use crate::expansion::Expansion;
use cb_frames::{Burst, Cast, LONGEST_PAYLOAD, MOST_MESSAGES, Unit};
use cb_times::{Name, NoMemory, VectorTime};
use confer_text::{LONGEST_TIME, put_number, put_payload, put_time};

/// The most bytes of a message's line beside those of its payload: a name, a time, the marks around a payload, and what
/// stands behind each.
const LONGEST_LINE: usize = 24 + LONGEST_TIME + 2;

/// The most bytes of an answer: as many lines as a burst may have messages, and its payloads, which may take two bytes a
/// byte.
pub const LONGEST_ANSWER: usize = MOST_MESSAGES * LONGEST_LINE + 2 * LONGEST_PAYLOAD;

/// Puts a line for each message of what was accepted last behind the text, for which memory is reserved.
pub fn show(text: &mut Vec<u8>, unit: &Unit, expansion: &mut Expansion)
    requires read { IsRead unit.now }
    requires member { (unit_fields unit.now).sender < length expansion.old.kept }
    requires reserved { vec_len text.old + LONGEST_ANSWER ≤ vec_capacity text.old }
    ensures lines { text.new.items
        ≡ text.old.items ++ cast_lines (unit_fields unit.now) expansion.old.time }
    ensures same { SameButTime expansion.old expansion.new }
{
    match unit {
        Unit::One(cast) => show_cast(text, cast, expansion),
        Unit::Many(burst) => show_burst(text, burst, expansion),
    }
}

fn show_cast(text: &mut Vec<u8>, cast: &Cast, expansion: &mut Expansion)
    requires short { length cast.now.payload ≤ LONGEST_PAYLOAD }
    requires member { cast.now.sender < length expansion.old.kept }
    requires reserved { vec_len text.old + LONGEST_ANSWER ≤ vec_capacity text.old }
    ensures lines { text.new.items
        ≡ text.old.items ++ cast_lines (cast_fields cast.now) expansion.old.time }
    ensures same { SameButTime expansion.old expansion.new }
{
    let name = Name {
        sender: cast.sender,
        number: cast.number,
    };
    show_message(text, name, &cast.payload, expansion);
}

fn show_burst(text: &mut Vec<u8>, burst: &Burst, expansion: &mut Expansion)
    requires numbered { IsNumbered (Many burst.now) }
    requires member { burst.now.sender < length expansion.old.kept }
    requires reserved { vec_len text.old + length burst.now.payloads.items * LONGEST_LINE
        + 2 * length (concat burst.now.payloads.items) ≤ vec_capacity text.old }
    ensures lines { text.new.items
        ≡ text.old.items ++ cast_lines (burst_fields burst.now) expansion.old.time }
    ensures same { SameButTime expansion.old expansion.new }
{
    for (place, payload) in burst.payloads.iter().enumerate() {
        let name = Name {
            sender: burst.sender,
            number: burst.first + place as u32,
        };
        show_message(text, name, payload, expansion);
    }
}

/// Puts the line of a message behind the text. In the time its sender's field becomes its number.
fn show_message(text: &mut Vec<u8>, name: Name, payload: &[u8], expansion: &mut Expansion)
    requires member { name.sender < length expansion.old.kept }
    requires reserved { vec_len text.old + LONGEST_LINE + 2 * length payload.now
        ≤ vec_capacity text.old }
    ensures line { text.new.items ≡ text.old.items
        ++ (accepted_text name expansion.new.time payload.now ++ line_feed ∷ []) }
    ensures length { vec_len text.new ≤ vec_len text.old + LONGEST_LINE + 2 * length payload.now }
    ensures room { vec_capacity text.old ≤ vec_capacity text.new }
    ensures time { expansion.new
        ≡ record expansion.old { time = slice_set expansion.old.time name.sender name.number } }
{
    expansion.move_to(name);
    let Ok(()) = put_message(text, name, expansion.time(), payload) else {
        unreachable!("memory is reserved");
    };
}

/// Puts the line of a message behind the text.
fn put_message(
    text: &mut Vec<u8>,
    name: Name,
    time: &VectorTime,
    payload: &[u8],
) -> Result<(), NoMemory>
    ensures line { OnOk result (text.new.items
        ≡ text.old.items ++ (accepted_text name time.now payload.now ++ line_feed ∷ [])) }
    ensures room { PutsAtMost (LONGEST_LINE + 2 * length payload.now) text.old text.new result }
{
    put_number(text, name.sender)?;
    text.extend_from_slice(b".")?;
    put_number(text, name.number)?;
    text.extend_from_slice(b" ")?;
    put_time(text, time)?;
    text.extend_from_slice(b" ")?;
    put_payload(text, payload)?;
    text.extend_from_slice(b"\n")
}
