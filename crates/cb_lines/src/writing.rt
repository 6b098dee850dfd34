//! Groups and entries to their lines, which come without their line feeds.

ghost use Rattle.std.specs.Prelude.{◌≡◌, ◌∷◌, ◌++◌, OnOk, map};
ghost use Rattle.std.specs.List.{flat_map};
ghost use Rattle.std.specs.Fmt.{decimal};
ghost use Rattle.hex.specs.Hex.{encode_lower};
ghost use Rattle.cb_times.specs.Name.{name_text};
ghost use Rattle.cb_history.specs.Facts.{entry_fields};
ghost use Rattle.cb_lines.specs.Text.{space, delivered_words, group_line, entry_line};

use bytes::Bytes;
use cb_history::{Entry, Group};
use cb_times::{Name, NoMemory};
use itoa::Buffer;

/// Appends the line of a group, without its line feed. Out of memory, `out` may have a part of it.
#[tactic(auto, unfolding(crate::specs::Text::group_line, crate::specs::Text::line_of))]
pub fn put_group(out: &mut Vec<u8>, group: Group) -> Result<(), NoMemory>
    ensures { OnOk result (out.new.items ≡ out.old.items ++ group_line group) }
{
    put_parameter(out, b"cbcast 1 group ", group.number())?;
    put_parameter(out, b" size ", group.size())?;
    put_parameter(out, b" window ", group.window())
}

/// A number behind its words.
fn put_parameter(out: &mut Vec<u8>, words: &[u8], number: u32) -> Result<(), NoMemory>
    ensures { OnOk result (out.new.items ≡ out.old.items ++ words.now ++ decimal number) }
{
    out.extend_from_slice(words)?;
    put_number(out, number)
}

/// Appends the line of an entry, without its line feed. Out of memory, `out` may have a part of it.
pub fn put_entry(out: &mut Vec<u8>, entry: &Entry) -> Result<(), NoMemory>
    ensures { OnOk result (out.new.items ≡ out.old.items ++ entry_line (entry_fields entry.now)) }
{
    match entry {
        Entry::Cast { frame } => put_frame(out, b"cast ", frame),
        Entry::Arrive { frame, delivered } => {
            put_frame(out, b"arrive ", frame)?;
            put_delivered(out, delivered)
        }
        Entry::Tick { status } => put_frame(out, b"tick ", status),
    }
}

/// A frame behind its word and a space.
fn put_frame(out: &mut Vec<u8>, word: &[u8], frame: &Bytes) -> Result<(), NoMemory>
    ensures { OnOk result (out.new.items ≡ out.old.items ++ word.now ++ encode_lower frame.now) }
{
    out.extend_from_slice(word)?;
    let digits = hex::encode(*out.allocator(), frame.as_slice())?;
    out.extend_from_slice(digits.as_bytes())
}

/// The words for what was delivered, each behind a space.
fn put_delivered(out: &mut Vec<u8>, delivered: &[Name]) -> Result<(), NoMemory>
    ensures { OnOk result (out.new.items ≡ out.old.items
        ++ flat_map (λ word. space ∷ word) (delivered_words delivered.now)) }
{
    if delivered.is_empty() {
        return out.extend_from_slice(b" -");
    }
    put_names(out, delivered)
}

fn put_names(out: &mut Vec<u8>, names: &[Name]) -> Result<(), NoMemory>
    ensures { OnOk result (out.new.items ≡ out.old.items
        ++ flat_map (λ word. space ∷ word) (map name_text names.now)) }
{
    for name in names {
        out.extend_from_slice(b" ")?;
        put_name(out, *name)?;
    }
    Ok(())
}

fn put_name(out: &mut Vec<u8>, name: Name) -> Result<(), NoMemory>
    ensures { OnOk result (out.new.items ≡ out.old.items ++ name_text name) }
{
    put_number(out, name.sender)?;
    out.extend_from_slice(b".")?;
    put_number(out, name.number)
}

/// Appends a number in decimal.
pub fn put_number(out: &mut Vec<u8>, number: u32) -> Result<(), NoMemory>
    ensures { OnOk result (out.new.items ≡ out.old.items ++ decimal number) }
{
    out.extend_from_slice(Buffer::new().format(number).as_bytes())
}
