//! The words of a line, and what single words say.

ghost use Rattle.std.specs.Prelude.{◌≡◌, ◌==◌, Ok, IfOk, map};
ghost use Rattle.std.specs.Bool.{Decides};
ghost use Rattle.std.specs.List.{slice_split, AllByRecursion};
ghost use Rattle.std.specs.Fmt.{decimal};
ghost use Rattle.hex.specs.Hex.{encode_lower, decode_of};
ghost use Rattle.cb_times.specs.Name.{name_text};
ghost use Rattle.cb_lines.specs.Text.{space, delivered_words};
ghost use Rattle.cb_lines.specs.Bounds.{IsFrame, IsName};
ghost use Rattle.hex.specs.declared.error.FromHexError.TheVariants as hex_faults;
ghost use Rattle.cb_lines.specs.declared.fault.LineFault.TheVariants.{NoLine};
ghost use Rattle.cb_lines.specs.Finding.{Finds, IsNumber};

use crate::fault::LineFault;
use bytes::Bytes;
use cb_times::{MOST_MEMBERS, Name, NoMemory};
use hex::FromHexError;
use itoa::Buffer;
use std::alloc::Global;
use std::str;

/// The words of a line, with one space between each two.
pub fn words_of(alloc: Global, line: &[u8]) -> Result<Vec<&[u8]>, NoMemory>
    ensures { IfOk result (λ words. map (λ word. word.now) words.items
        ≡ slice_split (λ b. b == space) line.now) }
{
    line.split(|byte| *byte == b' ').collect(alloc)
}

/// Whether the word is this one.
pub fn is(word: &[u8], text: &[u8]) -> bool
    ensures { Decides result (word.now ≡ text.now) }
{
    word == text
}

/// A number in decimal, with no sign and no zeros before it, up to 4,294,967,295.
pub fn number_of(word: &[u8]) -> Result<u32, LineFault>
    ensures { Finds IsNumber decimal (λ n. n) word.now result }
{
    match str::from_utf8(word) {
        Ok(text) => decimal_of(text),
        Err(_) => Err(LineFault::NoLine),
    }
}

fn decimal_of(text: &str) -> Result<u32, LineFault>
    ensures { Finds IsNumber decimal (λ n. n) text.now result }
{
    match text.parse::<u32>() {
        Ok(number) => {
            if Buffer::new().format(number) == text {
                Ok(number)
            } else {
                Err(LineFault::NoLine)
            }
        }
        Err(_) => Err(LineFault::NoLine),
    }
}

/// A frame in hexadecimal, in its one spelling: at least one byte, and small letters.
pub fn frame_of(alloc: Global, word: &[u8]) -> Result<Bytes, LineFault>
    ensures { Finds IsFrame encode_lower (λ frame. frame) word.now result }
{
    match hex::decode(alloc, word) {
        Ok(bytes) => spelled(alloc, bytes, word),
        Err(fault) => Err(fault_of(fault)),
    }
}

fn fault_of(fault: FromHexError) -> LineFault
    ensures { result ≡ NoLine → ¬ (fault ≡ hex_faults.OutOfMemory) }
{
    match fault {
        FromHexError::OutOfMemory => LineFault::NoMemory,
        _ => LineFault::NoLine,
    }
}

/// The frame of these bytes, where the word is how they are spelled.
fn spelled(alloc: Global, bytes: Vec<u8>, word: &[u8]) -> Result<Bytes, LineFault>
    requires { decode_of word.now ≡ Ok bytes.items }
    ensures { Finds IsFrame encode_lower (λ frame. frame) word.now result }
{
    let spelling = hex::encode(alloc, bytes.as_slice())?;
    if bytes.is_empty() || !is(spelling.as_bytes(), word) {
        return Err(LineFault::NoLine);
    }
    Ok(Bytes::from_vec(bytes)?)
}

/// The names of an arrival, in the order delivered; a dash stands for none.
pub fn names_of(alloc: Global, words: &[&[u8]]) -> Result<Vec<Name>, LineFault>
    ensures { Finds (AllByRecursion IsName) delivered_words (λ names. names.items)
        (map (λ word. word.now) words.now) result }
{
    match words {
        [] => Err(LineFault::NoLine),
        [word] if is(word, b"-") => Ok(Vec::new(alloc)),
        names => each_name(alloc, names),
    }
}

fn each_name(alloc: Global, words: &[&[u8]]) -> Result<Vec<Name>, LineFault>
    ensures { Finds (AllByRecursion IsName) (map name_text) (λ names. names.items)
        (map (λ word. word.now) words.now) result }
{
    let mut names = Vec::new(alloc);
    for word in words {
        names.push(name_of(word)?)?;
    }
    Ok(names)
}

/// The name of a message, as in `0.1`: members are 0 to 63, their messages count from 1.
fn name_of(word: &[u8]) -> Result<Name, LineFault>
    ensures { Finds IsName name_text (λ name. name) word.now result }
{
    match str::from_utf8(word) {
        Ok(text) => name(text),
        Err(_) => Err(LineFault::NoLine),
    }
}

fn name(text: &str) -> Result<Name, LineFault>
    ensures { Finds IsName name_text (λ name. name) text.now result }
{
    let Some((sender, number)) = text.split_once('.') else {
        return Err(LineFault::NoLine);
    };
    let sender = decimal_of(sender)?;
    let number = decimal_of(number)?;
    if sender < MOST_MEMBERS && number > 0 {
        Ok(Name { sender, number })
    } else {
        Err(LineFault::NoLine)
    }
}
