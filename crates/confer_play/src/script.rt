//! What a script says, and the words that its lines have in common.

ghost use Rattle.std.specs.Prelude.{◌≡◌, ◌≤◌, ◌<◌, ◌^◌, ◌++◌, ℕ, List, Ok, Err, IfOk, IfErr, decimal};
ghost use Rattle.cb_history.specs.Legal.{longest_history};
ghost use Rattle.confer_play.specs.Play.{IsNoScript, IsPayloadWord};
ghost use Rattle.confer_play.specs.declared.script.LineFault.TheVariants.{NoLine, NoMemory as OutOfMemory};
ghost use Rattle.hex.specs.declared.error.FromHexError.TheVariants as hex_faults;

use crate::fault::ScriptFault;
use bytes::Bytes;
use cb_member::Group;
use cb_rooms::Line;
use cb_times::NoMemory;
use cb_world::Step;
use hex::FromHexError;
use itoa::Buffer;
use std::alloc::{AllocError, Global};

/// Which group a script runs in, by its first line.
#[derive(Clone, Copy)]
pub struct Setting {
    pub group: Group,
    /// How many entries each member's history may have, 1 to 16,777,216.
    pub history_max: usize,
    ghost is_limit: { (1 ≤ history_max) × (history_max ≤ longest_history) },
}

/// What a further line orders.
#[derive(Drop)]
pub enum ScriptStep<'a> {
    /// A step of the group.
    Take(Step),
    /// A line, composed in the member's conference and cast.
    Compose { member: u32, line: Line<'a> },
    /// The screen of the member's conference.
    Screen { member: u32 },
}

/// A script that is read whole. What its lines say lies in its text.
#[derive(Drop)]
pub struct Script<'a> {
    pub setting: Setting,
    pub steps: Vec<ScriptStep<'a>>,
}

/// Why a line has no meaning: it is none of a script's, or an allocation was refused.
#[derive(Drop)]
pub enum LineFault {
    NoLine,
    NoMemory(NoMemory),
}

impl LineFault {
    pub fn at(self, line: usize) -> ScriptFault
        ensures { IsNoScript result }
    {
        match self {
            LineFault::NoLine => ScriptFault::BadStep { line },
            LineFault::NoMemory(refused) => refused.into(),
        }
    }
}

impl From<NoMemory> for LineFault {
    ghost from_gives = { λ refused e. e ≡ OutOfMemory refused };

    fn from(refused: NoMemory) -> LineFault {
        LineFault::NoMemory(refused)
    }
}

/// What stands before the first of these marks, and what stands behind it.
pub fn halves<'a>(text: &'a str, mark: &str) -> Result<(&'a str, &'a str), LineFault>
    ensures { IfOk result (λ parts. text.now ≡ parts.0.now ++ (mark.now ++ parts.1.now)) }
{
    match text.split_once(mark) {
        Some(parts) => Ok(parts),
        None => Err(LineFault::NoLine),
    }
}

/// A number in its one spelling: decimal digits, with no sign and no zeros before them, up to 4,294,967,295.
pub fn number(word: &str) -> Result<u32, LineFault>
    ensures ok { IfOk result (λ n. word.now ≡ decimal n) }
    ensures every { (n : ℕ) → n < 2 ^ 32 → word.now ≡ decimal n → result ≡ Ok n }
{
    match word.parse::<u32>() {
        Ok(number) => {
            if Buffer::new().format(number) == word {
                Ok(number)
            } else {
                Err(LineFault::NoLine)
            }
        }
        Err(_) => Err(LineFault::NoLine),
    }
}

/// A payload: `-` for none, else two digits for each byte, in either case of letters. `NoLine` is answered
/// only of a word that is none.
pub fn payload(alloc: Global, word: &[u8]) -> Result<Bytes, LineFault>
    ensures ok { IfOk result (λ payload. IsPayloadWord word.now payload) }
    ensures no_line { (result ≡ Err NoLine)
        → (payload : List ℕ) → ¬ IsPayloadWord word.now payload }
{
    if word == b"-".as_slice() {
        return Ok(Bytes::new());
    }
    if word.is_empty() {
        return Err(LineFault::NoLine);
    }
    match hex::decode(alloc, word) {
        Ok(bytes) => Ok(Bytes::from_vec(bytes).map_err(AllocError::from)?),
        Err(fault) => Err(hex_fault(fault)),
    }
}

/// Why digits are no payload. Out of memory says nothing of the line.
fn hex_fault(fault: FromHexError) -> LineFault
    ensures { result ≡ NoLine → ¬ (fault ≡ hex_faults.OutOfMemory) }
{
    match fault {
        FromHexError::OutOfMemory => LineFault::NoMemory(AllocError),
        _ => LineFault::NoLine,
    }
}
