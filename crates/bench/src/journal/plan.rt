//! What the words say of the run.

use crate::words::number;
use cb_frames::LONGEST_PAYLOAD;
use cb_history::Group;

/// The number of the group, which the frames and the head lines say.
const NUMBER: u32 = 7;

const WINDOW: u32 = 64;

/// What is kept of what the members do.
#[derive(Clone, Copy, Drop)]
pub enum Way {
    /// Nothing.
    Nothing,
    /// A journal of each in memory.
    Memory,
    /// A journal of each in a file, which is not made to outlast a crash.
    File,
    /// A journal of each in a file, which is synced after each entry.
    Sync,
    /// Nothing is run: the member of the journal that is there comes back by it.
    Back,
}

/// A group whose members each cast a payload of so many bytes in each of so many rounds.
#[derive(Clone, Copy, Drop)]
pub struct Plan {
    pub group: Group,
    pub payload: usize,
    pub rounds: u32,
    pub way: Way,
}

pub fn plan_of(words: &[String]) -> Option<Plan> {
    let group = Group::new(NUMBER, number(words, 2)?, WINDOW).ok()?;
    let payload = number(words, 3)? as usize;
    if payload > LONGEST_PAYLOAD {
        return None;
    }
    Some(Plan {
        group,
        payload,
        rounds: number(words, 4)?,
        way: way_in(words.get(5)?.as_str())?,
    })
}

fn way_in(word: &str) -> Option<Way> {
    match word {
        "none" => Some(Way::Nothing),
        "memory" => Some(Way::Memory),
        "file" => Some(Way::File),
        "sync" => Some(Way::Sync),
        "back" => Some(Way::Back),
        _ => None,
    }
}
