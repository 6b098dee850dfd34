//! What the words say of the run.

use cb_frames::{LONGEST_PAYLOAD, MOST_MESSAGES};
use cb_history::Group;

/// The number of the group, which only the frames say.
const NUMBER: u32 = 7;

/// What is run: a group, casts of so many bytes, and of the frames one in `lost` is lost and one in `exchanged` comes early; 0 for none.
#[derive(Clone, Copy, Drop)]
pub struct Plan {
    pub group: Group,
    pub payload: usize,
    pub casts: u64,
    pub lost: u32,
    pub exchanged: u32,
    /// How many messages are cast at once, 1 to 32, whose payloads a frame has room for.
    pub burst: usize,
    /// The run begins with full windows.
    pub is_full: bool,
}

/// The plan that the words say, of which the first is the program's name.
pub fn plan_of(words: &[String]) -> Option<Plan> {
    let (size, window) = (number(words, 1)?, number(words, 2)?);
    let group = Group::new(NUMBER, size, window).ok()?;
    let (payload, burst) = (number(words, 3)? as usize, burst(words));
    if !(1..=MOST_MESSAGES).contains(&burst) || payload > LONGEST_PAYLOAD / burst {
        return None;
    }
    Some(Plan {
        group,
        payload,
        casts: u64::from(number(words, 4)?),
        lost: number(words, 5)?,
        exchanged: number(words, 6)?,
        burst,
        is_full: is_full(words),
    })
}

/// The seventh word, 1 where that is no number.
fn burst(words: &[String]) -> usize {
    number(words, 7).unwrap_or(1) as usize
}

fn is_full(words: &[String]) -> bool {
    match words.last() {
        Some(word) => word.as_str() == "full",
        None => false,
    }
}

fn number(words: &[String], place: usize) -> Option<u32> {
    words.get(place)?.as_str().parse::<u32>().ok()
}
