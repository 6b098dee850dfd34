//! What the words say of a group in threads.

use crate::words::number;
use cb_frames::{LONGEST_PAYLOAD, MOST_MESSAGES};
use cb_history::Group;

/// The number of the group, which only the frames say.
const NUMBER: u32 = 7;

/// What carries the frames from member to member.
#[derive(Clone, Copy, Drop)]
pub enum LinkKind {
    Channel,
    Udp,
    Tcp,
}

/// What is run: a group of which each member casts so many messages of so many bytes.
#[derive(Clone, Copy, Drop)]
pub struct Plan {
    pub group: Group,
    pub payload: usize,
    pub casts: u32,
    pub link: LinkKind,
    /// How many messages are gathered into a burst, no more than the window; 1 for casts alone.
    pub burst: usize,
}

/// The plan that the third word and those after it say.
pub fn plan_of(words: &[String]) -> Option<Plan> {
    let (size, window) = (number(words, 2)?, number(words, 3)?);
    let group = Group::new(NUMBER, size, window).ok()?;
    let payload = number(words, 4)? as usize;
    let burst = burst_of(words)?;
    if payload > LONGEST_PAYLOAD || burst > window {
        return None;
    }
    Some(Plan {
        group,
        payload,
        casts: number(words, 5)?,
        link: link_kind(words.get(6)?.as_str())?,
        burst: burst as usize,
    })
}

/// The word after the link, where there is one.
fn burst_of(words: &[String]) -> Option<u32> {
    if words.len() <= 7 {
        return Some(1);
    }
    let burst = number(words, 7)?;
    if burst == 0 || burst as usize > MOST_MESSAGES {
        return None;
    }
    Some(burst)
}

fn link_kind(word: &str) -> Option<LinkKind> {
    match word {
        "channel" => Some(LinkKind::Channel),
        "udp" => Some(LinkKind::Udp),
        "tcp" => Some(LinkKind::Tcp),
        _ => None,
    }
}
