//! Which of some casts are sent again to who asks for them.

ghost use Rattle.std.specs.Prelude.{◌≡◌, ◌&&◌, nat_le, IfOk, map};
ghost use Rattle.std.specs.List.{list_any};
ghost use Rattle.cb_frames.specs.Fields.{messages_of, CastFields};
ghost use Rattle.cb_history.specs.Answers.{is_asked_for};
ghost use Rattle.cb_reference.specs.Messages.{carried_of, cast_of};
ghost use Rattle.cb_reference.specs.Requests.{first_asked};

use crate::casts::{CastRead, Message};
use cb_frames::{MOST_FRAMES, Range};
use cb_history::Outgoing;
use cb_times::NoMemory;
use std::alloc::Global;

/// One of the ranges has the number.
fn is_in_some(ranges: &[Range], number: u32) -> bool
    ensures { result ≡ list_any (λ r. nat_le r.first number && nat_le number r.last) ranges.now }
{
    ranges
        .iter()
        .any(|range| range.first <= number && number <= range.last)
}

/// Some of these messages is asked for.
fn is_asked_for(ranges: &[Range], messages: &[Message<'_>]) -> bool
    ensures { (cast : CastFields) → map carried_of messages.now ≡ messages_of cast
        → result ≡ is_asked_for ranges.now cast }
{
    messages.iter().any(|m| is_in_some(ranges, m.number))
}

/// The frames of the first 64 of these casts that are asked for, to who asks.
pub fn first_asked(
    alloc: Global,
    casts: &[&CastRead],
    requester: u32,
    ranges: &[Range],
) -> Result<Vec<Outgoing>, NoMemory>
    ensures { IfOk result (λ out. out.items
        ≡ first_asked requester ranges.now (map cast_of casts.now)) }
{
    let mut out = Vec::new(alloc);
    for cast in casts {
        if out.len() >= MOST_FRAMES {
            return Ok(out);
        }
        if is_asked_for(ranges, &cast.messages(alloc)?) {
            out.push(Outgoing {
                to: Some(requester),
                bytes: cast.frame()?,
            })?;
        }
    }
    Ok(out)
}
