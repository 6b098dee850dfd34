//! The casts of another member that this one hands on to who asks for them.

ghost use Rattle.std.specs.Prelude.{◌≡◌, IfOk, map};
ghost use Rattle.cb_history.specs.Helping.{casts_at, casts_between, delivered_casts, last_of, handed_on};
ghost use Rattle.cb_history.specs.State.{facts_in};
ghost use Rattle.cb_reference.specs.Messages.{cast_of};

use crate::casts::{CastRead, ending_above, ending_upto};
use crate::known::stable_of;
use crate::past::Past;
use cb_times::NoMemory;
use std::alloc::Global;

/// The casts of member i that begin with message n.
fn casts_at<'a>(
    alloc: Global,
    casts: &[&'a CastRead],
    i: u32,
    n: u32,
) -> Result<Vec<&'a CastRead>, NoMemory>
    ensures { IfOk result (λ found. map cast_of found.items
        ≡ casts_at (map cast_of casts.now) i n) }
{
    let mut found = Vec::new(alloc);
    for cast in casts {
        if cast.sender() == i && cast.first() == n {
            found.push(*cast)?;
        }
    }
    Ok(found)
}

/// Those that begin with one of its first so many messages, in the order of their numbers.
fn casts_upto<'a>(
    alloc: Global,
    casts: &[&'a CastRead],
    i: u32,
    high: u32,
) -> Result<Vec<&'a CastRead>, NoMemory>
    ensures { IfOk result (λ found. map cast_of found.items
        ≡ casts_between (map cast_of casts.now) i 0 high) }
{
    let mut found = Vec::new(alloc);
    for below in 0..high {
        found.extend_from_slice(&casts_at(alloc, casts, i, below + 1)?)?;
    }
    Ok(found)
}

/// So many casts, from the end.
fn last_of<'a, 'b>(casts: &'a [&'b CastRead], count: usize) -> &'a [&'b CastRead]
    ensures { map cast_of result.now ≡ last_of count (map cast_of casts.now) }
{
    &casts[casts.len().saturating_sub(count)..]
}

/// The casts of member i of which all messages are delivered, in the order of their numbers.
fn delivered_casts<'a>(past: &Past<'a>, i: u32) -> Result<Vec<&'a CastRead>, NoMemory>
    ensures { IfOk result (λ casts. map cast_of casts.items
        ≡ delivered_casts past.now.seat (facts_in past.now) i) }
{
    let alloc = past.allocator();
    let delivered = past.delivered(i) as u32;
    let begun = casts_upto(alloc, past.casts().frames(), i, delivered)?;
    ending_upto(alloc, &begun, delivered)
}

/// The casts of member i that are handed on: of those that are delivered whole, and not known to be delivered by all others, the last
/// ones, as many as the window is wide.
pub fn handed_on<'a>(past: &Past<'a>, i: u32) -> Result<Vec<&'a CastRead>, NoMemory>
    ensures { IfOk result (λ casts. map cast_of casts.items
        ≡ handed_on past.now.seat (facts_in past.now) i) }
{
    let alloc = past.allocator();
    let delivered = delivered_casts(past, i)?;
    let wanted = ending_above(alloc, &delivered, stable_of(past, i))?;
    let casts = Vec::from_slice(alloc, last_of(&wanted, past.window() as usize))?;
    Ok(casts)
}
