//! Messages as a caller sees them: with their times, and as casts and deliveries.

ghost use Rattle.std.specs.Prelude.{◌≡◌, IfOk};
ghost use Rattle.cb_times.specs.Group.{IsGroupSize};
ghost use Rattle.cb_diffs.specs.Expansion.{expanded_time};
ghost use Rattle.cb_history.specs.State.{events_in, facts_in};
ghost use Rattle.cb_history.specs.View.{message_in};
ghost use Rattle.cb_history.specs.Facts.{casts_in};
ghost use Rattle.cb_history.specs.Events.{event_in, events};
ghost use Rattle.cb_reference.specs.Messages.{carried_of};

use crate::casts::{Casts, Message};
use crate::past::Past;
use crate::view::expanded_field;
use cb_history::{Event, Message as Delivery};
use cb_times::{Name, NoMemory, VectorTime};
use std::alloc::Global;

/// The time of a message, which its sender's casts add up to.
fn expanded_time(
    alloc: Global,
    size: u32,
    casts: &Casts<'_>,
    sender: u32,
    number: u32,
) -> Result<VectorTime, NoMemory>
    requires { IsGroupSize size }
    ensures { IfOk result (λ time. time ≡ expanded_time size casts.now sender number) }
{
    let mut time = VectorTime::zero(alloc, size)?;
    for k in 0..size {
        time.set(k, expanded_field(casts, sender, number, k));
    }
    Ok(time)
}

/// A message as it is delivered, with its name and its time.
pub fn message_in(
    alloc: Global,
    size: u32,
    casts: &Casts<'_>,
    message: Message<'_>,
) -> Result<Delivery, NoMemory>
    requires { IsGroupSize size }
    ensures { IfOk result (λ delivery. delivery ≡ message_in size casts.now
        (carried_of message.entry)) }
{
    Ok(Delivery {
        name: Name {
            sender: message.sender,
            number: message.number,
        },
        time: expanded_time(alloc, size, casts, message.sender, message.number)?,
        payload: message.payload.clone()?,
    })
}

fn event_in(past: &Past<'_>, message: Message<'_>) -> Result<Event, NoMemory>
    ensures { IfOk result (λ event. event ≡ event_in past.now.seat (casts_in
        (facts_in past.now)) (carried_of message.entry)) }
{
    let reported = message_in(past.allocator(), past.size(), past.casts(), message)?;
    Ok(if message.sender == past.me() {
        Event::Cast(reported)
    } else {
        Event::Deliver(reported)
    })
}

/// Each message of the view, cast by the member itself or delivered to it.
pub fn events_of(past: &Past<'_>) -> Result<Vec<Event>, NoMemory>
    ensures { IfOk result (λ done. done.items ≡ events_in past.now) }
{
    let mut events = Vec::new(past.allocator());
    for message in past.seen() {
        events.push(event_in(past, *message)?)?;
    }
    Ok(events)
}
