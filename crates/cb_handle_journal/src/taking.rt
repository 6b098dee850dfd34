//! The entries of a journal are taken one by one, and their events are kept.

ghost use Rattle.std.specs.Prelude.{◌≡◌, ◌<◌, [], IfOk, map};
ghost use Rattle.cb_history.specs.Facts.{entry_fields};
ghost use Rattle.cb_history.specs.LegalHistory.{seat_in};
ghost use Rattle.cb_replay.specs.Returning.{HasTaken, SaysCoreResumed, SaysTaken};
ghost use Rattle.cb_handle_journal.specs.Resuming.{AreEvents};

use cb_member::{CoreMember, Entry, Event, History};
use cb_replay::{ResumeFault, Returning};
use std::alloc::Global;

/// The core that took all entries of this history, whose events join an empty list; or why there is none.
pub fn take_history(
    alloc: Global,
    history: &History,
    events: &mut Vec<Event>,
) -> Result<CoreMember, ResumeFault>
    requires { events.old.items ≡ [] }
    ensures taken { SaysCoreResumed (seat_in history.now)
        (map entry_fields history.now.entries.items) result }
    ensures events { IfOk result (λ core. AreEvents (seat_in history.now)
        (map entry_fields history.now.entries.items) events.new.items) }
{
    let returning = Returning::new(alloc, history.group, history.me)?;
    let returning = take_all(alloc, returning, &history.entries, events)?;
    Ok(returning.finish())
}

/// Takes all entries, whose events join an empty list.
fn take_all(
    alloc: Global,
    returning: Returning,
    entries: &[Entry],
    events: &mut Vec<Event>,
) -> Result<Returning, ResumeFault>
    requires none { HasTaken [] returning }
    requires events { events.old.items ≡ [] }
    ensures taken { SaysTaken returning.core.seat (map entry_fields entries.now) result }
    ensures events { IfOk result (λ r. AreEvents returning.core.seat
        (map entry_fields entries.now) events.new.items) }
{
    let mut so_far = returning;
    for entry in entries {
        so_far = so_far.take(alloc, entry, events)?;
    }
    Ok(so_far)
}
