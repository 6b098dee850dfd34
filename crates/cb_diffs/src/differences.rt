//! From the times of two casts of one sender to the increments in the frame of the later one.

ghost use Rattle.std.specs.Prelude.{◌≡◌, ◌<◌, ℕ, length, IfOk};
ghost use Rattle.cb_times.specs.Order.{field, AtMost};
ghost use Rattle.cb_diffs.specs.Differences.{differences};

use cb_frames::Change;
use cb_times::{NoMemory, VectorTime};
use std::alloc::Global;

/// The fields other than `own` that grew from `previous` to `now`, in rising order, each with its growth.
///
/// These are the changes of a cast of member `own` whose time is `now`, where its cast before had the time `previous`,
/// or all zeros if there is none. The only error is out of memory.
pub fn difference(
    alloc: Global,
    previous: &VectorTime,
    now: &VectorTime,
    own: u32,
) -> Result<Vec<Change>, NoMemory>
    requires sizes { length previous.now ≡ length now.now }
    requires member { own < length now.now }
    requires grown { AtMost (field previous.now) (field now.now) }
    ensures { IfOk result (λ changes. changes.items ≡ differences previous.now now.now own) }
{
    let mut changes = Vec::new(alloc);
    for field in 0..now.size() {
        let amount = now.get(field) - previous.get(field);
        if field != own && amount > 0 {
            changes.push(Change { field, amount })?;
        }
    }
    Ok(changes)
}
