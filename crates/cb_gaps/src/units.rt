//! Where a unit lies beside the numbers of others.
ghost use Rattle.std.specs.Prelude.{◌≡◌};
ghost use Rattle.cb_frames.specs.Fields.{unit_fields};
ghost use Rattle.cb_gaps.specs.Lists.{side_of};

use cb_frames::Unit;
use std::cmp::Ordering;

/// Whether the unit lies behind these numbers, before them, or has one of them.
pub fn side(unit: &Unit, first: u32, last: u32) -> Ordering
    ensures { result ≡ side_of (unit_fields unit.now) first last }
{
    let begins = unit.first();
    if last < begins {
        return Ordering::Greater;
    }
    if unit.count() <= first.saturating_sub(begins) as usize {
        return Ordering::Less;
    }
    Ordering::Equal
}
