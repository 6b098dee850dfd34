//! Which casts are there once one was received.

ghost use Rattle.cb_history.specs.ArrivalLaws.{AcceptedIsThere, ThereStays, CastsAreOfTheGroup, SinglesAreOfTheGroup};

/// After a call that hands over a cast frame of the group, its messages are there if and only if the frame was not refused, and
/// what is there stays. All casts that are there are of the group and of its members, and so are their singles.
pub fn accepted_casts_are_there()
    ensures accepted { AcceptedIsThere }
    ensures stays { ThereStays }
    ensures group { CastsAreOfTheGroup }
    ensures singles { SinglesAreOfTheGroup }
{}
