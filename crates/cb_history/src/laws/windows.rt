//! How far ahead casts can be.

ghost use Rattle.cb_history.specs.WindowLaws.{CastsAreNear, OwnCastsAreNearStable};

/// Nobody runs ahead of a window: a cast that is there is at most a window above what is delivered of its sender, and a member's own
/// casts are at most a window above what is stable.
pub fn casts_stay_in_their_windows()
    ensures there { CastsAreNear }
    ensures own { OwnCastsAreNearStable }
{}
