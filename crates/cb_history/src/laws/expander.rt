//! The times that the expander gives.

ghost use Rattle.cb_history.specs.ExpanderLaws.{NewExpanderKeepsNothing, CastBehindIsNext, ExpanderTellsTheTime, OtherTimesAreKept, KeptTimesStay, OrderChangesNoTime};

/// Handed a sender's singles in the order of their numbers, the expander gives the times over all facts, though these hold the casts in
/// the order in which they were received, among those of other senders and later ones.
pub fn the_expander_tells_the_times()
    ensures new { NewExpanderKeepsNothing }
    ensures next { CastBehindIsNext }
    ensures tells { ExpanderTellsTheTime }
    ensures others { OtherTimesAreKept }
    ensures stay { KeptTimesStay }
    ensures order { OrderChangesNoTime }
{}
