//! Traces of before there were help frames.

ghost use Rattle.cb_trace.specs.BeforeLaws.{OldHistoryIsLegal, OldHistoriesAreLegal, OldTracesAreAudited};

/// A history that was legal before there were help frames is legal, and so are the histories of a trace. Where these have a
/// joint order, an audit can say nothing against them but that there is no memory: what was audited yes is audited yes.
pub fn old_traces_are_legal()
    ensures history { OldHistoryIsLegal }
    ensures histories { OldHistoriesAreLegal }
    ensures audit { OldTracesAreAudited }
{}
