//! Runs, step by step.

ghost use Rattle.cb_schedules.specs.RunLaws.{NothingIsDone, RunsGoOn, RunsJoin};

/// The run of a schedule is its first steps' run and then one step more, however it is cut. A step that names no member, no frame or
/// no bytes changes no history and sends nothing.
pub fn runs_go_on_step_by_step()
    ensures goes_on { RunsGoOn }
    ensures joins { RunsJoin }
    ensures nothing { NothingIsDone }
{}
