//! The invariant of a run.

ghost use Rattle.cb_schedules.specs.Consistent.{IsConsistent};
ghost use Rattle.cb_schedules.specs.Headline.{EachSchedule, StepsExtendTheCausal, StepsExtendTheStamped};
ghost use Rattle.cb_schedules.specs.SentLaws.{CastsThereAreOwn, EventsHaveTimesFromBytes, NothingReadyIsLeftAnywhere};
ghost use Rattle.cb_schedules.specs.LimitLaws.{HistoriesAreLegal, HistoriesStayWithin};
ghost use Rattle.cb_schedules.specs.StepLaws.{EachStepGoesOn};

/// After every schedule the histories, the frames that were sent and the outcomes belong together: what each member entered is legal,
/// however much it is, every frame says what is so, and what arrived is there. So every cast that is there with a member is an own cast of its sender, the time of each event is
/// the time from the bytes, and no member has a ready message left, whatever is received last.
pub fn runs_are_consistent()
    ensures invariant { EachSchedule IsConsistent }
    ensures casts { EachSchedule CastsThereAreOwn }
    ensures times { EachSchedule EventsHaveTimesFromBytes }
    ensures ready { EachSchedule NothingReadyIsLeftAnywhere }
{}

/// No member enters more than the limit. So with a limit that histories can have, 1 to 16,777,216, each has a legal history.
pub fn histories_stay_within_their_limit()
    ensures within { HistoriesStayWithin }
    ensures legal { HistoriesAreLegal }
{}

/// Each step of a schedule extends the members' events, with their times, by steps of the stamped machine, and without their times by steps of
/// the causal machine: a cast by as many as it has messages, an arrival by as many as it delivers.
pub fn steps_extend_the_machines()
    ensures stamped { StepsExtendTheStamped }
    ensures causal { StepsExtendTheCausal }
{}

/// By each step of a schedule all lists go on at their ends: the events as above, the frames that were sent by some or none, and the histories
/// by at most one entry of one member.
pub fn each_step_goes_on_at_the_ends()
    ensures { EachStepGoesOn }
{}
