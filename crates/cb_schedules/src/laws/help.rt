//! What members keep for each other after every schedule, and so what they bring to each other without the sender.

ghost use Rattle.cb_schedules.specs.ForgettingLaws.{EachScheduleOfCores};
ghost use Rattle.cb_schedules.specs.ForgettingRounds.{BehindRoundsWithoutCore};
ghost use Rattle.cb_schedules.specs.Headline.{EachSchedule};
ghost use Rattle.cb_schedules.specs.HelpLaws.{NothingLackedIsForgotten, NothingLackedIsFreed};
ghost use Rattle.cb_schedules.specs.HelpRoundLaws.{BehindRoundsWithout, EachOtherTicksOnce};
ghost use Rattle.cb_schedules.specs.HelpRoundLaws.{HelpRoundsAreSteps, HelpRoundsCastNothing, InTheEnd};
ghost use Rattle.cb_schedules.specs.HelpRoundLaws.{OthersHaveTheSame, OthersHaveWhatAnyHad};
ghost use Rattle.cb_schedules.specs.HelpRoundLaws.{SilentDoesNothing, SoManyWithout};
ghost use Rattle.cb_schedules.specs.HelpRoundLaws.{rounds_without};

/// What a member has delivered of another and some member lacks stands in a frame that it hands on, and what it has cast itself stands in
/// a frame of its window. So a message that anybody lacks is kept by each member that has it, and its sender may be gone.
pub fn nothing_that_is_lacked_is_forgotten()
    ensures handed_on { EachSchedule NothingLackedIsForgotten }
    ensures window { EachSchedule NothingLackedIsFreed }
{}

/// Cores, which keep no history, keep the same frames.
pub fn nothing_that_cores_lack_is_forgotten()
    ensures handed_on { EachScheduleOfCores NothingLackedIsForgotten }
    ensures window { EachScheduleOfCores NothingLackedIsFreed }
{}

/// In a round without a silent member each other one ticks once. The silent one does nothing and nothing arrives at it; nobody casts.
/// Such rounds are steps of a schedule like any others.
pub fn rounds_without_a_silent_member_are_steps_of_the_others()
    ensures ticks { EachOtherTicksOnce }
    ensures silent { SilentDoesNothing }
    ensures casts { HelpRoundsCastNothing }
    ensures steps { HelpRoundsAreSteps }
{}

/// From every state that any schedule reaches, whatever was lost before, and without any one member from then on: after W rounds and
/// W / 64 more, rounded up, where W is the window and no history is found full in them, all other members have delivered the same
/// messages. Among them is everything that any of these had delivered or cast before, also what the silent member cast and one of
/// them alone had got.
///
/// With a window of up to 64 these are W + 1 rounds, and never more than W + 4.
pub fn a_silent_sender_is_not_needed()
    ensures same { BehindRoundsWithout rounds_without (InTheEnd OthersHaveTheSame) }
    ensures had { BehindRoundsWithout rounds_without OthersHaveWhatAnyHad }
    ensures many { SoManyWithout }
{}

/// Nor do cores need it, which keep no history: so nothing is asked for here of their answers.
pub fn cores_need_no_silent_sender()
    ensures same { BehindRoundsWithoutCore rounds_without (InTheEnd OthersHaveTheSame) }
    ensures had { BehindRoundsWithoutCore rounds_without OthersHaveWhatAnyHad }
{}
