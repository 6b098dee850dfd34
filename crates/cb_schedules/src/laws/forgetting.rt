//! Cores, which keep no history, beside members.

ghost use Rattle.cb_schedules.specs.ForgettingLaws.{CoresRunAsMembers, EachScheduleOfCores, EachStepOfCoresGoesOn, FullHistoriesMakeTheDifference, NoArrivalIsRefused, NoCoreIsFull, RunsOfCoresGoOn};
ghost use Rattle.cb_schedules.specs.ForgettingRounds.{BehindRoundsOfCores, NoCoreChangesAnyMore};
ghost use Rattle.cb_schedules.specs.Headline.{DeliversClosedArrivals, Headline, IsCausalBroadcast, TimesTellHappenedBefore};
ghost use Rattle.cb_schedules.specs.RoundLaws.{EverybodyHasEverything, EverybodyHasTheSame, EverybodyKnowsWhatIsStable, EverythingIsStable, NothingIsMissing, rounds_to_be_stable, rounds_to_deliver};
ghost use Rattle.cb_schedules.specs.SentLaws.{HeardOfIsCast, OneNameSameBytes, SendersStayNear, StableIsDeliveredEverywhere, StableOfStandsInEvents};

/// A core answers by what it would have entered, as a member does, and keeps none of it: so its history is never full. Every schedule
/// runs in a group of cores as in a group of members with an entry left for each step, and as in every group of members in which no
/// history was found full: the same frames are sent, the same messages delivered, and the same calls refused.
pub fn cores_run_as_members_do()
    ensures alike { CoresRunAsMembers }
    ensures full { NoCoreIsFull }
    ensures difference { FullHistoriesMakeTheDifference }
{}

/// So all that the headline says of members is true of cores, after every schedule, however long, and for every group of 2 to 64 of
/// them with a window of 1 to 256. There is no limit to reach, and no arrival is refused.
pub fn causal_broadcast_without_histories()
    ensures causal { EachScheduleOfCores IsCausalBroadcast }
    ensures delivered { EachScheduleOfCores DeliversClosedArrivals }
    ensures times { EachScheduleOfCores TimesTellHappenedBefore }
    ensures headline { EachScheduleOfCores Headline }
    ensures goes_on { RunsOfCoresGoOn }
    ensures steps { EachStepOfCoresGoesOn }
    ensures arrivals { EachScheduleOfCores NoArrivalIsRefused }
{}

/// Cast frames of cores that hold one name have the same bytes, nobody has heard of a cast that was not made, what a sender knows to be
/// stable every other core has delivered, and a sender has cast at most a window more than each other one has delivered of it. So nobody
/// lacks a frame that its sender has freed. What any core knows to be stable of any sender's casts stands in each core's list of events.
pub fn what_cores_know_is_so()
    ensures bytes { EachScheduleOfCores OneNameSameBytes }
    ensures heard_of { EachScheduleOfCores HeardOfIsCast }
    ensures stable { EachScheduleOfCores StableIsDeliveredEverywhere }
    ensures events { EachScheduleOfCores StableOfStandsInEvents }
    ensures near { EachScheduleOfCores SendersStayNear }
{}

/// From every state that any schedule of cores reaches, whatever was lost before: after one round and W / 64 more, rounded up, where W
/// is the window, every core has delivered every message that was cast. After one more all of them are stable everywhere, and every core
/// knows it of each sender; nothing changes until somebody casts. No history can be full, so nothing is asked for here.
pub fn a_few_rounds_of_cores_repair_whatever_was_lost()
    ensures delivered { BehindRoundsOfCores rounds_to_deliver EverybodyHasEverything }
    ensures same { BehindRoundsOfCores rounds_to_deliver EverybodyHasTheSame }
    ensures missing { BehindRoundsOfCores rounds_to_deliver NothingIsMissing }
    ensures stable { BehindRoundsOfCores rounds_to_be_stable EverythingIsStable }
    ensures known { BehindRoundsOfCores rounds_to_be_stable EverybodyKnowsWhatIsStable }
    ensures nothing { BehindRoundsOfCores rounds_to_be_stable NoCoreChangesAnyMore }
{}
