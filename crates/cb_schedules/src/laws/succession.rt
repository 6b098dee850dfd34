//! Groups that follow one another: those who go on end the old group at one cut, and nobody begins the next one beside them.

ghost use Rattle.cb_schedules.specs.LeftOut.{WhoHearsNothingMoreStaysWithin};
ghost use Rattle.cb_schedules.specs.RoundsAmong.{GivenActAlone, RoundsAmongBringAll, RoundsAmongCastNothing};
ghost use Rattle.cb_schedules.specs.SuccessionLaws.{CastsAreInTheCut, EachSuccession, EndsHaveRoom, ExactlyTheCutIsShown};
ghost use Rattle.cb_schedules.specs.SuccessionLaws.{NobodyBeginsByALaterPlan, OneNumberHasOneText};
ghost use Rattle.cb_schedules.specs.SuccessionLaws.{ShownListsGoOn, TheCutCanBeFollowed, TheCutIsCausal, TheCutIsDelivered};
ghost use Rattle.cb_schedules.specs.SuccessionLaws.{TheCutIsOneVector, TheLastListGoesOneWay, TheSameIsShown};
ghost use Rattle.cb_schedules.specs.SuccessionLaws.{WhatWasShownIsInTheCut, WhoIsListedHasEnded};
ghost use Rattle.cb_schedules.specs.SuccessionRestarts.{EachJournaledSuccession, WhatWasShownOutlivesRestarts};
ghost use Rattle.cb_schedules.specs.SuccessionRounds.{ADeadMemberIsNotNeeded, NothingElseIsWaitedFor};
ghost use Rattle.cb_schedules.specs.SuccessionRounds.{SilentMembersAreNotNeeded, WhoComesLateMayBegin};
ghost use Rattle.cb_schedules.specs.SuccessionTraps.{Breaks, NoReserveLeavesNoRoom, cut_is_now, ends_once};
ghost use Rattle.cb_schedules.specs.SuccessionTraps.{no_compare, shows_all, takes_older};

/// Those who begin the next group by one plan were shown the same messages: exactly the plan's cut, which is what happened before the
/// ENDs of those whom it lists. The cut has all that one of these was shown before it begins, and each of its casts but later ENDs.
///
/// The cut is one vector. The lists shown to those who began, with the part of each other list that is in the cut, are a run of the
/// causal machine: so each was shown these messages in an order that causality allows, and each once. In that run those who began by the plan have
/// all that anybody has, as the members of a next group must whose run continues there. No step takes back what was shown.
///
/// It holds for every group, however payloads are read as plans, however many places are kept for ENDs, and after every list of steps,
/// whatever is lost, repeated or overtaken and whoever is dead.
pub fn those_who_begin_have_the_same_cut()
    ensures same { EachSuccession ExactlyTheCutIsShown }
    ensures alike { EachSuccession TheSameIsShown }
    ensures before { EachSuccession WhatWasShownIsInTheCut }
    ensures vector { EachSuccession TheCutIsOneVector }
    ensures causal { EachSuccession TheCutIsCausal }
    ensures casts { EachSuccession CastsAreInTheCut }
    ensures whole { EachSuccession TheCutCanBeFollowed }
    ensures kept { ShownListsGoOn }
{}

/// Once a member has begun, nobody ever begins by a later plan that lists it, whatever the lists are. Within a list one number has one
/// text. Any two members that are in every list by which somebody began, as those of the last list are if lists shrink, began by the
/// same plan.
pub fn nobody_begins_beside_them()
    ensures one { EachSuccession NobodyBeginsByALaterPlan }
    ensures text { EachSuccession OneNumberHasOneText }
    ensures last { EachSuccession TheLastListGoesOneWay }
{}

/// A member that has begun has delivered the whole cut: when all of a list have begun, none of them lacks any message of the old group.
/// Each member that the plan of a begin lists has cast that plan's END. If members cast in a group only once they have begun it, then all
/// whom a plan of the second group lists have begun that group as soon as somebody begins a third one by it, and none needs the first.
pub fn the_old_group_is_not_needed()
    ensures delivered { EachSuccession TheCutIsDelivered }
    ensures listed { EachSuccession WhoIsListedHasEnded }
{}

/// With kept places a member that has cast fewer ENDs than these has room for one more, also where a dead member keeps its window full:
/// the END is never refused as WindowFull, as long as the numbers of casts are not used up.
pub fn an_end_has_room()
    ensures { EachSuccession EndsHaveRoom }
{}

/// If each member that a plan lists has cast its END and none of a greater number, each of these may begin after W rounds without one silent
/// member and W / 64 more, rounded up, whatever was lost before. In these rounds no history may be found full.
pub fn a_dead_member_is_not_needed_to_go_on()
    ensures { ADeadMemberIsNotNeeded }
{}

/// Whoever and however many are silent: in rounds among some members each ticks, what they sent arrives at them, and each asks all of them
/// that it knows to have the first message it lacks of a sender, and gets what they hand on. After one such round and W / 64 more, rounded
/// up, each of them has delivered what any of them had delivered before. If all whom a plan lists have cast its END, and none of a greater
/// number, each of them may begin after these rounds among them. In these rounds nobody else does or gets anything, and nobody casts; no
/// history may be found full.
pub fn silent_members_are_not_needed_to_go_on()
    ensures alone { GivenActAlone }
    ensures quiet { RoundsAmongCastNothing }
    ensures had { RoundsAmongBringAll }
    ensures begin { SilentMembersAreNotNeeded }
{}

/// However many are silent: a member that a plan lists, and that has ended by no later one, may begin as soon as the ENDs of all listed
/// members have arrived there, with all that happened before them. No acknowledgement is waited for, nor anything of anybody else.
pub fn nothing_else_is_waited_for()
    ensures { NothingElseIsWaitedFor }
{}

/// Once somebody has begun by an earlier plan, each other member that this plan lists may begin by it too after the same rounds without a
/// silent member, if each later plan that it ended by lists the one who began.
pub fn who_comes_late_comes_too()
    ensures { WhoComesLateMayBegin }
{}

/// Other ways to decide are wrong, each by a list of steps. Two members that both plans list go two ways, if a member begins by an earlier
/// plan without having heard anybody, or if each casts one END for good. Two begin by two texts, if the texts of plans of one number are
/// not compared. Two that begin by one plan are shown different messages, if all that was delivered is shown at the begin, or what the
/// member's own time counts then. With no place kept a full window has no room for an END.
pub fn other_rules_are_wrong()
    ensures takes_older { Breaks takes_older NobodyBeginsByALaterPlan }
    ensures ends_once { Breaks ends_once NobodyBeginsByALaterPlan }
    ensures no_compare { Breaks no_compare OneNumberHasOneText }
    ensures shows_all { Breaks shows_all TheSameIsShown }
    ensures cut_is_now { Breaks cut_is_now TheSameIsShown }
    ensures no_reserve { NoReserveLeavesNoRoom }
{}

/// The laws of the cut, of nobody beside them and of the old group hold of members with journals too, which end and come back. Members
/// enter their calls, write, send and end at any moment, and come back with what is written. A begin is made once all entries of its
/// member are written, and is written itself before anything else happens. No step takes back what a caller was shown, if it is shown
/// written events alone.
pub fn successions_outlive_restarts()
    ensures same { EachJournaledSuccession ExactlyTheCutIsShown }
    ensures alike { EachJournaledSuccession TheSameIsShown }
    ensures before { EachJournaledSuccession WhatWasShownIsInTheCut }
    ensures vector { EachJournaledSuccession TheCutIsOneVector }
    ensures causal { EachJournaledSuccession TheCutIsCausal }
    ensures casts { EachJournaledSuccession CastsAreInTheCut }
    ensures whole { EachJournaledSuccession TheCutCanBeFollowed }
    ensures one { EachJournaledSuccession NobodyBeginsByALaterPlan }
    ensures text { EachJournaledSuccession OneNumberHasOneText }
    ensures last { EachJournaledSuccession TheLastListGoesOneWay }
    ensures delivered { EachJournaledSuccession TheCutIsDelivered }
    ensures listed { EachJournaledSuccession WhoIsListedHasEnded }
    ensures kept { WhatWasShownOutlivesRestarts }
{}

/// A member that hears nothing more of another one from some moment on, as one that is left out hears nothing after the END, has cast at
/// most a window more than that one had delivered of it then, which the END's time counts.
pub fn who_is_left_out_stays_within_a_window()
    ensures { WhoHearsNothingMoreStaysWithin }
{}
