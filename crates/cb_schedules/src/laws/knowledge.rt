//! What members know of each other, and what they answer, after every schedule.

ghost use Rattle.cb_schedules.specs.Headline.{EachSchedule};
ghost use Rattle.cb_schedules.specs.SentLaws.{AcknowledgedIsDeliveredThere, AcknowledgedOfIsDeliveredThere, ArrivalsAreWelcome, DeliveredIsCast, HeardOfIsCast, SendersStayNear, StableIsDeliveredEverywhere, StableOfIsDeliveredEverywhere, StableOfStandsInEvents, StableStandsInEvents, TimesTellOwnCasts};

/// Nobody has delivered, or heard of, more of a member's messages than it has cast: so nothing is asked for that is not. No time that a
/// member can compute says more of its own casts than it made.
pub fn what_is_heard_of_is_cast()
    ensures delivered { EachSchedule DeliveredIsCast }
    ensures heard_of { EachSchedule HeardOfIsCast }
    ensures times { EachSchedule TimesTellOwnCasts }
{}

/// What a member knows of another's deliveries is so. What a sender knows to be stable, every other member has delivered: nobody misses
/// what is trimmed, and each member's list of events has at least as many of its messages. So a sender has cast at most a window more
/// than each other member has delivered of it.
pub fn what_is_stable_is_delivered_everywhere()
    ensures acknowledged { EachSchedule AcknowledgedIsDeliveredThere }
    ensures stable { EachSchedule StableIsDeliveredEverywhere }
    ensures events { EachSchedule StableStandsInEvents }
    ensures near { EachSchedule SendersStayNear }
{}

/// So it is with the casts of all: of how many casts of a third member a member knows that another has delivered them, that one has
/// delivered. What a member knows to be stable of the casts of any sender, every member but that sender has delivered, itself too.
pub fn what_is_stable_of_any_sender_is_delivered_everywhere()
    ensures acknowledged { EachSchedule AcknowledgedOfIsDeliveredThere }
    ensures stable { EachSchedule StableOfIsDeliveredEverywhere }
    ensures events { EachSchedule StableOfStandsInEvents }
{}

/// No arrival of a schedule is answered Malformed, OtherGroup, BadMember, Impossible, Overlap or TooFar. The one refusal that there is says
/// that the history is full.
pub fn arrivals_are_welcome()
    ensures { EachSchedule ArrivalsAreWelcome }
{}
