//! Deliveries: the delay rule, and one after another.

ghost use Rattle.cb_history.specs.DeliveryLaws.{ReadinessIsTheDelayRule, RuleOfTimes, RaisingCountsTheDelivery, ViewMeetsTheRule, ViewIsOfMembers, NothingIsNext, NextIsSmallestReady, SmallestReadyIsNext, ViewsAreOnTheWay, DeliveryLeavesOnTheWay, DrainGoesOn, DrainEnds};

/// A message is ready in the walk exactly where it is not in the view and the delay rule lets it be delivered; raising the time to its
/// time then counts just that message more. In a view the rule is met by each message, given those
/// in front of it, and nobody outside the group has one there.
pub fn readiness_is_the_delay_rule()
    ensures rule { ReadinessIsTheDelayRule }
    ensures times { RuleOfTimes }
    ensures raises { RaisingCountsTheDelivery }
    ensures views { ViewMeetsTheRule }
    ensures members { ViewIsOfMembers }
{}

/// A drain is its first delivery and then the drain of what is left, until nothing is next, which is where no expanded message is ready.
/// The next one is the ready message of the smallest sender.
pub fn deliveries_come_one_by_one()
    ensures nothing { NothingIsNext }
    ensures next { NextIsSmallestReady }
    ensures smallest { SmallestReadyIsNext }
    ensures views { ViewsAreOnTheWay }
    ensures on { DeliveryLeavesOnTheWay }
    ensures goes_on { DrainGoesOn }
    ensures ends { DrainEnds }
{}
