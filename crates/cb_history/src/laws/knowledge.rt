//! What is known, acknowledged and stable.

ghost use Rattle.cb_history.specs.KnowledgeLaws.{StatusIsKnown, StatusIsAcknowledged, CastIsKnown, CastIsAcknowledged, OwnStatusTellsNothing, OwnCastTellsNothing, NothingFalls, DeliveredIsKnown, AcknowledgedIsDelivered, StatusIsAcknowledgedOf, CastIsAcknowledgedOf, OwnCastAcknowledgesNothing, OwnStatusAcknowledgesNothing, NothingFallsOf, StableOfMe, StableIsDelivered};

/// What one more fact does to what is known, acknowledged and stable: a received status raises it to what it says, a received cast
/// to what it and the times say that can be known by it, an own cast or status leaves it, and none makes it smaller. What is
/// delivered is known, and no more is acknowledged than was cast.
pub fn knowledge_grows()
    ensures known { StatusIsKnown }
    ensures acknowledged { StatusIsAcknowledged }
    ensures cast_known { CastIsKnown }
    ensures cast_acknowledged { CastIsAcknowledged }
    ensures own { OwnStatusTellsNothing }
    ensures own_cast { OwnCastTellsNothing }
    ensures grows { NothingFalls }
    ensures delivered { DeliveredIsKnown }
    ensures bound { AcknowledgedIsDelivered }
{}

/// What one more fact does to what every member is known to have delivered of the casts of every sender: a received status raises it
/// to what it says of its own sender, the times of what a received cast delivers raise it to what they say, own casts and statuses
/// leave it, and none makes it smaller. What is stable of the own casts is a case of what is stable of each sender's, of which no more
/// is stable than the member has delivered.
pub fn knowledge_of_every_sender_grows()
    ensures acknowledged { StatusIsAcknowledgedOf }
    ensures cast_acknowledged { CastIsAcknowledgedOf }
    ensures own_cast { OwnCastAcknowledgesNothing }
    ensures own_status { OwnStatusAcknowledgesNothing }
    ensures grows { NothingFallsOf }
    ensures stable { StableOfMe }
    ensures bound { StableIsDelivered }
{}
