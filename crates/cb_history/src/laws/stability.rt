//! Acknowledgements and the sent window.

ghost use Rattle.cb_history.specs.StabilityLaws.{LeastKnownIsStable, LeastKnownIsStableOf, NoRoomIsFull, FramesInAreSentInAnswer, PutIsOwnCast, TrimIsStable};

/// Acknowledgements that have learnt of each other member what it is known to have delivered, and of the member itself what it has
/// delivered, give what is stable of the own casts and of every sender's.
pub fn acknowledgements_give_what_is_stable()
    ensures own { LeastKnownIsStable }
    ensures every { LeastKnownIsStableOf }
{}

/// A sent window that keeps the own casts above stable has no room exactly where the member's window is full, and the frames in the
/// ranges of a request are those sent in answer to it. An own cast that is put, and a trim up to what is stable then, leave it so.
pub fn windows_keep_own_casts()
    ensures room { NoRoomIsFull }
    ensures again { FramesInAreSentInAnswer }
    ensures put { PutIsOwnCast }
    ensures trim { TrimIsStable }
{}
