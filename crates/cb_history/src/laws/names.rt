//! The names, the order and the payloads of messages.

ghost use Rattle.cb_history.specs.NameLaws.{NamesStandOnce, OwnCastsAreNumbered, OwnMessagesAreOwn, ViewIsInOrder, ViewHoldsTheFirst, ViewIsOfCasts, ViewIsAsCast};

/// In legal facts no two casts carry one message. The member's messages are its own casts, numbered from 1. The view holds
/// messages of the casts with their payloads, each sender's in order and once.
pub fn names_and_order()
    ensures once { NamesStandOnce }
    ensures numbered { OwnCastsAreNumbered }
    ensures own { OwnMessagesAreOwn }
    ensures order { ViewIsInOrder }
    ensures first { ViewHoldsTheFirst }
    ensures there { ViewIsOfCasts }
    ensures payloads { ViewIsAsCast }
{}
