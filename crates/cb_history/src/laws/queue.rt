//! The delay queue and the view.

ghost use Rattle.cb_history.specs.QueueLaws.{ReadyIsReady, NextReadyIsNextDelivery, NoneReadyIsNothingNext, NextDeliveryIsFirst, FirstIsNextDelivery, ReleaseIsDelivery};

/// A delay queue that holds what is expanded and not delivered has ready what is ready in the walk: its next ready sender is that of the
/// next delivery, which is the first message held of it, and where it has none nothing is next. Released, it holds what is not delivered
/// then.
pub fn queue_releases_the_next_delivery()
    ensures ready { ReadyIsReady }
    ensures next { NextReadyIsNextDelivery }
    ensures none { NoneReadyIsNothingNext }
    ensures first { NextDeliveryIsFirst }
    ensures only { FirstIsNextDelivery }
    ensures released { ReleaseIsDelivery }
{}
