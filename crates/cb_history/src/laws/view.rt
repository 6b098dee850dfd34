//! What one more fact does to the view.

ghost use Rattle.cb_history.specs.ViewLaws.{ViewWithOneMore, ViewGrows, NothingReadyIsLeft, NextIsTheOnlyCandidate};

/// What one more fact does to the view, and more facts leave of it, and what a drain leaves: nothing that is ready. Of each sender
/// only the next message can be.
pub fn view_with_one_more_fact()
    ensures grows { ViewWithOneMore }
    ensures stays { ViewGrows }
    ensures drained { NothingReadyIsLeft }
    ensures candidate { NextIsTheOnlyCandidate }
{}
