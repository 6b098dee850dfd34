//! The laws of traces, as contracts of functions that do nothing.

mod before;
mod joint;

ghost use Rattle.cb_trace.specs.Laws.{OneReading, OneBadLine};

pub use before::old_traces_are_legal;
pub use joint::{joint_orders_are_schedules, no_joint_order_is_missed};

/// No text is the trace of two lists of histories, and no text has two first bad lines. A trace has none.
pub fn a_text_is_read_in_one_way()
    ensures histories { OneReading }
    ensures line { OneBadLine }
{}
