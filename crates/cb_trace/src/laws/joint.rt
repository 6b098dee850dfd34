//! Joint orders of histories, and their runs.

ghost use Rattle.cb_trace.specs.AuditLaws.{GreedyOrdersAreOrders, JointOrderIsFound};
ghost use Rattle.cb_trace.specs.AuditLaws.{OneGreedyOrder, RunHasTheHistories};

/// Taking an entry early never hurts: an order that goes on as long as any entry may go ends with all entries, if there is a joint order at
/// all. So it is with the one that takes the smallest member each time.
pub fn no_joint_order_is_missed()
    ensures orders { GreedyOrdersAreOrders }
    ensures one { OneGreedyOrder }
    ensures found { JointOrderIsFound }
{}

/// A joint order of legal histories is a schedule: each entry is made by a step, an arrival by that of the first frame with its bytes. Its run
/// has exactly these histories. So what is true after every schedule is true of what these members did, however it came about.
pub fn joint_orders_are_schedules()
    ensures { RunHasTheHistories }
{}
