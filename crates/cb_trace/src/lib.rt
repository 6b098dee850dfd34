//! Traces: what a whole group did, as text, and whether it can be what the group did.
//!
//! A trace has a line for the group, a line for each member with the lines of its entries, and a last line. `write_trace` makes the
//! text of histories, `read_trace` the histories of a text, or it names the first line that is not what must stand there.
//!
//! `audit` looks for a run of the group in which each member did what its history says. Where it finds one, the histories are those of a
//! schedule's run, and all that is true after every schedule is true of them, whatever threads and links made them.
//!
//! Stands on `cb_history` for histories and on `cb_lines` for the lines of groups and entries. The audit stands on `cb_member`, which makes
//! the calls of a history again, and on `cb_world`, which makes the run.
#![tactic(auto)]

mod auditing;
mod fault;
mod joining;
mod joint;
mod laws;
mod reading;
mod replaying;
mod spelling;
mod writing;

pub use auditing::audit;
pub use fault::{AuditFault, QueryFault, TraceFault, WriteFault};
pub use joint::Joint;
pub use laws::{
    a_text_is_read_in_one_way, joint_orders_are_schedules, no_joint_order_is_missed,
    old_traces_are_legal,
};
pub use reading::read_trace;
pub use writing::write_trace;
