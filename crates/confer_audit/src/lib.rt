//! `confer audit`: a trace, and whether it can be what a group did.
//!
//! `running` reads the trace whole, has its histories audited and writes the outcome of it: the script of a
//! run that has just these histories, or why there is none. `text` says how that is printed. Stands on
//! `cb_trace`.
#![tactic(auto)]

mod fault;
mod running;
mod text;

pub use fault::TraceInputFault;
pub use running::audit_trace;
