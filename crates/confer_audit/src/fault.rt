//! What ends an audit before its answer.

use confer_text::LinesFault;
use thiserror::Error;

/// Why `confer audit` stopped. What was read and written before stays so.
#[derive(Clone, Copy, Debug, Error)]
pub enum TraceInputFault {
    /// The reader or the writer answered a fault, the trace is too long, or an allocation was refused.
    #[error("{0}")]
    Lines(LinesFault),
    /// This line of the trace, counted from 1, is not what must stand there. Nothing was audited.
    #[error("line {line}: bad trace")]
    BadTrace { line: u64 },
}
