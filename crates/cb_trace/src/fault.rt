//! Why a text is no trace, or histories have no text.

ghost use Rattle.std.specs.Prelude.{◌≡◌, Some};
ghost use Rattle.cb_trace.specs.declared.fault.TraceFault.TheVariants.{NoMemory};
ghost use Rattle.cb_trace.specs.declared.fault.WriteFault.TheVariants.{NoMemory as WriteNoMemory};
ghost use Rattle.cb_trace.specs.declared.fault.AuditFault.TheVariants.{NoMemory as AuditNoMemory};
ghost use Rattle.cb_trace.specs.FaultText.{audit_fault_text, fault_at, query_fault_text};
ghost use Rattle.cb_trace.specs.FaultText.{trace_fault_text, write_fault_text};

use cb_lines::LineFault;
use std::alloc::AllocError;
use std::error::Error;
use std::fmt;

/// Why no histories were read.
#[derive(Clone, Copy, Debug, PartialEq, Eq, Hash)]
pub enum TraceFault {
    /// This line, counted from 1, is the first that is not what must stand there. A missing line is counted
    /// where it should stand, and text behind the last line is the line after it.
    BadLine { line: u64 },
    /// Out of memory.
    NoMemory,
}

/// Why no text was written. Where both hold, the first of this list is answered.
#[derive(Clone, Copy, Debug, PartialEq, Eq, Hash)]
pub enum WriteFault {
    /// There is no history, or there are two of different groups.
    MixedGroups,
    /// Out of memory.
    NoMemory,
}

/// Why histories are not those of a run. Where several hold, the first of this list is answered; `NoMemory` may stand in place of
/// `WrongAnswer`, of `Unsent` and of a joint order.
#[derive(Clone, Copy, Debug, PartialEq, Eq, Hash)]
pub enum AuditFault {
    /// There is not just one history for each member of one group, in the order of their numbers.
    WrongMember,
    /// The least member, and its first entry, counted from 1, that a fresh member which makes the calls of its history again does not give.
    WrongAnswer { member: u32, entry: usize },
    /// No order of the entries of all members has each arrival behind what put its frame out. With the smallest member first each time, this
    /// is the smallest member that can't go on, and its next entry, counted from 1.
    Unsent { member: u32, entry: usize },
    /// Out of memory.
    NoMemory,
}

/// Why it can't be said which message was before which.
#[derive(Clone, Copy, Debug, PartialEq, Eq, Hash)]
pub enum QueryFault {
    /// One of the messages was not cast by any of these members.
    UnknownMessage,
    /// Out of memory. A `Joint` needs none to answer.
    NoMemory,
}

impl TraceFault {
    /// The fault of a text in which this line has that fault.
    pub(crate) fn at(fault: LineFault, line: u64) -> TraceFault
        ensures { result ≡ fault_at fault line }
    {
        match fault {
            LineFault::NoLine => TraceFault::BadLine { line },
            LineFault::NoMemory => TraceFault::NoMemory,
        }
    }
}

impl From<AllocError> for TraceFault {
    ghost from_gives = { λ _ e. e ≡ NoMemory };

    fn from(_refused: AllocError) -> TraceFault {
        TraceFault::NoMemory
    }
}

impl From<AllocError> for WriteFault {
    ghost from_gives = { λ _ e. e ≡ WriteNoMemory };

    fn from(_refused: AllocError) -> WriteFault {
        WriteFault::NoMemory
    }
}

impl From<AllocError> for AuditFault {
    ghost from_gives = { λ _ e. e ≡ AuditNoMemory };

    fn from(_refused: AllocError) -> AuditFault {
        AuditFault::NoMemory
    }
}

impl fmt::Display for TraceFault {
    ghost output = { λ fault. Some (trace_fault_text fault) };

    fn fmt<W: fmt::Write>(&self, f: &mut fmt::Formatter<W>) -> fmt::Result {
        match self {
            TraceFault::BadLine { line } => write!(f, "BadLine {line}"),
            TraceFault::NoMemory => f.write_str("NoMemory"),
        }
    }
}

impl Error for TraceFault {}

impl fmt::Display for WriteFault {
    ghost output = { λ fault. Some (write_fault_text fault) };

    fn fmt<W: fmt::Write>(&self, f: &mut fmt::Formatter<W>) -> fmt::Result {
        f.write_str(match self {
            WriteFault::MixedGroups => "MixedGroups",
            WriteFault::NoMemory => "NoMemory",
        })
    }
}

impl Error for WriteFault {}

impl fmt::Display for AuditFault {
    ghost output = { λ fault. Some (audit_fault_text fault) };

    fn fmt<W: fmt::Write>(&self, f: &mut fmt::Formatter<W>) -> fmt::Result {
        match self {
            AuditFault::WrongMember => f.write_str("WrongMember"),
            AuditFault::WrongAnswer { member, entry } => {
                write!(f, "WrongAnswer member {member} entry {entry}")
            }
            AuditFault::Unsent { member, entry } => {
                write!(f, "Unsent member {member} entry {entry}")
            }
            AuditFault::NoMemory => f.write_str("NoMemory"),
        }
    }
}

impl Error for AuditFault {}

impl fmt::Display for QueryFault {
    ghost output = { λ fault. Some (query_fault_text fault) };

    fn fmt<W: fmt::Write>(&self, f: &mut fmt::Formatter<W>) -> fmt::Result {
        f.write_str(match self {
            QueryFault::UnknownMessage => "UnknownMessage",
            QueryFault::NoMemory => "NoMemory",
        })
    }
}

impl Error for QueryFault {}
