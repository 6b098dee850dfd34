//! Why a journal is not read, or an entry not written.

ghost use Rattle.std.specs.Prelude.{◌≡◌, Some};
ghost use Rattle.cb_journal.specs.declared.fault.ReadFault.TheVariants.{NoMemory};
ghost use Rattle.cb_journal.specs.declared.fault.AppendFault.TheVariants.{NoMemory as AppendNoMemory};
ghost use Rattle.cb_journal.specs.Reading.{fault_at};
ghost use Rattle.cb_journal.specs.FaultText.{read_fault_text, append_fault_text};

use cb_lines::LineFault;
use std::alloc::{AllocError, AllocFailed};
use std::error::Error;
use std::fmt;
use std::io::ErrorKind;

/// Why no journal was read.
#[derive(Clone, Copy, Debug, PartialEq, Eq, Hash)]
pub enum ReadFault {
    /// No line is whole. Where the bytes are a beginning of the head line, or none, no entry was written yet: begin the journal.
    /// Else they are no journal.
    NoHead,
    /// This line, counted from 1, is whole and is not what must stand there: not a crash of the writer made it so.
    BadLine { line: u64 },
    /// Out of memory.
    NoMemory,
}

/// Why an entry was not written. The journal is to be read again before anything is written behind it.
#[derive(Clone, Copy, Debug, PartialEq, Eq)]
pub enum AppendFault {
    /// The device could not be cut behind the whole lines.
    Cut { kind: ErrorKind },
    /// The device did not take all bytes of the line.
    Write { kind: ErrorKind },
    /// The line was written, and may not outlast a crash.
    Sync { kind: ErrorKind },
    /// Out of memory.
    NoMemory,
}

impl ReadFault {
    /// The fault of a text in which this line has that fault.
    pub(crate) fn at(fault: LineFault, line: u64) -> ReadFault
        ensures { result ≡ fault_at fault line }
    {
        match fault {
            LineFault::NoLine => ReadFault::BadLine { line },
            LineFault::NoMemory => ReadFault::NoMemory,
        }
    }
}

impl From<AllocError> for ReadFault {
    ghost from_gives = { λ _ e. e ≡ NoMemory };

    fn from(_refused: AllocError) -> ReadFault {
        ReadFault::NoMemory
    }
}

impl<T: Drop> From<AllocFailed<T>> for ReadFault {
    ghost from_gives = { λ _ e. e ≡ NoMemory };

    fn from(_refused: AllocFailed<T>) -> ReadFault {
        ReadFault::NoMemory
    }
}

impl From<AllocError> for AppendFault {
    ghost from_gives = { λ _ e. e ≡ AppendNoMemory };

    fn from(_refused: AllocError) -> AppendFault {
        AppendFault::NoMemory
    }
}

impl<T: Drop> From<AllocFailed<T>> for AppendFault {
    ghost from_gives = { λ _ e. e ≡ AppendNoMemory };

    fn from(_refused: AllocFailed<T>) -> AppendFault {
        AppendFault::NoMemory
    }
}

impl fmt::Display for ReadFault {
    ghost output = { λ fault. Some (read_fault_text fault) };

    fn fmt<W: fmt::Write>(&self, f: &mut fmt::Formatter<W>) -> fmt::Result {
        match self {
            ReadFault::NoHead => f.write_str("NoHead"),
            ReadFault::BadLine { line } => write!(f, "BadLine {line}"),
            ReadFault::NoMemory => f.write_str("NoMemory"),
        }
    }
}

impl Error for ReadFault {}

impl fmt::Display for AppendFault {
    ghost output = { λ fault. Some (append_fault_text fault) };

    fn fmt<W: fmt::Write>(&self, f: &mut fmt::Formatter<W>) -> fmt::Result {
        f.write_str(match self {
            AppendFault::Cut { .. } => "Cut",
            AppendFault::Write { .. } => "Write",
            AppendFault::Sync { .. } => "Sync",
            AppendFault::NoMemory => "NoMemory",
        })
    }
}

impl Error for AppendFault {}
