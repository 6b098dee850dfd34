//! Why no member came back by a journal, and why no line is told.

ghost use Rattle.std.specs.Prelude.{◌≡◌};
ghost use Rattle.cb_handle_journal.specs.Faults.{fault_of_read, fault_of_replay, HasLine};

use cb_journal::ReadFault;

/// Why no member came back by a journal. Where several hold, the first of this list is answered; `NoMemory` may stand in place of any
/// answer.
#[derive(Clone, Copy, Debug, PartialEq, Eq, Hash)]
pub enum ResumeFault {
    /// No line is whole: the crash was before the head line stood, so no entry was written yet.
    NoHead,
    /// This line, counted from 1, is whole and is not what must stand there.
    BadLine { line: u64 },
    /// A history may not have so many entries.
    BadLimit,
    /// There are more entries than the limit of the history.
    TooLong,
    /// The entry in this line, counted from 1, is the first that no call of the member adds to those before it.
    NotLegal { line: u64 },
    /// Out of memory.
    NoMemory,
}

/// Why no line of an entry is told.
#[derive(Clone, Copy, Debug, PartialEq, Eq, Hash)]
pub enum LineRefusal {
    /// There is no entry of this index.
    NoneThere,
    /// Out of memory.
    NoMemory,
}

/// The fault of bytes that are no journal.
pub fn of_reading(fault: ReadFault) -> ResumeFault
    ensures { result ≡ fault_of_read fault }
{
    match fault {
        ReadFault::NoHead => ResumeFault::NoHead,
        ReadFault::BadLine { line } => ResumeFault::BadLine { line },
        ReadFault::NoMemory => ResumeFault::NoMemory,
    }
}

/// The fault of a journal whose entries are not taken: entry 1 stands in line 2. A journal that was read is of a member of its group, so
/// that an entry or the memory is at fault.
pub fn of_taking(fault: cb_replay::ResumeFault) -> ResumeFault
    requires { HasLine fault }
    ensures { result ≡ fault_of_replay fault }
{
    match fault {
        cb_replay::ResumeFault::NotLegal { entry } => ResumeFault::NotLegal {
            line: entry as u64 + 1,
        },
        _ => ResumeFault::NoMemory,
    }
}
