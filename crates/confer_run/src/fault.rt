//! Why a conference in threads did not run, or could not be printed.

ghost use Rattle.std.specs.Prelude.{◌≡◌};
ghost use Rattle.confer_run.specs.Run.{fault_of_closing, fault_of_link, fault_of_worker};
ghost use Rattle.confer_run.specs.declared.fault.ThreadFault.TheVariants.{NoMemory as OutOfMemory};

use cb_lock::CloseFault;
use cb_threads::{LinkFault, WorkerFault};
use std::alloc::{AllocError, AllocFailed};
use thiserror::Error;

/// Why a conference in threads left nothing to print.
#[derive(Clone, Copy, Debug, Error)]
pub enum ThreadFault {
    /// The links could not be made.
    #[error("no link")]
    NoLink,
    /// A thread could not be started.
    #[error("no thread")]
    NoThread,
    /// The receipts of a member are not those of its history.
    #[error("bad receipts")]
    BadReceipts,
    /// An allocation was refused.
    #[error("out of memory")]
    NoMemory,
}

/// Why a conference in threads did not run, or could not be printed.
#[derive(Clone, Copy, Debug, Error)]
pub enum RunFault {
    /// The writer answered an error.
    #[error("write fault")]
    Write,
    /// There was nothing to write.
    #[error("{0}")]
    Threads(ThreadFault),
}

impl From<AllocError> for ThreadFault {
    ghost from_gives = { λ _ e. e ≡ OutOfMemory };

    fn from(_refused: AllocError) -> ThreadFault {
        ThreadFault::NoMemory
    }
}

impl<T: Drop> From<AllocFailed<T>> for ThreadFault {
    ghost from_gives = { λ _ e. e ≡ OutOfMemory };

    fn from(_refused: AllocFailed<T>) -> ThreadFault {
        ThreadFault::NoMemory
    }
}

impl From<LinkFault> for ThreadFault {
    ghost from_gives = { λ fault e. e ≡ fault_of_link fault };

    fn from(fault: LinkFault) -> ThreadFault {
        match fault {
            LinkFault::Device => ThreadFault::NoLink,
            LinkFault::NoMemory => ThreadFault::NoMemory,
        }
    }
}

impl From<WorkerFault> for ThreadFault {
    ghost from_gives = { λ fault e. e ≡ fault_of_worker fault };

    fn from(fault: WorkerFault) -> ThreadFault {
        match fault {
            WorkerFault::NoThread => ThreadFault::NoThread,
            WorkerFault::NoMemory => ThreadFault::NoMemory,
        }
    }
}

impl From<CloseFault> for ThreadFault {
    ghost from_gives = { λ fault e. e ≡ fault_of_closing fault };

    fn from(fault: CloseFault) -> ThreadFault {
        match fault {
            CloseFault::NoMemory => ThreadFault::NoMemory,
            CloseFault::SeatsMissing { .. }
            | CloseFault::OtherMember
            | CloseFault::ReceiptMismatch { .. } => ThreadFault::BadReceipts,
        }
    }
}
