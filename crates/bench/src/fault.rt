//! Why there was no run.

use cb_frames::{EncodeFault, StreamFault};
use cb_journal::{AppendFault, ReadFault};
use cb_replay::ResumeFault;
use cb_threads::{GroupFault, LinkFault};
use std::alloc::{AllocError, AllocFailed};
use std::io;
use thiserror::Error;

/// Why there was no run.
#[derive(Debug, Drop, Error)]
pub enum Fault {
    #[error("the first word is held, stream, journal, group or soak")]
    Measure,
    #[error("the words are held HELD DELIVERIES alone|receive|arrive, the numbers at most 15616 and 256")]
    HeldWords,
    #[error("the words are stream BYTES PIECE, BYTES at most 16000000")]
    StreamWords,
    #[error("the words are journal SIZE PAYLOAD ROUNDS none|memory|file|sync|back, PAYLOAD at most 1024")]
    JournalWords,
    #[error("the words are group SIZE WINDOW PAYLOAD CASTS channel|udp|tcp [BURST], BURST no more than WINDOW")]
    GroupWords,
    #[error("the words are soak SIZE WINDOW PAYLOAD CASTS channel|udp|tcp BURST SEED HISTORY TURNS, BURST no more than WINDOW")]
    SoakWords,
    #[error("out of memory")]
    NoMemory,
    #[error("{0}")]
    Stream(io::Error),
    #[error("a frame is not written: {0}")]
    Encode(EncodeFault),
    #[error("the stream is not read: {0}")]
    Frame(StreamFault),
    #[error("an entry is not written: {0}")]
    Append(AppendFault),
    #[error("the journal is not read: {0}")]
    Read(ReadFault),
    #[error("the member does not come back: {0}")]
    Resume(ResumeFault),
    #[error("{0}")]
    Link(LinkFault),
    #[error("{0}")]
    Group(GroupFault),
}

impl Fault {
    /// The exit status.
    pub fn status(&self) -> u8 {
        match self {
            Fault::Measure | Fault::HeldWords | Fault::StreamWords => 2,
            Fault::JournalWords | Fault::GroupWords | Fault::SoakWords => 2,
            Fault::NoMemory => 5,
            _ => 3,
        }
    }
}

impl From<AllocError> for Fault {
    fn from(_refused: AllocError) -> Fault {
        Fault::NoMemory
    }
}

impl<T: Drop> From<AllocFailed<T>> for Fault {
    fn from(_refused: AllocFailed<T>) -> Fault {
        Fault::NoMemory
    }
}

impl From<io::Error> for Fault {
    fn from(error: io::Error) -> Fault {
        Fault::Stream(error)
    }
}

impl From<LinkFault> for Fault {
    fn from(fault: LinkFault) -> Fault {
        Fault::Link(fault)
    }
}

impl From<AppendFault> for Fault {
    fn from(fault: AppendFault) -> Fault {
        Fault::Append(fault)
    }
}

impl From<ReadFault> for Fault {
    fn from(fault: ReadFault) -> Fault {
        Fault::Read(fault)
    }
}

impl From<ResumeFault> for Fault {
    fn from(fault: ResumeFault) -> Fault {
        Fault::Resume(fault)
    }
}

impl From<EncodeFault> for Fault {
    fn from(fault: EncodeFault) -> Fault {
        Fault::Encode(fault)
    }
}

impl From<StreamFault> for Fault {
    fn from(fault: StreamFault) -> Fault {
        Fault::Frame(fault)
    }
}
