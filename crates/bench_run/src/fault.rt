//! Why there was no run.

use cb_times::NoMemory;
use std::io;
use thiserror::Error;

/// Why there was no run.
#[derive(Debug, Drop, Error)]
pub enum Fault {
    #[error("the words are SIZE WINDOW PAYLOAD CASTS LOST EXCHANGED [BURST] [full]")]
    Words,
    #[error("out of memory")]
    NoMemory,
    #[error("{0}")]
    Stream(io::Error),
}

impl Fault {
    /// The exit status.
    pub fn status(&self) -> u8 {
        match self {
            Fault::Words => 2,
            Fault::Stream(_) => 3,
            Fault::NoMemory => 5,
        }
    }
}

impl From<NoMemory> for Fault {
    fn from(_refused: NoMemory) -> Fault {
        Fault::NoMemory
    }
}

impl From<io::Error> for Fault {
    fn from(error: io::Error) -> Fault {
        Fault::Stream(error)
    }
}
