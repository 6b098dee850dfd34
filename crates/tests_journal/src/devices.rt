//! Devices that fail, and one that takes few bytes at a time.

use cb_journal::Device;
use std::io;
use std::io::{ErrorKind, Write};

/// Which call of a device fails.
#[derive(Clone, Copy, Debug, PartialEq, Eq)]
pub enum Fails {
    /// A write, once it has so many bytes.
    Write(usize),
    /// A sync, once it has so many bytes.
    Sync(usize),
    /// A cut.
    Cut,
    Nothing,
}

/// Takes up to three bytes at a time, and is interrupted before each.
#[derive(Debug, Drop)]
pub struct Slow {
    pub bytes: Vec<u8>,
    pub fails: Fails,
    pub synced: usize,
    is_interrupted: bool,
}

impl Slow {
    pub fn new(bytes: Vec<u8>, fails: Fails) -> Slow {
        Slow {
            synced: bytes.len(),
            bytes,
            fails,
            is_interrupted: false,
        }
    }
}

impl Write for Slow {
    fn write(&mut self, buf: &[u8]) -> io::Result<usize> {
        self.is_interrupted = !self.is_interrupted;
        if self.is_interrupted {
            return Err(ErrorKind::Interrupted.into());
        }
        match self.fails {
            Fails::Write(room) if self.bytes.len() >= room => Err(ErrorKind::StorageFull.into()),
            _ => {
                let count = buf.len().min(3);
                self.bytes.extend_from_slice(&buf[..count])?;
                Ok(count)
            }
        }
    }

    fn flush(&mut self) -> io::Result<()> {
        Ok(())
    }
}

impl Device for Slow {
    fn sync(&mut self) -> io::Result<()> {
        match self.fails {
            Fails::Sync(room) if self.bytes.len() >= room => Err(ErrorKind::Other.into()),
            _ => {
                self.synced = self.bytes.len();
                Ok(())
            }
        }
    }

    fn cut(&mut self, length: u64) -> io::Result<()> {
        if self.fails == Fails::Cut {
            return Err(ErrorKind::PermissionDenied.into());
        }
        self.bytes.truncate(usize::try_from(length).unwrap_or(0));
        Ok(())
    }
}
