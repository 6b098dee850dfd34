//! Where the journals of members go.

use crate::fault::Fault;
use cb_journal::Device;
use std::fs::File;
use std::io;
use std::io::Write;

/// What makes a device for the journal of each member.
pub trait Shelf: Device + Drop + Sized {
    fn made(rt: &HostRuntime, me: u32) -> Result<Self, Fault>;
}

impl Shelf for Vec<u8> {
    fn made(rt: &HostRuntime, _me: u32) -> Result<Vec<u8>, Fault> {
        Ok(Vec::new(rt.alloc()))
    }
}

/// The name of the file of the member's journal.
pub fn name_of(rt: &HostRuntime, me: u32) -> Result<String, Fault> {
    Ok(format!(in rt.alloc(); "journal.{me}")?)
}

impl Shelf for File {
    fn made(rt: &HostRuntime, me: u32) -> Result<File, Fault> {
        let name = name_of(rt, me)?;
        Ok(File::create(rt, name.as_str())?)
    }
}

/// A file that is not made to outlast a crash.
#[derive(Drop)]
pub struct Unsynced {
    file: File,
}

impl Write for Unsynced {
    fn write(&mut self, bytes: &[u8]) -> io::Result<usize> {
        self.file.write(bytes)
    }

    fn flush(&mut self) -> io::Result<()> {
        self.file.flush()
    }
}

impl Device for Unsynced {
    fn sync(&mut self) -> io::Result<()> {
        Ok(())
    }

    fn cut(&mut self, length: u64) -> io::Result<()> {
        self.file.cut(length)
    }
}

impl Shelf for Unsynced {
    fn made(rt: &HostRuntime, me: u32) -> Result<Unsynced, Fault> {
        Ok(Unsynced {
            file: File::made(rt, me)?,
        })
    }
}
