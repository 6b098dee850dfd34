//! Where the bytes of a journal go.

ghost use Rattle.std.specs.Prelude.{List, ℕ, Option, Some, None, OnOk};
ghost use Rattle.std.specs.Io.KnownBytes.{Keeps};
ghost use Rattle.cb_journal.specs.Writing.{KeepsFront};

use std::fs::File;
use std::io;
use std::io::{Seek, SeekFrom, Write};

/// A writer whose bytes can be made to outlast a crash, and whose end can be cut off. A file is one.
pub trait Device: Write {
    // The bytes that are there after a crash, where they are known.
    ghost lasting: { Self → Option (List ℕ) } = { λ _. None };

    /// Makes all bytes that the device holds outlast a crash.
    fn sync(&mut self) -> io::Result<()>
        ensures held { Keeps (Self.contents self.old) (Self.contents self.new) }
        ensures lasts { OnOk result (Keeps (Self.contents self.new) (lasting self.new)) };

    /// Keeps the first `length` bytes alone. What is written next stands behind them.
    fn cut(&mut self, length: u64) -> io::Result<()>
        ensures { OnOk result
            (KeepsFront length (Self.contents self.old) (Self.contents self.new)) };
}

impl Device for File {
    fn sync(&mut self) -> io::Result<()> {
        self.sync_data()
    }

    fn cut(&mut self, length: u64) -> io::Result<()> {
        self.set_len(length)?;
        self.seek(SeekFrom::Start(length))?;
        Ok(())
    }
}

/// Bytes in memory, for tests: they last as long as the value does.
impl Device for Vec<u8> {
    ghost lasting = { λ v. Some v.items };

    fn sync(&mut self) -> io::Result<()> {
        Ok(())
    }

    fn cut(&mut self, length: u64) -> io::Result<()> {
        self.truncate(usize::try_from(length).unwrap_or(usize::MAX));
        Ok(())
    }
}
