//! The journal of `--journal`: the member comes back by it, or begins it.

ghost use Rattle.std.specs.Prelude.{◌≡◌};
ghost use Rattle.confer_node.specs.Statuses.{journal_status};
ghost use Rattle.confer_node.specs.declared.journal.JournalFault.TheVariants.{NoMemory as OutOfMemory};

use cb_journal::{AppendFault, Device, Journal, JournalWriter, ReadFault, put_head, read_journal};
use cb_member::{History, Identity, Member, NewFault};
use cb_replay::{ResumeFault, resume};
use cb_times::NoMemory;
use std::alloc::Global;
use std::fs::{File, Files, OpenOptions, TryLockError};
use std::io;
use std::io::{ErrorKind, Read};
use thiserror::Error;

/// The most entries of the member's history.
pub const HISTORY_MAX: usize = 1_000_000;

/// Why no member comes back by a journal, and none begins it.
#[derive(Clone, Copy, Debug, PartialEq, Eq, Drop, Error)]
pub enum JournalFault {
    /// The file could not be opened to read and write it, or could not be locked.
    #[error("NotOpened")]
    NotOpened,
    /// Another process has it.
    #[error("InUse")]
    InUse,
    /// It could not be read.
    #[error("NotRead")]
    NotRead,
    /// This line, counted from 1, is not what must stand there: it is no journal, or something else
    /// wrote it.
    #[error("BadLine {line}")]
    BadLine { line: u64 },
    /// It is the journal of another member, group number, size or window.
    #[error("OtherJournal")]
    OtherJournal,
    /// It has so many entries, more than a member keeps here.
    #[error("TooLong entries {entries}")]
    TooLong { entries: usize },
    /// This entry, counted from 1, is the first that no call adds to those before it.
    #[error("NotLegal entry {entry}")]
    NotLegal { entry: usize },
    /// It could not be cut behind its whole lines, begun or made to outlast a crash.
    #[error("NotWritten")]
    NotWritten,
    /// Out of memory.
    #[error("NoMemory")]
    NoMemory,
}

impl JournalFault {
    /// The exit status of a run that stops so.
    pub fn status(self) -> u8
        ensures { result ≡ journal_status self }
    {
        match self {
            JournalFault::NoMemory => 5,
            _ => 3,
        }
    }
}

impl From<NoMemory> for JournalFault {
    ghost from_gives = { λ _ e. e ≡ OutOfMemory };

    fn from(_refused: NoMemory) -> JournalFault {
        JournalFault::NoMemory
    }
}

impl From<AppendFault> for JournalFault {
    fn from(fault: AppendFault) -> JournalFault {
        match fault {
            AppendFault::NoMemory => JournalFault::NoMemory,
            _ => JournalFault::NotWritten,
        }
    }
}

impl From<ResumeFault> for JournalFault {
    fn from(fault: ResumeFault) -> JournalFault {
        match fault {
            ResumeFault::NotLegal { entry } => JournalFault::NotLegal { entry },
            ResumeFault::TooLong { entries } => JournalFault::TooLong { entries },
            ResumeFault::NoMemory => JournalFault::NoMemory,
            ResumeFault::BadMember | ResumeFault::BadLimit => JournalFault::OtherJournal,
        }
    }
}

/// A member all of whose entries its journal has.
#[derive(Drop)]
pub struct Kept<D> {
    pub member: Member,
    pub journal: JournalWriter<D>,
}

/// The member of this seat that comes back by the journal in this file, or one that begins it, where
/// no entry was written yet. No other process can come back by it while this one has it.
///
/// A file by which nobody comes back stays byte for byte as it was; where it is `NotWritten`, its
/// whole lines do.
pub fn come_back<R: Files<File = File>>(
    rt: &R,
    alloc: Global,
    seat: Identity,
    path: &str,
) -> Result<Kept<File>, JournalFault> {
    let mut file = opened(rt, path)?;
    let bytes = all_of(alloc, &mut file)?;
    let kept = kept_by(alloc, seat, &bytes, file)?;
    // The name of a file that was made outlasts a crash as its bytes do.
    match sync_folder(rt, path) {
        Ok(()) => Ok(kept),
        Err(_fault) => Err(JournalFault::NotWritten),
    }
}

/// Opens the file, which is made where it is not there, and takes it for this process.
fn opened<R: Files<File = File>>(rt: &R, path: &str) -> Result<File, JournalFault> {
    let mut options = OpenOptions::new();
    options.read(true).write(true).create(true);
    let Ok(file) = options.open(rt, path) else {
        return Err(JournalFault::NotOpened);
    };
    match file.try_lock() {
        Ok(()) => Ok(file),
        Err(TryLockError::WouldBlock) => Err(JournalFault::InUse),
        Err(_fault) => Err(JournalFault::NotOpened),
    }
}

fn all_of<I: Read>(alloc: Global, input: &mut I) -> Result<Vec<u8>, JournalFault> {
    let mut bytes = Vec::new(alloc);
    match input.read_to_end(&mut bytes) {
        Ok(_count) => Ok(bytes),
        Err(fault) => Err(match fault.kind() {
            ErrorKind::OutOfMemory => JournalFault::NoMemory,
            _ => JournalFault::NotRead,
        }),
    }
}

fn sync_folder<R: Files<File = File>>(rt: &R, path: &str) -> io::Result<()> {
    let folder = match path.rsplit_once('/') {
        Some(("", _name)) => "/",
        Some((folder, _name)) => folder,
        None => ".",
    };
    File::open(rt, folder)?.sync_all()
}

/// The member of the journal that these bytes are, which stand on the device and end at its place.
/// Where they are a part of the head line, or none, the journal begins.
pub fn kept_by<D: Device + Drop>(
    alloc: Global,
    seat: Identity,
    bytes: &[u8],
    device: D,
) -> Result<Kept<D>, JournalFault> {
    match read_journal(alloc, bytes) {
        Ok(journal) => back(alloc, seat, journal, device),
        Err(ReadFault::NoHead) => begun(alloc, seat, bytes, device),
        Err(ReadFault::BadLine { line }) => Err(JournalFault::BadLine { line }),
        Err(ReadFault::NoMemory) => Err(JournalFault::NoMemory),
    }
}

/// The member comes back by its journal. What stands behind the whole lines is cut off only then.
fn back<D: Device + Drop>(
    alloc: Global,
    seat: Identity,
    journal: Journal,
    device: D,
) -> Result<Kept<D>, JournalFault> {
    let Journal {
        history,
        read,
        torn,
    } = journal;
    if !is_of(&history, seat) {
        return Err(JournalFault::OtherJournal);
    }
    let member = resume(alloc, history, HISTORY_MAX)?;
    // The member has the entries. To go on only the lengths are needed; what the writer says of the
    // entries that were read is said of none here.
    let lengths = Journal {
        history: no_entries(alloc, seat),
        read,
        torn,
    };
    let journal = JournalWriter::go_on(alloc, device, &lengths)?;
    Ok(Kept { member, journal })
}

/// The history of this member before its first entry.
fn no_entries(alloc: Global, seat: Identity) -> History {
    History {
        group: seat.group(),
        me: seat.me(),
        entries: Vec::new(alloc),
    }
}

/// Whether this history is that of the member.
fn is_of(history: &History, seat: Identity) -> bool {
    history.group == seat.group() && history.me == seat.me()
}

/// A new member begins its journal, where nothing else stands there than a part of its head line.
fn begun<D: Device + Drop>(
    alloc: Global,
    seat: Identity,
    bytes: &[u8],
    device: D,
) -> Result<Kept<D>, JournalFault> {
    if !is_part_of_head(alloc, seat, bytes)? {
        return Err(JournalFault::BadLine { line: 1 });
    }
    let member = begin(alloc, seat)?;
    let journal = JournalWriter::begin(alloc, device, seat)?;
    Ok(Kept { member, journal })
}

/// Whether the head line begins with these bytes, or is them.
fn is_part_of_head(alloc: Global, seat: Identity, bytes: &[u8]) -> Result<bool, NoMemory> {
    let mut head = Vec::new(alloc);
    put_head(&mut head, seat)?;
    Ok(head.starts_with(bytes))
}

/// The member without history.
pub fn begin(alloc: Global, seat: Identity) -> Result<Member, JournalFault> {
    match Member::new(alloc, seat.group(), seat.me(), HISTORY_MAX) {
        Ok(member) => Ok(member),
        Err(NewFault::NoMemory) => Err(JournalFault::NoMemory),
        Err(_no_member) => Err(JournalFault::OtherJournal),
    }
}
