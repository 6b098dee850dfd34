//! Why a run did not end well, and its exit status then.

ghost use Rattle.std.specs.Prelude.{◌≡◌};
ghost use Rattle.confer_node.specs.Statuses.{cast_status, link_status, lines_status, status_of, turn_status, words_status};
ghost use Rattle.confer_node.specs.declared.fault.Fault.TheVariants.{Journal as NoJournal, Lines as BadLines, Link as NoLink, NoMemory as OutOfMemory};

use crate::journal::JournalFault;
use cb_member::CastRefusal;
use cb_node::{NodeCastFault, TurnFault};
use cb_remote::MakeFault;
use cb_times::NoMemory;
use clap::error::ErrorKind;
use confer_text::LinesFault;
use std::alloc::AllocFailed;
use thiserror::Error;

/// A fault in the words, or a call for help.
const USAGE: u8 = 2;

/// A fault of the input, of the output, of the journal, of the file of the trace, of the link or of
/// the thread that reads, or a history that is full.
const DEVICES: u8 = 3;

/// Out of memory.
const MEMORY: u8 = 5;

/// Why a run did not end well.
#[derive(Debug, Drop, Error)]
pub enum Fault {
    /// A fault in the words, or a call for help. The text is `clap`'s.
    #[error("{0}")]
    Words(clap::Error),
    /// A word of the command line is no text.
    #[error("a word of the command line is not UTF-8")]
    NotText,
    /// A word behind `--peer` is no IP address with a port.
    #[error("no address: write 127.0.0.1:4710 or [::1]:4710")]
    NoAddress,
    /// A group has 2 to 64 members, and the member's number is below how many there are.
    #[error("no such member: 2 to 64 times --peer, and --me below how many they are")]
    NoMember,
    /// A time between two ticks is 1 millisecond to a second.
    #[error("no such tick: 1 to 1000 milliseconds")]
    NoTick,
    /// An allocation was refused.
    #[error("out of memory")]
    NoMemory,
    /// No member comes back by the journal, or begins it.
    #[error("no journal: {0}")]
    Journal(JournalFault),
    /// The link was not made.
    #[error("no link: {0}")]
    Link(MakeFault),
    /// The thread that reads could not be started.
    #[error("no thread")]
    NoThread,
    /// The clock could not be read.
    #[error("no clock")]
    NoClock,
    /// Standard input or standard output failed.
    #[error("{0}")]
    Lines(LinesFault),
    /// A line could not be cast.
    #[error("no cast: {0}")]
    Cast(NodeCastFault),
    /// A turn was hindered.
    #[error("no turn: {0}")]
    Turn(TurnFault),
    /// The file of the trace was not written whole.
    #[error("the trace is not written")]
    Trace,
}

impl From<NoMemory> for Fault {
    ghost from_gives = { λ _ e. e ≡ OutOfMemory };

    fn from(_refused: NoMemory) -> Fault {
        Fault::NoMemory
    }
}

impl<T: Drop> From<AllocFailed<T>> for Fault {
    ghost from_gives = { λ _ e. e ≡ OutOfMemory };

    fn from(_refused: AllocFailed<T>) -> Fault {
        Fault::NoMemory
    }
}

impl From<JournalFault> for Fault {
    ghost from_gives = { λ fault e. e ≡ NoJournal fault };

    fn from(fault: JournalFault) -> Fault {
        Fault::Journal(fault)
    }
}

impl From<MakeFault> for Fault {
    ghost from_gives = { λ fault e. e ≡ NoLink fault };

    fn from(fault: MakeFault) -> Fault {
        Fault::Link(fault)
    }
}

impl From<LinesFault> for Fault {
    ghost from_gives = { λ fault e. e ≡ BadLines fault };

    fn from(fault: LinesFault) -> Fault {
        Fault::Lines(fault)
    }
}

impl Fault {
    /// The exit status of a run that stops so.
    pub fn status(&self) -> u8
        ensures { result ≡ status_of self.now }
    {
        match self {
            Fault::Words(error) => words_status(error.kind()),
            Fault::NotText | Fault::NoAddress | Fault::NoMember | Fault::NoTick => USAGE,
            Fault::NoMemory => MEMORY,
            Fault::Journal(fault) => fault.status(),
            Fault::Link(fault) => link_status(*fault),
            Fault::NoThread | Fault::NoClock | Fault::Trace => DEVICES,
            Fault::Lines(fault) => lines_status(*fault),
            Fault::Cast(fault) => cast_status(*fault),
            Fault::Turn(fault) => turn_status(*fault),
        }
    }
}

fn words_status(kind: ErrorKind) -> u8
    ensures { result ≡ words_status kind }
{
    match kind {
        ErrorKind::OutOfMemory => MEMORY,
        _ => USAGE,
    }
}

/// Addresses that no group can have are a fault in the words.
fn link_status(fault: MakeFault) -> u8
    ensures { result ≡ link_status fault }
{
    match fault {
        MakeFault::BadMember | MakeFault::BadAddresses => USAGE,
        MakeFault::NoMemory => MEMORY,
        _ => DEVICES,
    }
}

fn lines_status(fault: LinesFault) -> u8
    ensures { result ≡ lines_status fault }
{
    match fault {
        LinesFault::NoMemory => MEMORY,
        _ => DEVICES,
    }
}

fn cast_status(fault: NodeCastFault) -> u8
    ensures { result ≡ cast_status fault }
{
    match fault {
        NodeCastFault::Refused(CastRefusal::NoMemory) => MEMORY,
        _ => DEVICES,
    }
}

fn turn_status(fault: TurnFault) -> u8
    ensures { result ≡ turn_status fault }
{
    match fault {
        TurnFault::NoMemory => MEMORY,
        _ => DEVICES,
    }
}
