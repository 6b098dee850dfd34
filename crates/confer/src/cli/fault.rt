//! Why a run of `confer` did not end as it should, and its exit status then.

ghost use Rattle.std.specs.Prelude.{◌≡◌};
ghost use Rattle.confer.specs.Cli.Statuses.{words_status, lines_status, script_status, trace_status, run_status, thread_status, status_of};
ghost use Rattle.confer.specs.declared.cli.fault.Fault.TheVariants.{NoMemory as OutOfMemory};

use cb_times::NoMemory;
use clap::error::ErrorKind;
use confer_audit::TraceInputFault;
use confer_play::ScriptFault;
use confer_run::{RunFault, ThreadFault};
use confer_text::LinesFault;
use thiserror::Error;

/// A fault in the words, or a call for help.
const USAGE: u8 = 2;

/// A fault of the reader or the writer, an input that is too long, or a conference in threads that did not
/// run.
const STREAMS: u8 = 3;

/// A script has a bad step, or a trace a bad line.
const TEXT: u8 = 4;

/// Out of memory.
const MEMORY: u8 = 5;

/// Why a run of `confer` did not end as it should.
#[derive(Debug, Drop, Error)]
pub enum Fault {
    /// A fault in the words, or a call for help. The text is `clap`'s.
    #[error("{0}")]
    Words(clap::Error),
    /// A word of the command line is no text.
    #[error("a word of the command line is not UTF-8")]
    NotText,
    /// The words name no subcommand, or say no numbers of a group: `clap` lets none of these through.
    #[error("the words order nothing")]
    NoOrder,
    /// An allocation was refused.
    #[error("out of memory")]
    NoMemory,
    /// A fault while lines were read and answered.
    #[error("{0}")]
    Lines(LinesFault),
    /// A fault while a script was read or run.
    #[error("{0}")]
    Play(ScriptFault),
    /// A fault while a trace was read or audited.
    #[error("{0}")]
    Audit(TraceInputFault),
    /// A fault of a conference in threads.
    #[error("{0}")]
    Run(RunFault),
}

impl From<NoMemory> for Fault {
    ghost from_gives = { λ _ e. e ≡ OutOfMemory };

    fn from(_refused: NoMemory) -> Fault {
        Fault::NoMemory
    }
}

impl Fault {
    /// The exit status of a run that stops so.
    pub fn status(&self) -> u8
        ensures { result ≡ status_of self.now }
    {
        match self {
            Fault::Words(error) => words_status(error.kind()),
            Fault::NotText | Fault::NoOrder => USAGE,
            Fault::NoMemory => MEMORY,
            Fault::Lines(fault) => lines_status(fault),
            Fault::Play(fault) => script_status(fault),
            Fault::Audit(fault) => trace_status(fault),
            Fault::Run(fault) => run_status(*fault),
        }
    }
}

fn words_status(kind: ErrorKind) -> u8
    ensures { result ≡ words_status kind }
{
    match kind {
        ErrorKind::OutOfMemory => MEMORY,
        _ => USAGE,
    }
}

fn lines_status(fault: &LinesFault) -> u8
    ensures { result ≡ lines_status fault.now }
{
    match fault {
        LinesFault::Read | LinesFault::Write | LinesFault::TooLong => STREAMS,
        LinesFault::NoMemory => MEMORY,
    }
}

fn run_status(fault: RunFault) -> u8
    ensures { result ≡ run_status fault }
{
    match fault {
        RunFault::Write => STREAMS,
        RunFault::Threads(fault) => thread_status(fault),
    }
}

fn thread_status(fault: ThreadFault) -> u8
    ensures { result ≡ thread_status fault }
{
    match fault {
        ThreadFault::NoLink | ThreadFault::NoThread | ThreadFault::BadReceipts => STREAMS,
        ThreadFault::NoMemory => MEMORY,
    }
}

fn script_status(fault: &ScriptFault) -> u8
    ensures { result ≡ script_status fault.now }
{
    match fault {
        ScriptFault::Lines(fault) => lines_status(fault),
        ScriptFault::BadStep { .. } => TEXT,
    }
}

fn trace_status(fault: &TraceInputFault) -> u8
    ensures { result ≡ trace_status fault.now }
{
    match fault {
        TraceInputFault::Lines(fault) => lines_status(fault),
        TraceInputFault::BadTrace { .. } => TEXT,
    }
}
