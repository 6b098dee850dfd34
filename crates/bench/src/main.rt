//! Measures members, streams, journals and groups in threads, beside `bench_member` and `bench_core`. The first word says which of these is
//! run; the others are its own:
//!
//! - `held`: what a delivery costs a member of 64 while many messages wait (`bench/held.sh`);
//! - `stream`: what it costs to read frames out of a stream that comes in pieces (`bench/stream.sh`);
//! - `journal`: what a journal costs, and coming back by one (`bench/journal.sh`);
//! - `group`: what a group in threads costs (`bench/group.sh`);
//! - `soak`: a group in threads over links that lose, repeat and hold back frames (`checks/soak.sh`).
#![tactic(auto)]

mod caster;
mod fault;
mod group;
mod held;
mod journal;
mod lossy;
mod member;
mod plan;
mod soak;
mod stream;
mod tally;
mod words;

use crate::fault::Fault;
use std::env;
use std::process::ExitCode;

fn words_of(rt: &HostRuntime) -> Result<Vec<String>, Fault> {
    Ok(env::args(rt)?.collect(rt.alloc())?)
}

/// A measurement, by the word that runs it.
#[derive(Clone, Copy)]
enum Measure {
    Held,
    Stream,
    Journal,
    Group,
    Soak,
}

/// The only measurement of this program: `bench/trial.py` exchanges this line. A function of a member that has one caller is compiled in
/// place there. In a program of several measures it has several callers, and each delivery would cost up to an eighth more.
const ALONE: Option<Measure> = None;

/// The measurement that the first word after the program's name asks for.
fn measure_in(words: &[String]) -> Option<Measure> {
    match words.get(1)?.as_str() {
        "held" => Some(Measure::Held),
        "stream" => Some(Measure::Stream),
        "journal" => Some(Measure::Journal),
        "group" => Some(Measure::Group),
        "soak" => Some(Measure::Soak),
        _ => None,
    }
}

fn status_of(rt: &HostRuntime, ended: Result<ExitCode, Fault>) -> ExitCode {
    match ended {
        Ok(status) => status,
        Err(fault) => {
            let _ = eprintln!(rt; "bench: {fault}");
            ExitCode::from(fault.status())
        }
    }
}

fn main(rt: HostRuntime) -> ExitCode {
    let words = match words_of(&rt) {
        Ok(words) => words,
        Err(fault) => return status_of(&rt, Err(fault)),
    };
    let measure = match ALONE {
        Some(measure) => Some(measure),
        None => measure_in(words.as_slice()),
    };
    let ended = match measure {
        Some(Measure::Held) => held::print(&rt, words.as_slice()),
        Some(Measure::Stream) => stream::print(&rt, words.as_slice()),
        Some(Measure::Journal) => journal::print(&rt, words.as_slice()),
        Some(Measure::Group) => match group::run(&rt, rt.alloc(), words.as_slice()) {
            Ok(ran) => group::print(&rt, ran, words.len() > 8),
            Err(fault) => Err(fault),
        },
        Some(Measure::Soak) => match soak::run(&rt, rt.alloc(), words.as_slice()) {
            Ok(ran) => soak::print(&rt, ran, words.len() > 11),
            Err(fault) => Err(fault),
        },
        None => Err(Fault::Measure),
    };
    status_of(&rt, ended)
}
