//! `confer_node`: one member of a group for each process, over UDP or TCP.
//!
//! It casts each line of standard input, and prints each line that is cast or delivered. `words`
//! reads the command line, `lines` cuts the input, `shown` has what is printed, `meeting` whom the
//! member has heard, `saying` what is said once, `ending` when it ends, `record` the text of
//! `--trace`, and `journal` the member that comes back by the file of `--journal`. `session` joins
//! them round a `Node` of `cb_node`, and `input` has the thread that reads.
#![tactic(auto)]

mod ending;
mod fault;
mod input;
mod journal;
mod lines;
mod meeting;
mod record;
mod run;
mod saying;
mod session;
mod shown;
#[cfg(test)]
mod tests;
mod words;

use crate::fault::Fault;
use crate::run::{report, run};
use crate::words::order_of;
use std::env;
use std::io::ErrorKind;
use std::process::ExitCode;

fn words_of(rt: &HostRuntime) -> Result<Vec<String>, Fault> {
    let words = env::args(rt).map_err(|fault| match fault.kind() {
        ErrorKind::OutOfMemory => Fault::NoMemory,
        _ => Fault::NotText,
    })?;
    Ok(words.collect(rt.alloc())?)
}

fn main(rt: HostRuntime) -> ExitCode {
    let words = match words_of(&rt) {
        Ok(words) => words,
        Err(fault) => return ExitCode::from(report(&fault, &mut rt.stderr())),
    };
    let order = match order_of(rt.alloc(), &words) {
        Ok(order) => order,
        Err(fault) => return ExitCode::from(report(&fault, &mut rt.stderr())),
    };
    let ended = run(&rt, &order, rt.stdin(), &mut rt.stdout(), &mut rt.stderr());
    ExitCode::from(match ended {
        Ok(ended) => ended.status(),
        Err(fault) => report(&fault, &mut rt.stderr()),
    })
}
