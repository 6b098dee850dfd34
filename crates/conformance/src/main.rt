//! The conformance suite: reads stanzas of calls, and prints them with what the real members and frames answer.
//!
//! A line that begins with a space is an answer: the program skips it and prints the right one. `stdin` and `stdout` are both the joined
//! files of `conformance/`; `docs/CONFORMANCE.md` explains the lines.
//!
//! From the input down: `suite` passes the text from player to player, and `player` reads it line by line. The player of `frames` answers
//! the lines about frames. Those of `seat` answer the calls of members (`call`, `words`), each with a member of its kind: `receiving`,
//! `copying`, `resumed`, `bare`. `texts` writes answers.
#![tactic(auto)]

mod bare;
mod call;
mod copying;
mod frames;
mod lines;
mod player;
mod readings;
mod receiving;
mod resumed;
mod seat;
mod suite;
mod texts;
mod words;

use crate::suite::Suite;
use cb_times::NoMemory;
use confer_text::{LinesFault, read_whole, write_whole};
use std::alloc::Global;
use std::process::ExitCode;

/// Whether all players agreed, and each line was a call.
fn play(rt: &HostRuntime) -> Result<bool, LinesFault> {
    let input = read_whole(rt.alloc(), &mut rt.stdin())?;
    let mut output = Vec::new(rt.alloc());
    let is_good = played(rt.alloc(), &input, &mut output)?;
    drop(input);
    write_whole(&mut rt.stdout(), &output)?;
    Ok(is_good)
}

/// Writes the input with the right answers. Whether there is no fault.
fn played(alloc: Global, input: &[u8], output: &mut Vec<u8>) -> Result<bool, NoMemory> {
    let mut suite = Suite::of(alloc, input)?;
    suite.play()?;
    suite.show(output)
}

fn main(rt: HostRuntime) -> ExitCode {
    match play(&rt) {
        Ok(true) => ExitCode::from(0),
        Ok(false) => ExitCode::from(1),
        Err(fault) => {
            let _ = eprintln!(rt; "conformance: {fault}");
            ExitCode::from(2)
        }
    }
}
