//! A whole group of members with their histories, in one thread: each in its turn takes all that the others sent and casts. Prints how many
//! messages were delivered, and a digest of their names and times. The run is that of `bench_run`.
//!
//! `bench/plain_member.rs` and `bench/fair_member.rs` are the same run in plain Rust, and all print the same: `bench/member.sh` compares them
//! and measures.
#![tactic(auto)]

use bench_run::{Fault, tally_in_words};
use cb_member::Member;
use std::env;
use std::process::ExitCode;

fn words_of(rt: &HostRuntime) -> Result<Vec<String>, Fault> {
    Ok(env::args(rt)?.collect(rt.alloc())?)
}

fn print_run(rt: &HostRuntime) -> Result<(), Fault> {
    let tally = tally_in_words::<Member>(rt.alloc(), words_of(rt)?)?;
    println!(rt;
        "deliveries {} digest {:016x}",
        tally.deliveries, tally.digest
    )?;
    Ok(())
}

fn main(rt: HostRuntime) -> ExitCode {
    match print_run(&rt) {
        Ok(()) => ExitCode::from(0),
        Err(fault) => {
            let _ = eprintln!(rt; "bench_member: {fault}");
            ExitCode::from(fault.status())
        }
    }
}
