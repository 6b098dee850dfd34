//! A whole group in one thread, of members with or without a history: each in its turn takes all that the others sent and casts, and
//! then all tick.
//!
//! `bench_member` and `bench_core` run it, each with members of one kind alone: with two kinds in one program the compiler would lay
//! out the calls of neither for its one caller, and what is measured is a member in a program that has no other.
#![tactic(auto)]

mod fault;
mod network;
mod plan;
mod random;
mod run;
mod speaker;
mod stage;
mod tally;

pub use crate::fault::Fault;
use crate::plan::{Plan, plan_of};
use crate::run::tally_of;
pub use crate::speaker::{Core, Speaker};
pub use crate::tally::Tally;
use std::alloc::Global;

fn plan_in(words: Vec<String>) -> Option<Plan> {
    plan_of(words.as_slice())
}

/// What is delivered in the run that the words order, of which the first is the program's name.
pub fn tally_in_words<M: Speaker>(alloc: Global, words: Vec<String>) -> Result<Tally, Fault> {
    let Some(plan) = plan_in(words) else {
        return Err(Fault::Words);
    };
    Ok(tally_of::<M>(alloc, plan)?)
}
