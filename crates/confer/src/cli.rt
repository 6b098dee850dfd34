//! The command line: what the words order, the run that they order, and what it says where it stops.
//!
//! `command` names the subcommands and their options for `clap`, with the texts of `help`; `invocation` reads
//! the words by it, and `run` does what they order. A new subcommand is a function in `command`, an
//! invocation in `invocation` and a case in `run`.

mod command;
mod fault;
mod help;
mod invocation;
mod run;
mod said;
#[cfg(test)]
mod tests;

pub use fault::Fault;
pub use run::{report, run_plain, run_words};
