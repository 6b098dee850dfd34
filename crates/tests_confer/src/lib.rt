//! Tests of the crates of `confer` whose tests need public calls alone: what they share, and its subcommands `expand`, `play` and `audit`.
#![tactic(auto)]

#[cfg(test)]
mod audit;
#[cfg(test)]
mod expand;
#[cfg(test)]
mod play;
#[cfg(test)]
mod schedules;
#[cfg(test)]
mod text;
