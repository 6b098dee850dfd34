//! Tests of what the pure crates offer to everybody: the machines of causal broadcast, histories, groups that run schedules, traces,
//! and rooms. Those of members stand in `tests_member`.
//!
//! They stand in a crate of their own, so that a crate is not proved once more for its tests. Tests of what a crate keeps to itself
//! stand in that crate. It has no program, and nothing stands on it.
#![tactic(auto)]

#[cfg(test)]
mod audits;
#[cfg(test)]
mod histories;
#[cfg(test)]
mod machines;
#[cfg(test)]
mod rooms;
#[cfg(test)]
mod runs;
#[cfg(test)]
mod steps;
#[cfg(test)]
mod traces;
#[cfg(test)]
mod worlds;
