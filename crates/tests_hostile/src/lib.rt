//! Tests of members that meet damaged and forged bytes: frames with a byte changed, cut or prolonged, and frames that no member of the
//! group sent, each with its answer.
//!
//! They stand in a crate of their own, so that they are proved beside those of `tests_member`. It has no program, and nothing stands
//! on it.
#![tactic(auto)]

#[cfg(test)]
mod answers;
#[cfg(test)]
mod damage;
#[cfg(test)]
mod forged;
#[cfg(test)]
mod forms;
