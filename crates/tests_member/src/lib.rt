//! Tests of members: random calls that compare the plain member, the quick one and those without history, and what only one without
//! history offers. What single calls answer is shown by the stanzas of `conformance/`.
//!
//! They stand in a crate of their own, since they want both members, and so that neither is proved once more for its tests. It has no
//! program, and nothing stands on it.
#![tactic(auto)]

#[cfg(test)]
mod agreement;
#[cfg(test)]
mod cores;
