//! Tests of what the base crates offer to everybody: numbers, frames, streams of them, vector times, their differences, delay queues,
//! reorder buffers, acknowledgements, and the frames that are kept to be sent again.
//!
//! They stand in a crate of their own, so that a crate is not proved once more for its tests. It has no program, and nothing stands
//! on it.
#![tactic(auto)]

#[cfg(test)]
mod acks;
#[cfg(test)]
mod asserts;
#[cfg(test)]
mod bursts;
#[cfg(test)]
mod differences;
#[cfg(test)]
mod faults;
#[cfg(test)]
mod frames;
#[cfg(test)]
mod helpers;
#[cfg(test)]
mod index;
#[cfg(test)]
mod numbers;
#[cfg(test)]
mod queues;
#[cfg(test)]
mod relays;
#[cfg(test)]
mod reorder;
#[cfg(test)]
mod requests;
#[cfg(test)]
mod sent;
#[cfg(test)]
mod streams;
#[cfg(test)]
mod times;
#[cfg(test)]
mod windows;
