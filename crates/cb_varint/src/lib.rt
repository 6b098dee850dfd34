//! Numbers on the wire: 0 to 4,294,967,295 in one to five bytes, each number in one spelling only.
//!
//! Stands on std alone.
#![tactic(auto)]

mod fault;
mod laws;
mod number;

pub use fault::NumberFault;
pub use laws::one_spelling;
pub use number::{length, put, take};
