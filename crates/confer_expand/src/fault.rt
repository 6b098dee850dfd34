//! Why a line has no time.

use crate::refusal::Refusal;
use cb_times::NoMemory;

/// Why a line has no time: it is refused, or an allocation was.
#[derive(Drop)]
pub enum LineFault {
    Refused(Refusal),
    NoMemory(NoMemory),
}
