//! What ends the reading of an input, or the writing of an output, before its end.

ghost use Rattle.std.specs.Prelude.{◌≡◌};
ghost use Rattle.confer_text.specs.declared.fault.LinesFault.TheVariants.{NoMemory as OutOfMemory};

use cb_times::NoMemory;
use thiserror::Error;

/// Why an input was not read to its end, or an output not written. What was read and written before stays so.
#[derive(Clone, Copy, Debug, PartialEq, Eq, Error)]
pub enum LinesFault {
    /// The reader answered a fault; a read that was interrupted counts as one.
    #[error("read fault")]
    Read,
    /// The writer answered a fault.
    #[error("write fault")]
    Write,
    /// The input has more than 67,108,864 bytes.
    #[error("input too long")]
    TooLong,
    /// An allocation was refused.
    #[error("out of memory")]
    NoMemory,
}

impl From<NoMemory> for LinesFault {
    ghost from_gives = { λ _ e. e ≡ OutOfMemory };

    fn from(_refused: NoMemory) -> LinesFault {
        LinesFault::NoMemory
    }
}
