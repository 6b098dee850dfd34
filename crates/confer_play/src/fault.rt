//! What ends a run of a script before its end.

ghost use Rattle.std.specs.Prelude.{◌≡◌};
ghost use Rattle.confer_text.specs.declared.fault.LinesFault.TheVariants.{NoMemory as OutOfMemory};
ghost use Rattle.confer_play.specs.declared.fault.ScriptFault.TheVariants as faults;

use cb_times::NoMemory;
use confer_text::LinesFault;
use thiserror::Error;

/// Why `confer play` stopped. What was read and written before stays so.
#[derive(Clone, Copy, Debug, Error)]
pub enum ScriptFault {
    /// The reader or the writer answered a fault, the script is too long, or an allocation was refused.
    #[error("{0}")]
    Lines(LinesFault),
    /// This line of the script, counted from 1, is not what must stand there. Nothing was run.
    #[error("line {line}: bad step")]
    BadStep { line: usize },
}

impl From<LinesFault> for ScriptFault {
    ghost from_gives = { λ fault e. e ≡ faults.Lines fault };

    fn from(fault: LinesFault) -> ScriptFault {
        ScriptFault::Lines(fault)
    }
}

impl From<NoMemory> for ScriptFault {
    ghost from_gives = { λ _ e. e ≡ faults.Lines OutOfMemory };

    fn from(_refused: NoMemory) -> ScriptFault {
        ScriptFault::Lines(LinesFault::NoMemory)
    }
}
