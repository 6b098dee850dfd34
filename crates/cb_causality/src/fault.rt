//! Why a member does not cast.

ghost use Rattle.std.specs.Prelude.{◌≡◌, Some};
ghost use Rattle.cb_causality.specs.declared.fault.CastFault.TheVariants.{NoMemory as FaultNoMemory};
ghost use Rattle.cb_causality.specs.FaultText.{fault_text};

use cb_times::NoMemory;
use std::error::Error;
use std::fmt;

/// Why a cast was refused.
#[derive(Clone, Copy, Debug, PartialEq, Eq, Hash)]
pub enum CastFault {
    /// The member's list has no room for a further number.
    Full,
    /// Out of memory.
    NoMemory,
}

impl From<NoMemory> for CastFault {
    ghost from_gives = { λ _ fault. fault ≡ FaultNoMemory };

    fn from(_refused: NoMemory) -> CastFault {
        CastFault::NoMemory
    }
}

impl fmt::Display for CastFault {
    ghost output = { λ fault. Some (fault_text fault) };

    fn fmt<W: fmt::Write>(&self, f: &mut fmt::Formatter<W>) -> fmt::Result {
        f.write_str(match self {
            CastFault::Full => "Full",
            CastFault::NoMemory => "NoMemory",
        })
    }
}

impl Error for CastFault {}
