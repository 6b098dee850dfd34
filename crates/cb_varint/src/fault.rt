//! Why no number stands at the front of some bytes.

ghost use Rattle.std.specs.Prelude.{Some};
ghost use Rattle.cb_varint.specs.FaultText.{number_fault_text};

use std::error::Error;
use std::fmt;

/// The fault of bytes that do not begin with a number, seen from the left.
#[derive(Clone, Copy, Debug, PartialEq, Eq, Hash)]
pub enum NumberFault {
    /// The bytes end where one more would have to follow.
    Short,
    /// The last byte of two or more is 0, so a shorter spelling exists.
    NotMinimal,
    /// The number is above 4,294,967,295.
    TooLarge,
}

impl fmt::Display for NumberFault {
    ghost output = { λ fault. Some (number_fault_text fault) };

    fn fmt<W: fmt::Write>(&self, f: &mut fmt::Formatter<W>) -> fmt::Result {
        f.write_str(match self {
            NumberFault::Short => "Short",
            NumberFault::NotMinimal => "NotMinimal",
            NumberFault::TooLarge => "TooLarge",
        })
    }
}

impl Error for NumberFault {}
