//! Why a line was refused.

ghost use Rattle.std.specs.Prelude.{Some};
ghost use Rattle.confer_expand.specs.Refusals.{refusal_text};

use cb_diffs::ExpandFault;
use cb_frames::FrameFault;
use std::error::Error;
use std::fmt;

/// Why a line was refused. Nothing of it is kept.
#[derive(Clone, Copy, Debug, PartialEq, Eq)]
pub enum Refusal {
    /// The line is not pairs of hexadecimal digits.
    BadHex,
    /// The bytes are no frame.
    Frame(FrameFault),
    /// The frame is a status, a request or a help frame.
    NotACast,
    /// The frame is of another group.
    OtherGroup,
    /// The cast or burst names no member of the group, or does not begin with its sender's next number.
    Expand(ExpandFault),
}

impl fmt::Display for Refusal {
    ghost output = { λ refusal. Some (refusal_text refusal) };

    fn fmt<W: fmt::Write>(&self, f: &mut fmt::Formatter<W>) -> fmt::Result {
        match self {
            Refusal::BadHex => f.write_str("BadHex"),
            Refusal::Frame(fault) => write!(f, "{fault}"),
            Refusal::NotACast => f.write_str("NotACast"),
            Refusal::OtherGroup => f.write_str("OtherGroup"),
            Refusal::Expand(fault) => write!(f, "{fault}"),
        }
    }
}

impl Error for Refusal {}
