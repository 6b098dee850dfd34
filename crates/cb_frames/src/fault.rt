//! Why bytes are no frame, or a value has no text.

ghost use Rattle.std.specs.Prelude.{◌≡◌, Some};
ghost use Rattle.cb_frames.specs.declared.fault.FrameFault.TheVariants.{NoMemory};
ghost use Rattle.cb_frames.specs.declared.fault.EncodeFault.TheVariants.{NoMemory as EncodeNoMemory};
ghost use Rattle.cb_frames.specs.declared.fault.StreamFault.TheVariants.{NoMemory as StreamNoMemory};
ghost use Rattle.cb_frames.specs.FaultText.{encode_fault_text, fault_text, stream_fault_text};
ghost use Rattle.cb_frames.specs.NumberFaults.{as_frame_fault, as_stream_fault};

use cb_varint::NumberFault;
use std::alloc::{AllocError, AllocFailed};
use std::error::Error;
use std::fmt;

/// Why bytes are no frame: what is wrong with them first, read from the left.
#[derive(Clone, Copy, Debug, PartialEq, Eq, Hash)]
pub enum FrameFault {
    /// The bytes end within a field, or where a field would have to follow.
    Short,
    /// No frame has this first byte.
    UnknownKind,
    /// A number is spelled longer than it has to be.
    NotMinimal,
    /// A number is above 4,294,967,295.
    TooLarge,
    /// A member number or an index is above 63.
    BadIndex,
    /// A cast has the number 0.
    ZeroNumber,
    /// A field of a time has grown by 0, or is given as 0.
    ZeroDifference,
    /// A cast has an increment for its sender's own field.
    OwnField,
    /// A count of ranges is not 1 to 32, or a range passes 4,294,967,295.
    BadRange,
    /// A burst has no payload.
    EmptyBurst,
    /// A burst has more than 32 payloads, or its last message a number above 4,294,967,295.
    BurstTooLong,
    /// The lengths of the payloads are above 1,024 bytes together.
    PayloadTooLong,
    /// Bytes follow the last field.
    Trailing,
    /// Out of memory. Only bytes that are a frame can meet it.
    NoMemory,
}

/// Why a stream goes on with no frame.
#[derive(Clone, Copy, Debug, PartialEq, Eq, Hash)]
pub enum StreamFault {
    /// The length of a frame is spelled longer than it has to be, or is 0 or above the longest frame's.
    BadLength,
    /// The bytes that the length counts are no frame. The fault is never `NoMemory`.
    BadFrame(FrameFault),
    /// Out of memory. Only a length with all its bytes can meet it.
    NoMemory,
}

/// Why a value has no text, or could not be written.
#[derive(Clone, Copy, Debug, PartialEq, Eq, Hash)]
pub enum EncodeFault {
    /// The payloads have more than 1,024 bytes.
    PayloadTooLong,
    /// Another rule of frames is broken.
    BadField,
    /// Out of memory.
    NoMemory,
}

impl From<NumberFault> for FrameFault {
    ghost from_gives = { λ fault e. e ≡ as_frame_fault fault };

    fn from(fault: NumberFault) -> FrameFault {
        match fault {
            NumberFault::Short => FrameFault::Short,
            NumberFault::NotMinimal => FrameFault::NotMinimal,
            NumberFault::TooLarge => FrameFault::TooLarge,
        }
    }
}

impl From<AllocError> for FrameFault {
    ghost from_gives = { λ _ e. e ≡ NoMemory };

    fn from(_refused: AllocError) -> FrameFault {
        FrameFault::NoMemory
    }
}

impl<T: Drop> From<AllocFailed<T>> for FrameFault {
    ghost from_gives = { λ _ e. e ≡ NoMemory };

    fn from(_refused: AllocFailed<T>) -> FrameFault {
        FrameFault::NoMemory
    }
}

impl From<FrameFault> for StreamFault {
    ghost from_gives = { λ fault e. e ≡ as_stream_fault fault };

    fn from(fault: FrameFault) -> StreamFault {
        match fault {
            FrameFault::NoMemory => StreamFault::NoMemory,
            _ => StreamFault::BadFrame(fault),
        }
    }
}

impl From<AllocError> for StreamFault {
    ghost from_gives = { λ _ e. e ≡ StreamNoMemory };

    fn from(_refused: AllocError) -> StreamFault {
        StreamFault::NoMemory
    }
}

impl From<AllocError> for EncodeFault {
    ghost from_gives = { λ _ e. e ≡ EncodeNoMemory };

    fn from(_refused: AllocError) -> EncodeFault {
        EncodeFault::NoMemory
    }
}

impl<T: Drop> From<AllocFailed<T>> for EncodeFault {
    ghost from_gives = { λ _ e. e ≡ EncodeNoMemory };

    fn from(_refused: AllocFailed<T>) -> EncodeFault {
        EncodeFault::NoMemory
    }
}

impl fmt::Display for FrameFault {
    ghost output = { λ fault. Some (fault_text fault) };

    fn fmt<W: fmt::Write>(&self, f: &mut fmt::Formatter<W>) -> fmt::Result {
        f.write_str(match self {
            FrameFault::Short => "Short",
            FrameFault::UnknownKind => "UnknownKind",
            FrameFault::NotMinimal => "NotMinimal",
            FrameFault::TooLarge => "TooLarge",
            FrameFault::BadIndex => "BadIndex",
            FrameFault::ZeroNumber => "ZeroNumber",
            FrameFault::ZeroDifference => "ZeroDifference",
            FrameFault::OwnField => "OwnField",
            FrameFault::BadRange => "BadRange",
            FrameFault::EmptyBurst => "EmptyBurst",
            FrameFault::BurstTooLong => "BurstTooLong",
            FrameFault::PayloadTooLong => "PayloadTooLong",
            FrameFault::Trailing => "Trailing",
            FrameFault::NoMemory => "NoMemory",
        })
    }
}

impl Error for FrameFault {}

impl fmt::Display for StreamFault {
    ghost output = { λ fault. Some (stream_fault_text fault) };

    fn fmt<W: fmt::Write>(&self, f: &mut fmt::Formatter<W>) -> fmt::Result {
        match self {
            StreamFault::BadLength => f.write_str("BadLength"),
            StreamFault::BadFrame(fault) => write!(f, "BadFrame({fault})"),
            StreamFault::NoMemory => f.write_str("NoMemory"),
        }
    }
}

impl Error for StreamFault {}

impl fmt::Display for EncodeFault {
    ghost output = { λ fault. Some (encode_fault_text fault) };

    fn fmt<W: fmt::Write>(&self, f: &mut fmt::Formatter<W>) -> fmt::Result {
        f.write_str(match self {
            EncodeFault::PayloadTooLong => "PayloadTooLong",
            EncodeFault::BadField => "BadField",
            EncodeFault::NoMemory => "NoMemory",
        })
    }
}

impl Error for EncodeFault {}
