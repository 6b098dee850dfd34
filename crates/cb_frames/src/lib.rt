//! The frames of the protocol as values and as bytes: each frame has one text, and no frame's text begins another's.
//!
//! Stands on `cb_varint`, whose numbers are the fields, and on `bytes`. There are five kinds of frames: a cast, a burst of casts, a status,
//! a request and a help frame.
#![tactic(auto)]

mod block;
mod counting;
mod fault;
mod frame;
mod laws;
mod numbers;
mod pairs;
mod payloads;
mod reading;
mod stream;
mod unit;
mod writing;

pub use block::FrameBlock;
pub use counting::message_count;
pub use fault::{EncodeFault, FrameFault, StreamFault};
pub use frame::{
    Burst, Cast, Change, Frame, Help, LAST_MEMBER, LAST_NUMBER, LONGEST_FRAME, LONGEST_PAYLOAD,
    MOST_FRAMES, MOST_MESSAGES, MOST_RANGES, Range, Request, Status, Unit,
};
pub use laws::{
    a_stream_begins_with_one_thing, each_is_a_text_or_a_fault, messages_are_numbered, one_split,
    one_text,
};
pub use reading::decode;
pub use stream::{FrameReader, Framed};
pub use writing::{encode, frame_text};
