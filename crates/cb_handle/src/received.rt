//! Where received bytes lie.

ghost use Rattle.std.specs.Prelude.{◌≡◌, IfOk};

use bytes::Bytes;
use cb_frames::FrameBlock;
use std::alloc::{AllocError, Global};
use std::marker::Model;

/// Memory for received frames, many to a block. A block is given back once none of its frames is kept; a frame that is refused or a
/// repeat has used up its part all the same.
#[derive(Drop)]
pub struct ReceivedBlock {
    block: FrameBlock,
}

impl Model for ReceivedBlock {
    // where bytes go is in no answer
    ghost Value = { Unit {0} };

    ghost view = { λ _. tt };
}

impl ReceivedBlock {
    /// No memory is taken yet.
    pub fn new(alloc: Global) -> ReceivedBlock {
        ReceivedBlock {
            block: FrameBlock::new(alloc),
        }
    }

    /// A copy of received bytes.
    pub fn copied(&mut self, bytes: &[u8]) -> Result<Bytes, AllocError>
        ensures { IfOk result (λ copy. copy ≡ bytes.now) }
    {
        self.block.lodge(bytes)
    }
}
