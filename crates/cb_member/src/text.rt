//! The texts of the casts that a member makes, and handles of them.

ghost use Rattle.std.specs.Prelude.{◌≡◌, ◌≤◌, ◌++◌, ℕ, List, IfOk, length};
ghost use Rattle.cb_frames.specs.declared.frame.TheConstants.{LONGEST_PAYLOAD};
ghost use Rattle.cb_frames.specs.Fields.{One, CastFrame, cast_fields};
ghost use Rattle.cb_frames.specs.Text.{KeepsCastRules, text_of, with_load};

use bytes::Bytes;
use cb_frames::{Cast, EncodeFault, FrameBlock, one_text};
use cb_times::NoMemory;
use std::alloc::AllocError;

/// The text of a cast frame that keeps the rules, with this payload in place of its own. It lies in the block.
pub fn cast_text(block: &mut FrameBlock, cast: &Cast, payload: &[u8]) -> Result<Bytes, NoMemory>
    requires rules { KeepsCastRules (cast_fields cast.now) }
    requires payload { length payload.now ≤ LONGEST_PAYLOAD }
    ensures { IfOk result (λ bytes. bytes
        ≡ text_of (CastFrame (with_load (cast_fields cast.now) (One payload.now)))) }
{
    one_text();
    match block.encode_cast(cast, payload) {
        Ok(bytes) => Ok(bytes),
        Err(EncodeFault::NoMemory) => Err(AllocError),
        Err(EncodeFault::PayloadTooLong) => unreachable!("the payload is not too long"),
        Err(EncodeFault::BadField) => unreachable!("the frame keeps the rules"),
    }
}

/// A handle of the payload at the end of a text, which shares the text's bytes.
pub fn payload_in(text: &Bytes, payload: &[u8]) -> Result<Bytes, NoMemory>
    requires { (front : List ℕ) × (text.now ≡ front ++ payload.now) }
    ensures { IfOk result (λ handle. handle ≡ payload.now) }
{
    text.slice(text.len() - payload.len()..)
}

/// One more handle of the same bytes.
pub fn another(bytes: &Bytes) -> Result<Bytes, NoMemory>
    ensures { IfOk result (λ handle. handle ≡ bytes.now) }
{
    bytes.clone()
}
