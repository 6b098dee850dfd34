//! Payloads that lie one after another in a caller's bytes.

ghost use Rattle.std.specs.Prelude.{◌≡◌, ◌≤◌, length, map, sum, true, ◌↔◌};
ghost use Rattle.cb_frames.specs.declared.frame.TheConstants.{MOST_MESSAGES};
ghost use Rattle.cb_handle.specs.Payloads.{payloads_in};

use arrayvec::ArrayVec;
use cb_frames::MOST_MESSAGES;

/// Whether so many bytes are enough for parts of these lengths.
pub fn are_enough(bytes: usize, lengths: &[usize]) -> bool
    ensures { (result ≡ true) ↔ (sum lengths.now ≤ bytes) }
{
    let mut left = bytes;
    for length in lengths {
        if *length > left {
            return false;
        }
        left -= *length;
    }
    true
}

/// The payloads of these lengths, one after another from the front of the bytes on. This takes no memory.
pub fn cut<'a>(bytes: &'a [u8], lengths: &[usize]) -> ArrayVec<&'a [u8], MOST_MESSAGES>
    requires few { length lengths.now ≤ MOST_MESSAGES }
    requires enough { sum lengths.now ≤ length bytes.now }
    ensures { map (λ payload. payload.now) result.items ≡ payloads_in bytes.now lengths.now }
{
    let mut payloads = ArrayVec::new();
    let mut rest = bytes;
    for length in lengths {
        let (payload, behind) = rest.split_at(*length);
        payloads.push(payload);
        rest = behind;
    }
    payloads
}
