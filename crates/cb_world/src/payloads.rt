//! The payloads of a burst, as a step has them and as a member is given them.

ghost use Rattle.std.specs.Prelude.{◌≡◌, ◌∷◌, ◌++◌, [], true, IfOk, OnOk, map};
ghost use Rattle.cb_frames.specs.Fields.{Many, load_bytes};
ghost use Rattle.cb_schedules.specs.Schedule.{are_bytes};

use bytes::Bytes;
use cb_member::NoMemory;
use std::alloc::Global;

/// Copies of the payloads, which share their bytes. The only error is out of memory.
pub fn payload_copies(alloc: Global, payloads: &[Bytes]) -> Result<Vec<Bytes>, NoMemory>
    ensures { IfOk result (λ copies. copies.items ≡ payloads.now) }
{
    let mut copies = Vec::with_capacity(alloc, payloads.len())?;
    for payload in payloads {
        copies.push(payload.clone()?)?;
    }
    Ok(copies)
}

/// The payloads as slices, which a member casts as a burst. The only error is out of memory.
pub fn payload_slices(alloc: Global, payloads: &[Bytes]) -> Result<Vec<&[u8]>, NoMemory>
    ensures slices { IfOk result (λ slices.
        map (λ payload. payload.now) slices.items ≡ payloads.now) }
    ensures bytes { IfOk result (λ _. are_bytes (load_bytes (Many payloads.now)) ≡ true) }
{
    let mut slices = Vec::with_capacity(alloc, payloads.len())?;
    for payload in payloads {
        add_slice(&mut slices, payload.as_slice())?;
    }
    Ok(slices)
}

#[tactic(auto, using(crate::proofs::Taken::bytes_are_bytes))]
fn add_slice<'a>(slices: &mut Vec<&'a [u8]>, payload: &'a [u8]) -> Result<(), NoMemory>
    ensures slices { OnOk result (map (λ payload. payload.now) slices.new.items
        ≡ map (λ payload. payload.now) slices.old.items ++ payload.now ∷ []) }
    ensures bytes { are_bytes payload.now ≡ true }
{
    slices.push(payload)?;
    Ok(())
}
