//! A stream of small frames, and a reader that it goes to in pieces; in pieces of 0 bytes nothing is read.

use crate::fault::Fault;
use crate::words::number;
use bytes::Bytes;
use cb_frames::{Cast, Change, Frame, FrameReader, StreamFault, encode};
use std::alloc::{AllocError, Global};
use std::process::ExitCode;

/// The longest stream.
const MOST_BYTES: u32 = 16_000_000;

/// A stream of at most so many bytes, and how many of them are fed at once; by 0 none is fed at all.
#[derive(Clone, Copy, Drop)]
struct Plan {
    bytes: u32,
    piece: u32,
}

/// How many bytes were fed, and how many frames they gave.
#[derive(Clone, Copy, Default, Drop)]
struct Outcome {
    bytes: u64,
    frames: u64,
}

/// A cast whose text has 19 bytes.
fn cast_of(alloc: Global) -> Result<Frame, AllocError> {
    let mut changes = Vec::new(alloc);
    changes.push(Change {
        field: 1,
        amount: 1,
    })?;
    Ok(Frame::Cast(Cast {
        group: 7,
        sender: 0,
        number: 1,
        changes,
        payload: Bytes::copy_from_slice(alloc, b"hello there")?,
    }))
}

/// The cast's text after its length.
fn cast_and_length(alloc: Global) -> Result<Vec<u8>, Fault> {
    let text = encode(alloc, &cast_of(alloc)?)?;
    // a text has 1,441 bytes at most
    let length = u32::try_from(text.len()).unwrap_or(u32::MAX);
    let mut out = Vec::new(alloc);
    cb_varint::put(length, &mut out)?;
    out.extend_from_slice(text.as_slice())?;
    Ok(out)
}

/// As many whole casts as so many bytes hold.
fn stream_of(alloc: Global, bytes: u32) -> Result<Vec<u8>, Fault> {
    let cast = cast_and_length(alloc)?;
    let mut stream = Vec::new(alloc);
    for _ in 0..(bytes as usize).checked_div(cast.len()).unwrap_or(0) {
        stream.extend_from_slice(cast.as_slice())?;
    }
    Ok(stream)
}

/// Takes the frames that are whole, of which so many new bytes end no more than one each: how many they are.
fn frames_of(reader: &mut FrameReader, new: usize) -> Result<u64, StreamFault> {
    let mut frames = 0_u64;
    for _ in 0..new {
        let Some(_framed) = reader.next()? else {
            break;
        };
        frames = frames.saturating_add(1);
    }
    Ok(frames)
}

/// Feeds the stream in pieces of so many bytes, by 0 none of it, and takes each frame as soon as it is whole.
fn read(alloc: Global, stream: &[u8], piece: usize) -> Result<Outcome, StreamFault> {
    let mut outcome = Outcome::default();
    if piece == 0 {
        return Ok(outcome);
    }
    let mut reader = FrameReader::new(alloc);
    for bytes in stream.chunks(piece) {
        reader.feed(bytes)?;
        outcome.bytes = outcome.bytes.saturating_add(bytes.len() as u64);
        outcome.frames = outcome
            .frames
            .saturating_add(frames_of(&mut reader, bytes.len())?);
    }
    Ok(outcome)
}

/// Makes the stream and reads it.
fn outcome_of(alloc: Global, plan: Plan) -> Result<Outcome, Fault> {
    let stream = stream_of(alloc, plan.bytes)?;
    Ok(read(alloc, stream.as_slice(), plan.piece as usize)?)
}

fn plan_of(words: &[String]) -> Option<Plan> {
    let (bytes, piece) = (number(words, 2)?, number(words, 3)?);
    if bytes > MOST_BYTES {
        return None;
    }
    Some(Plan { bytes, piece })
}

/// Runs what the words order, and prints how many bytes and frames were read.
pub fn print(rt: &HostRuntime, words: &[String]) -> Result<ExitCode, Fault> {
    let Some(plan) = plan_of(words) else {
        return Err(Fault::StreamWords);
    };
    let Outcome { bytes, frames } = outcome_of(rt.alloc(), plan)?;
    println!(rt; "bytes {bytes} frames {frames}")?;
    Ok(ExitCode::from(0))
}
