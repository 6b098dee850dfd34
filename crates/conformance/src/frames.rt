//! Frames as they are read, and streams of them.

use crate::call::split_word;
use crate::player::Player;
use crate::texts::{put, put_bytes, put_content, put_line, put_ranges, put_refusal};
use crate::words::bytes_of;
use bytes::Bytes;
use cb_frames::{
    Burst, Cast, Change, Frame, FrameReader, Framed, Help, Request, Status, StreamFault, decode,
    encode,
};
use cb_lines::LineFault;
use cb_times::{Name, NoMemory};
use confer_text::{put_name, put_number};
use std::alloc::{AllocError, Global};

/// The player of the lines about frames, with the stream that is fed.
#[derive(Drop)]
pub struct Frames {
    alloc: Global,
    reader: FrameReader,
}

impl Player for Frames {
    fn new(alloc: Global) -> Frames {
        Frames {
            alloc,
            reader: FrameReader::new(alloc),
        }
    }

    fn name() -> Option<&'static str> {
        None
    }

    fn play(&mut self, call: &str, text: &mut Vec<u8>) -> Result<bool, LineFault> {
        let (word, rest) = split_word(call);
        match word {
            "decode" => self.decode(rest, text)?,
            "stream" => self.reader = FrameReader::new(self.alloc),
            "feed" => self.feed(rest, text)?,
            _ => return Ok(false),
        }
        Ok(true)
    }
}

impl Frames {
    fn decode(&mut self, words: &str, text: &mut Vec<u8>) -> Result<(), LineFault> {
        let bytes = Bytes::from_vec(bytes_of(self.alloc, words)?)?;
        let put = put_decoded(self.alloc, text, &bytes);
        drop(bytes);
        Ok(put?)
    }

    fn feed(&mut self, words: &str, text: &mut Vec<u8>) -> Result<(), LineFault> {
        let piece = bytes_of(self.alloc, words)?;
        let put = put_stream(self.alloc, text, &mut self.reader, &piece);
        drop(piece);
        Ok(put?)
    }
}

/// The group, which each frame has first, and of what kind the frame is.
fn put_head(text: &mut Vec<u8>, group: u32, kind: &str) -> Result<(), NoMemory> {
    put(text, " group ")?;
    put_number(text, group)?;
    put(text, kind)
}

fn put_numbered(text: &mut Vec<u8>, words: &str, number: u32) -> Result<(), NoMemory> {
    put(text, words)?;
    put_number(text, number)
}

/// Fields with their amounts, as `0:1`.
fn put_changes(text: &mut Vec<u8>, changes: &[Change]) -> Result<(), NoMemory> {
    for change in changes {
        put_numbered(text, " ", change.field)?;
        put_numbered(text, ":", change.amount)?;
    }
    Ok(())
}

fn put_cast(text: &mut Vec<u8>, cast: &Cast) -> Result<(), NoMemory> {
    let Cast { sender, number, .. } = cast;
    put_head(text, cast.group, " cast ")?;
    put_name(
        text,
        Name {
            sender: *sender,
            number: *number,
        },
    )?;
    put_changes(text, &cast.changes)?;
    put(text, " ")?;
    put_content(text, &cast.payload)
}

fn put_burst(text: &mut Vec<u8>, burst: &Burst) -> Result<(), NoMemory> {
    let Burst { sender, first, .. } = burst;
    put_head(text, burst.group, " burst ")?;
    put_name(
        text,
        Name {
            sender: *sender,
            number: *first,
        },
    )?;
    put_changes(text, &burst.changes)?;
    put_payloads(text, &burst.payloads)
}

fn put_payloads(text: &mut Vec<u8>, payloads: &[Bytes]) -> Result<(), NoMemory> {
    for payload in payloads {
        put(text, " ")?;
        put_content(text, payload)?;
    }
    Ok(())
}

fn put_status(text: &mut Vec<u8>, status: &Status) -> Result<(), NoMemory> {
    put_head(text, status.group, " status")?;
    put_numbered(text, " of ", status.sender)?;
    put_changes(text, &status.values)
}

fn put_request(text: &mut Vec<u8>, request: &Request) -> Result<(), NoMemory> {
    put_head(text, request.group, " request")?;
    put_numbered(text, " of ", request.requester)?;
    put_numbered(text, " to ", request.asked)?;
    put(text, " for")?;
    put_ranges(text, &request.ranges)
}

fn put_help(text: &mut Vec<u8>, help: &Help) -> Result<(), NoMemory> {
    put_head(text, help.group, " help")?;
    put_numbered(text, " of ", help.requester)?;
    put_numbered(text, " to ", help.helper)?;
    put_numbered(text, " with ", help.sender)?;
    put(text, " for")?;
    put_ranges(text, &help.ranges)
}

fn put_frame(text: &mut Vec<u8>, frame: &Frame) -> Result<(), NoMemory> {
    match frame {
        Frame::Cast(cast) => put_cast(text, cast)?,
        Frame::Burst(burst) => put_burst(text, burst)?,
        Frame::Status(status) => put_status(text, status)?,
        Frame::Request(request) => put_request(text, request)?,
        Frame::Help(help) => put_help(text, help)?,
    }
    put(text, "\n")
}

/// The frame that the bytes are, or why they are none.
fn put_decoded(alloc: Global, text: &mut Vec<u8>, bytes: &Bytes) -> Result<(), NoMemory> {
    match decode(alloc, bytes) {
        Ok(frame) => {
            let put = put_read(alloc, text, &frame, bytes);
            drop(frame);
            put
        }
        Err(fault) => put_refusal(text, fault),
    }
}

/// The frame; and its text, where that is not these bytes.
fn put_read(
    alloc: Global,
    text: &mut Vec<u8>,
    frame: &Frame,
    bytes: &Bytes,
) -> Result<(), NoMemory> {
    put_frame(text, frame)?;
    match encode(alloc, frame) {
        Ok(written) => put_if_other(text, &written, bytes),
        Err(fault) => put_refusal(text, fault),
    }
}

fn put_if_other(text: &mut Vec<u8>, written: &[u8], bytes: &[u8]) -> Result<(), NoMemory> {
    if *written == *bytes {
        return Ok(());
    }
    put(text, " ! written ")?;
    put_bytes(text, written)?;
    put(text, "\n")
}

/// Feeds the piece, and writes the frames that are whole then.
fn put_stream(
    alloc: Global,
    text: &mut Vec<u8>,
    reader: &mut FrameReader,
    piece: &[u8],
) -> Result<(), NoMemory> {
    reader.feed(piece)?;
    // a frame ends in a byte of the piece
    for _ in 0..piece.len() {
        if !put_next(alloc, text, reader)? {
            return Ok(());
        }
    }
    put_next(alloc, text, reader)?;
    Ok(())
}

/// Writes the stream's next frame, or that there is none. Whether there is one.
fn put_next(alloc: Global, text: &mut Vec<u8>, reader: &mut FrameReader) -> Result<bool, NoMemory> {
    let next = reader.next();
    let put = put_answer(alloc, text, &next);
    let is_frame = matches!(&next, Ok(Some(_)));
    drop(next);
    put?;
    Ok(is_frame)
}

fn put_answer(
    alloc: Global,
    text: &mut Vec<u8>,
    next: &Result<Option<Framed>, StreamFault>,
) -> Result<(), NoMemory> {
    match next {
        Ok(Some(framed)) => put_framed(alloc, text, framed),
        Ok(None) => put_line(text, "none"),
        Err(StreamFault::NoMemory) => Err(AllocError),
        Err(fault) => put_refusal(text, *fault),
    }
}

/// The bytes of a frame, which must be those that it is read from.
fn put_framed(alloc: Global, text: &mut Vec<u8>, framed: &Framed) -> Result<(), NoMemory> {
    put(text, " frame ")?;
    put_bytes(text, &framed.bytes)?;
    put(text, "\n")?;
    if is_read_as(alloc, framed) {
        return Ok(());
    }
    put(text, " ! is read otherwise\n")
}

fn is_read_as(alloc: Global, framed: &Framed) -> bool {
    match decode(alloc, &framed.bytes) {
        Ok(frame) => frame == framed.frame,
        Err(_) => false,
    }
}
