//! Reading an input whole or in pieces, and writing all of a text.

ghost use Rattle.std.specs.Prelude.{◌≡◌, ◌<◌, ◌≤◌, [], Ok, Err, vec_len, length, take, IfOk, IfErr, OnOk, OnErr, IfSome, MatchResult};
ghost use Rattle.std.specs.Io.KnownBytes.{Appends, Consumes, IsAtEnd, Keeps};
ghost use Rattle.confer_text.specs.Streams.{FailsToRead, WritesPart};

use crate::fault::LinesFault;
use cb_times::NoMemory;
use std::alloc::Global;
use std::io;
use std::io::{ErrorKind, Read, Write};

/// The most bytes of an input.
pub const LONGEST_INPUT: usize = 67_108_864;

/// How many bytes are read at a time.
const CHUNK: usize = 65_536;

/// Where the bytes of one read go.
pub fn room(alloc: Global) -> Result<Vec<u8>, NoMemory>
    ensures { IfOk result (λ buffer. 0 < vec_len buffer) }
{
    vec![in alloc; 0; CHUNK]
}

/// A read that failed is a read fault, and nothing else is.
fn count_of(read: io::Result<usize>) -> Result<usize, LinesFault>
    ensures { MatchResult read (λ count. result ≡ Ok count) (λ _. result ≡ Err LinesFault.Read) }
{
    match read {
        Ok(count) => Ok(count),
        Err(_) => Err(LinesFault::Read),
    }
}

/// The bytes of one read, at the front of the buffer: none at the end of the input alone.
pub fn read<R: Read>(input: &mut R, buffer: &mut [u8]) -> Result<usize, LinesFault>
    requires { 0 < length buffer.old }
    ensures within { IfOk result (λ count. count ≤ length buffer.new) }
    ensures bytes { IfOk result (λ count.
        Consumes (R.remaining input.old) (R.remaining input.new) (take count buffer.new)) }
    ensures end { IfOk result (λ count. count ≡ 0 → IsAtEnd (R.remaining input.new)) }
    ensures err { OnErr result (Keeps (R.remaining input.old) (R.remaining input.new)) }
    ensures fault { IfErr result (λ fault. fault ≡ LinesFault.Read) }
{
    count_of(input.read(buffer))
}

/// All that the reader has, where it is no more than an input may have.
pub fn read_whole<R: Read>(alloc: Global, input: &mut R) -> Result<Vec<u8>, LinesFault>
    ensures text { IfOk result (λ text. IfSome (R.remaining input.old) (λ bytes.
        text.items ≡ bytes)) }
    ensures limit { IfOk result (λ text. vec_len text ≤ LONGEST_INPUT) }
    ensures fault { IfErr result (λ fault. FailsToRead fault (R.remaining input.old)) }
{
    let mut buffer = room(alloc)?;
    let mut text = Vec::new(alloc);
    'pieces: loop {
        let count = match read(input, &mut buffer) {
            Ok(count) => count,
            Err(fault) => return Err(fault),
        };
        if count == 0 {
            return Ok(text);
        }
        if LONGEST_INPUT - text.len() < count {
            return Err(LinesFault::TooLong);
        }
        text.extend_from_slice(&buffer[..count])?;
    }
}

/// Writes some of the bytes, none of them only where the write was interrupted. A write that failed is a
/// write fault, and nothing else is.
fn write_some<W: Write>(output: &mut W, bytes: &[u8]) -> Result<usize, LinesFault>
    ensures within { IfOk result (λ count. count ≤ length bytes.now) }
    ensures ok { IfOk result (λ count.
        Appends (W.contents output.old) (W.contents output.new) (take count bytes.now)) }
    ensures err { OnErr result (Appends (W.contents output.old) (W.contents output.new) []) }
    ensures fault { IfErr result (λ fault. fault ≡ LinesFault.Write) }
{
    match output.write(bytes) {
        Ok(0) => Err(LinesFault::Write),
        Ok(count) => Ok(count),
        Err(fault) if fault.kind() == ErrorKind::Interrupted => Ok(0),
        Err(_) => Err(LinesFault::Write),
    }
}

/// Writes all of the bytes, as std's `write_all` does: a write that was interrupted is tried again.
pub fn write_whole<W: Write>(output: &mut W, bytes: &[u8]) -> Result<(), LinesFault>
    ensures ok { OnOk result (Appends (W.contents output.old) (W.contents output.new) bytes.now) }
    ensures err { OnErr result
        (WritesPart (W.contents output.old) (W.contents output.new) bytes.now) }
    ensures fault { IfErr result (λ fault. fault ≡ LinesFault.Write) }
{
    let mut rest = bytes;
    for _ in 0..u64::MAX {
        if rest.is_empty() {
            return Ok(());
        }
        let count = write_some(output, rest)?;
        let (_, after) = rest.split_at(count);
        rest = after;
    }
    Err(LinesFault::Write)
}
