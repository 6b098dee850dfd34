//! Runs of the program in tests.

use crate::cli::{run_plain, run_words};
use confer_fakes::{Sink, writing};
use std::alloc::Global;
use std::io;
use std::io::Read;
use std::net::{Net, TcpListener, TcpStream};
use std::process::Abort;
use std::sync::Wait;
use std::thread::Threads;
use std::time::Clock;

/// What became of a run.
#[derive(Drop)]
pub struct Outcome {
    pub status: Option<u8>,
    pub printed: Vec<u8>,
    pub said: Vec<u8>,
}

impl Outcome {
    /// The run ended with this status, printed just these bytes and said just this.
    pub fn is(self, rt: &impl Abort, status: u8, printed: &[u8], said: &str) {
        self.compare(rt, status, printed, said);
        // A call of `drop` takes the prover less time than a value that is left to the end.
        drop(self);
    }

    fn compare(&self, rt: &impl Abort, status: u8, printed: &[u8], said: &str) {
        is_text(rt, &self.printed, printed);
        is_text(rt, &self.said, said.as_bytes());
        assert_eq!(rt; self.status, Some(status));
    }
}

/// The bytes are the ones wanted.
fn is_text(rt: &impl Abort, bytes: &[u8], wanted: &[u8]) {
    if bytes != wanted {
        let text = str::from_utf8(bytes).unwrap_or("no text");
        panic!(rt; "{text}");
    }
}

/// An input of `x` without end.
#[derive(Drop)]
pub struct Endless;

impl Read for Endless {
    fn read(&mut self, buf: &mut [u8]) -> io::Result<usize> {
        buf.fill(b'x');
        Ok(buf.len())
    }
}

/// Runs the words on this input.
pub fn run_on<R: Read>(alloc: Global, words: &[&str], input: &mut R) -> Outcome {
    run_into(alloc, words, input, writing(alloc))
}

/// Runs the words on this input, with what they print going to this writer.
pub fn run_into<R: Read>(
    alloc: Global,
    words: &[&str],
    input: &mut R,
    mut output: Sink,
) -> Outcome {
    let mut errors = writing(alloc);
    let status = run_plain(alloc, words, input, &mut output, &mut errors);
    Outcome {
        status,
        printed: output.text,
        said: errors.text,
    }
}

/// Runs the words on this input as the program does, with what they print going to this writer.
pub fn run_whole<
    H: Threads + Wait + Clock + Net<Listener = TcpListener, Stream = TcpStream> + Sync,
    R: Read,
>(rt: &H, alloc: Global, words: &[&str], input: &mut R, mut output: Sink) -> Outcome {
    let mut errors = writing(alloc);
    let status = run_words(rt, alloc, words, input, &mut output, &mut errors);
    Outcome {
        status: Some(status),
        printed: output.text,
        said: errors.text,
    }
}
