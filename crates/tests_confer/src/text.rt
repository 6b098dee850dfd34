//! What no clause says: that a writer which takes nothing is not asked for ever, and the texts of faults.

use confer_text::{LinesFault, write_whole};
use std::alloc::Global;
use std::io;
use std::io::Write;
use std::process::Abort;

/// Takes nothing at first, and then all that it is given.
#[derive(Drop)]
struct Late {
    is_asked: bool,
}

impl Write for Late {
    fn write(&mut self, buf: &[u8]) -> io::Result<usize> {
        let count = if self.is_asked { buf.len() } else { 0 };
        self.is_asked = true;
        Ok(count)
    }

    fn flush(&mut self) -> io::Result<()> {
        Ok(())
    }
}

#[test]
fn a_writer_that_takes_nothing_is_a_fault(rt: HostRuntime) {
    let mut output = Late { is_asked: false };
    assert_eq!(&rt; write_whole(&mut output, b"hi"), Err(LinesFault::Write));
}

fn has_text(rt: &impl Abort, alloc: Global, fault: LinesFault, text: &str) {
    let said = fault.to_string(alloc).expect(rt, "there is memory");
    let is_said = said.as_str() == text;
    drop(said);
    assert!(rt; is_said, "{text}");
}

#[test]
fn faults_have_their_texts(rt: HostRuntime) {
    let alloc = rt.alloc();
    has_text(&rt, alloc, LinesFault::Read, "read fault");
    has_text(&rt, alloc, LinesFault::Write, "write fault");
    has_text(&rt, alloc, LinesFault::TooLong, "input too long");
    has_text(&rt, alloc, LinesFault::NoMemory, "out of memory");
}
