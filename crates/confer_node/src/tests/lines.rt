//! How what was read is cut.

use crate::lines::{LONGEST_LINE, Lines};
use std::alloc::Global;
use std::process::Abort;

/// The next line is this.
fn gives(rt: &impl Abort, lines: &mut Lines, wanted: &str) {
    match lines.next() {
        Ok(Some(line)) => {
            let is_it = line.as_slice() == wanted.as_bytes();
            drop(line);
            assert!(rt; is_it, "another line than {wanted}");
        }
        _ => panic!(rt; "no line"),
    }
}

/// The next line has so many bytes.
fn gives_long(rt: &impl Abort, lines: &mut Lines, bytes: usize) {
    match lines.next() {
        Ok(Some(line)) => {
            let count = line.len();
            drop(line);
            assert_eq!(rt; count, bytes);
        }
        _ => panic!(rt; "no line"),
    }
}

fn has_none(rt: &impl Abort, lines: &mut Lines) {
    assert!(rt; matches!(lines.next(), Ok(None)));
}

fn holding(rt: &impl Abort, alloc: Global, text: &[u8]) -> Lines {
    let mut lines = Lines::new(alloc);
    lines.append(text).expect(rt, "memory");
    lines
}

#[test]
fn lines_come_whole_whatever_the_pieces(rt: HostRuntime) {
    let mut lines = holding(&rt, rt.alloc(), b"on");
    has_none(&rt, &mut lines);
    lines.append(b"e\n\nthr").expect(&rt, "memory");
    gives(&rt, &mut lines, "one");
    gives(&rt, &mut lines, "");
    has_none(&rt, &mut lines);
    lines.append(b"ee\n").expect(&rt, "memory");
    gives(&rt, &mut lines, "three");
    has_none(&rt, &mut lines);
}

#[test]
fn the_last_line_needs_no_line_feed(rt: HostRuntime) {
    let mut lines = holding(&rt, rt.alloc(), b"one\ntwo");
    lines.end().expect(&rt, "memory");
    gives(&rt, &mut lines, "one");
    gives(&rt, &mut lines, "two");
    has_none(&rt, &mut lines);
    lines.end().expect(&rt, "memory");
    has_none(&rt, &mut lines);
}

/// Its pieces are looked at before it is whole, and dropped but for what says that it is too long.
#[test]
fn a_line_that_is_too_long_in_pieces_is_one(rt: HostRuntime) {
    let text = vec![in rt.alloc(); b'x'; 700].expect(&rt, "memory");
    let mut lines = Lines::new(rt.alloc());
    for _piece in 0..4u32 {
        lines.append(&text).expect(&rt, "memory");
        has_none(&rt, &mut lines);
    }
    lines.append(b"\nnext\n").expect(&rt, "memory");
    gives_long(&rt, &mut lines, LONGEST_LINE + 1);
    gives(&rt, &mut lines, "next");
    has_none(&rt, &mut lines);
}
