//! Hellos from outside, and what is said of them.

ghost use Rattle.std.specs.Prelude.{◌≡◌};

use cb_peers::{Disagreement, HELLO_LENGTH, Hello, Terms};
use std::process::Abort;
use std::test::*;

const TERMS: Terms = Terms {
    group: 258,
    size: 3,
    window: 4,
};

const CALL: Hello = Hello {
    from: 1,
    to: 2,
    terms: TERMS,
};

const TEXT: &[u8] =
    b"jolunza\x01\x00\x00\x00\x01\x00\x00\x00\x02\x00\x00\x01\x02\x00\x00\x00\x03\x00\x00\x00\x04";

#[test]
fn a_hello_is_written_and_read(rt: HostRuntime) {
    let text = CALL.text(rt.alloc()).expect(&rt, "memory");
    assert_eq!(&rt; text.len(), HELLO_LENGTH);
    assert!(&rt; text.as_slice() == TEXT);
    assert!(&rt; Hello::read(TEXT) == Ok(CALL));
}

/// What is read of bytes that are no hello of this version.
fn is_refused(rt: &impl Abort, text: &[u8], why: Disagreement) {
    assert!(rt; Hello::read(text) == Err(why));
}

#[test]
fn what_is_no_hello_is_named(rt: HostRuntime) {
    is_refused(
        &rt,
        b"GET / HTTP/1.1\r\nHost: a\r\n\r\n",
        Disagreement::NotOurs,
    );
    is_refused(&rt, &TEXT[..27], Disagreement::NotOurs);
    is_refused(&rt, b"", Disagreement::NotOurs);
    is_refused(&rt, b"jolunza", Disagreement::NotOurs);
    is_refused(&rt, b"jolunza\x02and so on", Disagreement::Version);
}

#[test]
fn each_disagreement_is_named(rt: HostRuntime) {
    let answer = CALL.answer(2, TERMS);
    assert!(&rt; CALL.disagreement(answer) == None);
    let group = CALL.answer(
        2,
        Terms {
            group: 259,
            ..TERMS
        },
    );
    assert!(&rt; CALL.disagreement(group) == Some(Disagreement::Group));
    let size = CALL.answer(2, Terms { size: 4, ..TERMS });
    assert!(&rt; CALL.disagreement(size) == Some(Disagreement::Size));
    let window = CALL.answer(2, Terms { window: 5, ..TERMS });
    assert!(&rt; CALL.disagreement(window) == Some(Disagreement::Window));
    assert!(&rt; CALL.disagreement(CALL.answer(0, TERMS)) == Some(Disagreement::Member));
}
