//! Conferences in threads, by the program's words.

use crate::cli::{run_plain, run_words};
use confer_fakes::{is_report, reading, writing};
use std::alloc::Global;
use std::net::{Net, TcpListener, TcpStream};
use std::process::Abort;
use std::sync::Wait;
use std::thread::Threads;
use std::time::Clock;

/// What the words print, which end with status 0.
fn printed<
    R: Threads + Wait + Clock + Net<Listener = TcpListener, Stream = TcpStream> + Abort + Sync,
>(rt: &R, alloc: Global, words: &[&str]) -> String {
    let mut output = writing(alloc);
    let mut errors = writing(alloc);
    let mut input = reading(b"not read");
    let status = run_words(rt, alloc, words, &mut input, &mut output, &mut errors);
    let unread = input.text.len();
    let is_said = !errors.text.is_empty();
    // A call of `drop` takes the prover less time than a value that is left to the end.
    drop(input);
    drop(errors);
    is_done(rt, status, is_said, unread);
    text_in(rt, output.text)
}

/// The run ended with status 0, said nothing and read nothing.
fn is_done(rt: &impl Abort, status: u8, is_said: bool, unread: usize) {
    assert_eq!(rt; status, 0);
    assert!(rt; !is_said);
    assert!(rt; unread == 8);
}

fn text_in(rt: &impl Abort, bytes: Vec<u8>) -> String {
    let Ok(text) = String::from_utf8(bytes) else {
        panic!(rt; "the text is not UTF-8");
    };
    text
}

/// The words print the lines of so many members, each of which says this.
fn tells<
    R: Threads + Wait + Clock + Net<Listener = TcpListener, Stream = TcpStream> + Abort + Sync,
>(rt: &R, alloc: Global, words: &[&str], members: usize, part: &str) {
    let text = printed(rt, alloc, words);
    assert!(rt; is_report(alloc, &text, members, part), "{text}");
    drop(text);
}

#[test]
fn a_conference_over_channels_ends_with_all_cast_and_delivered(rt: HostRuntime) {
    let words = ["confer", "run", "--size", "3", "--questions", "2"];
    tells(&rt, rt.alloc(), &words, 3, "casts 2 deliveries 4");
}

#[test]
fn a_conference_over_udp_ends_with_all_cast_and_delivered(rt: HostRuntime) {
    let words = [
        "confer",
        "run",
        "--size",
        "3",
        "--questions",
        "2",
        "--link",
        "udp",
    ];
    tells(&rt, rt.alloc(), &words, 3, "casts 2 deliveries 4");
}

#[test]
fn a_conference_over_tcp_ends_with_all_cast_and_delivered(rt: HostRuntime) {
    let words = [
        "confer",
        "run",
        "--size",
        "3",
        "--questions",
        "2",
        "--link",
        "tcp",
    ];
    tells(&rt, rt.alloc(), &words, 3, "casts 2 deliveries 4");
}

#[test]
fn three_members_ask_three_questions_where_nothing_is_said(rt: HostRuntime) {
    let part = "casts 3 deliveries 6";
    tells(&rt, rt.alloc(), &["confer", "run"], 3, part);
    let words = [
        "confer",
        "run",
        "--link=channel",
        "--turns=1000000",
        "--window=4",
    ];
    tells(&rt, rt.alloc(), &words, 3, part);
}

#[test]
fn without_threads_nothing_is_done(rt: HostRuntime) {
    let alloc = rt.alloc();
    let mut output = writing(alloc);
    let mut errors = writing(alloc);
    let mut input = reading(b"not read");
    let words = ["confer", "run", "--size", "3"];
    let status = run_plain(alloc, &words, &mut input, &mut output, &mut errors);
    let unread = input.text.len();
    let is_silent = output.text.is_empty() && errors.text.is_empty();
    drop(input);
    drop(output);
    drop(errors);
    assert_eq!(rt; status, None);
    assert!(rt; is_silent);
    assert_eq!(rt; unread, 8);
}
