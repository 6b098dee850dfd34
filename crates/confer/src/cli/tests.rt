//! What the words order, and how a run ends.

mod conferences;
mod rows;
mod traces;

use crate::cli::{Fault, report};
use crate::harness::{Endless, Outcome, run_on, run_whole};
use confer_audit::TraceInputFault;
use confer_fakes::{reading, writing};
use confer_play::ScriptFault;
use confer_run::{RunFault, ThreadFault};
use confer_text::LinesFault;
use std::alloc::Global;
use std::io::ErrorKind;
use std::net::{Net, TcpListener, TcpStream};
use std::process::Abort;
use std::sync::Wait;
use std::thread::Threads;
use std::time::Clock;

/// What is said of words that are no command: nothing is read and nothing is printed.
fn says<H: Threads + Wait + Clock + Net<Listener = TcpListener, Stream = TcpStream> + Abort + Sync>(
    rt: &H,
    alloc: Global,
    words: &[&str],
    part: &str,
) {
    let mut input = reading(b"1107000100026869\n");
    let outcome = run_whole(rt, alloc, words, &mut input, writing(alloc));
    let unread = input.text.len();
    drop(input);
    is_reported(rt, outcome, part);
    assert_eq!(rt; unread, 17);
}

fn is_reported(rt: &impl Abort, outcome: Outcome, part: &str) {
    let status = outcome.status;
    let is_printed = !outcome.printed.is_empty();
    has_part(rt, &outcome.said, part);
    // A call of `drop` takes the prover less time than a value that is left to the end.
    drop(outcome);
    assert_eq!(rt; status, Some(2));
    assert!(rt; !is_printed);
}

fn has_part(rt: &impl Abort, bytes: &[u8], part: &str) {
    let said = str::from_utf8(bytes).unwrap_or("no text");
    if !said.contains(part) {
        panic!(rt; "{said}");
    }
}

/// Words that are no command, and a part of what is said of them.
const NO_COMMANDS: &[(&[&str], &str)] = &[
    (&["confer"], "Usage: confer"),
    (&["confer", "--help"], "Usage: confer"),
    (&["confer", "--help"], "Exit status: 0 all was done"),
    (&["confer", "expand", "--help"], "--group <G>"),
    (
        &["confer", "expand", "--help"],
        "Reads cast frames of one group",
    ),
    (&["confer", "juggle"], "juggle"),
    (&["confer", "expand", "--size", "3"], "--group <G>"),
    (&["confer", "expand", "--group", "7"], "--size <N>"),
    (&["confer", "expand", "--group", "7", "--size", "1"], "'1'"),
    (
        &["confer", "expand", "--group", "7", "--size", "65"],
        "'65'",
    ),
    (
        &["confer", "expand", "--group", "4294967296", "--size", "3"],
        "4294967296",
    ),
    (&["confer", "expand", "--group", "-1", "--size", "3"], "-1"),
    (
        &[
            "confer", "expand", "--group", "7", "--size", "3", "--group", "7",
        ],
        "cannot be used multiple times",
    ),
    (&["confer", "audit", "--help"], "Usage: confer audit"),
    (
        &["confer", "audit", "--help"],
        "Reads the trace of a group's histories",
    ),
    (&["confer", "audit", "more"], "more"),
    (&["confer", "play", "--help"], "Usage: confer play"),
    (
        &["confer", "play", "--help"],
        "Reads a script from standard input",
    ),
    (&["confer", "play", "more"], "more"),
    (
        &["confer", "expand", "--group", "7", "--size", "3", "more"],
        "more",
    ),
];

/// A function, since a constant would be looked through in the proof of the loop.
fn no_commands() -> &'static [(&'static [&'static str], &'static str)] {
    NO_COMMANDS
}

#[test]
fn words_that_are_no_command_end_with_status_two(rt: HostRuntime) {
    for (words, part) in no_commands() {
        says(&rt, rt.alloc(), words, part);
    }
}

/// Options of `run` that are refused, and a part of what is said of them.
const RUN_OPTIONS: &[(&str, &str)] = &[
    ("--size=1", "'1'"),
    ("--size=9", "'9'"),
    ("--window=0", "'0'"),
    ("--window=257", "'257'"),
    ("--questions=0", "'0'"),
    ("--questions=101", "'101'"),
    ("--turns=0", "'0'"),
    ("--turns=10000001", "'10000001'"),
    ("--link=pipe", "[possible values: channel, udp, tcp]"),
    ("--trace=yes", "--trace"),
    ("--help", "--questions <Q>"),
    (
        "--help",
        "Runs a conference in which each member is a thread",
    ),
    ("more", "more"),
];

/// A function, since a constant would be looked through in the proof of the loop.
fn run_options() -> &'static [(&'static str, &'static str)] {
    RUN_OPTIONS
}

#[test]
fn options_of_run_that_are_none_end_with_status_two(rt: HostRuntime) {
    for (option, part) in run_options() {
        says(&rt, rt.alloc(), &["confer", "run", option], part);
    }
}

/// A run of the program: its words and its input, and then its status, what is printed and what is said.
struct ProgramRun {
    words: &'static [&'static str],
    input: &'static str,
    status: u8,
    printed: &'static str,
    said: &'static str,
}

const EXPAND: &[&str] = &["confer", "expand", "--group", "7", "--size", "3"];

const PLAY: &[&str] = &["confer", "play"];

const AUDIT: &[&str] = &["confer", "audit"];

/// What is received to its end, and what is stopped by its input.
const RUNS: &[ProgramRun] = &[
    ProgramRun {
        words: EXPAND,
        input: "1107000100026869\n",
        status: 0,
        printed: "0.1 [1,0,0] \"hi\"\n",
        said: "",
    },
    ProgramRun {
        words: EXPAND,
        input: "12070200\n",
        status: 1,
        printed: "refused NotACast\n",
        said: "",
    },
    ProgramRun {
        words: PLAY,
        input: "group 7 size 2 window 4 history 100\nsay 0 main hi\nscreen 0\n",
        status: 0,
        printed: "1 cast 0.1 [1,0]
 > 0 all 11070001000801046d61696e6869
2 screen 0
 | [main] 0.1 hi
member 0 time [1,0] stable 0 entries 1
member 1 time [0,0] stable 0 entries 0
",
        said: "",
    },
    ProgramRun {
        words: PLAY,
        input: "group 7 size 2 window 4 history 100\ntock 0\n",
        status: 4,
        printed: "",
        said: "confer: line 2: bad step\n",
    },
    ProgramRun {
        words: AUDIT,
        input: "cbcast 1 group 0 size 2 window 1\nmember 0 entries 0\nmember 1 entries 0\nend\n",
        status: 0,
        printed: "group 0 size 2 window 1 history 1\n",
        said: "",
    },
    ProgramRun {
        words: AUDIT,
        input: "cbcast 1 group 0 size 2 window 1\nmember 0 entries 0\nend\n",
        status: 1,
        printed: "no WrongMember\n",
        said: "",
    },
    ProgramRun {
        words: AUDIT,
        input: "cbcast 1 group 0 size 2 window 1\nend\n",
        status: 4,
        printed: "",
        said: "confer: line 2: bad trace\n",
    },
];

/// A function, since a constant would be looked through in the proof of the loop.
fn runs() -> &'static [ProgramRun] {
    RUNS
}

#[test]
fn each_command_ends_with_its_status_and_says_its_faults_apart(rt: HostRuntime) {
    for run in runs() {
        ends_so(&rt, rt.alloc(), run);
    }
}

fn ends_so<
    H: Threads + Wait + Clock + Net<Listener = TcpListener, Stream = TcpStream> + Abort + Sync,
>(rt: &H, alloc: Global, run: &ProgramRun) {
    let mut input = reading(run.input.as_bytes());
    let outcome = run_whole(rt, alloc, run.words, &mut input, writing(alloc));
    drop(input);
    outcome.is(rt, run.status, run.printed.as_bytes(), run.said);
}

/// A function, since a constant would be looked through in the proof of the loop.
fn commands() -> &'static [&'static [&'static str]] {
    &[EXPAND, PLAY, AUDIT]
}

#[test]
fn a_failing_stream_is_said_on_standard_error(rt: HostRuntime) {
    for words in commands() {
        fails_to_read(&rt, rt.alloc(), words);
    }
    for run in runs() {
        fails_to_write(&rt, rt.alloc(), run);
    }
}

fn fails_to_read<
    H: Threads + Wait + Clock + Net<Listener = TcpListener, Stream = TcpStream> + Abort + Sync,
>(rt: &H, alloc: Global, words: &[&str]) {
    let mut input = reading(b"11");
    input.good = 1;
    input.fault = ErrorKind::OutOfMemory;
    let outcome = run_whole(rt, alloc, words, &mut input, writing(alloc));
    drop(input);
    outcome.is(rt, 3, b"", "confer: read fault\n");
}

/// The writer takes three bytes and then no more: those stay, where anything is printed.
fn fails_to_write<
    H: Threads + Wait + Clock + Net<Listener = TcpListener, Stream = TcpStream> + Abort + Sync,
>(rt: &H, alloc: Global, run: &ProgramRun) {
    let Some(first) = run.printed.as_bytes().get(..3) else {
        return;
    };
    let mut output = writing(alloc);
    output.good = 1;
    let mut input = reading(run.input.as_bytes());
    let outcome = run_whole(rt, alloc, run.words, &mut input, output);
    drop(input);
    outcome.is(rt, 3, first, "confer: write fault\n");
}

#[test]
fn an_input_without_end_fails(rt: HostRuntime) {
    let output = writing(rt.alloc());
    let outcome = run_whole(&rt, rt.alloc(), PLAY, &mut Endless, output);
    outcome.is(&rt, 3, b"", "confer: input too long\n");
}

/// Words that order an expansion: the frame in group 7 is accepted.
fn takes(rt: &impl Abort, alloc: Global, words: &[&str]) {
    let mut input = reading(b"1107000100026869\n");
    run_on(alloc, words, &mut input).is(rt, 0, b"0.1 [1,0,0] \"hi\"\n", "");
}

#[test]
fn a_sign_and_zeros_before_a_number_do_no_harm(rt: HostRuntime) {
    let alloc = rt.alloc();
    takes(&rt, alloc, &["confer", "expand", "--size=3", "--group=7"]);
    takes(
        &rt,
        alloc,
        &["confer", "expand", "--group", "+7", "--size", "3"],
    );
    takes(
        &rt,
        alloc,
        &["confer", "expand", "--group", "007", "--size", "003"],
    );
}

#[test]
fn the_greatest_group_and_size_are_taken(rt: HostRuntime) {
    let alloc = rt.alloc();
    let words = ["confer", "expand", "--group=4294967295", "--size=64"];
    let outcome = run_on(alloc, &words, &mut reading(b"11ffffffff0f3f010000\n"));
    begins_and_ends(&rt, outcome, b"63.1 [0,0,", b",0,1] \"\"\n");
}

fn begins_and_ends(rt: &impl Abort, outcome: Outcome, first: &[u8], last: &[u8]) {
    let begins = outcome.printed.starts_with(first);
    let ends = outcome.printed.ends_with(last);
    let is_said = !outcome.said.is_empty();
    let status = outcome.status;
    drop(outcome);
    assert!(rt; begins);
    assert!(rt; ends);
    assert!(rt; !is_said);
    assert_eq!(rt; status, Some(0));
}

/// The fault ends a run with this status, and this is said of it, which is its text behind the program's name.
fn reports(rt: &impl Abort, alloc: Global, fault: Fault, status: u8, said: &str) {
    has_text(rt, alloc, &fault, said);
    let mut errors = writing(alloc);
    let reported = report(&fault, &mut errors);
    drop(fault);
    let outcome = Outcome {
        status: Some(reported),
        printed: Vec::new(alloc),
        said: errors.text,
    };
    outcome.is(rt, status, b"", said);
}

fn has_text(rt: &impl Abort, alloc: Global, fault: &Fault, said: &str) {
    let text = format!(in alloc; "confer: {fault}\n").expect(rt, "memory");
    let is_said = text.as_str() == said;
    drop(text);
    assert!(rt; is_said, "{said}");
}

fn reports_faults_of_words(rt: &impl Abort, alloc: Global) {
    let not_text = "confer: a word of the command line is not UTF-8\n";
    reports(rt, alloc, Fault::NotText, 2, not_text);
    let no_order = "confer: the words order nothing\n";
    reports(rt, alloc, Fault::NoOrder, 2, no_order);
    reports(rt, alloc, Fault::NoMemory, 5, "confer: out of memory\n");
}

fn reports_faults_of_lines(rt: &impl Abort, alloc: Global) {
    let read = LinesFault::Read;
    reports(rt, alloc, Fault::Lines(read), 3, "confer: read fault\n");
    let write = LinesFault::Write;
    reports(rt, alloc, Fault::Lines(write), 3, "confer: write fault\n");
    let long = LinesFault::TooLong;
    reports(rt, alloc, Fault::Lines(long), 3, "confer: input too long\n");
    let memory = LinesFault::NoMemory;
    reports(
        rt,
        alloc,
        Fault::Lines(memory),
        5,
        "confer: out of memory\n",
    );
}

fn reports_faults_of_inputs(rt: &impl Abort, alloc: Global) {
    let read = ScriptFault::Lines(LinesFault::Read);
    reports(rt, alloc, Fault::Play(read), 3, "confer: read fault\n");
    let memory = ScriptFault::Lines(LinesFault::NoMemory);
    reports(rt, alloc, Fault::Play(memory), 5, "confer: out of memory\n");
    let long = TraceInputFault::Lines(LinesFault::TooLong);
    reports(rt, alloc, Fault::Audit(long), 3, "confer: input too long\n");
}

fn reports_bad_lines(rt: &impl Abort, alloc: Global) {
    let trace = Fault::Audit(TraceInputFault::BadTrace { line: u64::MAX });
    let said = "confer: line 18446744073709551615: bad trace\n";
    reports(rt, alloc, trace, 4, said);
    let first = Fault::Play(ScriptFault::BadStep { line: 1 });
    reports(rt, alloc, first, 4, "confer: line 1: bad step\n");
    let last = Fault::Play(ScriptFault::BadStep { line: usize::MAX });
    let said = "confer: line 18446744073709551615: bad step\n";
    reports(rt, alloc, last, 4, said);
}

fn reports_faults_of_runs(rt: &impl Abort, alloc: Global) {
    let write = RunFault::Write;
    reports(rt, alloc, Fault::Run(write), 3, "confer: write fault\n");
    reports_fault_of_threads(rt, alloc, ThreadFault::NoLink, 3, "confer: no link\n");
    reports_fault_of_threads(rt, alloc, ThreadFault::NoThread, 3, "confer: no thread\n");
    let said = "confer: bad receipts\n";
    reports_fault_of_threads(rt, alloc, ThreadFault::BadReceipts, 3, said);
    let said = "confer: out of memory\n";
    reports_fault_of_threads(rt, alloc, ThreadFault::NoMemory, 5, said);
}

fn reports_fault_of_threads(
    rt: &impl Abort,
    alloc: Global,
    fault: ThreadFault,
    status: u8,
    said: &str,
) {
    reports(
        rt,
        alloc,
        Fault::Run(RunFault::Threads(fault)),
        status,
        said,
    );
}

#[test]
fn each_fault_has_its_status_and_text(rt: HostRuntime) {
    reports_faults_of_words(&rt, rt.alloc());
    reports_faults_of_lines(&rt, rt.alloc());
    reports_faults_of_inputs(&rt, rt.alloc());
    reports_bad_lines(&rt, rt.alloc());
    reports_faults_of_runs(&rt, rt.alloc());
}
