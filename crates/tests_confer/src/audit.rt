//! What is printed of which trace, and what ends an audit.

use confer_audit::{TraceInputFault, audit_trace};
use confer_fakes::{Bulk, Outcome, Sink, reading, writing};
use std::alloc::Global;
use std::io::{ErrorKind, Read};
use std::process::Abort;

/// Member 0 casts "hi", member 1 answers "yo", and the answer comes first at member 2.
const WORKED: &str = "cbcast 1 group 7 size 3 window 4
member 0 entries 1
cast 1107000100026869
member 1 entries 2
arrive 1107000100026869 0.1
cast 1107010101000102796f
member 2 entries 2
arrive 1107010101000102796f -
arrive 1107000100026869 0.1 1.1
end
";

/// The script of its joint order.
const SCRIPT: &str = "group 7 size 3 window 4 history 2
cast 0 6869
arrive 1 0
cast 1 796f
arrive 2 1
arrive 2 0
";

/// Traces, whether the audit says no, and the whole text that they get.
const AUDITED: &[(&str, bool, &str)] = &[
    (WORKED, false, SCRIPT),
    // member 0 cast nothing, so the frame that member 1 got was never sent
    (
        "cbcast 1 group 7 size 3 window 4
member 0 entries 0
member 1 entries 2
arrive 1107000100026869 0.1
cast 1107010101000102796f
member 2 entries 2
arrive 1107010101000102796f -
arrive 1107000100026869 0.1 1.1
end
",
        true,
        "no Unsent member 1 entry 1\n",
    ),
    // member 2's entries, exchanged
    (
        "cbcast 1 group 7 size 3 window 4
member 0 entries 1
cast 1107000100026869
member 1 entries 2
arrive 1107000100026869 0.1
cast 1107010101000102796f
member 2 entries 2
arrive 1107000100026869 0.1 1.1
arrive 1107010101000102796f -
end
",
        true,
        "no WrongAnswer member 2 entry 1\n",
    ),
    // members 0 and 1 alone
    (
        "cbcast 1 group 7 size 3 window 4
member 0 entries 1
cast 1107000100026869
member 1 entries 2
arrive 1107000100026869 0.1
cast 1107010101000102796f
end
",
        true,
        "no WrongMember\n",
    ),
    // an empty payload, a tick, and bytes that are no text
    (
        "cbcast 1 group 4294967295 size 2 window 256
member 0 entries 3
tick 12ffffffff0f0000
cast 11ffffffff0f00010000
cast 11ffffffff0f00020002000a
member 1 entries 1
arrive 12ffffffff0f0000 -
end
",
        true,
        "no WrongAnswer member 1 entry 1\n",
    ),
    (
        "cbcast 1 group 4294967295 size 2 window 256
member 0 entries 3
tick 12ffffffff0f0000
cast 11ffffffff0f00010000
cast 11ffffffff0f00020002000a
member 1 entries 1
arrive 11ffffffff0f00020002000a -
end
",
        false,
        "group 4294967295 size 2 window 256 history 3\ntick 0\ncast 0 -\ncast 0 000a\narrive 1 2\n",
    ),
    // bursts of two messages, of one, and of an empty one between others
    (
        "cbcast 1 group 7 size 3 window 8
member 0 entries 2
cast 21070001000202686902796f
cast 21070003000102686f
member 1 entries 2
arrive 21070001000202686902796f 0.1 0.2
cast 21070101010002030161000162
member 2 entries 2
arrive 21070101010002030161000162 -
arrive 21070001000202686902796f 0.1 0.2 1.1 1.2 1.3
end
",
        false,
        "group 7 size 3 window 8 history 2
burst 0 6869 796f
burst 0 686f
arrive 1 0
burst 1 61 - 62
arrive 2 2
arrive 2 0
",
    ),
    (
        "cbcast 1 group 0 size 2 window 1\nmember 0 entries 0\nmember 1 entries 0\nend\n",
        false,
        "group 0 size 2 window 1 history 1\n",
    ),
];

/// A function, since a constant would be looked through in each proof that loops over it.
fn audited() -> &'static [(&'static str, bool, &'static str)] {
    AUDITED
}

/// What becomes of this input, with what is printed going to this writer.
fn run_into<R: Read>(alloc: Global, input: &mut R, mut output: Sink) -> Outcome<TraceInputFault> {
    let ended = audit_trace(alloc, input, &mut output);
    Outcome {
        ended,
        printed: output.text,
    }
}

/// It ended so and printed this. A call of `drop` takes the prover less time than a value that is left to the
/// end.
fn is(
    rt: &impl Abort,
    alloc: Global,
    outcome: Outcome<TraceInputFault>,
    ended: Result<bool, &str>,
    printed: &[u8],
) {
    let is_so = outcome.is(alloc, ended, printed);
    drop(outcome);
    assert!(rt; is_so, "{}", str::from_utf8(printed).unwrap_or("no text"));
}

#[test]
fn each_trace_gets_its_script_or_its_refusal(rt: HostRuntime) {
    for (trace, refused, text) in audited() {
        prints(&rt, rt.alloc(), trace, *refused, text);
    }
}

fn prints(rt: &impl Abort, alloc: Global, trace: &str, refused: bool, text: &str) {
    let outcome = run_into(alloc, &mut reading(trace.as_bytes()), writing(alloc));
    is(rt, alloc, outcome, Ok(refused), text.as_bytes());
}

/// Texts that are no trace, and their faults.
const BAD_TRACES: &[(&str, &str)] = &[
    ("", "line 1: bad trace"),
    ("\n", "line 1: bad trace"),
    ("cbcast 1 group 7 size 3 window 4", "line 1: bad trace"),
    ("cbcast 1 group 7 size 3 window 4\n", "line 2: bad trace"),
    (
        "cbcast 1 group 7 size 3 window 4\nend\n",
        "line 2: bad trace",
    ),
    (
        "cbcast 1 group 7 size 3 window 4\nmember 0 entries 1\nCast 00\nend\n",
        "line 3: bad trace",
    ),
    (
        "cbcast 1 group 7 size 3 window 4\nmember 0 entries 0\nend",
        "line 3: bad trace",
    ),
    (
        "cbcast 1 group 7 size 3 window 4\nmember 0 entries 0\nend\n\n",
        "line 4: bad trace",
    ),
];

fn bad_traces() -> &'static [(&'static str, &'static str)] {
    BAD_TRACES
}

/// Nothing is printed of the input, which stops the audit by this fault.
fn stops<R: Read>(rt: &impl Abort, alloc: Global, input: &mut R, fault: &str) {
    let outcome = run_into(alloc, input, writing(alloc));
    is(rt, alloc, outcome, Err(fault), b"");
}

#[test]
fn the_first_bad_line_of_a_trace_is_named(rt: HostRuntime) {
    for (text, fault) in bad_traces() {
        stops(&rt, rt.alloc(), &mut reading(text.as_bytes()), fault);
    }
}

/// The read after so many good ones fails.
fn fails_to_read(rt: &impl Abort, alloc: Global, good: usize, fault: ErrorKind) {
    let mut input = reading(b"no trace\n");
    input.good = good;
    input.fault = fault;
    stops(rt, alloc, &mut input, "read fault");
}

#[test]
fn a_failing_read_comes_before_a_bad_trace(rt: HostRuntime) {
    for good in 0..3 {
        fails_to_read(&rt, rt.alloc(), good, ErrorKind::BrokenPipe);
        fails_to_read(&rt, rt.alloc(), good, ErrorKind::Interrupted);
    }
}

/// The write after so many good ones fails: what was written stays.
fn keeps(rt: &impl Abort, alloc: Global, good: usize) {
    let mut output = writing(alloc);
    output.good = good;
    let outcome = run_into(alloc, &mut reading(WORKED.as_bytes()), output);
    let written = good.saturating_mul(3).min(SCRIPT.len());
    is(
        rt,
        alloc,
        outcome,
        Err("write fault"),
        &SCRIPT.as_bytes()[..written],
    );
}

#[test]
fn each_write_failing_in_turn_keeps_what_was_written(rt: HostRuntime) {
    for good in 0..30 {
        keeps(&rt, rt.alloc(), good);
    }
}

#[test]
fn a_trace_has_at_most_67108864_bytes(rt: HostRuntime) {
    let bad = "line 1: bad trace";
    stops(&rt, rt.alloc(), &mut Bulk { left: 67_108_864 }, bad);
    let long = "input too long";
    stops(&rt, rt.alloc(), &mut Bulk { left: 67_108_865 }, long);
}
