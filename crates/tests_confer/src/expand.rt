//! What is written for which input.

use confer_expand::expand_lines;
use confer_fakes::{Outcome, Sink, reading, writing};
use confer_text::LinesFault;
use std::alloc::Global;
use std::io;
use std::io::{ErrorKind, Read, Write};
use std::process::Abort;

const HI: &str = "1107000100026869";

const YO: &str = "1107010101000102796f";

const OK: &str = "1107010200026f6b";

/// What becomes of this input in group 7 of three members, written to this writer.
fn run_into<R: Read>(alloc: Global, input: &mut R, mut output: Sink) -> Outcome<LinesFault> {
    let ended = expand_lines(alloc, 7, 3, input, &mut output);
    Outcome {
        ended,
        printed: output.text,
    }
}

/// The expansion ended so and wrote this. A call of `drop` takes the prover less time than a value that is
/// left to the end.
fn is(
    rt: &impl Abort,
    alloc: Global,
    outcome: Outcome<LinesFault>,
    ended: Result<bool, &str>,
    printed: &[u8],
) {
    let is_so = outcome.is(alloc, ended, printed);
    drop(outcome);
    assert!(rt; is_so, "{}", str::from_utf8(printed).unwrap_or("no text"));
}

/// The lines are expanded to this text, and one of them is refused or none.
fn expands(rt: &impl Abort, alloc: Global, lines: &[u8], refused: bool, text: &str) {
    let outcome = run_into(alloc, &mut reading(lines), writing(alloc));
    is(rt, alloc, outcome, Ok(refused), text.as_bytes());
}

/// Expands lines that were made for the test.
fn expands_made(rt: &impl Abort, alloc: Global, lines: String, refused: bool, text: &str) {
    expands(rt, alloc, lines.as_bytes(), refused, text);
    drop(lines);
}

/// These parts, one behind the other. It takes the prover less time than `format!`.
fn joined(rt: &impl Abort, alloc: Global, parts: &[&str]) -> String {
    parts.concat(alloc).expect(rt, "memory")
}

#[test]
fn casts_in_order_have_their_times(rt: HostRuntime) {
    let lines = joined(&rt, rt.alloc(), &[HI, "\n", YO, "\n", OK, "\n"]);
    let text = "0.1 [1,0,0] \"hi\"\n1.1 [1,1,0] \"yo\"\n1.2 [1,2,0] \"ok\"\n";
    expands_made(&rt, rt.alloc(), lines, false, text);
}

#[test]
fn a_cast_out_of_its_senders_order_is_refused(rt: HostRuntime) {
    let lines = joined(&rt, rt.alloc(), &[HI, "\n", OK, "\n", YO, "\n"]);
    let text = "0.1 [1,0,0] \"hi\"\nrefused NotNext expected 1 found 2\n1.1 [1,1,0] \"yo\"\n";
    expands_made(&rt, rt.alloc(), lines, true, text);
}

/// Lines with bursts among them, and what is written of each.
const BURSTS: &[(&[u8], bool, &str)] = &[
    (
        b"21070001000202686902796f\n210701010100020201610162\n11070103000163\n",
        false,
        "0.1 [1,0,0] \"hi\"\n0.2 [2,0,0] \"yo\"\n1.1 [2,1,0] \"a\"\n1.2 [2,2,0] \"b\"\n1.3 [2,3,0] \"c\"\n",
    ),
    (
        b"21070001000202686902796f\n21070002000202686902796f\n21070003000101ff\n",
        true,
        "0.1 [1,0,0] \"hi\"\n0.2 [2,0,0] \"yo\"\nrefused NotNext expected 3 found 2\n0.3 [3,0,0] xff\n",
    ),
    (
        b"11070101000162\n210701010002000000\n21070002000100\n2107010200020000",
        true,
        "1.1 [0,1,0] \"b\"\nrefused Trailing\nrefused NotNext expected 1 found 2\n1.2 [0,2,0] \"\"\n1.3 [0,3,0] \"\"\n",
    ),
    (
        b"21070201010005020000\n2107020301010102016101620000\n210702030101010201610162",
        true,
        "2.1 [5,0,1] \"\"\n2.2 [5,0,2] \"\"\nrefused Trailing\n2.3 [5,1,3] \"a\"\n2.4 [5,1,4] \"b\"\n",
    ),
];

/// A function, since a constant would be looked through in the proof of the loop.
fn bursts() -> &'static [(&'static [u8], bool, &'static str)] {
    BURSTS
}

#[test]
fn a_burst_has_a_line_for_each_message_and_its_increments_count_once(rt: HostRuntime) {
    for (lines, refused, text) in bursts() {
        expands(&rt, rt.alloc(), lines, *refused, text);
    }
}

/// Lines, and what is written of each.
const NO_FRAMES: &[(&[u8], bool, &str)] = &[
    (b"", false, ""),
    (b"\n", true, "refused Short\n"),
    (b"1107000100026869\r\n", true, "refused BadHex\n"),
    (b"110700010002686\n", true, "refused BadHex\n"),
    (b"11 07\n", true, "refused BadHex\n"),
    (b"14\n", true, "refused UnknownKind\n"),
    (b"21\n", true, "refused Short\n"),
    (b"2107000100020268690279\n", true, "refused Short\n"),
    (b"210700010000\n", true, "refused EmptyBurst\n"),
    (b"210700010021\n", true, "refused BurstTooLong\n"),
    (b"2107000100028008\n", true, "refused Short\n"),
    (b"2107000100028108\n", true, "refused PayloadTooLong\n"),
    (b"210700010001016162\n", true, "refused Trailing\n"),
    (b"2108000100010161\n", true, "refused OtherGroup\n"),
    (b"2107030100010161\n", true, "refused BadMember\n"),
    (b"21070001010301010161\n", true, "refused BadMember\n"),
    (
        b"2107000200010161\n",
        true,
        "refused NotNext expected 1 found 2\n",
    ),
    (
        b"210700ffffffff0f00010161\n",
        true,
        "refused NotNext expected 1 found 4294967295\n",
    ),
    (
        b"210700ffffffff0f000201610162\n",
        true,
        "refused BurstTooLong\n",
    ),
    (b"120702\n", true, "refused Short\n"),
    (b"1307020000\n", true, "refused BadRange\n"),
    (b"12070200\n", true, "refused NotACast\n"),
    (b"12080200\n", true, "refused NotACast\n"),
    (b"13070200010101\n", true, "refused NotACast\n"),
    (b"230702010000\n", true, "refused BadRange\n"),
    (b"23070201000101\n", true, "refused Short\n"),
    (b"2307020100010001\n", true, "refused NotACast\n"),
    (b"2308020202010001\n", true, "refused NotACast\n"),
    (b"1108000100026869\n", true, "refused OtherGroup\n"),
    (b"1106000100026869\n", true, "refused OtherGroup\n"),
    (b"1107030100026869\n", true, "refused BadMember\n"),
    (b"11070001000268696a\n", true, "refused Trailing\n"),
];

/// A function, since a constant would be looked through in the proof of the loop.
fn no_frames() -> &'static [(&'static [u8], bool, &'static str)] {
    NO_FRAMES
}

#[test]
fn lines_that_are_no_frames_are_refused_by_name(rt: HostRuntime) {
    for (line, refused, text) in no_frames() {
        expands(&rt, rt.alloc(), line, *refused, text);
    }
}

#[test]
fn digits_in_upper_case_and_an_unended_last_line_are_read(rt: HostRuntime) {
    let alloc = rt.alloc();
    expands(
        &rt,
        alloc,
        b"1107010101000102796F",
        false,
        "1.1 [1,1,0] \"yo\"\n",
    );
    expands(&rt, alloc, b"11070001000268", true, "refused Short\n");
}

#[test]
fn payloads_that_are_not_plain_are_in_hexadecimal(rt: HostRuntime) {
    let alloc = rt.alloc();
    expands(&rt, alloc, b"11070001000122\n", false, "0.1 [1,0,0] x22\n");
    expands(&rt, alloc, b"1107000100015c\n", false, "0.1 [1,0,0] x5c\n");
    expands(
        &rt,
        alloc,
        b"110700010003207e41\n",
        false,
        "0.1 [1,0,0] \" ~A\"\n",
    );
    expands(
        &rt,
        alloc,
        b"1107000100021f7f\n",
        false,
        "0.1 [1,0,0] x1f7f\n",
    );
    expands(&rt, alloc, b"110700010000\n", false, "0.1 [1,0,0] \"\"\n");
}

/// What is written of an empty line and of `00`.
const REFUSED: &[u8] = b"refused Short\nrefused UnknownKind\n";

/// The second read fails.
fn fails_to_read(rt: &impl Abort, alloc: Global, fault: ErrorKind) {
    let mut input = reading(b"\n00\n00\n");
    input.most = 4;
    input.good = 1;
    input.fault = fault;
    let outcome = run_into(alloc, &mut input, writing(alloc));
    is(rt, alloc, outcome, Err("read fault"), REFUSED);
}

#[test]
fn a_failing_read_keeps_what_was_answered(rt: HostRuntime) {
    fails_to_read(&rt, rt.alloc(), ErrorKind::BrokenPipe);
    fails_to_read(&rt, rt.alloc(), ErrorKind::Interrupted);
}

/// The write after so many good ones fails: what was written stays.
fn keeps(rt: &impl Abort, alloc: Global, good: usize) {
    let mut output = writing(alloc);
    output.good = good;
    let outcome = run_into(alloc, &mut reading(b"\n00\n"), output);
    let written = good.saturating_mul(3).min(REFUSED.len());
    is(rt, alloc, outcome, Err("write fault"), &REFUSED[..written]);
}

#[test]
fn each_write_failing_in_turn_keeps_what_was_written(rt: HostRuntime) {
    for good in 0..12 {
        keeps(&rt, rt.alloc(), good);
    }
}

#[test]
fn an_interrupted_write_is_tried_again(rt: HostRuntime) {
    let mut output = writing(rt.alloc());
    output.interrupted = 2;
    let outcome = run_into(rt.alloc(), &mut reading(b"\n00\n"), output);
    is(&rt, rt.alloc(), outcome, Ok(true), REFUSED);
}

/// Line feeds around the end of the longest input.
const FEEDS: [usize; 4] = [67_108_854, 67_108_861, 67_108_866, 67_108_869];

/// Letters up to a place in reads that end within lines, with four line feeds in each and those around the
/// end of the longest input.
#[derive(Drop)]
struct Letters {
    place: usize,
    end: usize,
}

impl Read for Letters {
    fn read(&mut self, buf: &mut [u8]) -> io::Result<usize> {
        let left = self.end.saturating_sub(self.place);
        let count = left.min(buf.len()).min(60_001);
        buf[..count].fill(b'g');
        for turn in 0..4 {
            let feed = 16_383 - self.place % 16_384 + turn * 16_384;
            if feed < count {
                buf[feed] = b'\n';
            }
        }
        for feed in FEEDS {
            let place = feed.wrapping_sub(self.place);
            if place < count {
                buf[place] = b'\n';
            }
        }
        self.place = self.place.saturating_add(count);
        Ok(count)
    }
}

/// Counts what it is given.
#[derive(Drop)]
struct Counter {
    count: usize,
}

impl Write for Counter {
    fn write(&mut self, buf: &[u8]) -> io::Result<usize> {
        self.count = self.count.saturating_add(buf.len());
        Ok(buf.len())
    }

    fn flush(&mut self) -> io::Result<()> {
        Ok(())
    }
}

/// So many bytes are answered so, and each whole line within the limit is.
fn answers_letters(rt: &impl Abort, alloc: Global, end: usize, answered: Result<bool, LinesFault>) {
    let mut output = Counter { count: 0 };
    let mut input = Letters { place: 0, end };
    let answer = expand_lines(alloc, 7, 3, &mut input, &mut output);
    let count = output.count;
    drop(input);
    drop(output);
    assert_eq!(rt; answer, answered);
    assert!(rt; count == 4_098 * 15, "of {end} bytes");
}

#[test]
fn the_longest_input_is_read_and_of_a_longer_one_each_line_within_the_limit(rt: HostRuntime) {
    answers_letters(&rt, rt.alloc(), 67_108_864, Ok(true));
    answers_letters(&rt, rt.alloc(), 67_108_890, Err(LinesFault::TooLong));
}

/// A cast or a burst by the last of 64 members with the greatest numbers, which carries this.
fn longest_frame(rt: &impl Abort, alloc: Global, kind: &str, carried: String) -> String {
    let times = "00ffffffff0f".repeat(alloc, 63).expect(rt, "memory");
    let parts = [kind, "ffffffff0f3f013f", times.as_str(), carried.as_str()];
    let frame = joined(rt, alloc, &parts);
    drop(times);
    drop(carried);
    frame
}

/// What is written of a frame of the greatest group, which is accepted.
fn written(rt: &impl Abort, alloc: Global, frame: String) -> Vec<u8> {
    let mut input = reading(frame.as_bytes());
    let mut output = writing(alloc);
    input.most = 4096;
    let answer = expand_lines(alloc, 4_294_967_295, 64, &mut input, &mut output);
    drop(input);
    drop(frame);
    let text = output.text;
    assert_eq!(rt; answer, Ok(false));
    text
}

/// The answer to the frame begins with its first name and its time, and ends with its last payload.
fn is_whole(rt: &impl Abort, alloc: Global, frame: String, length: usize) {
    let text = written(rt, alloc, frame);
    let begins = text.starts_with(b"63.1 [4294967295,");
    let ends = text.ends_with(b"ff\n");
    let count = text.len();
    drop(text);
    assert!(rt; begins && ends && count == length, "{count}");
}

#[test]
fn the_longest_answers_are_whole(rt: HostRuntime) {
    let alloc = rt.alloc();
    let payload = "ff".repeat(alloc, 1024).expect(&rt, "memory");
    let carried = joined(&rt, alloc, &["8008", payload.as_str()]);
    drop(payload);
    let frame = longest_frame(&rt, alloc, "11", carried);
    is_whole(
        &rt,
        alloc,
        frame,
        4 + 1 + 1 + 63 * 11 + 1 + 1 + 1 + 1 + 2048 + 1,
    );
}

#[test]
fn a_burst_of_32_messages_has_32_whole_lines(rt: HostRuntime) {
    let alloc = rt.alloc();
    let payload = "ff".repeat(alloc, 32).expect(&rt, "memory");
    let one = joined(&rt, alloc, &["20", payload.as_str()]);
    drop(payload);
    let all = one.repeat(alloc, 32).expect(&rt, "memory");
    drop(one);
    let carried = joined(&rt, alloc, &["20", all.as_str()]);
    drop(all);
    let frame = longest_frame(&rt, alloc, "21", carried);
    is_whole(
        &rt,
        alloc,
        frame,
        32 * (3 + 1 + 1 + 63 * 11 + 1 + 1 + 1 + 64 + 1) + 2 * 55,
    );
}
