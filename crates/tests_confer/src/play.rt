//! What is printed of which script, and what ends a run.

mod many;
mod rooms;

use crate::schedules::{Schedule, parts};
use confer_fakes::{Bulk, Outcome, Sink, reading, writing};
use confer_play::{ScriptFault, play_script};
use std::alloc::{AllocError, Global};
use std::io::{ErrorKind, Read};
use std::process::Abort;

/// What becomes of this input, with what is printed going to this writer.
fn run_into<R: Read>(alloc: Global, input: &mut R, mut output: Sink) -> Outcome<ScriptFault> {
    let ended = play_script(alloc, input, &mut output).map(|()| false);
    Outcome {
        ended,
        printed: output.text,
    }
}

/// It ended so and printed this. A call of `drop` takes the prover less time than a value that is left to the
/// end.
fn is(
    rt: &impl Abort,
    alloc: Global,
    outcome: Outcome<ScriptFault>,
    ended: Result<bool, &str>,
    printed: &[u8],
) {
    let is_so = outcome.is(alloc, ended, printed);
    drop(outcome);
    assert!(rt; is_so, "{}", str::from_utf8(printed).unwrap_or("no text"));
}

/// `confer play` prints this text of the script.
fn prints(rt: &impl Abort, alloc: Global, script: &str, text: &str) {
    let outcome = run_into(alloc, &mut reading(script.as_bytes()), writing(alloc));
    is(rt, alloc, outcome, Ok(false), text.as_bytes());
}

/// These parts, one behind the other. It takes the prover less time than `format!`.
fn joined(rt: &impl Abort, alloc: Global, parts: &[&str]) -> String {
    parts.concat(alloc).expect(rt, "memory")
}

/// Plays a script that was made for the test. A call of `drop` takes the prover less time than a value that
/// is left to the end.
fn prints_made(rt: &impl Abort, alloc: Global, script: String, text: String) {
    prints(rt, alloc, &script, &text);
    drop(script);
    drop(text);
}

/// `confer play` prints nothing of this input, which stops it by this fault.
fn stops_by<R: Read>(rt: &impl Abort, alloc: Global, input: &mut R, fault: &str) {
    let outcome = run_into(alloc, input, writing(alloc));
    is(rt, alloc, outcome, Err(fault), b"");
}

/// A script with this fault.
fn stops(rt: &impl Abort, alloc: Global, script: &[u8], fault: &str) {
    stops_by(rt, alloc, &mut reading(script), fault);
}

/// A script that was made for the test has a bad step in this line.
fn stops_at(rt: &impl Abort, alloc: Global, script: String, line: &str) {
    let fault = joined(rt, alloc, &["line ", line, ": bad step"]);
    stops(rt, alloc, script.as_bytes(), &fault);
    drop(fault);
    drop(script);
}

fn print_their_texts(rt: &impl Abort, alloc: Global, schedules: &[Schedule]) {
    for schedule in schedules {
        prints(rt, alloc, schedule.script, schedule.text);
    }
}

#[test]
fn each_schedule_of_the_repository_prints_its_text(rt: HostRuntime) {
    for part in &parts() {
        print_their_texts(&rt, rt.alloc(), part);
    }
}

/// Of one step after the first line: what is printed of it.
fn answers(rt: &impl Abort, alloc: Global, first: &str, step: &str, answer: &str) {
    let script = joined(rt, alloc, &[first, "\n", step, "\n"]);
    let members =
        "\nmember 0 time [0,0] stable 0 entries 0\nmember 1 time [0,0] stable 0 entries 0\n";
    let text = joined(rt, alloc, &["1 ", answer, members]);
    prints_made(rt, alloc, script, text);
}

/// A group of two, W = 4 and ample histories.
const FIRST: &str = "group 7 size 2 window 4 history 100";

/// Steps of members and frames that there are not, and what each is answered.
const NUMBERS: &[(&str, &str)] = &[
    ("cast 2 -", "refused NoSuchMember"),
    ("cast 4294967295 aBcDeF", "refused NoSuchMember"),
    ("burst 2 -", "refused NoSuchMember"),
    ("burst 4294967295 aB - cD", "refused NoSuchMember"),
    ("arrive 2 0", "refused NoSuchMember"),
    ("arrive 4294967295 4294967295", "refused NoSuchMember"),
    ("arrive 0 0", "refused NoSuchFrame"),
    ("arrive 1 4294967295", "refused NoSuchFrame"),
    ("tick 2", "refused NoSuchMember"),
    ("tick 4294967295", "refused NoSuchMember"),
    ("help 2 0", "refused NoSuchMember"),
    ("help 2 2", "refused NoSuchMember"),
    ("help 4294967295 4294967295", "refused NoSuchMember"),
    ("help 0 2", "refused BadMember"),
    ("help 1 4294967295", "refused BadMember"),
    ("help 1 1", "refused BadMember"),
    ("help 1 0", "help none"),
];

fn numbers() -> &'static [(&'static str, &'static str)] {
    NUMBERS
}

#[test]
fn every_number_of_32_bits_is_read(rt: HostRuntime) {
    for (step, answer) in numbers() {
        answers(&rt, rt.alloc(), FIRST, step, answer);
    }
    let greatest = "group 4294967295 size 2 window 256 history 16777216";
    let refused = "refused NoSuchFrame";
    answers(&rt, rt.alloc(), greatest, "arrive 0 0", refused);
    let least = "group 0 size 2 window 1 history 1";
    answers(&rt, rt.alloc(), least, "arrive 0 0", refused);
}

#[test]
fn the_longest_payload_is_cast_and_a_longer_one_is_refused(rt: HostRuntime) {
    let hex = "0A".repeat(rt.alloc(), 1024).expect(&rt, "memory");
    refuses_a_longer_one(&rt, rt.alloc(), &hex);
    casts_the_longest(&rt, rt.alloc(), &hex);
    drop(hex);
}

/// These digits and two more are refused.
fn refuses_a_longer_one(rt: &impl Abort, alloc: Global, hex: &str) {
    let too_long = joined(rt, alloc, &["cast 0 ", hex, "0a"]);
    answers(rt, alloc, FIRST, &too_long, "refused PayloadTooLong");
    drop(too_long);
}

/// How the members stand once a cast has arrived.
const MEMBERS: &str =
    "\nmember 0 time [1,0] stable 0 entries 1\nmember 1 time [1,0] stable 0 entries 1\n";

/// These digits are cast, arrive, and are printed in lower case.
fn casts_the_longest(rt: &impl Abort, alloc: Global, hex: &str) {
    let lower = hex.to_ascii_lowercase(alloc).expect(rt, "memory");
    let frame = "1 cast 0.1 [1,0]\n > 0 all 11070001008008";
    let arrival = "\n2 arrive accepted changed\n = 0.1 [1,0] x";
    let text = joined(
        rt,
        alloc,
        &[frame, lower.as_str(), arrival, lower.as_str(), MEMBERS],
    );
    drop(lower);
    let script = joined(rt, alloc, &[FIRST, "\ncast 0 ", hex, "\narrive 1 0\n"]);
    prints_made(rt, alloc, script, text);
}

/// Payloads in a script, as fields of frames, and as they are printed.
const PAYLOADS: &[(&str, &str, &str)] = &[
    ("-", "00", "\"\""),
    ("6869", "026869", "\"hi\""),
    ("207E41", "03207e41", "\" ~A\""),
    ("22", "0122", "x22"),
    ("5c", "015c", "x5c"),
    ("1F7f", "021f7f", "x1f7f"),
    ("68c3a9", "0368c3a9", "x68c3a9"),
    ("FF", "01ff", "xff"),
];

fn payloads() -> &'static [(&'static str, &'static str, &'static str)] {
    PAYLOADS
}

#[test]
fn a_payload_is_printed_as_text_where_each_byte_is_plain(rt: HostRuntime) {
    for (payload, field, printed) in payloads() {
        is_printed(&rt, rt.alloc(), payload, field, printed);
    }
}

fn is_printed(rt: &impl Abort, alloc: Global, payload: &str, field: &str, printed: &str) {
    let script = joined(rt, alloc, &[FIRST, "\ncast 0 ", payload, "\narrive 1 0"]);
    let frame = "1 cast 0.1 [1,0]\n > 0 all 1107000100";
    let arrival = "\n2 arrive accepted changed\n = 0.1 [1,0] ";
    let text = joined(rt, alloc, &[frame, field, arrival, printed, MEMBERS]);
    prints_made(rt, alloc, script, text);
}

/// Bursts of a member of a group of two, what each is answered, and how the member stands then.
const BURSTS: &[(&str, &str, &str)] = &[
    (
        "6869 - 796F",
        "burst 0.1 0.3 [1,0]\n > 0 all 210700010003026869000279\
         6f",
        "[3,0] stable 0 entries 1",
    ),
    (
        "6869",
        "burst 0.1 0.1 [1,0]\n > 0 all 2107000100010268\
         69",
        "[1,0] stable 0 entries 1",
    ),
    (
        "- - - -",
        "burst 0.1 0.4 [1,0]\n > 0 all 21070001000400000000",
        "[4,0] stable 0 entries 1",
    ),
    (
        "- - - - -",
        "refused WindowFull",
        "[0,0] stable 0 entries 0",
    ),
];

fn bursts() -> &'static [(&'static str, &'static str, &'static str)] {
    BURSTS
}

#[test]
fn a_burst_is_one_frame_with_the_names_of_its_first_and_last_message(rt: HostRuntime) {
    for (payloads, answer, member) in bursts() {
        is_burst(&rt, rt.alloc(), payloads, answer, member);
    }
}

fn is_burst(rt: &impl Abort, alloc: Global, payloads: &str, answer: &str, member: &str) {
    let script = joined(rt, alloc, &[FIRST, "\nburst 0 ", payloads]);
    let others = "\nmember 1 time [0,0] stable 0 entries 0\n";
    let text = joined(
        rt,
        alloc,
        &["1 ", answer, "\nmember 0 time ", member, others],
    );
    prints_made(rt, alloc, script, text);
}

#[test]
fn a_burst_of_33_messages_or_of_1025_bytes_is_refused(rt: HostRuntime) {
    let many = " -".repeat(rt.alloc(), 33).expect(&rt, "memory");
    refuses_burst(&rt, rt.alloc(), &many, "refused BurstTooLong");
    drop(many);
    let long = "0a".repeat(rt.alloc(), 1024).expect(&rt, "memory");
    let payloads = joined(&rt, rt.alloc(), &[" ", long.as_str(), " 0a"]);
    drop(long);
    refuses_burst(&rt, rt.alloc(), &payloads, "refused PayloadTooLong");
    drop(payloads);
}

fn refuses_burst(rt: &impl Abort, alloc: Global, payloads: &str, answer: &str) {
    let step = joined(rt, alloc, &["burst 0", payloads]);
    answers(rt, alloc, FIRST, &step, answer);
    drop(step);
}

#[test]
fn a_script_without_steps_prints_its_members(rt: HostRuntime) {
    let text = "member 0 time [0,0] stable 0 entries 0\nmember 1 time [0,0] stable 0 entries 0\n";
    prints(&rt, rt.alloc(), FIRST, text);
    prints(
        &rt,
        rt.alloc(),
        "group 7 size 2 window 4 history 100\n",
        text,
    );
}

/// First lines that are none.
const FIRST_LINES: &[&str] = &[
    "",
    "\n",
    "\ngroup 7 size 2 window 4 history 100",
    "group",
    "group 7",
    "group 7 size 2",
    "group 7 size 2 window 4",
    "group 7 size 2 window 4 history",
    "group 7 size 2 window 4 history ",
    "group 7 size 2 window 4 history 100 ",
    "group 7 size 2 window 4 history 100 1",
    " group 7 size 2 window 4 history 100",
    "group  7 size 2 window 4 history 100",
    "group 7  size 2 window 4 history 100",
    "group\t7 size 2 window 4 history 100",
    "group 7 size 2 window 4 history 100\r\n",
    "Group 7 size 2 window 4 history 100",
    "groups 7 size 2 window 4 history 100",
    "group 7 Size 2 window 4 history 100",
    "group 7 members 2 window 4 history 100",
    "group 7 size 2 Window 4 history 100",
    "group 7 window 4 size 2 history 100",
    "group 7 size 2 window 4 limit 100",
    "group 7 size 2 history 100 window 4",
    "group -1 size 2 window 4 history 100",
    "group +7 size 2 window 4 history 100",
    "group 07 size 2 window 4 history 100",
    "group 00 size 2 window 4 history 100",
    "group 4294967296 size 2 window 4 history 100",
    "group 99999999999999999999 size 2 window 4 history 100",
    "group 0x7 size 2 window 4 history 100",
    "group 7. size 2 window 4 history 100",
    "group x size 2 window 4 history 100",
    "group 7 size 0 window 4 history 100",
    "group 7 size 1 window 4 history 100",
    "group 7 size 65 window 4 history 100",
    "group 7 size 02 window 4 history 100",
    "group 7 size two window 4 history 100",
    "group 7 size 4294967296 window 4 history 100",
    "group 7 size 2 window 0 history 100",
    "group 7 size 2 window 257 history 100",
    "group 7 size 2 window 04 history 100",
    "group 7 size 2 window w history 100",
    "group 7 size 2 window 4294967296 history 100",
    "group 7 size 2 window 4 history 0",
    "group 7 size 2 window 4 history 16777217",
    "group 7 size 2 window 4 history 0100",
    "group 7 size 2 window 4 history h",
    "group 7 size 2 window 4 history 4294967296",
    "group 7 size 2 window 4 history 1\u{0660}",
    "cast 0 00",
    "tick 0",
    "#",
];

fn first_lines() -> &'static [&'static str] {
    FIRST_LINES
}

#[test]
fn a_first_line_that_is_none_is_a_bad_step(rt: HostRuntime) {
    let fault = "line 1: bad step";
    for line in first_lines() {
        stops(&rt, rt.alloc(), line.as_bytes(), fault);
    }
    let bytes = b"group 7 size 2 window 4 history 100\xff\n";
    stops(&rt, rt.alloc(), bytes, fault);
}

/// Lines that are no step.
const LINES: &[&str] = &[
    "",
    " ",
    "\r",
    "#",
    "# cast 0 00",
    "group 7 size 2 window 4 history 100",
    "cast",
    "cast ",
    "cast 0",
    "cast 0 ",
    "cast 0 00 ",
    "cast 0 00 00",
    "cast 0 - -",
    " cast 0 00",
    "cast  0 00",
    "cast 0  00",
    "cast\t0 00",
    "cast 0 00\r",
    "cast 0 00\t",
    "Cast 0 00",
    "casts 0 00",
    "cas 0 00",
    "cast - 00",
    "cast -1 00",
    "cast +0 00",
    "cast 00 00",
    "cast 01 00",
    "cast 0x0 00",
    "cast 4294967296 00",
    "cast 18446744073709551616 00",
    "cast a 00",
    "cast 0. 00",
    "cast 00",
    "cast 0 0",
    "cast 0 000",
    "cast 0 0g",
    "cast 0 --",
    "cast 0 -00",
    "cast 0 00-",
    "cast 0 0x00",
    "cast 0 \"hi\"",
    "cast 0 hi",
    "cast 0 \u{00e9}",
    "cast 0 6\u{0660}",
    "burst",
    "burst ",
    "burst 0",
    "burst 0 ",
    "burst 0 00 ",
    "burst 0 00  00",
    "burst 0 - -  ",
    "burst 0 00 0",
    "burst 0 00 0g",
    "burst 0 00 --",
    "burst 0 00\t00",
    "burst 0 00 00\r",
    " burst 0 00",
    "burst  0 00",
    "burst 0  00",
    "burst\t0 00",
    "Burst 0 00",
    "bursts 0 00",
    "burst -1 00",
    "burst 01 00",
    "burst 4294967296 00",
    "burst 00",
    "burst - 00",
    "arrive",
    "arrive ",
    "arrive 0",
    "arrive 0 ",
    "arrive 0 0 ",
    "arrive 0 0 0",
    " arrive 0 0",
    "arrive  0 0",
    "arrive 0  0",
    "arrive\t0 0",
    "arrive 0 0\r",
    "Arrive 0 0",
    "arrives 0 0",
    "arriv 0 0",
    "arrive -1 0",
    "arrive +1 0",
    "arrive 01 0",
    "arrive 4294967296 0",
    "arrive x 0",
    "arrive 0 -1",
    "arrive 0 +1",
    "arrive 0 00",
    "arrive 0 01",
    "arrive 0 4294967296",
    "arrive 0 18446744073709551616",
    "arrive 0 x",
    "arrive 0 -",
    "arrive 0.1 0",
    "tick",
    "tick ",
    "tick 0 ",
    "tick 0 0",
    " tick 0",
    "tick  0",
    "tick\t0",
    "tick 0\r",
    "Tick 0",
    "ticks 0",
    "tic 0",
    "tick -1",
    "tick +1",
    "tick 00",
    "tick 01",
    "tick 4294967296",
    "tick 18446744073709551616",
    "tick x",
    "tick -",
    "tick 0\u{0000}",
    "help",
    "help ",
    "help 0",
    "help 0 ",
    "help 0 1 ",
    "help 0 1 1",
    " help 0 1",
    "help  0 1",
    "help 0  1",
    "help\t0 1",
    "help 0 1\r",
    "Help 0 1",
    "helps 0 1",
    "hel 0 1",
    "help -1 0",
    "help 01 0",
    "help x 0",
    "help 4294967296 0",
    "help 0 -1",
    "help 0 +1",
    "help 0 01",
    "help 0 4294967296",
    "help 0 x",
    "help 0 -",
    "say",
    "say ",
    "say 0",
    "say 0 ",
    "say 0 main",
    "say 0  ",
    "say 0  main hi",
    "say  0 main hi",
    " say 0 main hi",
    "say\t0 main hi",
    "Say 0 main hi",
    "says 0 main hi",
    "sa 0 main hi",
    "say -1 main hi",
    "say +1 main hi",
    "say 00 main hi",
    "say 01 main hi",
    "say 4294967296 main hi",
    "say x main hi",
    "say main hi",
    "answer",
    "answer ",
    "answer 1",
    "answer 1 ",
    "answer 1 0.1",
    "answer  1 0.1 yes",
    "answer 1  0.1 yes",
    " answer 1 0.1 yes",
    "answer\t1 0.1 yes",
    "Answer 1 0.1 yes",
    "answers 1 0.1 yes",
    "answe 1 0.1 yes",
    "answer -1 0.1 yes",
    "answer 01 0.1 yes",
    "answer x 0.1 yes",
    "answer 4294967296 0.1 yes",
    "answer 1 0 yes",
    "answer 1 .1 yes",
    "answer 1 0. yes",
    "answer 1 . yes",
    "answer 1 00.1 yes",
    "answer 1 0.01 yes",
    "answer 1 -0.1 yes",
    "answer 1 0.+1 yes",
    "answer 1 0.1. yes",
    "answer 1 0.1.1 yes",
    "answer 1 0..1 yes",
    "answer 1 4294967296.1 yes",
    "answer 1 0.4294967296 yes",
    "answer 1 0,1 yes",
    "answer 1 x.1 yes",
    "answer 1 0.x yes",
    "screen",
    "screen ",
    "screen 0 ",
    "screen 0 0",
    " screen 0",
    "screen  0",
    "screen\t0",
    "screen 0\r",
    "Screen 0",
    "screens 0",
    "scree 0",
    "screen -1",
    "screen +1",
    "screen 00",
    "screen 01",
    "screen 4294967296",
    "screen x",
    "screen -",
    "quit",
];

fn lines() -> &'static [&'static str] {
    LINES
}

#[test]
fn a_line_that_is_no_step_is_a_bad_step(rt: HostRuntime) {
    for line in lines() {
        is_no_step(&rt, rt.alloc(), line);
    }
}

fn is_no_step(rt: &impl Abort, alloc: Global, line: &str) {
    let script = joined(rt, alloc, &[FIRST, "\n", line, "\n"]);
    stops_at(rt, alloc, script, "2");
    let steps = "\ncast 0 00\narrive 1 0\ntick 1\n";
    let script = joined(rt, alloc, &[FIRST, steps, line, "\ntick 0\n"]);
    stops_at(rt, alloc, script, "5");
}

#[test]
fn a_line_that_is_no_text_is_a_bad_step(rt: HostRuntime) {
    let alloc = rt.alloc();
    let script = b"group 7 size 2 window 4 history 100\ntick \xff\n";
    stops(&rt, alloc, script, "line 2: bad step");
    let script = b"group 7 size 2 window 4 history 100\ntick 0\n\xc3\n\xa9\n";
    stops(&rt, alloc, script, "line 3: bad step");
    let script = b"group 7 size 2 window 4 history 100\ntick 0\ntick 1\ncast 0 \x80";
    stops(&rt, alloc, script, "line 4: bad step");
}

#[test]
fn the_first_bad_step_is_named(rt: HostRuntime) {
    let alloc = rt.alloc();
    let script = b"group 7 size 2 window 4 history 100\ntick 0\ntock 0\n\ntick 1\n";
    stops(&rt, alloc, script, "line 3: bad step");
    let script = b"group 7 size 2 window 4 history 100\ntick 0\n\n";
    stops(&rt, alloc, script, "line 3: bad step");
    let ticks = "tick 0\n".repeat(alloc, 70_000).expect(&rt, "memory");
    let script = joined(&rt, alloc, &[FIRST, "\n", ticks.as_str(), "tock 0"]);
    drop(ticks);
    stops_at(&rt, alloc, script, "70002");
}

/// What is printed of one tick.
const TICKED: &str = "1 tick entered
 > 0 all 12070000
member 0 time [0,0] stable 0 entries 1
member 1 time [0,0] stable 0 entries 0
";

#[test]
fn the_last_line_may_lack_its_line_feed(rt: HostRuntime) {
    prints(
        &rt,
        rt.alloc(),
        "group 7 size 2 window 4 history 100\ntick 0",
        TICKED,
    );
    prints(
        &rt,
        rt.alloc(),
        "group 7 size 2 window 4 history 100\ntick 0\n",
        TICKED,
    );
}

/// What is printed of so many ticks of member 0.
fn text_of_ticks(rt: &impl Abort, alloc: Global, ticks: u32) -> String {
    let mut text = String::from_str(alloc, "1 tick entered\n > 0 all 12070000\n").expect(
        rt, "memory",
    );
    for number in 1..ticks {
        put_tick(&mut text, number).expect(rt, "memory");
    }
    text.push_str(
        "member 0 time [0,0] stable 0 entries 1\nmember 1 time [0,0] stable 0 entries 0\n",
    ).expect(rt, "memory");
    text
}

/// What is printed of a tick that is not the first one, whose frame has this number.
fn put_tick(text: &mut String, number: u32) -> Result<(), AllocError> {
    let step = number.saturating_add(1);
    write!(text, "{step} tick same\n > {number} all 12070000\n")
}

#[test]
fn a_long_script_is_run_whole(rt: HostRuntime) {
    let alloc = rt.alloc();
    let ticks = "tick 0\n".repeat(alloc, 4000).expect(&rt, "memory");
    let script = joined(&rt, alloc, &[FIRST, "\n", ticks.as_str()]);
    drop(ticks);
    let text = text_of_ticks(&rt, alloc, 4000);
    prints_made(&rt, alloc, script, text);
}

/// The read after so many good ones fails.
fn fails_to_read(rt: &impl Abort, alloc: Global, good: usize, fault: ErrorKind) {
    let mut input = reading(b"tock\ntock\n");
    input.good = good;
    input.fault = fault;
    stops_by(rt, alloc, &mut input, "read fault");
}

#[test]
fn a_failing_read_comes_before_a_bad_step(rt: HostRuntime) {
    for good in 0..3 {
        fails_to_read(&rt, rt.alloc(), good, ErrorKind::BrokenPipe);
        fails_to_read(&rt, rt.alloc(), good, ErrorKind::Interrupted);
    }
}

/// The write after so many good ones fails: what was written stays.
fn keeps(rt: &impl Abort, alloc: Global, good: usize) {
    let mut output = writing(alloc);
    output.good = good;
    let script = b"group 7 size 2 window 4 history 100\ntick 0\n";
    let outcome = run_into(alloc, &mut reading(script), output);
    let written = good.saturating_mul(3).min(TICKED.len());
    is(
        rt,
        alloc,
        outcome,
        Err("write fault"),
        &TICKED.as_bytes()[..written],
    );
}

#[test]
fn each_write_failing_in_turn_keeps_what_was_written(rt: HostRuntime) {
    for good in 0..37 {
        keeps(&rt, rt.alloc(), good);
    }
}

#[test]
fn an_interrupted_write_is_tried_again(rt: HostRuntime) {
    let mut output = writing(rt.alloc());
    output.interrupted = 2;
    let script = b"group 7 size 2 window 4 history 100\ntick 0\n";
    let outcome = run_into(rt.alloc(), &mut reading(script), output);
    is(&rt, rt.alloc(), outcome, Ok(false), TICKED.as_bytes());
}

#[test]
fn a_script_has_at_most_67108864_bytes(rt: HostRuntime) {
    let bad = "line 1: bad step";
    stops_by(&rt, rt.alloc(), &mut Bulk { left: 67_108_864 }, bad);
    let long = "input too long";
    stops_by(&rt, rt.alloc(), &mut Bulk { left: 67_108_865 }, long);
}
