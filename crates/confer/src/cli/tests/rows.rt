//! The worked examples, by the program's words.

use super::{AUDIT, EXPAND, PLAY};
use crate::harness::run_whole;
use confer_fakes::{reading, writing};
use std::alloc::Global;
use std::net::{Net, TcpListener, TcpStream};
use std::process::Abort;
use std::sync::Wait;
use std::thread::Threads;
use std::time::Clock;

/// Member 0 casts "hi", member 1 answers "yo", and the answer comes first at member 2.
pub const WORKED: &str = "cbcast 1 group 7 size 3 window 4
member 0 entries 1
cast 1107000100026869
member 1 entries 2
arrive 1107000100026869 0.1
cast 1107010101000102796f
member 2 entries 2
arrive 1107010101000102796f -
arrive 1107000100026869 0.1 1.1
end
";

/// The script of its joint order.
const SCRIPT: &str = "group 7 size 3 window 4 history 2
cast 0 6869
arrive 1 0
cast 1 796f
arrive 2 1
arrive 2 0
";

/// What is printed of that script.
const PLAYED: &str = "1 cast 0.1 [1,0,0]
 > 0 all 1107000100026869
2 arrive accepted changed
 = 0.1 [1,0,0] \"hi\"
3 cast 1.1 [1,1,0]
 > 1 all 1107010101000102796f
4 arrive accepted changed
5 arrive accepted changed
 = 0.1 [1,0,0] \"hi\"
 = 1.1 [1,1,0] \"yo\"
member 0 time [1,0,0] stable 0 entries 1
member 1 time [1,1,0] stable 0 entries 2
member 2 time [1,1,0] stable 0 entries 2
";

/// A question, its answer and one more cast of who answered, a frame in each line.
const FRAMES: &str = "1107000100026869\n1107010101000102796f\n1107010200026f6b\n";

/// What is printed of these frames.
const EXPANDED: &str = "0.1 [1,0,0] \"hi\"\n1.1 [1,1,0] \"yo\"\n1.2 [1,2,0] \"ok\"\n";

/// The words print this text of the input, say nothing, and end with this status.
fn prints<
    H: Threads + Wait + Clock + Net<Listener = TcpListener, Stream = TcpStream> + Abort + Sync,
>(rt: &H, alloc: Global, words: &[&str], input: &str, wanted: (u8, &str)) {
    let (status, printed) = wanted;
    let mut input = reading(input.as_bytes());
    let outcome = run_whole(rt, alloc, words, &mut input, writing(alloc));
    drop(input);
    outcome.is(rt, status, printed.as_bytes(), "");
}

#[test]
fn a_question_and_its_answer_are_expanded(rt: HostRuntime) {
    prints(&rt, rt.alloc(), EXPAND, FRAMES, (0, EXPANDED));
    let lines = "1107000100026869\n1107010200026f6b\n1107010101000102796f\n";
    let text = "0.1 [1,0,0] \"hi\"\nrefused NotNext expected 1 found 2\n1.1 [1,1,0] \"yo\"\n";
    prints(&rt, rt.alloc(), EXPAND, lines, (1, text));
}

#[test]
fn each_write_of_an_expansion_fails_in_turn(rt: HostRuntime) {
    for good in 0..18 {
        stops_at_write(&rt, rt.alloc(), good);
    }
}

/// The write after so many good ones fails: what was written stays. A line has 17 bytes, and takes six writes of three.
fn stops_at_write<
    H: Threads + Wait + Clock + Net<Listener = TcpListener, Stream = TcpStream> + Abort + Sync,
>(rt: &H, alloc: Global, good: usize) {
    let mut output = writing(alloc);
    output.good = good;
    let mut input = reading(FRAMES.as_bytes());
    let outcome = run_whole(rt, alloc, EXPAND, &mut input, output);
    drop(input);
    let written = (good / 6).saturating_mul(17).saturating_add(good % 6 * 3);
    let printed = EXPANDED.as_bytes().get(..written);
    outcome.is(
        rt,
        3,
        printed.expect(rt, "the text"),
        "confer: write fault\n",
    );
}

#[test]
fn the_worked_trace_gets_its_script(rt: HostRuntime) {
    prints(&rt, rt.alloc(), AUDIT, WORKED, (0, SCRIPT));
}

#[test]
fn what_is_printed_of_the_worked_trace_can_be_played(rt: HostRuntime) {
    prints(&rt, rt.alloc(), PLAY, SCRIPT, (0, PLAYED));
}
