//! Lines that are said and answered, and screens.

use super::{FIRST, answers, joined, prints, prints_made};
use std::alloc::Global;
use std::process::Abort;

/// Steps of a group in which nothing was said, and what each is answered. Of several faults the first in
/// order is named: the member, then the place of the line, then its text.
const REFUSED: &[(&str, &str)] = &[
    ("say 2 main hi", "refused NoSuchMember"),
    ("say 4294967295 Main \u{7}", "refused NoSuchMember"),
    ("answer 2 0.1 hi", "refused NoSuchMember"),
    ("answer 4294967295 64.0 \u{7}", "refused NoSuchMember"),
    ("screen 2", "refused NoSuchMember"),
    ("screen 4294967295", "refused NoSuchMember"),
    ("say 0 Main hi", "refused BadRoom"),
    ("say 0 main! hi", "refused BadRoom"),
    ("say 0 a_b hi", "refused BadRoom"),
    ("say 0 ma\u{e9}n hi", "refused BadRoom"),
    ("say 0 main\thi \u{7}", "refused BadRoom"),
    (
        "say 0 a-room-of-33-letters-and-digits-00 hi",
        "refused BadRoom",
    ),
    ("say 0 Main \u{7}", "refused BadRoom"),
    ("answer 0 0.1 hi", "refused UnknownQuestion"),
    ("answer 0 1.1 hi", "refused UnknownQuestion"),
    ("answer 0 0.0 hi", "refused UnknownQuestion"),
    ("answer 0 64.1 hi", "refused UnknownQuestion"),
    (
        "answer 0 4294967295.4294967295 hi",
        "refused UnknownQuestion",
    ),
    ("answer 0 0.1 \u{7}", "refused UnknownQuestion"),
    ("say 0 main \u{7}", "refused BadText"),
    ("say 0 main a\tb", "refused BadText"),
    ("say 0 main hi\r", "refused BadText"),
    ("say 0 main \u{7f}", "refused BadText"),
    ("say 0 main \u{0}", "refused BadText"),
    ("screen 0", "screen 0"),
    ("screen 1", "screen 1"),
];

fn refused() -> &'static [(&'static str, &'static str)] {
    REFUSED
}

#[test]
fn a_line_without_a_place_or_a_text_is_refused_by_name(rt: HostRuntime) {
    for (step, answer) in refused() {
        answers(&rt, rt.alloc(), FIRST, step, answer);
    }
}

/// Behind `say 0 main hi`, which member 1 has delivered: a step, and all that is printed of it.
const SAID: &[(&str, &str)] = &[
    (
        "say 1 main ",
        "cast 1.1 [1,1]\n > 1 all 110701010100010601046d61696e",
    ),
    (
        "say 1 a ",
        "cast 1.1 [1,1]\n > 1 all 1107010101000103010161",
    ),
    (
        "say 1 z-0  two  spaces ",
        "cast 1.1 [1,1]\n > 1 all 110701010100011201037a2d302074776f202073706163657320",
    ),
    (
        "say 1 main caf\u{e9}",
        "cast 1.1 [1,1]\n > 1 all 110701010100010b01046d61696e636166c3a9",
    ),
    (
        "answer 1 0.1 ",
        "cast 1.1 [1,1]\n > 1 all 1107010101000103020001",
    ),
    (
        "answer 1 0.1  0.1 hi",
        "cast 1.1 [1,1]\n > 1 all 110701010100010a02000120302e31206869",
    ),
    ("answer 1 0.2 hi", "refused UnknownQuestion"),
    ("answer 1 1.1 hi", "refused UnknownQuestion"),
    ("answer 1 0.1 \u{7}", "refused BadText"),
    ("say 2 main hi", "refused NoSuchMember"),
    ("answer 2 0.1 hi", "refused NoSuchMember"),
    ("screen 2", "refused NoSuchMember"),
    ("screen 1", "screen 1\n | [main] 0.1 hi"),
];

fn said() -> &'static [(&'static str, &'static str)] {
    SAID
}

#[test]
fn a_line_is_composed_in_the_conference_of_its_member(rt: HostRuntime) {
    for (step, lines) in said() {
        is_composed(&rt, rt.alloc(), step, lines);
    }
}

/// What is printed of the steps before it, and of member 0 behind it.
const BEFORE: &str = "1 cast 0.1 [1,0]
 > 0 all 11070001000801046d61696e6869
2 arrive accepted changed
 = 0.1 [1,0] x01046d61696e6869
3 ";

const BEHIND: &str = "\nmember 0 time [1,0] stable 0 entries 1\nmember 1 time ";

fn is_composed(rt: &impl Abort, alloc: Global, step: &str, lines: &str) {
    let script = joined(rt, alloc, &[FIRST, "\nsay 0 main hi\narrive 1 0\n", step]);
    let (before, behind, standing) = (BEFORE, BEHIND, standing(lines));
    let text = format!(in alloc; "{before}{lines}{behind}{standing}\n").expect(rt, "memory");
    prints_made(rt, alloc, script, text);
}

/// How member 1 stands after this answer: a cast is an entry more.
fn standing(lines: &str) -> &'static str {
    if lines.starts_with("cast") {
        "[1,1] stable 0 entries 2"
    } else {
        "[1,0] stable 0 entries 1"
    }
}

/// The text of a `say` in room `main` whose payload has so many bytes, 6 or more.
fn text_of(rt: &impl Abort, alloc: Global, payload: usize) -> String {
    "x".repeat(alloc, payload.saturating_sub(6))
        .expect(rt, "memory")
}

#[test]
fn a_payload_has_at_most_1024_bytes(rt: HostRuntime) {
    let long = text_of(&rt, rt.alloc(), 1025);
    refuses_too_long(&rt, rt.alloc(), &long);
    drop(long);
    let text = text_of(&rt, rt.alloc(), 1024);
    says_the_longest(&rt, rt.alloc(), &text);
    drop(text);
}

/// A text that is too long is refused, as a bad one if it is bad too.
fn refuses_too_long(rt: &impl Abort, alloc: Global, text: &str) {
    let too_long = joined(rt, alloc, &["say 0 main ", text]);
    answers(rt, alloc, FIRST, &too_long, "refused TooLong");
    drop(too_long);
    let bad_and_too_long = joined(rt, alloc, &["say 0 main ", text, "\u{7}"]);
    answers(rt, alloc, FIRST, &bad_and_too_long, "refused BadText");
    drop(bad_and_too_long);
}

fn says_the_longest(rt: &impl Abort, alloc: Global, text: &str) {
    let hex = "78".repeat(alloc, 1018).expect(rt, "memory");
    let frame = "1 cast 0.1 [1,0]\n > 0 all 1107000100800801046d61696e";
    let screen = "\n2 screen 0\n | [main] 0.1 ";
    let members =
        "\nmember 0 time [1,0] stable 0 entries 1\nmember 1 time [0,0] stable 0 entries 0\n";
    let printed = joined(rt, alloc, &[frame, hex.as_str(), screen, text, members]);
    drop(hex);
    let script = joined(rt, alloc, &[FIRST, "\nsay 0 main ", text, "\nscreen 0\n"]);
    prints_made(rt, alloc, script, printed);
}

/// Where the window is full.
const WINDOW_SCRIPT: &str = "group 7 size 2 window 1 history 100
say 0 main one
say 0 main two
answer 0 0.1 three
screen 0
";

const WINDOW_TEXT: &str = "1 cast 0.1 [1,0]
 > 0 all 11070001000901046d61696e6f6e65
2 refused WindowFull
3 refused WindowFull
4 screen 0
 | [main] 0.1 one
member 0 time [1,0] stable 0 entries 1
member 1 time [0,0] stable 0 entries 0
";

/// Where the history is full.
const HISTORY_SCRIPT: &str = "group 7 size 2 window 4 history 1
say 0 main one
say 0 main two
screen 0
";

const HISTORY_TEXT: &str = "1 cast 0.1 [1,0]
 > 0 all 11070001000901046d61696e6f6e65
2 refused HistoryFull
3 screen 0
 | [main] 0.1 one
member 0 time [1,0] stable 0 entries 1
member 1 time [0,0] stable 0 entries 0
";

/// A composed line is cast like any payload: where the window or the history is full it is refused, and shown
/// to nobody.
#[test]
fn a_line_whose_cast_is_refused_is_not_shown(rt: HostRuntime) {
    prints(&rt, rt.alloc(), WINDOW_SCRIPT, WINDOW_TEXT);
    prints(&rt, rt.alloc(), HISTORY_SCRIPT, HISTORY_TEXT);
}

/// Payloads that were cast as they are, without a conference: no line, an answer to nothing, and a line.
const CAST_SCRIPT: &str = "group 7 size 2 window 4 history 100
cast 0 03
cast 0 02010178
cast 0 01016178
screen 0
arrive 1 0
arrive 1 1
arrive 1 2
screen 1
";

const CAST_TEXT: &str = "1 cast 0.1 [1,0]
 > 0 all 11070001000103
2 cast 0.2 [2,0]
 > 1 all 11070002000402010178
3 cast 0.3 [3,0]
 > 2 all 11070003000401016178
4 screen 0
 | [a] 0.3 x
5 arrive accepted changed
 = 0.1 [1,0] x03
6 arrive accepted changed
 = 0.2 [2,0] x02010178
7 arrive accepted changed
 = 0.3 [3,0] x01016178
8 screen 1
 | [a] 0.3 x
member 0 time [3,0] stable 0 entries 3
member 1 time [3,0] stable 0 entries 3
";

/// A line is shown, another payload is not, and an answer to nothing is an orphan.
#[test]
fn what_a_cast_says_is_shown_where_it_is_a_line(rt: HostRuntime) {
    prints(&rt, rt.alloc(), CAST_SCRIPT, CAST_TEXT);
}
