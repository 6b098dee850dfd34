//! What no contract says: the worked trace byte by byte, each way to spoil a line, and that calls with ample memory answer.

use cb_history::History;
use cb_trace::{TraceFault, WriteFault, read_trace, write_trace};
use std::alloc::Global;
use std::process::Abort;
use std::test::Fail;

/// Member 0 casts "hi", member 1 answers "yo", and the answer comes first at member 2.
pub const WORKED: &str = "cbcast 1 group 7 size 3 window 4
member 0 entries 1
cast 1107000100026869
member 1 entries 2
arrive 1107000100026869 0.1
cast 1107010101000102796f
member 2 entries 2
arrive 1107010101000102796f -
arrive 1107000100026869 0.1 1.1
end
";

/// The worked trace, with what is put in place of a part of it, and the line that is bad then.
const SPOILED: [(&str, &str, u64); 41] = [
    ("cbcast 1", "cbcast 2", 1),
    ("cbcast 1", "Cbcast 1", 1),
    ("cbcast 1", " cbcast 1", 1),
    ("group 7", "group 07", 1),
    ("group 7", "group +7", 1),
    ("group 7", "group -7", 1),
    ("group 7", "group ", 1),
    ("group 7", "group 4294967296", 1),
    ("group 7 size", "group 7  size", 1),
    ("size 3", "size 1", 1),
    ("size 3", "size 65", 1),
    ("window 4", "window 0", 1),
    ("window 4", "window 257", 1),
    ("window 4\n", "window 4 \n", 1),
    ("window 4\n", "window 4\r\n", 1),
    ("window 4\n", "window 4\nend\n", 2),
    ("window 4\n", "window 4\n\n", 2),
    ("member 0 entries 1", "member 64 entries 1", 2),
    ("member 0 entries 1", "member 00 entries 1", 2),
    ("member 0 entries 1", "member 0 entries 16777217", 2),
    ("member 0 entries 1", "member 0 entries 0", 3),
    ("member 0 entries 1", "member 0 entries 2", 4),
    ("member 0 entries 1", "member 0 entries", 2),
    ("cast 1107000100026869", "cast 110700010002686", 3),
    ("cast 1107000100026869", "cast ", 3),
    ("cast 1107000100026869", "cast", 3),
    ("cast 1107000100026869", "cast 1107000100026869 -", 3),
    ("cast 1107000100026869", "reported 1107000100026869", 3),
    (
        "1107010101000102796f\nmember 2",
        "1107010101000102796F\nmember 2",
        6,
    ),
    ("1107000100026869 0.1\n", "1107000100026869\n", 5),
    ("1107000100026869 0.1\n", "1107000100026869 \n", 5),
    ("1107000100026869 0.1\n", "1107000100026869 0.0\n", 5),
    ("1107000100026869 0.1\n", "1107000100026869 64.1\n", 5),
    ("1107000100026869 0.1\n", "1107000100026869 0.01\n", 5),
    ("1107000100026869 0.1\n", "1107000100026869 0.1.1\n", 5),
    ("1107000100026869 0.1\n", "1107000100026869 0.1 -\n", 5),
    (
        "1107000100026869 0.1\n",
        "1107000100026869 0.4294967296\n",
        5,
    ),
    ("cbcast 1", "\u{e9}bcast 1", 1),
    ("group 7", "group \u{667}", 1),
    ("end\n", "end\nend\n", 11),
    ("end\n", "end\nx", 11),
];

/// The text with one part in place of another, which stands in it.
pub fn with(alloc: Global, text: &str, old: &str, new: &str) -> Result<String, Fail> {
    let Some((front, back)) = text.split_once(old) else {
        return Err(Fail::new("the part is not there"));
    };
    Ok(format!(in alloc; "{front}{new}{back}")?)
}

fn bad_line(alloc: Global, text: &[u8]) -> Option<u64> {
    match read_trace(alloc, text) {
        Err(TraceFault::BadLine { line }) => Some(line),
        _ => None,
    }
}

fn bad_line_with(alloc: Global, text: &str, old: &str, new: &str) -> Result<Option<u64>, Fail> {
    let text = with(alloc, text, old, new)?;
    Ok(bad_line(alloc, text.as_bytes()))
}

/// Whether the worked trace is what these histories are written as.
fn have_the_worked_trace(alloc: Global, histories: &[History]) -> Result<bool, Fail> {
    let text = write_trace(alloc, histories)?;
    Ok(text.as_slice() == WORKED.as_bytes())
}

#[test]
fn the_worked_trace_is_read_and_written_again(rt: HostRuntime) -> Result<(), Fail> {
    let histories = read_trace(rt.alloc(), WORKED.as_bytes())?;
    assert_eq!(rt; histories.len(), 3);
    assert!(rt; have_the_worked_trace(rt.alloc(), &histories)?);
    Ok(())
}

#[test]
fn each_spoiled_line_is_named(rt: HostRuntime) -> Result<(), Fail> {
    for (old, new, line) in &SPOILED {
        let bad = bad_line_with(rt.alloc(), WORKED, old, new)?;
        assert_eq!(rt; bad, Some(*line));
    }
    Ok(())
}

#[test]
fn each_beginning_lacks_its_next_line(rt: HostRuntime) -> Result<(), Fail> {
    let mut line: u64 = 1;
    for (place, byte) in WORKED.as_bytes().iter().enumerate() {
        let front = &WORKED.as_bytes()[..place];
        assert_eq!(rt; bad_line(rt.alloc(), front), Some(line));
        if *byte == b'\n' {
            line = line.saturating_add(1);
        }
    }
    Ok(())
}

#[test]
fn copies_of_histories_have_the_same_trace(rt: HostRuntime) -> Result<(), Fail> {
    let histories = read_trace(rt.alloc(), WORKED.as_bytes())?;
    let copies = copies_of(rt.alloc(), &histories)?;
    assert!(rt; have_the_worked_trace(rt.alloc(), &copies)?);
    Ok(())
}

fn copies_of(alloc: Global, histories: &[History]) -> Result<Vec<History>, Fail> {
    let mut copies = Vec::new(alloc);
    for history in histories {
        copies.push(history.copy()?)?;
    }
    Ok(copies)
}

fn text_of_64(alloc: Global) -> Result<String, Fail> {
    let mut text = String::new(alloc);
    text.push_str("cbcast 1 group 0 size 64 window 256\n")?;
    for _ in 0..64 {
        text.push_str("member 63 entries 0\n")?;
    }
    text.push_str("end\n")?;
    Ok(text)
}

fn members_in(alloc: Global, text: &str) -> Result<usize, Fail> {
    let histories = read_trace(alloc, text.as_bytes())?;
    Ok(histories.len())
}

#[test]
fn a_trace_has_at_most_64_members(rt: HostRuntime) -> Result<(), Fail> {
    let text = text_of_64(rt.alloc())?;
    assert_eq!(rt; members_in(rt.alloc(), &text)?, 64);
    let bad = bad_line_with(rt.alloc(), &text, "end\n", "member 63 entries 0\nend\n")?;
    assert_eq!(rt; bad, Some(66));
    Ok(())
}

/// The histories of the worked trace in another group.
fn histories_of_group_8(alloc: Global) -> Result<Vec<History>, Fail> {
    let text = with(alloc, WORKED, "group 7", "group 8")?;
    Ok(read_trace(alloc, text.as_bytes())?)
}

fn histories_of_two_groups(alloc: Global) -> Result<Vec<History>, Fail> {
    let mut histories = read_trace(alloc, WORKED.as_bytes())?;
    for history in histories_of_group_8(alloc)? {
        histories.push(history)?;
    }
    Ok(histories)
}

fn are_mixed(alloc: Global, histories: &[History]) -> bool {
    matches!(write_trace(alloc, histories), Err(WriteFault::MixedGroups))
}

#[test]
fn histories_of_two_groups_have_no_trace(rt: HostRuntime) -> Result<(), Fail> {
    let histories = histories_of_two_groups(rt.alloc())?;
    assert!(rt; are_mixed(rt.alloc(), &histories));
    assert!(rt; are_mixed(rt.alloc(), &[]));
    Ok(())
}

fn is_text(rt: &impl Abort, text: String, expected: &str) {
    assert_eq!(rt; text.as_str(), expected);
}

#[test]
fn a_fault_prints_its_name(rt: HostRuntime) -> Result<(), Fail> {
    let fault = TraceFault::BadLine { line: 10 };
    is_text(&rt, fault.to_string(rt.alloc())?, "BadLine 10");
    is_text(
        &rt,
        WriteFault::MixedGroups.to_string(rt.alloc())?,
        "MixedGroups",
    );
    Ok(())
}
