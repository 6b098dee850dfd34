//! Worked examples of one sender's casts and bursts: what is kept, which come out, what is missing.
ghost use Rattle.cb_times.specs.Group.{IsWindow};

use bytes::Bytes;
use cb_frames::{Burst, Cast, LAST_NUMBER as LAST, Range, Unit};
use cb_gaps::{Admission, Reorder};
use cb_times::NoMemory;
use std::alloc::Global;
use std::process::Abort;
use std::test::*;

/// What is asked of a buffer.
#[derive(Clone, Copy)]
enum Call {
    /// How many casts were taken.
    Taken,
    /// To keep a cast: how many are delivered, at most as many as were taken, and its number.
    Keep(u32, u32),
    /// To keep a burst: how many are delivered, its first number, and how many messages it has.
    KeepBurst(u32, u32, u32),
    /// What would become of a cast: how many are delivered, and its number.
    Judge(u32, u32),
    /// And of a burst: how many are delivered, and its first and last number.
    JudgeBurst(u32, u32, u32),
    /// How many messages would come out, were a cast of this number kept as well.
    ReadyWith(u32),
    /// Or a burst of these numbers.
    ReadyWithBurst(u32, u32),
    /// How many units are kept.
    Len,
    /// The smallest number that is kept.
    FirstKept,
    /// The next unit.
    Take,
    /// To take a cast of this number without keeping it, where it is in order.
    TakeInOrder(u32),
    /// Or a burst of these numbers.
    TakeBurstInOrder(u32, u32),
    /// What is missing: how many are delivered, and the greatest number that was heard of.
    Missing(u32, u32),
}

fn cast(alloc: Global, number: u32) -> Cast {
    Cast {
        group: 7,
        sender: 0,
        number,
        changes: Vec::new(alloc),
        payload: Bytes::from_static(b"yo"),
    }
}

/// Its payloads are of one letter each.
fn burst(alloc: Global, first: u32, count: u32) -> Result<Burst, NoMemory> {
    let mut payloads = Vec::new(alloc);
    let mut letters = b"abcdefgh".iter();
    for _ in 0..count {
        let letter = *letters.next().unwrap_or(&b'z');
        payloads.push(Bytes::copy_from_slice(alloc, &[letter])?)?;
    }
    Ok(Burst {
        group: 7,
        sender: 0,
        first,
        changes: Vec::new(alloc),
        payloads,
    })
}

/// Keeps a burst whose messages have numbers.
#[tactic(auto, using(cb_frames::proofs::Carried::burst_ends))]
fn keep_burst(reorder: &mut Reorder, delivered: u32, burst: Burst) -> Option<Admission> {
    let count = burst.payloads.len();
    if count == 0 || u64::from(burst.first) + count as u64 > u64::from(LAST) + 1 {
        return None;
    }
    let delivered = delivered.min(reorder.taken());
    Some(reorder.keep(delivered, Unit::Many(burst)))
}

/// A buffer of which this many casts were taken and none is kept.
fn after(rt: &impl Abort, alloc: Global, window: u32, taken: u32) -> Reorder
    requires { IsWindow window }
{
    let mut reorder = Reorder::new(alloc, window).expect(rt, "memory");
    reorder.take_in_order(taken);
    reorder
}

/// The group of a cast, its name and its payload.
fn tell_cast(cast: &Cast, text: &mut String) -> Result<(), NoMemory> {
    let payload = cast.payload.escape_ascii();
    write!(
        text,
        "{} {}.{} {payload}",
        cast.group, cast.sender, cast.number
    )
}

/// The group of a burst, its first name, and its payloads.
fn tell_burst(burst: &Burst, text: &mut String) -> Result<(), NoMemory> {
    write!(text, "{} {}.{}", burst.group, burst.sender, burst.first)?;
    for payload in &burst.payloads {
        write!(text, " {}", payload.escape_ascii())?;
    }
    Ok(())
}

fn tell_unit(unit: Option<Unit>, text: &mut String) -> Result<(), NoMemory> {
    match unit {
        Some(Unit::One(cast)) => tell_cast(&cast, text),
        Some(Unit::Many(burst)) => tell_burst(&burst, text),
        None => text.push_str("none"),
    }
}

/// The first and the last number of each range.
fn tell_ranges(ranges: &[Range], text: &mut String) -> Result<(), NoMemory> {
    for range in ranges {
        write!(text, "{}-{};", range.first, range.last)?;
    }
    Ok(())
}

/// Takes a unit of these numbers where it is in order.
fn takes_in_order(reorder: &mut Reorder, first: u32, last: u32) -> &'static str {
    if !reorder.is_in_order(first) {
        return "no";
    }
    reorder.take_in_order(last);
    "taken"
}

fn keeps(alloc: Global, reorder: &mut Reorder, delivered: u32, number: u32) -> Admission {
    let delivered = delivered.min(reorder.taken());
    reorder.keep(delivered, Unit::One(cast(alloc, number)))
}

/// What is kept or taken, and what became of it.
fn change(
    alloc: Global,
    reorder: &mut Reorder,
    call: Call,
    text: &mut String,
) -> Result<(), NoMemory> {
    match call {
        Call::Keep(delivered, number) => {
            write!(text, "{:?}", keeps(alloc, reorder, delivered, number))
        }
        Call::KeepBurst(delivered, first, count) => {
            let burst = burst(alloc, first, count)?;
            match keep_burst(reorder, delivered, burst) {
                Some(admission) => write!(text, "{admission:?}"),
                None => text.push_str("no numbers"),
            }
        }
        Call::Take => tell_unit(reorder.take_next(), text),
        Call::TakeInOrder(number) => text.push_str(takes_in_order(reorder, number, number)),
        Call::TakeBurstInOrder(first, last) => text.push_str(takes_in_order(reorder, first, last)),
        _ => Ok(()),
    }
}

/// What it says without a change.
fn answer(reorder: &Reorder, call: Call, text: &mut String) -> Result<(), NoMemory> {
    match call {
        Call::Taken => write!(text, "{}", reorder.taken()),
        Call::Judge(delivered, number) => {
            write!(text, "{:?}", reorder.judge(delivered, number, number))
        }
        Call::JudgeBurst(delivered, first, last) => {
            write!(text, "{:?}", reorder.judge(delivered, first, last))
        }
        Call::ReadyWith(number) => write!(text, "{}", reorder.ready_with(number, number)),
        Call::ReadyWithBurst(first, last) => write!(text, "{}", reorder.ready_with(first, last)),
        Call::Len => write!(text, "{}", reorder.len()),
        Call::FirstKept => write!(text, "{:?}", reorder.first_kept()),
        Call::Missing(delivered, known) => {
            tell_ranges(&reorder.missing(delivered, known)?, text)
        }
        _ => Ok(()),
    }
}

fn said(rt: &impl Abort, alloc: Global, reorder: &mut Reorder, call: Call) -> String {
    let mut text = String::new(alloc);
    answer(reorder, call, &mut text).expect(rt, "memory");
    change(alloc, reorder, call, &mut text).expect(rt, "memory");
    text
}

/// Each call has the answer that stands beside it.
fn go_on(rt: &impl Abort, alloc: Global, reorder: &mut Reorder, steps: &[(Call, &str)]) {
    for (k, (call, expected)) in steps.iter().enumerate() {
        says(rt, k, said(rt, alloc, reorder, *call), expected);
    }
}

/// Goes on to the end.
fn play(rt: &impl Abort, alloc: Global, reorder: Reorder, steps: &[(Call, &str)]) {
    let mut reorder = reorder;
    go_on(rt, alloc, &mut reorder, steps);
    drop(reorder);
}

fn says(rt: &impl Abort, step: usize, text: String, expected: &str) {
    assert_eq!(rt; text.as_str(), expected, "at step {step}");
    drop(text);
}

/// With a new buffer.
fn run(rt: &impl Abort, alloc: Global, window: u32, steps: &[(Call, &str)])
    requires { IsWindow window }
{
    let reorder = Reorder::new(alloc, window).expect(rt, "memory");
    play(rt, alloc, reorder, steps);
}

#[test]
fn a_later_cast_waits_and_the_number_between_is_missing(rt: HostRuntime) {
    const STEPS: &[(Call, &str)] = &[
        (Call::Taken, "0"),
        (Call::Keep(0, 1), "Kept"),
        (Call::Take, "7 0.1 yo"),
        (Call::Taken, "1"),
        (Call::Keep(1, 4), "Kept"),
        (Call::Keep(1, 4), "Repeat"),
        (Call::Keep(1, 1), "Repeat"),
        (Call::Keep(1, 6), "TooFar"),
        (Call::Missing(1, 4), "2-3;"),
        (Call::Take, "none"),
    ];
    run(&rt, rt.alloc(), 4, STEPS);
}

#[test]
fn casts_in_any_order_come_out_in_the_order_of_their_numbers(rt: HostRuntime) {
    const STEPS: &[(Call, &str)] = &[
        (Call::Keep(0, 3), "Kept"),
        (Call::Keep(0, 1), "Kept"),
        (Call::Keep(0, 4), "Kept"),
        (Call::Keep(0, 2), "Kept"),
        (Call::Take, "7 0.1 yo"),
        (Call::Take, "7 0.2 yo"),
        (Call::Take, "7 0.3 yo"),
        (Call::Take, "7 0.4 yo"),
        (Call::Take, "none"),
        (Call::Taken, "4"),
    ];
    run(&rt, rt.alloc(), 4, STEPS);
}

#[test]
fn a_cast_comes_out_as_it_was_kept(rt: HostRuntime) {
    const STEPS: &[(Call, &str)] = &[(Call::Keep(0, 1), "Kept"), (Call::Take, "7 0.1 yo")];
    run(&rt, rt.alloc(), 4, STEPS);
}

#[test]
fn number_0_is_a_repeat_and_a_repeat_comes_before_too_far(rt: HostRuntime) {
    const STEPS: &[(Call, &str)] = &[
        (Call::Keep(0, 0), "Repeat"),
        (Call::Keep(0, 1), "Kept"),
        (Call::Take, "7 0.1 yo"),
        // Where none is delivered the window ends at 4.
        (Call::Keep(0, 5), "TooFar"),
        (Call::Keep(1, 5), "Kept"),
        (Call::Keep(0, 5), "Repeat"),
        (Call::Keep(0, 6), "TooFar"),
    ];
    run(&rt, rt.alloc(), 4, STEPS);
}

#[test]
fn a_judgement_is_what_a_cast_would_get_and_changes_nothing(rt: HostRuntime) {
    const STEPS: &[(Call, &str)] = &[
        (Call::Judge(0, 0), "Repeat"),
        (Call::Judge(0, 4), "Kept"),
        (Call::Judge(0, 5), "TooFar"),
        (Call::Len, "0"),
        (Call::Keep(0, 1), "Kept"),
        (Call::Len, "1"),
        (Call::Judge(0, 1), "Repeat"),
        (Call::Take, "7 0.1 yo"),
        (Call::Len, "0"),
        (Call::Keep(1, 5), "Kept"),
        // A repeat comes before too far here too.
        (Call::Judge(0, 5), "Repeat"),
        (Call::Judge(0, 6), "TooFar"),
        (Call::Judge(2, 6), "Kept"),
        (Call::Judge(LAST, LAST), "Kept"),
        (Call::Len, "1"),
        (Call::Take, "none"),
    ];
    run(&rt, rt.alloc(), 4, STEPS);
}

#[test]
fn what_would_come_out_is_reported_before_it_is_kept(rt: HostRuntime) {
    const STEPS: &[(Call, &str)] = &[
        (Call::ReadyWith(1), "1"),
        (Call::ReadyWith(2), "0"),
        (Call::ReadyWith(0), "0"),
        (Call::Keep(0, 2), "Kept"),
        (Call::Keep(0, 3), "Kept"),
        (Call::Keep(0, 5), "Kept"),
        (Call::FirstKept, "Some(2)"),
        (Call::ReadyWith(2), "0"),
        (Call::ReadyWith(4), "0"),
        (Call::ReadyWith(1), "3"),
        (Call::Keep(0, 1), "Kept"),
        // What is kept already comes out with any number, and with the one in the gap all does.
        (Call::ReadyWith(0), "3"),
        (Call::ReadyWith(1), "3"),
        (Call::ReadyWith(6), "3"),
        (Call::ReadyWith(4), "5"),
        (Call::Take, "7 0.1 yo"),
        (Call::ReadyWith(1), "2"),
        (Call::Take, "7 0.2 yo"),
        (Call::Take, "7 0.3 yo"),
        (Call::Take, "none"),
        (Call::ReadyWith(3), "0"),
        (Call::ReadyWith(4), "2"),
        (Call::Len, "1"),
    ];
    run(&rt, rt.alloc(), 8, STEPS);
}

#[test]
fn a_cast_is_in_order_where_it_is_the_next_one_and_none_is_kept(rt: HostRuntime) {
    const STEPS: &[(Call, &str)] = &[
        (Call::TakeInOrder(0), "no"),
        (Call::TakeInOrder(2), "no"),
        (Call::TakeInOrder(1), "taken"),
        (Call::Taken, "1"),
        (Call::Len, "0"),
        (Call::TakeInOrder(1), "no"),
        (Call::Keep(1, 3), "Kept"),
        // What is kept would come out with it.
        (Call::TakeInOrder(2), "no"),
        (Call::Keep(1, 2), "Kept"),
        (Call::Take, "7 0.2 yo"),
        (Call::Take, "7 0.3 yo"),
        (Call::TakeInOrder(4), "taken"),
        (Call::Missing(4, 6), "5-6;"),
        (Call::Keep(4, 4), "Repeat"),
    ];
    run(&rt, rt.alloc(), 4, STEPS);
}

/// One is taken; a cast and a burst are kept, with a gap before them.
const BEFORE_THE_COPY: &[(Call, &str)] = &[
    (Call::Keep(0, 1), "Kept"),
    (Call::Take, "7 0.1 yo"),
    (Call::Keep(1, 3), "Kept"),
    (Call::KeepBurst(1, 4, 2), "Kept"),
];

/// What the copy is asked: it goes on, past the last one kept, with a place for each number of the window.
const BY_THE_COPY: &[(Call, &str)] = &[
    (Call::Taken, "1"),
    (Call::Missing(1, 9), "2-2;"),
    (Call::Keep(1, 6), "TooFar"),
    (Call::Keep(1, 2), "Kept"),
    (Call::Take, "7 0.2 yo"),
    (Call::Take, "7 0.3 yo"),
    (Call::Keep(3, 6), "Kept"),
    (Call::Keep(3, 7), "Kept"),
];

const BY_THE_FIRST: &[(Call, &str)] = &[
    (Call::Taken, "1"),
    (Call::Missing(1, 9), "2-2;"),
    (Call::Keep(1, 2), "Kept"),
    (Call::Take, "7 0.2 yo"),
    (Call::Take, "7 0.3 yo"),
    (Call::Take, "7 0.4 a b"),
    (Call::Take, "none"),
];

const BEHIND_BOTH: &[(Call, &str)] = &[
    (Call::Take, "7 0.4 a b"),
    (Call::Take, "7 0.6 yo"),
    (Call::Take, "7 0.7 yo"),
];

#[test]
fn a_copy_goes_on_alike_and_what_one_takes_the_other_keeps(rt: HostRuntime) {
    let mut reorder = Reorder::new(rt.alloc(), 4).expect(&rt, "memory");
    go_on(&rt, rt.alloc(), &mut reorder, BEFORE_THE_COPY);
    let mut copy = reorder.copy().expect(&rt, "memory");
    go_on(&rt, rt.alloc(), &mut copy, BY_THE_COPY);
    go_on(&rt, rt.alloc(), &mut reorder, BY_THE_FIRST);
    go_on(&rt, rt.alloc(), &mut copy, BEHIND_BOTH);
    drop(reorder);
    drop(copy);
}

#[test]
fn each_gap_is_a_range(rt: HostRuntime) {
    const STEPS: &[(Call, &str)] = &[
        (Call::Keep(0, 9), "Kept"),
        (Call::Keep(0, 4), "Kept"),
        (Call::Keep(0, 5), "Kept"),
        (Call::Keep(0, 2), "Kept"),
        (Call::Missing(0, 12), "1-1;3-3;6-8;10-12;"),
        (Call::Missing(0, 9), "1-1;3-3;6-8;"),
        (Call::Missing(0, 7), "1-1;3-3;6-7;"),
        // The window ends at 16, whatever was heard of.
        (Call::Missing(0, LAST), "1-1;3-3;6-8;10-16;"),
    ];
    run(&rt, rt.alloc(), 16, STEPS);
}

#[test]
fn none_is_missing_where_all_that_was_heard_of_came(rt: HostRuntime) {
    const STEPS: &[(Call, &str)] = &[
        (Call::Missing(0, 0), ""),
        (Call::Missing(2, 0), ""),
        (Call::Keep(0, 1), "Kept"),
        (Call::Missing(0, 1), ""),
        (Call::Take, "7 0.1 yo"),
        (Call::Missing(1, 1), ""),
        (Call::Missing(1, 0), ""),
    ];
    run(&rt, rt.alloc(), 4, STEPS);
}

#[test]
fn the_window_ends_at_the_greatest_number(rt: HostRuntime) {
    const STEPS: &[(Call, &str)] = &[
        (Call::Missing(LAST, LAST), "1-4294967295;"),
        (Call::Keep(0, LAST), "TooFar"),
    ];
    run(&rt, rt.alloc(), 4, STEPS);
}

#[test]
fn none_follows_the_greatest_number(rt: HostRuntime) {
    const STEPS: &[(Call, &str)] = &[
        (Call::Missing(LAST - 2, LAST), "4294967294-4294967295;"),
        (Call::Keep(LAST - 2, 1), "Repeat"),
        (Call::ReadyWith(LAST), "0"),
        (Call::Keep(LAST - 2, LAST), "Kept"),
        (Call::Take, "none"),
        (Call::ReadyWith(LAST - 1), "2"),
        (Call::Keep(LAST - 2, LAST - 1), "Kept"),
        (Call::Take, "7 0.4294967294 yo"),
        (Call::ReadyWith(LAST), "1"),
        (Call::Take, "7 0.4294967295 yo"),
        (Call::Take, "none"),
        (Call::ReadyWith(0), "0"),
        (Call::ReadyWith(LAST), "0"),
        (Call::Taken, "4294967295"),
        (Call::TakeInOrder(0), "no"),
        (Call::TakeInOrder(LAST), "no"),
        (Call::Keep(LAST, 0), "Repeat"),
        (Call::Missing(LAST, LAST), ""),
    ];
    play(&rt, rt.alloc(), after(&rt, rt.alloc(), 4, LAST - 2), STEPS);
}

#[test]
fn a_burst_comes_out_whole_and_counts_its_messages(rt: HostRuntime) {
    const STEPS: &[(Call, &str)] = &[
        (Call::ReadyWithBurst(2, 4), "0"),
        (Call::FirstKept, "None"),
        (Call::KeepBurst(0, 2, 3), "Kept"),
        (Call::Len, "1"),
        (Call::Take, "none"),
        (Call::Missing(0, 6), "1-1;5-6;"),
        (Call::ReadyWith(1), "4"),
        (Call::ReadyWithBurst(5, 7), "0"),
        (Call::Keep(0, 1), "Kept"),
        (Call::ReadyWithBurst(5, 7), "7"),
        (Call::ReadyWithBurst(6, 7), "4"),
        (Call::Take, "7 0.1 yo"),
        (Call::ReadyWith(0), "3"),
        (Call::Take, "7 0.2 a b c"),
        (Call::Taken, "4"),
        (Call::Take, "none"),
        (Call::Keep(4, 5), "Kept"),
        (Call::Take, "7 0.5 yo"),
    ];
    run(&rt, rt.alloc(), 8, STEPS);
}

#[test]
fn a_burst_overlaps_where_some_of_its_messages_are_kept_and_others_not(rt: HostRuntime) {
    const STEPS: &[(Call, &str)] = &[
        (Call::KeepBurst(0, 5, 3), "Kept"),
        // The first one, the last one, and those in the middle.
        (Call::KeepBurst(0, 7, 2), "Overlap"),
        (Call::KeepBurst(0, 3, 3), "Overlap"),
        (Call::KeepBurst(0, 4, 5), "Overlap"),
        (Call::KeepBurst(0, 5, 4), "Overlap"),
        // Overlap comes before too far.
        (Call::KeepBurst(0, 7, 20), "Overlap"),
        (Call::JudgeBurst(0, 6, LAST), "Overlap"),
        (Call::Len, "1"),
        (Call::Missing(0, 9), "1-4;8-9;"),
        // All of them.
        (Call::KeepBurst(0, 5, 3), "Repeat"),
        (Call::KeepBurst(0, 6, 2), "Repeat"),
        (Call::Keep(0, 6), "Repeat"),
        // What one unit ends with the next one may go on.
        (Call::KeepBurst(0, 3, 2), "Kept"),
        (Call::Keep(0, 8), "Kept"),
        (Call::JudgeBurst(0, 3, 8), "Repeat"),
        (Call::KeepBurst(0, 4, 5), "Repeat"),
        (Call::KeepBurst(0, 2, 7), "Overlap"),
        (Call::KeepBurst(0, 3, 7), "Overlap"),
        (Call::Keep(0, 10), "Kept"),
        (Call::Keep(0, 11), "Kept"),
        (Call::JudgeBurst(0, 8, 11), "Overlap"),
        (Call::JudgeBurst(0, 10, 11), "Repeat"),
        (Call::Missing(0, 13), "1-2;9-9;12-13;"),
        (Call::ReadyWithBurst(1, 2), "8"),
    ];
    run(&rt, rt.alloc(), 16, STEPS);
}

#[test]
fn what_was_taken_counts_as_received_and_number_0_too(rt: HostRuntime) {
    const STEPS: &[(Call, &str)] = &[
        (Call::KeepBurst(0, 0, 2), "Overlap"),
        (Call::KeepBurst(0, 0, 1), "Repeat"),
        (Call::KeepBurst(0, 1, 3), "Kept"),
        (Call::KeepBurst(0, 0, 4), "Repeat"),
        (Call::Take, "7 0.1 a b c"),
        (Call::KeepBurst(3, 2, 2), "Repeat"),
        (Call::KeepBurst(3, 0, 4), "Repeat"),
        (Call::KeepBurst(3, 3, 2), "Overlap"),
        (Call::KeepBurst(3, 0, 6), "Overlap"),
        (Call::Len, "0"),
        (Call::Keep(3, 4), "Kept"),
        (Call::KeepBurst(3, 3, 2), "Repeat"),
        (Call::JudgeBurst(3, 2, 4), "Repeat"),
        (Call::KeepBurst(3, 2, 4), "Overlap"),
        (Call::Take, "7 0.4 yo"),
    ];
    run(&rt, rt.alloc(), 8, STEPS);
}

#[test]
fn the_last_number_decides_what_is_too_far(rt: HostRuntime) {
    const STEPS: &[(Call, &str)] = &[
        (Call::KeepBurst(0, 4, 2), "TooFar"),
        (Call::JudgeBurst(0, 4, 5), "TooFar"),
        (Call::Keep(0, 2), "Kept"),
        (Call::KeepBurst(0, 1, 2), "Overlap"),
        (Call::JudgeBurst(0, 1, 2), "Overlap"),
        (Call::Keep(0, 1), "Kept"),
        (Call::Take, "7 0.1 yo"),
        (Call::Take, "7 0.2 yo"),
        (Call::Take, "none"),
        (Call::KeepBurst(1, 3, 3), "Kept"),
        (Call::KeepBurst(1, 6, 1), "TooFar"),
        (Call::KeepBurst(2, 6, 1), "Kept"),
        (Call::JudgeBurst(3, 7, 8), "TooFar"),
        (Call::JudgeBurst(4, 7, 8), "Kept"),
    ];
    run(&rt, rt.alloc(), 4, STEPS);
}

#[test]
fn a_burst_may_end_at_the_greatest_number(rt: HostRuntime) {
    const STEPS: &[(Call, &str)] = &[
        (Call::KeepBurst(LAST - 4, LAST, 2), "no numbers"),
        (Call::ReadyWithBurst(LAST - 3, LAST), "4"),
        (Call::KeepBurst(LAST - 4, LAST - 2, 3), "Kept"),
        (Call::ReadyWithBurst(LAST - 3, LAST), "4"),
        (Call::JudgeBurst(LAST - 4, LAST - 3, LAST), "Overlap"),
        (Call::Missing(LAST, LAST), "4294967292-4294967292;"),
        (Call::Keep(LAST - 4, LAST - 3), "Kept"),
        (Call::Take, "7 0.4294967292 yo"),
        (Call::Take, "7 0.4294967293 a b c"),
        (Call::Taken, "4294967295"),
        (Call::Take, "none"),
        (Call::JudgeBurst(0, 0, LAST), "Repeat"),
    ];
    play(&rt, rt.alloc(), after(&rt, rt.alloc(), 4, LAST - 4), STEPS);
}

#[test]
fn a_burst_is_in_order_by_its_first_number(rt: HostRuntime) {
    const STEPS: &[(Call, &str)] = &[
        (Call::TakeBurstInOrder(2, 4), "no"),
        (Call::TakeBurstInOrder(1, 3), "taken"),
        (Call::Taken, "3"),
        (Call::TakeBurstInOrder(3, 5), "no"),
        (Call::Missing(3, 5), "4-5;"),
        (Call::KeepBurst(3, 5, 2), "Kept"),
        (Call::TakeInOrder(4), "no"),
        (Call::Keep(3, 4), "Kept"),
        (Call::Take, "7 0.4 yo"),
        (Call::Take, "7 0.5 a b"),
        (Call::TakeInOrder(7), "taken"),
        (Call::Taken, "7"),
    ];
    run(&rt, rt.alloc(), 4, STEPS);
}
