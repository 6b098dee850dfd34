//! Times that casts expand to, and differences of times.

use crate::asserts::{holds_at, says};
use bytes::Bytes;
use cb_diffs::{ExpandFault, Expander, difference};
use cb_frames::{Burst, Cast, Change, LAST_NUMBER, Unit};
use cb_times::{FEWEST_MEMBERS, MOST_MEMBERS, NoMemory, TimeOrder, VectorTime};
use std::alloc::Global;
use std::marker::Model;
use std::process::Abort;
use std::test::*;

/// A cast of group 7, and its time or the fault that it is refused for.
#[derive(Drop)]
struct Step<'a> {
    sender: u32,
    number: u32,
    changes: &'a [(u32, u32)],
    gives: &'a str,
}

fn cast(rt: &impl Abort, alloc: Global, step: &Step<'_>) -> Cast {
    let mut changes = Vec::new(alloc);
    for (field, amount) in step.changes {
        let change = Change {
            field: *field,
            amount: *amount,
        };
        changes.push(change).expect(rt, "memory");
    }
    Cast {
        group: 7,
        sender: step.sender,
        number: step.number,
        changes,
        payload: Bytes::new(),
    }
}

/// A cast of group 7, or a burst of so many messages from that number on, and the time of its first message or its fault.
#[derive(Drop)]
struct FrameStep<'a> {
    messages: Option<usize>,
    step: Step<'a>,
}

fn unit(rt: &impl Abort, alloc: Global, frame: &FrameStep<'_>) -> Unit {
    let cast = cast(rt, alloc, &frame.step);
    match frame.messages {
        None => Unit::One(cast),
        Some(count) => Unit::Many(burst_like(rt, alloc, cast, count)),
    }
}

fn burst_like(rt: &impl Abort, alloc: Global, cast: Cast, count: usize) -> Burst {
    let mut payloads = Vec::new(alloc);
    for _ in 0..count {
        payloads.push(Bytes::new()).expect(rt, "memory");
    }
    Burst {
        group: cast.group,
        sender: cast.sender,
        first: cast.number,
        changes: cast.changes,
        payloads,
    }
}

ghost use Rattle.std.specs.Prelude.{◌≤◌, IsTrue};
ghost use Rattle.cb_frames.specs.Fields.{IsSome, burst_fields, last_number};
ghost use Rattle.cb_diffs.specs.Expansion.{greatest};

/// Some payload, and a number for each.
fn has_numbers(burst: &Burst) -> bool
    ensures { IsTrue result → (IsSome (burst_fields burst.now).load)
        × (last_number (burst_fields burst.now) ≤ greatest) }
{
    let count = burst.payloads.len();
    if count == 0 || u64::from(burst.first) + (count as u64 - 1) > u64::from(LAST_NUMBER) {
        return false;
    }
    true
}

/// An expander and the time that it fills.
#[derive(Drop)]
struct Filling {
    expander: Expander,
    into: VectorTime,
}

impl Model for Filling {
    ghost use Rattle.std.specs.Prelude.{◌≡◌, ℕ, List, length};

    ghost Value = { List (List ℕ) };

    ghost view = { λ f. f.expander };

    ghost invariant = { λ f. length f.into ≡ length f.expander };
}

impl Filling {
    ghost use Rattle.cb_times.specs.Group.{IsGroupSize};

    fn new(alloc: Global, size: u32) -> Result<Filling, NoMemory>
        requires { IsGroupSize size }
    {
        Ok(Filling {
            expander: Expander::new(alloc, size)?,
            into: VectorTime::zero(alloc, size)?,
        })
    }

    fn fill(&mut self, rt: &impl Abort, unit: &Unit) -> Result<(), ExpandFault> {
        match unit {
            Unit::One(cast) => self.expander.expand_into(cast, &mut self.into),
            Unit::Many(burst) => {
                if !has_numbers(burst) {
                    panic!(rt; "a burst has payloads, and numbers for them");
                }
                self.expander.burst_into(burst, &mut self.into)
            }
        }
    }
}

fn expand(
    rt: &impl Abort,
    expander: &mut Expander,
    unit: &Unit,
) -> Result<VectorTime, ExpandFault> {
    match unit {
        Unit::One(cast) => expander.expand(cast),
        Unit::Many(burst) => {
            if !has_numbers(burst) {
                panic!(rt; "a burst has payloads, and numbers for them");
            }
            expander.burst(burst)
        }
    }
}

/// What `expand` says of the cast, or `burst` of the burst.
fn expanded(
    rt: &impl Abort,
    alloc: Global,
    expander: &mut Expander,
    unit: &Unit,
) -> Result<String, NoMemory> {
    match expand(rt, expander, unit) {
        Ok(time) => time.to_string(alloc),
        Err(fault) => fault.to_string(alloc),
    }
}

/// What `expand_into` says of the cast, or `burst_into` of the burst. A fault leaves the time as it was.
fn filled(
    rt: &impl Abort,
    alloc: Global,
    filling: &mut Filling,
    unit: &Unit,
) -> Result<String, NoMemory> {
    let before = filling.into.copy().expect(rt, "memory");
    let answer = filling.fill(rt, unit);
    let is_as_before = filling.into.as_slice() == before.as_slice();
    drop(before);
    match answer {
        Ok(()) => filling.into.to_string(alloc),
        Err(fault) => {
            holds_at(rt, is_as_before, &fault);
            fault.to_string(alloc)
        }
    }
}

ghost use Rattle.cb_times.specs.Group.{IsGroupSize};

/// Each cast has the answer that stands beside it, by both calls.
fn expand_all(rt: &impl Abort, alloc: Global, size: u32, steps: &[Step<'_>])
    requires { IsGroupSize size }
{
    let mut expander = Expander::new(alloc, size).expect(rt, "memory");
    let mut filling = Filling::new(alloc, size).expect(rt, "memory");
    for step in steps {
        let cast = Unit::One(cast(rt, alloc, step));
        expand_one(rt, alloc, (&mut expander, &mut filling), &cast, step.gives);
        drop(cast);
    }
    drop(expander);
    drop(filling);
}

/// Each frame has the answer that stands beside it, by both calls for its kind.
fn expand_frames(rt: &impl Abort, alloc: Global, frames: &[FrameStep<'_>]) {
    let mut expander = Expander::new(alloc, 3).expect(rt, "memory");
    let mut filling = Filling::new(alloc, 3).expect(rt, "memory");
    for frame in frames {
        let unit = unit(rt, alloc, frame);
        expand_one(
            rt,
            alloc,
            (&mut expander, &mut filling),
            &unit,
            frame.step.gives,
        );
        drop(unit);
    }
    drop(expander);
    drop(filling);
}

fn expand_one(
    rt: &impl Abort,
    alloc: Global,
    by_both: (&mut Expander, &mut Filling),
    unit: &Unit,
    gives: &str,
) {
    let (expander, filling) = by_both;
    says(rt, expanded(rt, alloc, expander, unit), gives);
    says(rt, filled(rt, alloc, filling, unit), gives);
}

#[test]
fn increments_count_from_the_senders_own_last_cast(rt: HostRuntime) {
    let steps = [
        Step {
            sender: 2,
            number: 1,
            changes: &[(0, 3), (1, 1), (4, 2)],
            gives: "[3,1,1,0,2]",
        },
        Step {
            sender: 0,
            number: 1,
            changes: &[(3, 9)],
            gives: "[1,0,0,9,0]",
        },
        Step {
            sender: 2,
            number: 2,
            changes: &[(0, 200)],
            gives: "[203,1,2,0,2]",
        },
    ];
    expand_all(&rt, rt.alloc(), 5, &steps);
}

const FAULTS: &[Step<'static>] = &[
    Step {
        sender: 3,
        number: 9,
        changes: &[],
        gives: "BadMember",
    },
    Step {
        sender: 1,
        number: 9,
        changes: &[(3, 1)],
        gives: "BadMember",
    },
    Step {
        sender: 1,
        number: 2,
        changes: &[(0, 1)],
        gives: "NotNext expected 1 found 2",
    },
    Step {
        sender: 1,
        number: 0,
        changes: &[],
        gives: "NotNext expected 1 found 0",
    },
    Step {
        sender: 1,
        number: 1,
        changes: &[(0, 1)],
        gives: "[1,1,0]",
    },
    Step {
        sender: 1,
        number: 1,
        changes: &[(0, 1)],
        gives: "NotNext expected 2 found 1",
    },
    Step {
        sender: 1,
        number: 2,
        changes: &[(3, 1)],
        gives: "BadMember",
    },
    Step {
        sender: 1,
        number: 2,
        changes: &[],
        gives: "[1,2,0]",
    },
];

#[test]
fn faults_come_in_their_order_and_change_nothing(rt: HostRuntime) {
    expand_all(&rt, rt.alloc(), 3, FAULTS);
}

#[test]
fn a_field_stays_at_the_greatest_number(rt: HostRuntime) {
    let steps = [
        Step {
            sender: 1,
            number: 1,
            changes: &[(0, 4_294_967_295)],
            gives: "[4294967295,1,0]",
        },
        Step {
            sender: 1,
            number: 2,
            changes: &[(0, 1)],
            gives: "[4294967295,2,0]",
        },
    ];
    expand_all(&rt, rt.alloc(), 3, &steps);
}

/// Two messages of member 0, two of member 1 after them, and what these and member 2 cast then.
const BURSTS: &[FrameStep<'static>] = &[
    FrameStep {
        messages: Some(2),
        step: Step {
            sender: 0,
            number: 1,
            changes: &[],
            gives: "[1,0,0]",
        },
    },
    FrameStep {
        messages: Some(2),
        step: Step {
            sender: 1,
            number: 1,
            changes: &[(0, 2)],
            gives: "[2,1,0]",
        },
    },
    FrameStep {
        messages: None,
        step: Step {
            sender: 1,
            number: 3,
            changes: &[],
            gives: "[2,3,0]",
        },
    },
    FrameStep {
        messages: None,
        step: Step {
            sender: 2,
            number: 1,
            changes: &[(0, 2), (1, 3)],
            gives: "[2,3,1]",
        },
    },
    FrameStep {
        messages: Some(3),
        step: Step {
            sender: 0,
            number: 3,
            changes: &[(2, 1)],
            gives: "[3,0,1]",
        },
    },
    FrameStep {
        messages: Some(1),
        step: Step {
            sender: 2,
            number: 2,
            changes: &[(0, 3)],
            gives: "[5,3,2]",
        },
    },
    FrameStep {
        messages: None,
        step: Step {
            sender: 0,
            number: 6,
            changes: &[(1, 3), (2, 1)],
            gives: "[6,3,2]",
        },
    },
];

#[test]
fn the_changes_of_a_burst_count_once_and_its_last_number_is_kept(rt: HostRuntime) {
    expand_frames(&rt, rt.alloc(), BURSTS);
}

const REFUSED_BURSTS: &[FrameStep<'static>] = &[
    FrameStep {
        messages: Some(2),
        step: Step {
            sender: 3,
            number: 9,
            changes: &[],
            gives: "BadMember",
        },
    },
    FrameStep {
        messages: Some(2),
        step: Step {
            sender: 1,
            number: 9,
            changes: &[(3, 1)],
            gives: "BadMember",
        },
    },
    FrameStep {
        messages: Some(2),
        step: Step {
            sender: 1,
            number: 2,
            changes: &[(0, 1)],
            gives: "NotNext expected 1 found 2",
        },
    },
    FrameStep {
        messages: Some(2),
        step: Step {
            sender: 1,
            number: 0,
            changes: &[],
            gives: "NotNext expected 1 found 0",
        },
    },
    FrameStep {
        messages: Some(2),
        step: Step {
            sender: 1,
            number: 1,
            changes: &[(0, 1)],
            gives: "[1,1,0]",
        },
    },
    FrameStep {
        messages: Some(2),
        step: Step {
            sender: 1,
            number: 1,
            changes: &[(0, 1)],
            gives: "NotNext expected 3 found 1",
        },
    },
    FrameStep {
        messages: Some(2),
        step: Step {
            sender: 1,
            number: 2,
            changes: &[],
            gives: "NotNext expected 3 found 2",
        },
    },
    FrameStep {
        messages: None,
        step: Step {
            sender: 1,
            number: 2,
            changes: &[],
            gives: "NotNext expected 3 found 2",
        },
    },
    FrameStep {
        messages: Some(2),
        step: Step {
            sender: 1,
            number: 4,
            changes: &[],
            gives: "NotNext expected 3 found 4",
        },
    },
    FrameStep {
        messages: Some(2),
        step: Step {
            sender: 1,
            number: 3,
            changes: &[(3, 1)],
            gives: "BadMember",
        },
    },
    FrameStep {
        messages: Some(2),
        step: Step {
            sender: 1,
            number: 3,
            changes: &[(2, 1)],
            gives: "[1,3,1]",
        },
    },
    FrameStep {
        messages: None,
        step: Step {
            sender: 1,
            number: 5,
            changes: &[],
            gives: "[1,5,1]",
        },
    },
];

#[test]
fn a_burst_is_refused_as_a_cast_is(rt: HostRuntime) {
    expand_frames(&rt, rt.alloc(), REFUSED_BURSTS);
}

const GREATEST_IN_BURSTS: &[FrameStep<'static>] = &[
    FrameStep {
        messages: Some(2),
        step: Step {
            sender: 1,
            number: 1,
            changes: &[(0, 4_294_967_295)],
            gives: "[4294967295,1,0]",
        },
    },
    FrameStep {
        messages: Some(2),
        step: Step {
            sender: 1,
            number: 3,
            changes: &[(0, 1)],
            gives: "[4294967295,3,0]",
        },
    },
    FrameStep {
        messages: None,
        step: Step {
            sender: 1,
            number: 5,
            changes: &[(0, 1)],
            gives: "[4294967295,5,0]",
        },
    },
    FrameStep {
        messages: Some(2),
        step: Step {
            sender: 0,
            number: LAST_NUMBER - 1,
            changes: &[],
            gives: "NotNext expected 1 found 4294967294",
        },
    },
    FrameStep {
        messages: Some(1),
        step: Step {
            sender: 0,
            number: LAST_NUMBER,
            changes: &[],
            gives: "NotNext expected 1 found 4294967295",
        },
    },
];

#[test]
fn a_burst_stays_at_the_greatest_number(rt: HostRuntime) {
    expand_frames(&rt, rt.alloc(), GREATEST_IN_BURSTS);
}

/// Each cast has the answer that stands beside it.
fn go_on(rt: &impl Abort, alloc: Global, expander: &mut Expander, steps: &[Step<'_>]) {
    for step in steps {
        let cast = Unit::One(cast(rt, alloc, step));
        says(rt, expanded(rt, alloc, expander, &cast), step.gives);
        drop(cast);
    }
}

const BEFORE_THE_COPY: &[Step<'static>] = &[
    Step {
        sender: 1,
        number: 1,
        changes: &[(0, 1)],
        gives: "[1,1,0]",
    },
    Step {
        sender: 2,
        number: 1,
        changes: &[],
        gives: "[0,0,1]",
    },
];

const BY_THE_COPY: &[Step<'static>] = &[
    Step {
        sender: 1,
        number: 2,
        changes: &[(2, 4)],
        gives: "[1,2,4]",
    },
    Step {
        sender: 2,
        number: 2,
        changes: &[],
        gives: "[0,0,2]",
    },
];

const BY_THE_FIRST: &[Step<'static>] = &[
    Step {
        sender: 1,
        number: 2,
        changes: &[(0, 8)],
        gives: "[9,2,0]",
    },
    Step {
        sender: 2,
        number: 3,
        changes: &[],
        gives: "NotNext expected 2 found 3",
    },
];

const BEHIND_BOTH: &[Step<'static>] = &[Step {
    sender: 1,
    number: 3,
    changes: &[],
    gives: "[1,3,4]",
}];

#[test]
fn a_copy_goes_on_alike_and_what_one_expands_the_other_does_not(rt: HostRuntime) {
    let mut expander = Expander::new(rt.alloc(), 3).expect(&rt, "memory");
    go_on(&rt, rt.alloc(), &mut expander, BEFORE_THE_COPY);
    let mut copy = expander.copy().expect(&rt, "memory");
    go_on(&rt, rt.alloc(), &mut copy, BY_THE_COPY);
    go_on(&rt, rt.alloc(), &mut expander, BY_THE_FIRST);
    go_on(&rt, rt.alloc(), &mut copy, BEHIND_BOTH);
    drop(expander);
    drop(copy);
}

fn time_of(rt: &impl Abort, alloc: Global, fields: &[u32]) -> VectorTime {
    let mut time = zero(rt, alloc, fields.len());
    for (k, count) in (0..time.size()).zip(fields) {
        if k < time.size() {
            time.set(k, *count);
        }
    }
    time
}

fn zero(rt: &impl Abort, alloc: Global, size: usize) -> VectorTime {
    if size < FEWEST_MEMBERS as usize || size > MOST_MEMBERS as usize {
        panic!(rt; "no time of a group");
    }
    VectorTime::zero(alloc, size as u32).expect(rt, "memory")
}

/// Two times of a sender, and by how much the other fields grew between them.
#[derive(Drop)]
struct Growth<'a> {
    previous: &'a [u32],
    now: &'a [u32],
    own: u32,
    changes: &'a [(u32, u32)],
}

fn differ(rt: &impl Abort, alloc: Global, growth: &Growth<'_>) {
    let previous = time_of(rt, alloc, growth.previous);
    let now = time_of(rt, alloc, growth.now);
    let changes = difference_of(rt, alloc, &previous, &now, growth.own);
    drop(previous);
    drop(now);
    are_changes(rt, &changes, growth.changes);
    drop(changes);
}

fn difference_of(
    rt: &impl Abort,
    alloc: Global,
    previous: &VectorTime,
    now: &VectorTime,
    own: u32,
) -> Vec<Change> {
    if previous.size() != now.size() || own >= now.size() {
        panic!(rt; "the times and their sender are of one group");
    }
    let TimeOrder::Before = previous.compare(now) else {
        panic!(rt; "the times are in their order");
    };
    difference(alloc, previous, now, own).expect(rt, "memory")
}

fn are_changes(rt: &impl Abort, changes: &[Change], expected: &[(u32, u32)]) {
    let is_each = changes.iter().zip(expected).all(is_change);
    holds_at(rt, is_each && changes.len() == expected.len(), &changes);
}

fn is_change(pair: (&Change, &(u32, u32))) -> bool {
    let (change, (field, amount)) = pair;
    change.field == *field && change.amount == *amount
}

#[test]
fn differences_are_of_the_other_fields_that_grew(rt: HostRuntime) {
    let rows = [
        Growth {
            previous: &[0, 0, 0],
            now: &[1, 1, 0],
            own: 1,
            changes: &[(0, 1)],
        },
        Growth {
            previous: &[1, 1, 0],
            now: &[1, 2, 0],
            own: 1,
            changes: &[],
        },
        Growth {
            previous: &[0, 0, 0, 0, 0],
            now: &[3, 1, 1, 0, 2],
            own: 2,
            changes: &[(0, 3), (1, 1), (4, 2)],
        },
        Growth {
            previous: &[3, 1, 1, 0, 2],
            now: &[203, 1, 2, 0, 2],
            own: 2,
            changes: &[(0, 200)],
        },
    ];
    for row in &rows {
        differ(&rt, rt.alloc(), row);
    }
}

#[test]
fn a_fault_prints_its_name_and_its_numbers(rt: HostRuntime) {
    let last = ExpandFault::NotNext {
        expected: 3,
        found: 4_294_967_295,
    };
    let texts = [
        (ExpandFault::BadMember, "BadMember"),
        (last, "NotNext expected 3 found 4294967295"),
        (ExpandFault::NoMemory, "NoMemory"),
    ];
    for (fault, text) in texts {
        says(&rt, fault.to_string(rt.alloc()), text);
    }
}
