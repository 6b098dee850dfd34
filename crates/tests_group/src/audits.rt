//! Audits of traces, and what is asked of their joint orders.

use crate::traces::{WORKED, with};
use bytes::Bytes;
use cb_member::{Entry, Group, History, Name};
use cb_trace::{AuditFault, Joint, QueryFault, audit, read_trace};
use cb_world::{Step, World};
use hex::encode;
use std::alloc::Global;
use std::process::Abort;
use std::test::Fail;

/// The worked trace, with what is put in place of a part of it, and the fault that it has then.
const DAMAGED: [(&str, &str, AuditFault); 10] = [
    // member 1 takes a frame that nobody sent
    (
        "entries 1\ncast 1107000100026869\n",
        "entries 0\n",
        AuditFault::Unsent {
            member: 1,
            entry: 1,
        },
    ),
    // a stranger's frame, of the name of another one
    (
        "cast 1107000100026869",
        "cast 110700010002686f",
        AuditFault::Unsent {
            member: 1,
            entry: 1,
        },
    ),
    // a status that member 1 never sent
    (
        "entries 1\ncast 1107000100026869\n",
        "entries 2\ncast 1107000100026869\narrive 120701010001 -\n",
        AuditFault::Unsent {
            member: 0,
            entry: 2,
        },
    ),
    // member 2's entries, exchanged
    (
        "arrive 1107010101000102796f -\narrive 1107000100026869 0.1 1.1\n",
        "arrive 1107000100026869 0.1 1.1\narrive 1107010101000102796f -\n",
        AuditFault::WrongAnswer {
            member: 2,
            entry: 1,
        },
    ),
    // names, exchanged
    (
        "0.1 1.1",
        "1.1 0.1",
        AuditFault::WrongAnswer {
            member: 2,
            entry: 2,
        },
    ),
    // a tick that is no status
    (
        "cast 1107010101000102796f",
        "tick 00",
        AuditFault::WrongAnswer {
            member: 1,
            entry: 2,
        },
    ),
    // a request, which makes no entry
    (
        "arrive 1107010101000102796f -",
        "arrive 13070002010000 -",
        AuditFault::WrongAnswer {
            member: 2,
            entry: 1,
        },
    ),
    // a help frame, which makes none either
    (
        "arrive 1107010101000102796f -",
        "arrive 2307020100010001 -",
        AuditFault::WrongAnswer {
            member: 2,
            entry: 1,
        },
    ),
    // members 0 and 1 alone
    (
        "member 2 entries 2\narrive 1107010101000102796f -\narrive 1107000100026869 0.1 1.1\n",
        "",
        AuditFault::WrongMember,
    ),
    ("member 2", "member 1", AuditFault::WrongMember),
];

/// Each of two members took the other's cast before its own, in which it says so.
const CIRCLE: &str = "cbcast 1 group 7 size 3 window 4
member 0 entries 2
arrive 11070101000161 1.1
cast 110700010101010162
member 1 entries 2
arrive 110700010101010162 -
cast 11070101000161
member 2 entries 0
end
";

/// Member 2 asks for what it lacks when it ticks, so its request is frame 3.
const ASKED: &str = "cbcast 1 group 7 size 3 window 4
member 0 entries 2
cast 11070001000161
cast 11070002000162
member 1 entries 1
arrive 11070201000163 2.1
member 2 entries 3
arrive 11070002000162 -
tick 12070200
cast 11070201000163
end
";

/// A burst of member 0's, and one of member 1's that is ahead of it at member 2. The last cast of member 0 is a burst of one message.
const BURSTS: &str = "cbcast 1 group 7 size 3 window 4
member 0 entries 2
cast 21070001000202686902796f
cast 210700030001022d2d
member 1 entries 2
arrive 21070001000202686902796f 0.1 0.2
cast 210701010100020201610162
member 2 entries 2
arrive 210701010100020201610162 -
arrive 21070001000202686902796f 0.1 0.2 1.1 1.2
end
";

/// The trace of bursts, with what is put in place of a part of it, and the fault that it has then.
const DAMAGED_BURSTS: [(&str, &str, AuditFault); 5] = [
    // the first message alone is delivered
    (
        " 0.1 0.2\ncast",
        " 0.1\ncast",
        AuditFault::WrongAnswer {
            member: 1,
            entry: 1,
        },
    ),
    // it begins with a number that is not the next
    (
        "cast 210700030001022d2d",
        "cast 210700020001022d2d",
        AuditFault::WrongAnswer {
            member: 0,
            entry: 2,
        },
    ),
    // more messages than the window has room for
    (
        "cast 210700030001022d2d",
        "cast 210700030003000000",
        AuditFault::WrongAnswer {
            member: 0,
            entry: 2,
        },
    ),
    // a burst without a message
    (
        "cast 210700030001022d2d",
        "cast 210700030000",
        AuditFault::WrongAnswer {
            member: 0,
            entry: 2,
        },
    ),
    // a cast of member 1's second message, which came in a burst
    (
        "arrive 210701010100020201610162 -\narrive 21070001000202686902796f 0.1 0.2 1.1 1.2\n",
        "arrive 11070102000162 -\narrive 21070001000202686902796f 0.1 0.2\n",
        AuditFault::Unsent {
            member: 2,
            entry: 1,
        },
    ),
];

/// Two members cast before anything arrives.
const AT_ONCE: &str = "cbcast 1 group 7 size 3 window 4
member 0 entries 1
cast 11070001000161
member 1 entries 1
cast 11070101000162
member 2 entries 0
end
";

/// Nobody did anything.
const NOTHING: &str = "cbcast 1 group 7 size 2 window 1
member 0 entries 0
member 1 entries 0
end
";

/// What became of asking whether one message of the worked trace was before another.
const ASKED_OF_IT: [((u32, u32), (u32, u32), Result<bool, QueryFault>); 7] = [
    ((0, 1), (1, 1), Ok(true)),
    ((1, 1), (0, 1), Ok(false)),
    ((0, 1), (0, 1), Ok(false)),
    ((0, 1), (2, 1), Err(QueryFault::UnknownMessage)),
    ((2, 1), (0, 1), Err(QueryFault::UnknownMessage)),
    ((0, 2), (0, 1), Err(QueryFault::UnknownMessage)),
    ((0, 1), (64, 1), Err(QueryFault::UnknownMessage)),
];

const PRINTED: [(AuditFault, &str); 2] = [
    (
        AuditFault::Unsent {
            member: 1,
            entry: 2,
        },
        "Unsent member 1 entry 2",
    ),
    (
        AuditFault::WrongAnswer {
            member: 63,
            entry: 16_777_216,
        },
        "WrongAnswer member 63 entry 16777216",
    ),
];

fn audited(alloc: Global, text: &str) -> Result<Result<Joint, AuditFault>, Fail> {
    Ok(audit(alloc, &read_trace(alloc, text.as_bytes())?))
}

/// The steps, a line for each.
fn steps_of(alloc: Global, joint: &Joint) -> Result<String, Fail> {
    let mut text = String::new(alloc);
    for step in joint.steps() {
        text.push_str(&line_of(alloc, step)?)?;
    }
    Ok(text)
}

fn line_of(alloc: Global, step: &Step) -> Result<String, Fail> {
    Ok(match step {
        Step::Cast(i, payload) => format!(in alloc; "cast {i} {}\n", encode(alloc, payload)?)?,
        Step::Burst(i, payloads) => {
            format!(in alloc; "burst {i}{}\n", words_of(alloc, payloads)?)?
        }
        Step::Arrive(j, number) => format!(in alloc; "arrive {j} {number}\n")?,
        Step::Tick(i) => format!(in alloc; "tick {i}\n")?,
        Step::Help(j, i) => format!(in alloc; "help {j} {i}\n")?,
    })
}

/// The payloads, each behind a space.
fn words_of(alloc: Global, payloads: &[Bytes]) -> Result<String, Fail> {
    let mut words = String::new(alloc);
    for payload in payloads {
        words.push_str(" ")?;
        words.push_str(&encode(alloc, payload)?)?;
    }
    Ok(words)
}

fn name((sender, number): (u32, u32)) -> Name {
    Name { sender, number }
}

/// The longest history of the trace, and the steps of its joint order.
fn found(alloc: Global, text: &str) -> Result<(usize, String), Fail> {
    let joint = audited(alloc, text)??;
    let steps = steps_of(alloc, &joint)?;
    Ok((joint.history_max(), steps))
}

fn is_run_of(
    rt: &impl Abort,
    alloc: Global,
    text: &str,
    history_max: usize,
    steps: &str,
) -> Result<(), Fail> {
    let found = found(alloc, text)?;
    assert_eq!(rt; (found.0, found.1.as_str()), (history_max, steps));
    Ok(())
}

#[test]
fn the_worked_trace_is_a_run_of_these_steps(rt: HostRuntime) -> Result<(), Fail> {
    let steps = "cast 0 6869\narrive 1 0\ncast 1 796f\narrive 2 1\narrive 2 0\n";
    is_run_of(&rt, rt.alloc(), WORKED, 2, steps)
}

#[test]
fn bursts_are_steps_of_their_own(rt: HostRuntime) -> Result<(), Fail> {
    let steps =
        "burst 0 6869 796f\nburst 0 2d2d\narrive 1 0\nburst 1 61 62\narrive 2 2\narrive 2 0\n";
    is_run_of(&rt, rt.alloc(), BURSTS, 2, steps)
}

#[test]
fn the_messages_of_a_burst_are_one_before_the_other(rt: HostRuntime) -> Result<(), Fail> {
    assert_eq!(rt; before(rt.alloc(), BURSTS, (0, 1), (0, 2))?, Ok(true));
    assert_eq!(rt; before(rt.alloc(), BURSTS, (0, 2), (1, 1))?, Ok(true));
    assert_eq!(rt; before(rt.alloc(), BURSTS, (1, 2), (0, 3))?, Ok(false));
    Ok(())
}

#[test]
fn requests_have_frame_numbers_too(rt: HostRuntime) -> Result<(), Fail> {
    let steps = "cast 0 61\ncast 0 62\narrive 2 1\ntick 2\ncast 2 63\narrive 1 4\n";
    is_run_of(&rt, rt.alloc(), ASKED, 3, steps)
}

#[test]
fn of_two_members_the_smaller_goes_first(rt: HostRuntime) -> Result<(), Fail> {
    is_run_of(&rt, rt.alloc(), AT_ONCE, 1, "cast 0 61\ncast 1 62\n")
}

#[test]
fn of_two_casts_at_once_neither_was_before_the_other(rt: HostRuntime) -> Result<(), Fail> {
    // though the one stands first in the order
    assert_eq!(rt; before(rt.alloc(), AT_ONCE, (0, 1), (1, 1))?, Ok(false));
    assert_eq!(rt; before(rt.alloc(), AT_ONCE, (1, 1), (0, 1))?, Ok(false));
    Ok(())
}

/// Whether message `a` of the trace was before message `b`.
fn before(
    alloc: Global,
    text: &str,
    a: (u32, u32),
    b: (u32, u32),
) -> Result<Result<bool, QueryFault>, Fail> {
    let joint = audited(alloc, text)??;
    Ok(joint.before(name(a), name(b)))
}

#[test]
fn empty_histories_are_of_the_empty_run(rt: HostRuntime) -> Result<(), Fail> {
    is_run_of(&rt, rt.alloc(), NOTHING, 1, "")
}

fn fault_of(alloc: Global, text: &str) -> Result<Option<AuditFault>, Fail> {
    Ok(audited(alloc, text)?.err())
}

fn fault_with(alloc: Global, old: &str, new: &str) -> Result<Option<AuditFault>, Fail> {
    let text = with(alloc, WORKED, old, new)?;
    fault_of(alloc, &text)
}

#[test]
fn each_damage_has_its_fault(rt: HostRuntime) -> Result<(), Fail> {
    for (old, new, fault) in &DAMAGED {
        assert_eq!(rt; fault_with(rt.alloc(), old, new)?, Some(*fault));
    }
    Ok(())
}

#[test]
fn each_damage_to_a_burst_has_its_fault(rt: HostRuntime) -> Result<(), Fail> {
    for (old, new, fault) in &DAMAGED_BURSTS {
        let text = with(rt.alloc(), BURSTS, old, new)?;
        assert_eq!(rt; fault_of(rt.alloc(), &text)?, Some(*fault));
    }
    Ok(())
}

#[test]
fn a_circle_has_no_order(rt: HostRuntime) -> Result<(), Fail> {
    let unsent = AuditFault::Unsent {
        member: 0,
        entry: 1,
    };
    assert_eq!(rt; fault_of(rt.alloc(), CIRCLE)?, Some(unsent));
    Ok(())
}

#[test]
fn no_histories_are_of_no_group(rt: HostRuntime) {
    assert_eq!(rt; audit(rt.alloc(), &[]).err(), Some(AuditFault::WrongMember));
}

#[test]
fn what_was_before_what(rt: HostRuntime) -> Result<(), Fail> {
    for (a, b, answer) in &ASKED_OF_IT {
        assert_eq!(rt; before(rt.alloc(), WORKED, *a, *b)?, *answer);
    }
    Ok(())
}

#[test]
fn faults_print_what_they_name(rt: HostRuntime) -> Result<(), Fail> {
    for (fault, printed) in &PRINTED {
        assert_eq!(rt; fault.to_string(rt.alloc())?.as_str(), *printed);
    }
    Ok(())
}

/// A number from the last one, for steps by chance.
fn next(seed: &mut u32) -> u32 {
    *seed = seed.wrapping_mul(1_664_525).wrapping_add(1_013_904_223);
    *seed >> 8
}

fn random_burst(alloc: Global, seed: &mut u32, member: u32) -> Result<Step, Fail> {
    let mut payloads = Vec::new(alloc);
    for _ in 0..next(seed) % 4 {
        payloads.push(Bytes::from_static(b"y"))?;
    }
    Ok(Step::Burst(member, payloads))
}

fn random_step(alloc: Global, seed: &mut u32, sent: usize) -> Result<Step, Fail> {
    let member = next(seed) % 3;
    Ok(match next(seed) % 9 {
        0 => Step::Cast(member, Bytes::from_static(b"x")),
        1 => random_burst(alloc, seed, member)?,
        2 | 3 => Step::Tick(member),
        4 => Step::Help(member, next(seed) % 3),
        _ => Step::Arrive(member, next(seed) as usize % sent.max(1)),
    })
}

/// A world that took some steps by chance.
fn driven(alloc: Global, group: Group, seed: u32) -> Result<World, Fail> {
    let mut world = World::new(alloc, group, 100)?;
    let mut seed = seed;
    for _ in 0..40 {
        let step = random_step(alloc, &mut seed, world.frames().len())?;
        world.step(&step)?;
    }
    Ok(world)
}

fn history_of(alloc: Global, group: Group, world: &World, me: u32) -> Result<History, Fail> {
    let entries = Entry::copies(alloc, world.history(me).unwrap_or(&[]))?;
    Ok(History { group, me, entries })
}

fn histories_of(alloc: Global, group: Group, world: &World) -> Result<Vec<History>, Fail> {
    let mut histories = Vec::new(alloc);
    for me in 0..3 {
        histories.push(history_of(alloc, group, world, me)?)?;
    }
    Ok(histories)
}

fn random_histories(alloc: Global, group: Group, seed: u32) -> Result<Vec<History>, Fail> {
    let world = driven(alloc, group, seed)?;
    histories_of(alloc, group, &world)
}

/// How many steps the joint order of the histories has.
fn steps_in(alloc: Global, histories: &[History]) -> Result<usize, Fail> {
    let joint = audit(alloc, histories)?;
    Ok(joint.steps().len())
}

fn count_of(histories: &[History]) -> usize {
    let mut count: usize = 0;
    for history in histories {
        count = count.saturating_add(history.entries.len());
    }
    count
}

#[test]
fn what_a_world_did_is_a_run(rt: HostRuntime) -> Result<(), Fail> {
    let group = Group::new(7, 3, 4)?;
    for seed in 0..20 {
        let histories = random_histories(rt.alloc(), group, seed)?;
        assert_eq!(rt; steps_in(rt.alloc(), &histories)?, count_of(&histories));
    }
    Ok(())
}
