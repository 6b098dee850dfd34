//! Frames that no member of the group sent, each with its answer.
//!
//! The group has the number 7, three members and a window of 4.

use crate::damage::{Part, text_of};
use crate::forms::{Forms, is_text};
use cb_history::Group;
use std::alloc::Global;
use std::process::Abort;
use std::test::*;

/// What is asked of a member.
#[derive(Clone, Copy)]
enum Call {
    /// To take these bytes, which were received.
    Take(&'static [u8]),
    /// And bytes of several parts.
    TakeParts(&'static [Part]),
    /// To report to the others what it has.
    Tick,
    /// Its time, and what it misses of a member.
    Time,
    Missing(u32),
}

/// Calls of a member that has made so many empty casts, each with its answer.
struct Script {
    me: u32,
    casts: usize,
    calls: &'static [(Call, &'static str)],
}

/// Member 1 says that it has all casts of member 0 that there can be. So many as the window are asked for, and no cast beyond it is
/// taken. Member 0 knows better.
const A_STATUS_THAT_SAYS_THE_GREATEST_NUMBER: &[Script] = &[
    Script {
        me: 2,
        casts: 0,
        calls: &[
            (
                Call::Take(b"\x11\x07\x00\xff\xff\xff\xff\x0f\x00\x00"),
                "TooFar",
            ),
            (
                Call::Take(b"\x12\x07\x01\x01\x00\xff\xff\xff\xff\x0f"),
                "changed",
            ),
            (Call::Missing(0), "1-4;"),
            (
                Call::Tick,
                "entered, to all: 12070200, to 0: 13070200010003",
            ),
            (
                Call::Take(b"\x11\x07\x00\x01\x00\x02hi"),
                "changed, 0.1 [1,0,0]",
            ),
            (Call::Missing(0), "2-5;"),
            (
                Call::Tick,
                "entered, to all: 120702010001, to 0: 13070200010103",
            ),
        ],
    },
    Script {
        me: 0,
        casts: 0,
        calls: &[
            (
                Call::Take(b"\x12\x07\x01\x01\x00\xff\xff\xff\xff\x0f"),
                "Impossible",
            ),
            (Call::Missing(1), ""),
        ],
    },
];

/// Of fields that the group does not have, of the member itself, and of its casts.
const STATUSES_THAT_SAY_TOO_MUCH: &[Script] = &[
    Script {
        me: 2,
        casts: 0,
        calls: &[
            (
                Call::TakeParts(&[(1, b"\x12\x07\x01\x40"), (64, b"\x00\x01")]),
                "BadMember",
            ),
            (Call::Missing(0), ""),
            (Call::Missing(1), ""),
        ],
    },
    Script {
        me: 2,
        casts: 1,
        calls: &[
            (Call::Take(b"\x12\x07\x02\x01\x02\x01"), "unchanged"),
            (Call::Take(b"\x12\x07\x02\x01\x02\x02"), "Impossible"),
            (
                Call::Take(b"\x12\x07\x02\x02\x00\x01\x01\x01"),
                "Impossible",
            ),
            (Call::Take(b"\x12\x07\x01\x01\x02\x02"), "Impossible"),
            (Call::Missing(0), ""),
            (Call::Time, "[0,0,1]"),
            (Call::Take(b"\x12\x07\x01\x01\x02\x01"), "changed"),
        ],
    },
];

/// Two members of which each says that it has the other's cast, and one that sends two casts of one name.
const CASTS_THAT_LIE: &[Script] = &[
    Script {
        me: 2,
        casts: 0,
        calls: &[
            (Call::Take(b"\x11\x07\x00\x01\x01\x01\x01\x00"), "changed"),
            (Call::Take(b"\x11\x07\x01\x01\x01\x00\x01\x00"), "changed"),
            (Call::Take(b"\x11\x07\x00\x01\x00\x00"), "repeat"),
            (Call::Missing(0), ""),
            (Call::Missing(1), ""),
            (Call::Time, "[0,0,0]"),
        ],
    },
    Script {
        me: 2,
        casts: 0,
        calls: &[
            (
                Call::Take(b"\x11\x07\x00\x01\x00\x02hi"),
                "changed, 0.1 [1,0,0]",
            ),
            (Call::Take(b"\x11\x07\x00\x01\x00\x02ho"), "repeat"),
            (Call::Take(b"\x11\x07\x00\x03\x00\x02hi"), "changed"),
            (Call::Take(b"\x11\x07\x00\x03\x00\x02ho"), "repeat"),
            (Call::Time, "[1,0,0]"),
        ],
    },
];

/// The widest range has each number, and one more is none.
const REQUESTS_FOR_ALL_THERE_CAN_BE: &[Script] = &[Script {
    me: 2,
    casts: 2,
    calls: &[
        (
            Call::Take(b"\x13\x07\x00\x02\x01\x00\xfe\xff\xff\xff\x0f"),
            "unchanged, to 0: 110702010000, to 0: 110702020000",
        ),
        (
            Call::Take(b"\x13\x07\x00\x02\x01\x00\xff\xff\xff\xff\x0f"),
            "Malformed(BadRange)",
        ),
        (
            Call::Take(b"\x13\x07\x00\x02\x01\xfe\xff\xff\xff\x0f\x00"),
            "unchanged",
        ),
        (
            Call::Take(b"\x13\x07\x00\x02\x01\xff\xff\xff\xff\x0f\x00"),
            "Malformed(BadRange)",
        ),
    ],
}];

/// Of bytes, changes, values, ranges and payloads.
const COUNTS_THAT_PROMISE_MORE_THAN_COMES: &[Script] = &[Script {
    me: 2,
    casts: 0,
    calls: &[
        (
            Call::TakeParts(&[(1, b"\x11\x07\x00\x01\x00\x80\x08"), (1_023, b"a")]),
            "Malformed(Short)",
        ),
        (
            Call::Take(b"\x11\x07\x00\x01\xff\xff\xff\xff\x0f"),
            "Malformed(Short)",
        ),
        (
            Call::Take(b"\x12\x07\x00\xff\xff\xff\xff\x0f\x00\x01"),
            "Malformed(Short)",
        ),
        (
            Call::Take(b"\x13\x07\x00\x02\x20\x00\x00"),
            "Malformed(Short)",
        ),
        (
            Call::Take(b"\x23\x07\x00\x02\x01\x20\x00\x00"),
            "Malformed(Short)",
        ),
        (
            Call::Take(b"\x21\x07\x00\x01\xff\xff\xff\xff\x0f"),
            "Malformed(Short)",
        ),
        (
            Call::Take(b"\x21\x07\x00\x01\x00\x20\x00"),
            "Malformed(Short)",
        ),
        (
            Call::Take(b"\x21\x07\x00\x01\x00\xff\xff\xff\xff\x0f"),
            "Malformed(BurstTooLong)",
        ),
        (
            Call::Take(b"\x21\x07\x00\x01\x00\x02\x80\x08a"),
            "Malformed(Short)",
        ),
        (
            Call::TakeParts(&[
                (1, b"\x21\x07\x00\x01\x00\x02\x80\x08"),
                (1_024, b"a"),
                (1, b"\x01"),
            ]),
            "Malformed(PayloadTooLong)",
        ),
        (Call::Missing(0), ""),
    ],
}];

/// Numbers that are there in part, come again, go past the window or past the greatest number; own numbers; and times that pass it.
const BURSTS_WITH_WRONG_NUMBERS: &[Script] = &[
    Script {
        me: 2,
        casts: 0,
        calls: &[
            (
                Call::Take(b"\x21\x07\x00\xfe\xff\xff\xff\x0f\x00\x02\x00\x00"),
                "TooFar",
            ),
            (
                Call::Take(b"\x21\x07\x00\xff\xff\xff\xff\x0f\x00\x02\x00\x00"),
                "Malformed(BurstTooLong)",
            ),
            (Call::Take(b"\x21\x07\x00\x02\x00\x02\x00\x00"), "changed"),
            (Call::Take(b"\x21\x07\x00\x03\x00\x02\x00\x00"), "Overlap"),
            (Call::Take(b"\x21\x07\x00\x01\x00\x02\x00\x00"), "Overlap"),
            (
                Call::Take(b"\x21\x07\x00\x01\x00\x04\x00\x00\x00\x00"),
                "Overlap",
            ),
            (
                Call::TakeParts(&[(1, b"\x21\x07\x00\x03\x00\x20"), (32, b"\x00")]),
                "Overlap",
            ),
            (Call::Take(b"\x21\x07\x00\x02\x00\x01\x01x"), "repeat"),
            (Call::Take(b"\x11\x07\x00\x03\x00\x01x"), "repeat"),
            (Call::Missing(0), "1-1;"),
            (
                Call::Take(b"\x21\x07\x00\x01\x00\x01\x00"),
                "changed, 0.1 [1,0,0], 0.2 [2,0,0], 0.3 [3,0,0]",
            ),
            (Call::Time, "[3,0,0]"),
        ],
    },
    Script {
        me: 2,
        casts: 1,
        calls: &[
            (Call::Take(b"\x21\x07\x02\x01\x00\x01\x01x"), "repeat"),
            (
                Call::Take(b"\x21\x07\x02\x01\x00\x02\x00\x00"),
                "Impossible",
            ),
            (Call::Take(b"\x21\x07\x02\x02\x00\x01\x00"), "Impossible"),
            (Call::Time, "[0,0,1]"),
        ],
    },
    Script {
        me: 2,
        casts: 0,
        calls: &[
            (
                Call::Take(b"\x21\x07\x01\x01\x01\x00\xff\xff\xff\xff\x0f\x02\x00\x00"),
                "changed",
            ),
            (
                Call::Take(b"\x21\x07\x01\x03\x01\x00\x01\x02\x00\x00"),
                "changed",
            ),
            (Call::Missing(0), "1-4;"),
            (Call::Time, "[0,0,0]"),
        ],
    },
];

/// Where two of three members are one or one is none, for all casts there can be, and of a sender that nobody has heard of.
const HELP_FRAMES: &[Script] = &[
    Script {
        me: 1,
        casts: 0,
        calls: &[
            (
                Call::Take(b"\x11\x07\x00\x01\x00\x00"),
                "changed, 0.1 [1,0,0]",
            ),
            (
                Call::Take(b"\x11\x07\x00\x02\x00\x00"),
                "changed, 0.2 [2,0,0]",
            ),
            (
                Call::Take(b"\x23\x07\x02\x01\x00\x01\x00\xfe\xff\xff\xff\x0f"),
                "unchanged, to 2: 110700010000, to 2: 110700020000",
            ),
            (
                Call::Take(b"\x23\x07\x02\x01\x00\x01\x00\xff\xff\xff\xff\x0f"),
                "Malformed(BadRange)",
            ),
            (
                Call::Take(b"\x23\x07\x02\x01\x00\x01\xfe\xff\xff\xff\x0f\x00"),
                "unchanged",
            ),
            (
                Call::Take(b"\x23\x07\x01\x01\x00\x01\x00\x00"),
                "Impossible",
            ),
            (
                Call::Take(b"\x23\x07\x02\x01\x01\x01\x00\x00"),
                "Impossible",
            ),
            (
                Call::Take(b"\x23\x07\x02\x01\x02\x01\x00\x00"),
                "Impossible",
            ),
            (Call::Take(b"\x23\x07\x02\x01\x03\x01\x00\x00"), "BadMember"),
            (Call::Take(b"\x23\x07\x02\x03\x00\x01\x00\x00"), "BadMember"),
            (Call::Take(b"\x23\x07\x03\x01\x00\x01\x00\x00"), "BadMember"),
            (Call::Take(b"\x23\x07\x02\x01\x40"), "Malformed(BadIndex)"),
            (
                Call::Take(b"\x23\x08\x02\x01\x00\x01\x00\x00"),
                "OtherGroup",
            ),
            (Call::Time, "[2,0,0]"),
        ],
    },
    Script {
        me: 1,
        casts: 0,
        calls: &[
            (
                Call::Take(b"\x23\x07\x00\x01\x02\x01\x00\xfe\xff\xff\xff\x0f"),
                "unchanged",
            ),
            (
                Call::Take(b"\x23\x07\x02\x00\x01\x01\x00\xfe\xff\xff\xff\x0f"),
                "unchanged",
            ),
            (Call::Missing(0), ""),
            (Call::Missing(2), ""),
        ],
    },
];

#[test]
fn a_status_that_says_the_greatest_number(rt: HostRuntime) {
    play(&rt, rt.alloc(), A_STATUS_THAT_SAYS_THE_GREATEST_NUMBER);
}

#[test]
fn statuses_that_say_too_much(rt: HostRuntime) {
    play(&rt, rt.alloc(), STATUSES_THAT_SAY_TOO_MUCH);
}

#[test]
fn casts_that_lie(rt: HostRuntime) {
    play(&rt, rt.alloc(), CASTS_THAT_LIE);
}

#[test]
fn requests_for_all_there_can_be(rt: HostRuntime) {
    play(&rt, rt.alloc(), REQUESTS_FOR_ALL_THERE_CAN_BE);
}

#[test]
fn counts_that_promise_more_than_comes(rt: HostRuntime) {
    play(&rt, rt.alloc(), COUNTS_THAT_PROMISE_MORE_THAN_COMES);
}

#[test]
fn bursts_with_wrong_numbers(rt: HostRuntime) {
    play(&rt, rt.alloc(), BURSTS_WITH_WRONG_NUMBERS);
}

#[test]
fn help_frames(rt: HostRuntime) {
    play(&rt, rt.alloc(), HELP_FRAMES);
}

/// Each script with a member of its own.
fn play(rt: &impl Abort, alloc: Global, scripts: &[Script]) {
    for script in scripts {
        let mut member = caster(rt, alloc, script);
        answers(rt, alloc, &mut member, script.calls);
        drop(member);
    }
}

/// The member of the script, which has made its casts.
fn caster(rt: &impl Abort, alloc: Global, script: &Script) -> Forms {
    let group = Group::new(7, 3, 4).expect(rt, "a group");
    let mut member = Forms::new(rt, alloc, group, script.me);
    for _ in 0..script.casts {
        member.cast(rt);
    }
    member
}

/// Each call has the answer that stands beside it.
fn answers(rt: &impl Abort, alloc: Global, member: &mut Forms, calls: &[(Call, &str)]) {
    for (call, expected) in calls {
        is_text(rt, answer(rt, alloc, member, *call), expected);
    }
}

fn answer(rt: &impl Abort, alloc: Global, member: &mut Forms, call: Call) -> String {
    match call {
        Call::Take(bytes) => member.take(rt, alloc, bytes),
        Call::TakeParts(parts) => {
            let bytes = text_of(rt, alloc, parts);
            let answer = member.take(rt, alloc, &bytes);
            drop(bytes);
            answer
        }
        Call::Tick => member.tick(rt, alloc),
        Call::Time => member.time(rt, alloc),
        Call::Missing(i) => member.missing(rt, alloc, i),
    }
}
