//! A locked member answers as one without a lock.

ghost use Rattle.std.specs.Prelude.{◌≡◌, ◌≤◌, []};

use super::{claims_all, closed, member, said, seats};
use crate::{Payloads, Seat, SharedMember, Tried};
use bytes::Bytes;
use cb_member::{HelpFault, Member, Outgoing};
use std::alloc::Global;
use std::marker::Brand;
use std::process::Abort;
use std::sync::Wait;
use std::sync::ledger::{Blank, Ledger};
use std::test::*;

/// What is asked of a member.
enum Call {
    Cast(&'static [u8]),
    Burst(&'static [&'static [u8]]),
    Take(&'static [u8]),
    Tick,
    Help(u32),
}

/// Calls, and what each answers.
type Calls = &'static [(Call, &'static str)];

/// A member of group 7 with three members, and what is asked of it.
struct Script {
    me: u32,
    window: u32,
    limit: usize,
    calls: Calls,
}

const HI: &[u8] = b"\x11\x07\x00\x01\x00\x02hi";

const YO: &[u8] = b"\x11\x07\x01\x01\x01\x00\x01\x02yo";

const OK: &[u8] = b"\x11\x07\x01\x02\x00\x02ok";

/// Member 0 casts "hi" and "yo" in one frame.
const HI_AND_YO: &[u8] = b"\x21\x07\x00\x01\x00\x02\x02hi\x02yo";

/// Member 1 casts "a" and "b" behind both.
const A_AND_B: &[u8] = b"\x21\x07\x01\x01\x01\x00\x02\x02\x01a\x01b";

const EMPTY: &[u8] = b"";

/// More payloads than a burst may have.
const TOO_MANY: &[&[u8]] = &[EMPTY; 33];

const LONG: &[u8] = b"a payload of thirty-three letters";

/// More bytes than the payloads of a burst may have.
const TOO_LONG: &[&[u8]] = &[LONG; 32];

const A: &[u8] = b"\x11\x07\x00\x01\x00\x01a";

const B: &[u8] = b"\x11\x07\x00\x02\x00\x01b";

/// Member 2 asks for the casts 1 and 2 of member 0.
const ASKS_FOR_BOTH: &[u8] = b"\x13\x07\x02\x00\x01\x00\x01";

/// So it asks member 1.
const ASKS_A_THIRD: &[u8] = b"\x23\x07\x02\x01\x00\x01\x00\x01";

/// Member 2 lacks the casts 2 and 3 of member 0.
const ASKS: &[u8] = b"\x13\x07\x02\x00\x01\x01\x01";

const SCRIPTS: &[Script] = &[
    // an answer overtakes its question
    Script {
        me: 2,
        window: 4,
        limit: 100,
        calls: &[
            (Call::Take(YO), "changed"),
            (Call::Take(HI), "changed 0.1 1.1"),
        ],
    },
    // a cast comes before the one in front of it, and one comes again
    Script {
        me: 0,
        window: 4,
        limit: 100,
        calls: &[
            (Call::Cast(b"hi"), "0.1 [1,0,0] 1107000100026869"),
            (Call::Take(OK), "changed"),
            (Call::Take(YO), "changed 1.1 1.2"),
            (Call::Take(YO), "repeat"),
        ],
    },
    // the window is full until the slowest has delivered
    Script {
        me: 0,
        window: 2,
        limit: 100,
        calls: &[
            (Call::Cast(b"a"), "0.1 [1,0,0] 11070001000161"),
            (Call::Cast(b"b"), "0.2 [2,0,0] 11070002000162"),
            (Call::Cast(b"c"), "WindowFull"),
            (Call::Take(b"\x12\x07\x01\x01\x00\x02"), "changed"),
            (Call::Cast(b"c"), "WindowFull"),
            (Call::Take(b"\x12\x07\x02\x01\x00\x02"), "changed"),
            (Call::Take(ASKS_FOR_BOTH), "unchanged"),
            (Call::Cast(b"c"), "0.3 [3,0,0] 11070003000163"),
        ],
    },
    // and its two others, whose statuses it took
    Script {
        me: 1,
        window: 2,
        limit: 100,
        calls: &[
            (Call::Take(A), "changed 0.1"),
            (Call::Take(B), "changed 0.2"),
            (Call::Tick, "entered, to all: 120701010002"),
        ],
    },
    Script {
        me: 2,
        window: 2,
        limit: 100,
        calls: &[
            (Call::Take(A), "changed 0.1"),
            (Call::Take(B), "changed 0.2"),
            (Call::Tick, "entered, to all: 120702010002"),
        ],
    },
    // what is missing is asked for, and a status that says nothing new is no entry
    Script {
        me: 2,
        window: 4,
        limit: 100,
        calls: &[
            (Call::Take(b"\x11\x07\x00\x01\x00\x01a"), "changed 0.1"),
            (Call::Take(b"\x11\x07\x00\x04\x00\x01d"), "changed"),
            (
                Call::Tick,
                "entered, to all: 120702010001, to 0: 13070200010101",
            ),
            (
                Call::Tick,
                "not entered, to all: 120702010001, to 0: 13070200010101",
            ),
        ],
    },
    // what is asked for is sent again
    Script {
        me: 0,
        window: 4,
        limit: 100,
        calls: &[
            (Call::Cast(b"a"), "0.1 [1,0,0] 11070001000161"),
            (Call::Cast(b"b"), "0.2 [2,0,0] 11070002000162"),
            (Call::Cast(b"c"), "0.3 [3,0,0] 11070003000163"),
            (Call::Cast(b"d"), "0.4 [4,0,0] 11070004000164"),
            (
                Call::Take(ASKS),
                "unchanged, to 2: 11070002000162, to 2: 11070003000163",
            ),
        ],
    },
    // and by nobody else
    Script {
        me: 1,
        window: 4,
        limit: 100,
        calls: &[(Call::Take(ASKS), "unchanged")],
    },
    // of what a silent sender said a third member is asked that has delivered it
    Script {
        me: 2,
        window: 4,
        limit: 100,
        calls: &[
            (Call::Help(0), "no help"),
            (Call::Take(b"\x12\x07\x01\x01\x00\x02"), "changed"),
            (Call::Help(0), "help, to 1: 2307020100010001"),
            (Call::Help(1), "no help"),
            (Call::Help(2), "BadMember"),
            (Call::Help(3), "BadMember"),
            (Call::Take(A), "changed 0.1"),
            (Call::Help(0), "help, to 1: 2307020100010100"),
            (Call::Take(B), "changed 0.2"),
            (Call::Help(0), "no help"),
        ],
    },
    // which hands it on, until it knows that the other one has it
    Script {
        me: 1,
        window: 4,
        limit: 100,
        calls: &[
            (Call::Take(A), "changed 0.1"),
            (Call::Take(B), "changed 0.2"),
            (
                Call::Take(ASKS_A_THIRD),
                "unchanged, to 2: 11070001000161, to 2: 11070002000162",
            ),
            (Call::Take(b"\x12\x07\x02\x01\x00\x02"), "changed"),
            (Call::Take(ASKS_A_THIRD), "unchanged"),
        ],
    },
    // the history is full
    Script {
        me: 0,
        window: 4,
        limit: 1,
        calls: &[
            (Call::Cast(b"hi"), "0.1 [1,0,0] 1107000100026869"),
            (Call::Take(b"\x11\x07\x01\x01\x00\x00"), "HistoryFull"),
            (Call::Take(HI), "repeat"),
            (Call::Take(b"\x12\x07\x01\x00"), "unchanged"),
            (Call::Tick, "HistoryFull"),
            (Call::Cast(b"x"), "HistoryFull"),
        ],
    },
    // two messages in one frame, which are one entry; what comes behind them counts both
    Script {
        me: 0,
        window: 4,
        limit: 2,
        calls: &[
            (
                Call::Burst(&[b"hi", b"yo"]),
                "0.1 2 [1,0,0] 21070001000202686902796f",
            ),
            (Call::Take(HI_AND_YO), "repeat"),
            (Call::Take(A_AND_B), "changed 1.1 1.2"),
            (Call::Take(A_AND_B), "repeat"),
            (Call::Burst(&[b"c"]), "HistoryFull"),
        ],
    },
    Script {
        me: 2,
        window: 4,
        limit: 100,
        calls: &[
            (Call::Take(A_AND_B), "changed"),
            (Call::Take(HI_AND_YO), "changed 0.1 0.2 1.1 1.2"),
            (Call::Take(HI_AND_YO), "repeat"),
            (
                Call::Burst(&[b"", b"c"]),
                "2.1 2 [2,2,1] 21070201020002000202000163",
            ),
            (Call::Tick, "entered, to all: 12070203000200020002"),
        ],
    },
    // a burst needs room for all of its messages, and is sent again whole
    Script {
        me: 0,
        window: 4,
        limit: 100,
        calls: &[
            (Call::Burst(&[]), "EmptyBurst"),
            (Call::Burst(TOO_MANY), "BurstTooLong"),
            (Call::Burst(TOO_LONG), "PayloadTooLong"),
            (Call::Burst(&[EMPTY; 5]), "WindowFull"),
            (
                Call::Burst(&[b"hi", b"yo"]),
                "0.1 2 [1,0,0] 21070001000202686902796f",
            ),
            (
                Call::Take(b"\x13\x07\x02\x00\x01\x01\x00"),
                "unchanged, to 2: 21070001000202686902796f",
            ),
            (Call::Take(b"\x12\x07\x01\x01\x00\x01"), "changed"),
            (Call::Take(b"\x12\x07\x02\x01\x00\x01"), "changed"),
            (Call::Burst(&[EMPTY; 4]), "WindowFull"),
            (
                Call::Burst(&[b"a", b"b", b"c"]),
                "0.3 3 [3,0,0] 210700030003016101620163",
            ),
        ],
    },
    // what can't be is refused
    Script {
        me: 0,
        window: 4,
        limit: 100,
        calls: &[
            (Call::Cast(b"hi"), "0.1 [1,0,0] 1107000100026869"),
            (Call::Take(HI), "repeat"),
            (Call::Take(b"\x12\x07\x00\x01\x00\x01"), "unchanged"),
            (Call::Take(b"\x11\x07\x00\x09\x00\x00"), "Impossible"),
            (Call::Take(b"\x12\x07\x01\x01\x00\x02"), "Impossible"),
            (Call::Take(b"\x13\x07\x00\x00\x01\x00\x00"), "Impossible"),
            (Call::Take(b"\x11\x08\x01\x01\x00\x00"), "OtherGroup"),
            (Call::Take(b"\x11\x07\x03\x01\x00\x00"), "BadMember"),
            (Call::Take(b"\x11\x07\x40"), "Malformed(BadIndex)"),
        ],
    },
];

#[test]
fn locked_as_plain(rt: HostRuntime) {
    for script in SCRIPTS {
        run_script::<Brand, _>(&rt, rt.alloc(), Blank::new(1), script);
    }
}

/// Both members get the same calls, give the same answers, and have the same history in the end, which is that of the receipts.
fn run_script<L: Ledger, R: Wait + Abort>(rt: &R, alloc: Global, blank: Blank, script: &Script)
    requires name { blank.name ≡ L.name }
    requires parts { (blank.parts ≡ L.parts) × (1 ≤ blank.parts) }
{
    let (shared, mut seat) = SharedMember::<L>::new(alloc, blank, of_script(rt, alloc, script));
    run_locked(rt, alloc, &shared, &mut seat, script.calls);
    let plain = run_plain(rt, alloc, script);
    claims_all(rt, plain.history(), seat.receipts());
    let member = closed(rt, shared, seats(rt, alloc, seat, None));
    have_one_history(rt, member, plain);
}

fn of_script(rt: &impl Abort, alloc: Global, script: &Script) -> Member
    ensures { result.entries ≡ [] }
{
    member(rt, alloc, (3, script.window), script.me, script.limit)
}

fn have_one_history(rt: &impl Abort, member: Member, plain: Member) {
    let is_one = member.history() == plain.history();
    drop(member);
    drop(plain);
    assert!(rt; is_one);
}

fn run_plain(rt: &impl Abort, alloc: Global, script: &Script) -> Member {
    let mut member = of_script(rt, alloc, script);
    for (call, answer) in script.calls {
        assert_eq!(rt;
            plain_answer(rt, alloc, &mut member, call).as_str(),
            *answer
        );
    }
    member
}

fn plain_answer(rt: &impl Abort, alloc: Global, member: &mut Member, call: &Call) -> String {
    let said = match call {
        Call::Cast(payload) => said::by_cast(alloc, member.cast(payload)),
        Call::Burst(payloads) => said::by_burst(alloc, member.cast_burst(payloads)),
        Call::Take(bytes) => said::by_arrival(alloc, member.arrive(&Bytes::from_static(bytes))),
        Call::Tick => said::by_tick(alloc, member.tick()),
        Call::Help(sender) => said::by_help(alloc, member.help(*sender)),
    };
    said.expect(rt, "memory")
}

fn run_locked<L: Ledger>(
    rt: &(impl Wait + Abort),
    alloc: Global,
    shared: &SharedMember<L>,
    seat: &mut Seat<L>,
    calls: Calls,
) {
    for (call, answer) in calls {
        assert_eq!(rt;
            locked_answer(rt, alloc, shared, seat, call).as_str(),
            *answer
        );
    }
}

fn locked_answer<L: Ledger>(
    rt: &(impl Wait + Abort),
    alloc: Global,
    shared: &SharedMember<L>,
    seat: &mut Seat<L>,
    call: &Call,
) -> String {
    let said = match call {
        Call::Cast(payload) => said::by_cast(alloc, shared.cast(rt, seat, payload)),
        Call::Burst(payloads) => said::by_burst(alloc, shared.cast_burst(rt, seat, payloads)),
        Call::Take(bytes) => {
            said::by_arrival(alloc, shared.arrive(rt, seat, &Bytes::from_static(bytes)))
        }
        Call::Tick => said::by_tick(alloc, shared.tick(rt, seat)),
        Call::Help(sender) => said::by_help(alloc, ask_for_help(rt, shared, seat, *sender)),
    };
    said.expect(rt, "memory")
}

#[test]
fn a_burst_of_two_has_one_receipt(rt: HostRuntime) {
    has_one_receipt::<Brand, _>(&rt, rt.alloc(), Blank::new(1));
}

fn has_one_receipt<L: Ledger, R: Wait + Abort>(rt: &R, alloc: Global, blank: Blank)
    requires name { blank.name ≡ L.name }
    requires parts { (blank.parts ≡ L.parts) × (1 ≤ blank.parts) }
{
    let member = member(rt, alloc, (3, 4), 0, 100);
    let (shared, mut seat) = SharedMember::<L>::new(alloc, blank, member);
    drop(shared.cast_burst(rt, &mut seat, &[b"hi", b"yo"]));
    let receipts = seat.receipts().len();
    let member = closed(rt, shared, seats(rt, alloc, seat, None));
    let counts = (receipts, member.history().len(), member.events().len());
    drop(member);
    assert_eq!(rt; counts, (1, 1, 2));
}

/// The calls of the scripts, with frames received and casts said under the lock: the receipts and the history are as before.
#[test]
fn received_as_plain(rt: HostRuntime) {
    for script in SCRIPTS {
        receive_script::<Brand, _>(&rt, rt.alloc(), Blank::new(1), script);
    }
}

fn receive_script<L: Ledger, R: Wait + Abort>(rt: &R, alloc: Global, blank: Blank, script: &Script)
    requires name { blank.name ≡ L.name }
    requires parts { (blank.parts ≡ L.parts) × (1 ≤ blank.parts) }
{
    let (shared, mut seat) = SharedMember::<L>::new(alloc, blank, of_script(rt, alloc, script));
    for (call, _answer) in script.calls {
        receive_call(rt, alloc, &shared, &mut seat, call);
    }
    let plain = run_plain(rt, alloc, script);
    claims_all(rt, plain.history(), seat.receipts());
    let member = closed(rt, shared, seats(rt, alloc, seat, None));
    have_one_history(rt, member, plain);
}

fn receive_call<L: Ledger>(
    rt: &(impl Wait + Abort),
    alloc: Global,
    shared: &SharedMember<L>,
    seat: &mut Seat<L>,
    call: &Call,
) {
    match call {
        Call::Cast(payload) => say(rt, alloc, shared, seat, payload),
        Call::Burst(payloads) => say_all(rt, alloc, shared, seat, payloads),
        Call::Take(bytes) => drop(shared.receive(rt, seat, Bytes::from_static(bytes))),
        Call::Tick => drop(shared.tick(rt, seat)),
        Call::Help(sender) => drop(ask_for_help(rt, shared, seat, *sender)),
    }
}

/// A help changes nothing: it is read under the lock, and leaves no receipt.
fn ask_for_help<L: Ledger>(
    rt: &impl Wait,
    shared: &SharedMember<L>,
    seat: &mut Seat<L>,
    sender: u32,
) -> Result<Option<Outgoing>, HelpFault> {
    shared.with_state(rt, seat, move |member| member.help(sender))
}

/// The payload is handed back, whether or not it is cast.
fn say<L: Ledger>(
    rt: &(impl Wait + Abort),
    alloc: Global,
    shared: &SharedMember<L>,
    seat: &mut Seat<L>,
    payload: &[u8],
) {
    let given = Vec::from_slice(alloc, payload).expect(rt, "memory");
    let given = Some(Payloads::One(given));
    let (seen, tried) = shared.cast_with(rt, seat, move |member| (member.events().len(), given));
    let is_back = matches!(&tried, Some(Tried::One(back, _answer)) if back.as_slice() == payload);
    drop(tried);
    assert!(rt; is_back);
    assert!(rt; seen <= 16);
}

/// So are those of a burst.
fn say_all<L: Ledger>(
    rt: &(impl Wait + Abort),
    alloc: Global,
    shared: &SharedMember<L>,
    seat: &mut Seat<L>,
    payloads: &[&[u8]],
) {
    let given = Some(Payloads::Many(owned(rt, alloc, payloads)));
    let (seen, tried) = shared.cast_with(rt, seat, move |member| (member.events().len(), given));
    let is_back = matches!(&tried, Some(Tried::Many(back, _answer)) if are_same(back, payloads));
    drop(tried);
    assert!(rt; is_back);
    assert!(rt; seen <= 16);
}

fn owned(rt: &impl Abort, alloc: Global, payloads: &[&[u8]]) -> Vec<Vec<u8>> {
    let mut all = Vec::new(alloc);
    for payload in payloads {
        let copy = Vec::from_slice(alloc, payload).expect(rt, "memory");
        all.push(copy).expect(rt, "memory");
    }
    all
}

fn are_same(back: &[Vec<u8>], payloads: &[&[u8]]) -> bool {
    back.iter().map(Vec::as_slice).eq(payloads.iter().copied())
}
