//! One member with its four workers.

ghost use Rattle.std.specs.Prelude.{◌≡◌, ◌≤◌, IfSome, MatchOption, None};
ghost use Rattle.std.specs.Vec.{vec_capacity, vec_len};
ghost use Rattle.cb_links.specs.Counts.{MetAtMost};
ghost use Rattle.cb_threads.specs.Offers.{FailuresAreLost};
ghost use Rattle.cb_threads.specs.Reports.{HandsBack, Tells, TellsFailures, entries_in, failures_in};

use crate::ended::{fault_of, reported, unstarted};
use crate::limits::{Ending, Limits, Stop};
use crate::pace::Pace;
use crate::per_worker::{Parts, Seats};
use crate::report::{MemberReport, Tally, WorkerFault};
use crate::talker::Talker;
use crate::threads::{Ends, make_crew, make_ends, run_workers};
use crate::workers::Desk;
use cb_links::{Inlet, Outlet};
use cb_lock::{Seat, SharedMember};
use std::alloc::{AllocError, Global};
use std::sync::Wait;
use std::sync::ledger::Ledger;
use std::thread::Threads;
use std::time::Clock;

/// Runs four workers at once at one member, each with a seat of its own: one that takes what is
/// received, one that ticks, one that casts what the talker says, and one that sends what these
/// sent.
///
/// The first three end after so many turns as the limits say, or once the stop is set; the talker's
/// also once it has finished. The sender ends when they have. Link, pace and talker stand in the
/// report. The seats are handed back for `close`: all four, but where a thread or a list was
/// refused, as the report's fault says. The counts of the report are those of the receipts in the
/// seats that are handed back: of a member that goes on with entries those of its past too, where one
/// of the four seats has them. The talker is shown the member's events from the first.
pub fn run_member<
    I: Inlet + Send + Drop,
    O: Outlet + Send + Drop,
    P: Pace + Send + Drop,
    T: Talker + Send + Drop,
    L: Ledger + Send + Sync,
    R: Threads + Wait + Clock + Sync,
>(
    rt: &R,
    alloc: Global,
    shared: &SharedMember<L>,
    seats: (Seat<L>, Seat<L>, Seat<L>, Seat<L>),
    link: (I, O),
    pace: P,
    talker: T,
    stop: &Stop,
    limits: Limits,
) -> (MemberReport<I, O, P, T>, Vec<Seat<L>>)
    ensures seats { result.0.fault ≡ None → vec_len result.1 ≡ 4 }
    ensures parts { HandsBack result.0 }
    ensures counts { Tells (entries_in result.1.items) result.0.casts result.0.deliveries
        result.0.entries }
    ensures inlet { MatchOption result.0.inlet (result.0.receive_failures ≡ 0)
        (λ inlet. MetAtMost result.0.receive_failures (I.failed link.0) (I.failed inlet)) }
    ensures outlet { MatchOption result.0.outlet (result.0.send_failures ≡ 0)
        (λ outlet. MetAtMost result.0.send_failures (O.failed link.1) (O.failed outlet)) }
    ensures pace { MatchOption result.0.pace (result.0.pace_failures ≡ 0)
        (λ after. MetAtMost result.0.pace_failures (P.failed pace) (P.failed after)) }
    ensures lost { FailuresAreLost result.0.send_failures result.0.lost }
    ensures refused { result.0.refused ≤ limits.turns }
{
    let (receiver, timer, speaker, sender) = seats;
    let seats = Seats {
        receiver,
        timer,
        speaker,
        sender,
    };
    let (inlet, outlet) = link;
    let parts = Parts {
        receiver: inlet,
        timer: pace,
        speaker: talker,
        sender: outlet,
    };
    let ending = Ending {
        limits,
        stop,
        talking: None,
    };
    let desk = Desk {
        alloc,
        shared,
        ending,
    };
    let (report, seats) = run_at(rt, &desk, seats, parts);
    let tally = Tally::of_seats(&seats);
    (report.with(tally), seats)
}

/// Runs the workers of a member at their desk. Nothing is counted yet of what it cast and delivered.
pub fn run_at<
    I: Inlet + Send + Drop,
    O: Outlet + Send + Drop,
    P: Pace + Send + Drop,
    T: Talker + Send + Drop,
    L: Ledger + Send + Sync,
    R: Threads + Wait + Clock + Sync,
>(
    rt: &R,
    desk: &Desk<'_, L>,
    seats: Seats<L>,
    parts: Parts<I, O, P, T>,
) -> (MemberReport<I, O, P, T>, Vec<Seat<L>>)
    ensures seats { result.0.fault ≡ None → vec_len result.1 ≡ 4 }
    ensures parts { HandsBack result.0 }
    ensures failures { TellsFailures I.failed O.failed P.failed
        (failures_in I.failed O.failed P.failed parts) result.0 }
    ensures refused { result.0.refused ≤ desk.now.ending.limits.turns }
{
    let (list, ends) = room(desk.alloc);
    match ends {
        Some(ends) => {
            let crew = make_crew(desk.alloc, parts, seats, ends);
            let ended = run_workers(rt, desk, crew);
            let fault = fault_of(&ended);
            reported(ended, fault, list)
        }
        None => {
            desk.ending.talker_ended();
            desk.ending.give_up();
            reported(unstarted(parts, seats), Some(WorkerFault::NoMemory), list)
        }
    }
}

/// A list for the seats and the ends of the workers' channel, which is not made where the list
/// could not be.
fn room<L: Ledger>(alloc: Global) -> (Vec<Seat<L>>, Option<Ends>)
    ensures empty { vec_len result.0 ≡ 0 }
    ensures list { IfSome result.1 (λ _. 4 ≤ vec_capacity result.0) }
{
    match Vec::with_capacity(alloc, 4) {
        Ok(list) => (list, make_ends(alloc).ok()),
        Err(AllocError) => (Vec::new(alloc), None),
    }
}
