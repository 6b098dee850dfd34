//! The threads of a member's workers.

ghost use Rattle.std.specs.Prelude.{◌≡◌, ◌≤◌, IfSome, MatchOption, None};
ghost use Rattle.cb_threads.specs.Reports.{HaveMet, count_in, failures_in, parts_of};

use crate::limits::Ending;
use crate::pace::Pace;
use crate::per_worker::{Parts, PerWorker, Seats};
use crate::talker::Talker;
use crate::workers::{Desk, Job, Receiving, Talking, Ticking, Worked, Worker};
use cb_links::{Inlet, Mailbox, Outlet, Slot, new_mailbox};
use cb_member::Outgoing;
use std::alloc::{AllocError, Global};
use std::snapshot::Snapshot;
use std::sync::Wait;
use std::sync::ledger::Ledger;
use std::thread;
use std::thread::{Promise, PromisedHandle, Scope, Threads};
use std::time::Clock;

/// Where a worker puts lists of frames that are to be sent.
type Out = Slot<Vec<Outgoing>>;

/// The ends of the workers' channel: one to send from for each of the first three, and one to
/// receive from.
pub type Ends = PerWorker<Out, Out, Out, Mailbox<Vec<Outgoing>>>;

/// The workers of a member.
pub type Crew<I, O, P, T, L> = PerWorker<
    Worker<Receiving<I>, Out, L>,
    Worker<Ticking<P>, Out, L>,
    Worker<Talking<T>, Out, L>,
    Worker<O, Mailbox<Vec<Outgoing>>, L>,
>;

/// The results of the workers, with None for one whose thread could not be started.
pub type Ended<I, O, P, T, L> = PerWorker<
    Option<Worked<I, L>>,
    Option<Worked<P, L>>,
    Option<Worked<T, L>>,
    Option<Worked<O, L>>,
>;

/// A channel for the workers. The only fault is out of memory.
pub fn make_ends(alloc: Global) -> Result<Ends, AllocError> {
    let (to, from) = new_mailbox(alloc)?;
    Ok(Ends {
        receiver: to.again()?,
        timer: to.again()?,
        speaker: to,
        sender: from,
    })
}

/// The workers of these parts, each with its seat and its end of their channel.
pub fn make_crew<I, O, P, T, L: Ledger>(
    alloc: Global,
    parts: Parts<I, O, P, T>,
    seats: Seats<L>,
    ends: Ends,
) -> Crew<I, O, P, T, L>
    ensures { parts_of result ≡ parts }
{
    Crew {
        receiver: Worker {
            part: Receiving {
                inlet: parts.receiver,
            },
            seat: seats.receiver,
            end: ends.receiver,
        },
        timer: Worker {
            part: Ticking::new(parts.timer),
            seat: seats.timer,
            end: ends.timer,
        },
        speaker: Worker {
            part: Talking::new(alloc, parts.speaker),
            seat: seats.speaker,
            end: ends.speaker,
        },
        sender: Worker {
            part: parts.sender,
            seat: seats.sender,
            end: ends.sender,
        },
    }
}

/// Starts the workers and waits for all of them. The sender is started first, so that somebody takes
/// what the others hand over, and waited for last.
pub fn run_workers<
    I: Inlet + Send + Drop,
    O: Outlet + Send + Drop,
    P: Pace + Send + Drop,
    T: Talker + Send + Drop,
    L: Ledger + Send + Sync,
    R: Threads + Wait + Clock + Sync,
>(rt: &R, desk: &Desk<'_, L>, crew: Crew<I, O, P, T, L>) -> Ended<I, O, P, T, L>
    ensures met { HaveMet I.failed O.failed P.failed
        (failures_in I.failed O.failed P.failed (parts_of crew)) result }
    ensures refused { count_in result.receiver (λ w. w.refused)
        ≤ desk.now.ending.limits.turns }
{
    thread::scope(
        thread::scope_env(),
        rt,
        |scope| -> Ended<I, O, P, T, L>
            ensures met { HaveMet I.failed O.failed P.failed
                (failures_in I.failed O.failed P.failed (parts_of crew)) result }
            ensures refused { count_in result.receiver (λ w. w.refused)
                ≤ desk.entry.now.ending.limits.turns }
        {
            // Taken whole: the clause speaks of it.
            let workers = crew;
            let sender = start(scope, rt, desk, workers.sender);
            let running = PerWorker {
                receiver: start(scope, rt, desk, workers.receiver),
                timer: start(scope, rt, desk, workers.timer),
                speaker: start(scope, rt, desk, workers.speaker),
                sender,
            };
            end_unless_all_run(desk.ending, &running);
            Ended {
                receiver: joined(rt, running.receiver),
                timer: joined(rt, running.timer),
                speaker: joined(rt, running.speaker),
                sender: joined(rt, running.sender),
            }
        },
    )
}

/// In a group nobody is to wait for a worker that does not run, nor for what its talker would have
/// said.
pub fn end_unless_all_run<A, B, C, D>(
    ending: Ending<'_>,
    running: &PerWorker<Option<A>, Option<B>, Option<C>, Option<D>>,
) {
    if !running.are_all_there() {
        ending.give_up();
    }
}

/// A promise: what is handed back is what this job hands back, where so many turns may be made.
#[derive(Drop)]
pub struct OfJob<J> {
    pub job: Snapshot<J>,
    pub turns: u64,
}

impl<J: Job<L>, L: Ledger> Promise<Worked<J::Part, L>> for OfJob<J> {
    ghost kept_by = { λ promise worked. J.kept promise.job.value promise.turns worked };
}

fn start<
    's,
    E,
    J: Job<L> + Send + Drop + 's,
    L: Ledger + Send + Sync + 's,
    R: Wait + Clock + Sync + 's,
>(
    scope: &Scope<'s, E>,
    rt: &'s R,
    desk: &'s Desk<'s, L>,
    job: J,
) -> Option<PromisedHandle<Worked<J::Part, L>, OfJob<J>>>
    ensures { IfSome result (λ handle. (handle.promise.job.value ≡ job)
        × (handle.promise.turns ≡ desk.now.ending.limits.turns)) }
{
    let promise = OfJob {
        job: Snapshot::of(&job),
        turns: desk.ending.limits.turns,
    };
    scope.spawn_with(promise, move || job.run(rt, desk)).ok()
}

/// Waits for a worker, where its thread could be started.
fn joined<D: Drop, C: Promise<D>, R: Threads>(
    rt: &R,
    handle: Option<PromisedHandle<D, C>>,
) -> Option<D>
    ensures { MatchOption handle (result ≡ None)
        (λ handle. IfSome result (λ worked. C.kept_by handle.promise worked)) }
{
    match handle {
        Some(handle) => Some(handle.join(rt)),
        None => None,
    }
}
