//! The worker that sends.

ghost use Rattle.std.specs.Prelude.{◌≡◌, ◌+◌, length};
ghost use Rattle.cb_links.specs.Counts.{Counts, MetAtMost, held};
ghost use Rattle.cb_threads.specs.Offers.{AddsUnsent, FailuresAreLost, taken_with};

use crate::workers::desk::{Desk, Job, Worked, Worker};
use cb_links::{Mailbox, Outlet, Taken};
use cb_member::Outgoing;
use std::sync::Wait;
use std::sync::ledger::Ledger;
use std::time::Clock;

impl<O: Outlet + Send + Drop, L: Ledger + Send + Sync> Job<L>
    for Worker<O, Mailbox<Vec<Outgoing>>, L> {
    type Part = O;

    ghost kept = { λ worker turns worked. MetAtMost worked.failures (O.failed worker.part)
        (O.failed worked.part) × FailuresAreLost worked.failures worked.lost };

    /// Sends what the other workers hand over, until all of them have ended.
    fn run<R: Wait + Clock>(self, rt: &R, _desk: &Desk<'_, L>) -> Worked<O, L> {
        let Worker { part, seat, end } = self;
        let mut lists = Lists {
            from: end,
            taken: 0,
        };
        let mut worked = Worked {
            part,
            seat,
            offered: 0,
            lost: 0,
            failures: 0,
            refused: 0,
        };
        for _ in rt.forever() {
            let Some(frames) = lists.take(rt) else {
                break;
            };
            worked.send(rt, frames);
        }
        worked
    }
}

/// The lists of frames that wait to be sent.
#[derive(Drop)]
struct Lists {
    from: Mailbox<Vec<Outgoing>>,
    /// How many frames were taken out of the mailbox.
    taken: u64,
}

impl Lists {
    /// The next one, or none where all workers have ended.
    fn take<R: Wait>(&mut self, rt: &R) -> Option<Vec<Outgoing>>
        ensures { self.new.taken ≡ taken_with self.old.taken result }
    {
        let frames = self.await_list(rt)?;
        self.taken = self.taken.saturating_add(frames.len() as u64);
        Some(frames)
    }

    fn await_list<R: Wait>(&self, rt: &R) -> Option<Vec<Outgoing>> {
        for _ in rt.forever() {
            match self.from.take_at_once(rt) {
                Taken::Message(frames) => return Some(frames),
                Taken::Nothing => {}
                Taken::Closed => return None,
            }
        }
        unreachable!("the loop has no end")
    }
}

impl<O: Outlet, L: Ledger> Worked<O, L> {
    /// Sends frames, in order. One that the outlet does not take is lost.
    #[tactic(auto, using(crate::proofs::Sending::stay_lost))]
    fn send<R: Wait>(&mut self, rt: &R, frames: Vec<Outgoing>)
        ensures met { Counts self.old.failures (O.failed self.old.part)
            self.new.failures (O.failed self.new.part) }
        ensures offered { self.new.offered ≡ held (self.old.offered + length frames.items) }
        ensures lost { AddsUnsent (length frames.items) self.old.lost self.old.failures
            self.new.lost self.new.failures }
        ensures stay { FailuresAreLost self.old.failures self.old.lost
            → FailuresAreLost self.new.failures self.new.lost }
    {
        let unsent = self.part.send_all(rt, &frames);
        self.offered = self.offered.saturating_add(unsent.offered);
        self.lost = self.lost.saturating_add(unsent.lost());
        self.failures = self.failures.saturating_add(unsent.failures);
    }
}
