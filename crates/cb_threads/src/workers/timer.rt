//! The worker that ticks, and asks third members for what others do not send.

ghost use Rattle.std.specs.Prelude.{◌≡◌};
ghost use Rattle.cb_lock.specs.Calls.{OnSome};
ghost use Rattle.cb_threads.specs.Posting.{PostsHelps, TicksAndPosts};

use crate::asking::{Ticks, help_frames};
use crate::limits::Ending;
use crate::pace::{Pace, PaceFault};
use crate::workers::turns::{Failed, Place, Role, Turn};
use std::sync::Wait;
use std::sync::ledger::Ledger;
use std::time::Clock;

/// Ticks once in each turn, and then waits as the pace has it. A tick that finds no memory is made
/// again in the next turn.
///
/// Behind each fourth tick it asks third members for the missing casts of each other sender.
#[derive(Drop)]
pub struct Ticking<P> {
    pub pace: P,
    ticks: Ticks,
}

impl<P: Pace + Send + Drop> Role for Ticking<P> {
    type Part = P;

    ghost part = { λ ticking. ticking.pace };

    ghost failed = { P.failed };

    fn turn<L: Ledger, R: Wait + Clock>(
        &mut self,
        rt: &R,
        place: &mut Place<'_, L>,
    ) -> Result<Turn, Failed> {
        if place.tick(rt) && self.ticks.counts_to_four() {
            place.help(rt);
        }
        match self.pace.wait(rt) {
            Ok(()) => Ok(Turn::Done),
            Err(PaceFault) => Err(Failed),
        }
    }

    fn end(self, _ending: Ending<'_>) -> P {
        self.pace
    }
}

impl<P> Ticking<P> {
    pub fn new(pace: P) -> Ticking<P>
        ensures { result.pace ≡ pace }
    {
        Ticking {
            pace,
            ticks: Ticks::new(),
        }
    }
}

impl<'a, L: Ledger> Place<'a, L> {
    /// Ticks, and sends what the tick puts out. Whether the tick was made.
    #[tactic(auto, using(crate::proofs::Posting::ticks, crate::proofs::Posting::ticks_none))]
    fn tick<R: Wait>(&mut self, rt: &R) -> bool
        ensures { OnSome self.old.seat (λ m. TicksAndPosts m self.old.seat self.new.seat
            self.old.post.offered self.new.post.offered result) }
    {
        match self.desk.shared.tick(rt, &mut self.seat) {
            Ok(ticked) => {
                self.post.put_all(rt, ticked.out);
                true
            }
            Err(_refused) => false,
        }
    }

    /// Sends the help frames. Where memory is refused none is sent.
    #[tactic(auto, using(crate::proofs::Posting::posts_helps, crate::proofs::Posting::posts_none))]
    fn help<R: Wait>(&mut self, rt: &R)
        ensures { OnSome self.old.seat (λ m. PostsHelps m self.old.post.offered
            self.new.post.offered) }
    {
        let desk = self.desk;
        if let Ok(helps) = help_frames(rt, desk.alloc, desk.shared, &mut self.seat) {
            self.post.put_all(rt, helps);
        }
    }
}
