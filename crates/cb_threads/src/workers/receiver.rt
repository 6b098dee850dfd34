//! The worker that takes what is received.

ghost use Rattle.std.specs.Prelude.{◌≡◌};
ghost use Rattle.cb_lock.specs.Calls.{OnSome};
ghost use Rattle.cb_threads.specs.Posting.{ReceivesAndPosts};

use crate::limits::Ending;
use crate::workers::turns::{Failed, Place, Role, Turn};
use bytes::Bytes;
use cb_links::{Inlet, LinkFault, Received};
use std::sync::Wait;
use std::sync::ledger::Ledger;
use std::time::Clock;

/// Takes what is received, one look at the inlet in each turn. The inlet itself waits where nothing
/// comes.
///
/// Where its turns are used up it closes the inlet, since nobody takes anything from there any
/// more: others may still send for as long as their turns last. The stop of a group ends the others
/// too, so that behind it nothing gathers for long.
#[derive(Drop)]
pub struct Receiving<I> {
    pub inlet: I,
}

impl<I: Inlet + Send + Drop> Role for Receiving<I> {
    type Part = I;

    ghost part = { λ receiving. receiving.inlet };

    ghost failed = { I.failed };

    fn turn<L: Ledger, R: Wait + Clock>(
        &mut self,
        rt: &R,
        place: &mut Place<'_, L>,
    ) -> Result<Turn, Failed> {
        match self.inlet.receive(rt) {
            Ok(Received::Frame(frame)) => Ok(place.receive(rt, frame)),
            Ok(Received::Nothing) => Ok(Turn::Done),
            Err(LinkFault::NoMemory) => Ok(Turn::Idle),
            Err(LinkFault::Device) => Err(Failed),
        }
    }

    fn end(self, ending: Ending<'_>) -> I {
        let mut inlet = self.inlet;
        if !ending.has_come() {
            inlet.close();
        }
        inlet
    }
}

impl<'a, L: Ledger> Place<'a, L> {
    /// A frame arrives, and what is sent in answer goes to the sender. One that is refused is
    /// dropped, as if it were lost on the way.
    #[tactic(auto, using(crate::proofs::Posting::receives, crate::proofs::Posting::receives_none))]
    fn receive<R: Wait>(&mut self, rt: &R, frame: Bytes) -> Turn
        ensures { OnSome self.old.seat (λ m. ReceivesAndPosts m self.old.seat self.new.seat
            frame self.old.post.offered self.new.post.offered result) }
    {
        match self.desk.shared.receive(rt, &mut self.seat, frame) {
            Ok(out) => {
                self.post.put_all(rt, out);
                Turn::Done
            }
            Err(_refusal) => Turn::Refused,
        }
    }
}
