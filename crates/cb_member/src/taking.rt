//! A cast or a burst of another member, up to what waits for the delay rule.

ghost use Rattle.cb_frames.specs.Fields.{unit_fields};
ghost use Rattle.cb_member.specs.Singles.{times_in};
ghost use Rattle.cb_member.specs.Taking.{CanTakeIn, TakesInCast, IsTakingIn, OnlyTakesIn, TakesAll};

use crate::delivery::hold_next;
use crate::singles::Spares;
use crate::state::State;
use cb_frames::Unit;

impl State {
    /// Keeps a unit of another member, and lets wait for the delay rule what can be expanded by it. It takes no memory.
    pub fn take_in(&mut self, unit: Unit, spares: Spares)
        requires { CanTakeIn (unit_fields unit) (times_in spares) self.old }
        ensures { TakesInCast (unit_fields unit) self.old self.new }
    {
        let (sender, last) = (unit.sender(), unit.last());
        let delivered = self.delivery.time.get(sender);
        self.reception.keep(delivered, unit, spares);
        self.knowledge.hear(sender, last);
        self.take_all(sender);
    }

    /// Expands the sender's singles as long as the next one is there, and holds their messages.
    fn take_all(&mut self, sender: u32)
        requires { IsTakingIn sender self.old }
        ensures takes { TakesAll sender self.old self.new }
        ensures only { OnlyTakesIn self.old self.new }
    {
        'messages: while let Some(message) = self.reception.expand_next(sender) {
            self.knowledge.known.raise(&message.time);
            hold_next(&mut self.delivery.queue, message);
        }
    }
}
