//! Ticks of a core.

ghost use Rattle.std.specs.Prelude.{◌≡◌, IfOk, Some, None, option_map, if◌then◌else◌};
ghost use Rattle.cb_history.specs.Facts.{TickEntry, entry_fields};
ghost use Rattle.cb_member.specs.CoreCalls.{AnswersTickOnEach};
ghost use Rattle.cb_member.specs.CoreMember.{IsCore, core_of};

use crate::state::State;
use crate::text::another;
use crate::wanted::{Told, Wanted};
use bytes::Bytes;
use cb_history::{Entry, Outgoing, TickRefusal, Ticked};
use cb_times::NoMemory;

impl State {
    /// Reports the status to all, asks for what is missing, and tells the entry that a history
    /// would have of it, with the copies that are wanted.
    #[tactic(auto, using(crate::proofs::CoreCalls::refuses_tick, crate::proofs::Cores::is_state))]
    pub fn tick_unlimited(&mut self, wanted: Wanted) -> Result<(Told, Option<Entry>), TickRefusal>
        requires { IsCore (core_of self.old) }
        ensures { AnswersTickOnEach wanted (core_of self.old) (core_of self.new) result }
    {
        let entered = self.has_news();
        let bytes = self.status_text()?;
        let entry = entry_if(entered, &bytes)?;
        let noted = wanted.note(&entry)?;
        let mut out = self.requests()?;
        out.insert(0, Outgoing { to: None, bytes })?;
        if entered {
            self.report();
        }
        let ticked = Ticked { entered, out };
        Ok((Told { ticked, noted }, entry))
    }
}

/// The entry of the status, where it is new.
fn entry_if(is_new: bool, status: &Bytes) -> Result<Option<Entry>, NoMemory>
    ensures { IfOk result (λ entry. option_map entry_fields entry
        ≡ if is_new then Some (TickEntry status.now) else None) }
{
    if !is_new {
        return Ok(None);
    }
    Ok(Some(Entry::Tick {
        status: another(status)?,
    }))
}
