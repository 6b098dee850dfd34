//! Own casts of a core. The way of a cast is compiled into one function.

ghost use Rattle.cb_frames.specs.Fields.{One};
ghost use Rattle.cb_history.specs.Load.{many_of};
ghost use Rattle.cb_member.specs.CoreCalls.{AnswersBurstInto, AnswersCastInto, IsMade, JoinsMade};
ghost use Rattle.cb_member.specs.CoreMember.{IsCore, core_of};

use crate::own_cast::{Casting, last_time, push_casts};
use crate::state::State;
use crate::text::another;
use crate::wanted::{Made, Wanted};
use bytes::Bytes;
use cb_delay::Event;
use cb_history::{BurstRefusal, CastRefusal};
use cb_times::{NoMemory, make_room};

impl State {
    /// Casts a message of this payload, and appends its event to the events. Returns the cast with the
    /// copies that the caller wants, and the frame for the entry in a history.
    pub fn cast_joining(
        &mut self,
        payload: &[u8],
        wanted: Wanted,
        events: &mut Vec<Event>,
    ) -> Result<(Made, Bytes), CastRefusal>
        requires { IsCore (core_of self.old) }
        ensures { AnswersCastInto wanted (One payload.now) (core_of self.old) (core_of self.new)
            events.old.items events.new.items result }
    {
        self.judge_payload(payload)?;
        let casting = self.make(payload)?;
        let joined = self.join_made(casting, wanted, events)?;
        Ok(joined)
    }

    /// Casts a message of each payload, all in one frame, and appends their events to the events. Returns the burst with the copies that
    /// the caller wants, and the frame for the entry in a history.
    pub fn cast_burst_joining(
        &mut self,
        payloads: &[&[u8]],
        wanted: Wanted,
        events: &mut Vec<Event>,
    ) -> Result<(Made, Bytes), BurstRefusal>
        requires { IsCore (core_of self.old) }
        ensures { AnswersBurstInto wanted (many_of payloads.now) (core_of self.old) (core_of self.new)
            events.old.items events.new.items result }
    {
        self.judge_payloads(payloads)?;
        let casting = self.make_burst(payloads)?;
        let joined = self.join_made(casting, wanted, events)?;
        Ok(joined)
    }

    /// Keeps a cast that was made, whose events join the events.
    #[inline(always)]
    fn join_made(
        &mut self,
        casting: Casting,
        wanted: Wanted,
        events: &mut Vec<Event>,
    ) -> Result<(Made, Bytes), NoMemory>
        requires { IsMade casting self.old }
        ensures { JoinsMade wanted casting self.old self.new events.old.items events.new.items
            result }
    {
        let count = casting.count();
        make_room(events, count)?;
        let entry = another(&casting.out)?;
        let noted = wanted.frame(&casting.out)?;
        let time = wanted.time(&casting.first.time)?;
        let count = count as u32;
        let Casting {
            first: message,
            others,
            out,
            sent,
        } = casting;
        let first = message.name;
        self.keep_cast(last_time(&message, &others), sent, count);
        push_casts(events, message, others);
        let made = Made {
            first,
            count,
            time,
            out,
            noted,
        };
        Ok((made, entry))
    }
}
