//! Casting: what a cast is made of before anything changes, and what is kept of it.

ghost use Rattle.std.specs.Prelude.{◌≡◌, ◌+◌, ◌<◌, ◌≤◌, ◌++◌, ◌∷◌, [], IfOk, length, map};
ghost use Rattle.std.specs.Vec.{vec_capacity, vec_len};
ghost use Rattle.cb_delay.specs.declared.message.Event.TheVariants.{Cast as Cast_event};
ghost use Rattle.cb_frames.specs.Fields.{Load, One, cast_fields};
ghost use Rattle.cb_frames.specs.Text.{with_load};
ghost use Rattle.cb_stability.specs.Sent.{room_of};
ghost use Rattle.cb_history.specs.Answers.{next_cast};
ghost use Rattle.cb_history.specs.CastFault.{fault_told};
ghost use Rattle.cb_member.specs.State.{IsState, OnAll};
ghost use Rattle.cb_member.specs.Casting.{messages_made, time_of_last, next_messages, CanCast, JudgesLoad, MakesCasting, IsSameButBlock, CanKeepCast, HasKept};

use crate::state::State;
use crate::text::{another, cast_text, payload_in};
use bytes::Bytes;
use cb_delay::{Event, Message};
use cb_diffs::difference;
use cb_frames::{Cast, LONGEST_PAYLOAD};
use cb_history::CastRefusal;
use cb_history::laws::relays_keep_what_is_handed_on;
use cb_times::{Name, NoMemory, VectorTime};

/// A cast of one message or several that can be kept without memory.
#[derive(Drop)]
pub struct Casting {
    /// The first message as its sender's events have it. It is no part of a list, which a cast of one message thus does not have.
    pub first: Message,
    /// The messages behind it, in the order of their numbers.
    pub others: Vec<Message>,
    /// Their frame, and the frame once more, which may have to be sent again.
    pub out: Bytes,
    pub sent: Bytes,
}

impl Casting {
    /// How many messages there are.
    pub fn count(&self) -> usize
        ensures { result ≡ length (messages_made self.now) }
    {
        1 + self.others.len()
    }
}

impl State {
    /// Whether the payload may be cast. This takes no memory, and how much room the history has is not asked.
    pub fn judge_payload(&self, payload: &[u8]) -> Result<(), CastRefusal>
        requires { IsState self.now }
        ensures { JudgesLoad fault_told self.now (One payload.now) result }
    {
        if payload.len() > LONGEST_PAYLOAD {
            return Err(CastRefusal::PayloadTooLong);
        }
        if self.sending.window.room() == 0 {
            return Err(CastRefusal::WindowFull);
        }
        Ok(())
    }

    /// Makes the next cast. Nothing changes but what is left of the block that its frame lies in.
    pub fn make(&mut self, payload: &[u8]) -> Result<Casting, NoMemory>
        requires state { IsState self.old }
        requires can { CanCast self.old (One payload.now) }
        ensures made { IfOk result (MakesCasting self.old (One payload.now)) }
        ensures same { IsSameButBlock self.old self.new }
    {
        let cast = self.next_cast()?;
        let out = cast_text(&mut self.block, &cast, payload)?;
        let first = self.message_of(&cast, payload_in(&out, payload)?)?;
        let sent = another(&out)?;
        let others = Vec::new(self.alloc);
        Ok(Casting {
            first,
            others,
            out,
            sent,
        })
    }

    /// The next own cast but for its payload, which is copied once, into the frame.
    #[inline(always)]
    pub fn next_cast(&self) -> Result<Cast, NoMemory>
        requires state { IsState self.now }
        requires room { 0 < room_of self.now.sending.window }
        ensures { IfOk result (λ cast. OnAll self.now (λ facts. (load : Load)
            → with_load (cast_fields cast) load
            ≡ next_cast self.now.seat facts load)) }
    {
        let (me, now) = (self.seat.me(), &self.delivery.time);
        let changes = difference(self.alloc, &self.sending.last_cast, now, me)?;
        Ok(Cast {
            group: self.seat.group().number(),
            sender: me,
            number: now.get(me) + 1,
            changes,
            payload: Bytes::new(),
        })
    }

    /// The message of the cast, with the member's time and one cast more.
    fn message_of(&self, cast: &Cast, payload: Bytes) -> Result<Message, NoMemory>
        requires state { IsState self.now }
        requires room { 0 < room_of self.now.sending.window }
        requires next { OnAll self.now (λ facts. with_load (cast_fields cast.now) (One payload)
            ≡ next_cast self.now.seat facts (One payload)) }
        ensures { IfOk result (λ message. OnAll self.now (λ facts. message ∷ []
            ≡ next_messages self.now.seat facts (One payload))) }
    {
        let mut time = self.delivery.time.copy()?;
        time.add_one(self.seat.me());
        Ok(Message {
            name: Name {
                sender: cast.sender,
                number: cast.number,
            },
            time,
            payload,
        })
    }

    /// Keeps the cast that was made: it has this many messages, and this is the time with them. This takes no memory.
    #[inline(always)]
    pub fn keep_cast(&mut self, time: &VectorTime, sent: Bytes, count: u32)
        requires { CanKeepCast time.now sent count self.old }
        ensures { HasKept time.now sent count self.old self.new }
    {
        // asked for what is true of relays with a fact more
        relays_keep_what_is_handed_on();
        let me = self.seat.me();
        self.delivery.time.copy_from(time);
        self.knowledge.acks.learn(me, me, time.get(me));
        self.sending.last_cast.copy_from(time);
        self.sending.window.put(sent, count);
    }
}

/// Puts the events of these casts behind the others, which have room for them.
#[inline(always)]
pub fn push_casts(events: &mut Vec<Event>, first: Message, others: Vec<Message>)
    requires { vec_len events.old + (1 + length others.items) ≤ vec_capacity events.old }
    ensures { events.new.items ≡ events.old.items
        ++ map (λ message. Cast_event message) (first ∷ others.items) }
{
    events.push_reserved(Event::Cast(first));
    for message in others {
        events.push_reserved(Event::Cast(message));
    }
}

/// The time of the last of these messages, which is the member's with all of them.
pub fn last_time<'a>(first: &'a Message, others: &'a [Message]) -> &'a VectorTime
    ensures { result.now ≡ time_of_last first.now others.now }
{
    match others.last() {
        Some(message) => &message.time,
        None => &first.time,
    }
}
