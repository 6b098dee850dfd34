//! Casting several payloads at once: what differs from a cast of one.

ghost use Rattle.std.specs.Prelude.{◌≡◌, ◌≤◌, IfOk, IsTrue, ◌↔◌, length, map, true};
ghost use Rattle.cb_frames.specs.declared.frame.TheConstants.{LONGEST_PAYLOAD};
ghost use Rattle.cb_frames.specs.Fields.{Many, burst_fields, load_bytes};
ghost use Rattle.cb_frames.specs.Laws.{IsBytes};
ghost use Rattle.cb_stability.specs.Sent.{room_of};
ghost use Rattle.cb_history.specs.Answers.{next_cast};
ghost use Rattle.cb_history.specs.CastFault.{burst_fault_told};
ghost use Rattle.cb_history.specs.Load.{many_of};
ghost use Rattle.cb_member.specs.State.{IsState, OnAll};
ghost use Rattle.cb_member.specs.Casting.{next_messages, CanCast, JudgesLoad, MakesCasting, IsSameButBlock};

use crate::own_cast::Casting;
use crate::state::State;
use crate::text::another;
use bytes::Bytes;
use cb_delay::Message;
use cb_frames::{Burst, Cast, Frame, FrameBlock, LONGEST_PAYLOAD, MOST_MESSAGES, frame_text};
use cb_history::BurstRefusal;
use cb_times::{Name, NoMemory};
use std::alloc::Global;

impl State {
    /// Whether the payloads may be cast in one frame. This takes no memory, and how much room the history has is not asked.
    pub fn judge_payloads(&self, payloads: &[&[u8]]) -> Result<(), BurstRefusal>
        requires { IsState self.now }
        ensures { JudgesLoad burst_fault_told self.now (many_of payloads.now) result }
    {
        if payloads.is_empty() {
            return Err(BurstRefusal::EmptyBurst);
        }
        if payloads.len() > MOST_MESSAGES {
            return Err(BurstRefusal::BurstTooLong);
        }
        if !are_short(payloads) {
            return Err(BurstRefusal::PayloadTooLong);
        }
        if payloads.len() > self.sending.window.room() as usize {
            return Err(BurstRefusal::WindowFull);
        }
        Ok(())
    }

    /// Makes the next cast, a burst. Nothing changes but what is left of the block that its payloads lie in.
    ///
    /// They are copied twice: into the block for the events, and into the frame, which may go once it is stable.
    pub fn make_burst(&mut self, payloads: &[&[u8]]) -> Result<Casting, NoMemory>
        requires state { IsState self.old }
        requires can { CanCast self.old (many_of payloads.now) }
        ensures made { IfOk result (MakesCasting self.old (many_of payloads.now)) }
        ensures same { IsSameButBlock self.old self.new }
    {
        let payloads = lodged(self.alloc, &mut self.block, payloads)?;
        let mut others = self.messages_of(&payloads)?;
        let first = others.remove(0);
        let frame = Frame::Burst(self.next_burst(payloads)?);
        let out = frame_text(self.alloc, &frame)?;
        let sent = another(&out)?;
        Ok(Casting {
            first,
            others,
            out,
            sent,
        })
    }

    /// The next own cast, of these payloads.
    fn next_burst(&self, payloads: Vec<Bytes>) -> Result<Burst, NoMemory>
        requires state { IsState self.now }
        requires can { CanCast self.now (Many payloads.items) }
        ensures { IfOk result (λ burst. OnAll self.now (λ facts. burst_fields burst
            ≡ next_cast self.now.seat facts (Many payloads.items))) }
    {
        let Cast {
            group,
            sender,
            number,
            changes,
            payload: _,
        } = self.next_cast()?;
        Ok(Burst {
            group,
            sender,
            first: number,
            changes,
            payloads,
        })
    }

    /// The messages of the next cast, each with the member's time and one cast more than the one before it.
    fn messages_of(&self, payloads: &[Bytes]) -> Result<Vec<Message>, NoMemory>
        requires state { IsState self.now }
        requires room { length payloads.now ≤ room_of self.now.sending.window }
        ensures { IfOk result (λ messages. OnAll self.now (λ facts. messages.items
            ≡ next_messages self.now.seat facts (Many payloads.now))) }
    {
        let me = self.seat.me();
        let mut time = self.delivery.time.copy()?;
        let mut messages = Vec::with_capacity(self.alloc, payloads.len())?;
        for payload in payloads {
            time.add_one(me);
            messages.push(Message {
                name: Name {
                    sender: me,
                    number: time.get(me),
                },
                time: time.copy()?,
                payload: another(payload)?,
            })?;
        }
        Ok(messages)
    }
}

/// Together they have no more bytes than a frame may carry.
fn are_short(payloads: &[&[u8]]) -> bool
    ensures short { IsTrue result
        ↔ (length (load_bytes (many_of payloads.now)) ≤ LONGEST_PAYLOAD) }
    ensures bytes { result ≡ true → IsBytes (load_bytes (many_of payloads.now)) }
{
    let mut room = LONGEST_PAYLOAD;
    for payload in payloads {
        let length = length_of(payload);
        if length > room {
            return false;
        }
        room -= length;
    }
    true
}

/// How many bytes the payload has. A slice of slices does not tell what is true of their elements, and a slice does.
fn length_of(payload: &[u8]) -> usize
    ensures length { result ≡ length payload.now }
    ensures bytes { IsBytes payload.now }
{
    payload.len()
}

/// Copies of the payloads, which lie in the block one behind the other.
fn lodged(alloc: Global, block: &mut FrameBlock, payloads: &[&[u8]]) -> Result<Vec<Bytes>, NoMemory>
    ensures { IfOk result (λ handles. handles.items
        ≡ map (λ payload. payload.now) payloads.now) }
{
    let mut handles = Vec::with_capacity(alloc, payloads.len())?;
    for payload in payloads {
        handles.push(block.lodge(payload)?)?;
    }
    Ok(handles)
}
