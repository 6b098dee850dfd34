//! The casts of one group, and their times.

use crate::fault::LineFault;
use crate::refusal::Refusal;
use bytes::Bytes;
use cb_diffs::{ExpandFault, Expander};
use cb_frames::{Frame, FrameFault, Unit};
use cb_times::{Name, NoMemory, VectorTime};
use hex::FromHexError;
use std::alloc::{AllocError, Global};
use std::marker::Model;

/// What one run of `expand` knows of its group. A clause sees it as its number and its times.
#[derive(Drop)]
pub struct Expansion {
    alloc: Global,
    /// The number of the group whose casts are accepted.
    group: u32,
    /// Keeps the time of each member's last accepted cast.
    expander: Expander,
    /// The time of a message of the cast that was accepted last, at first of its first one: made once, and written over.
    time: VectorTime,
}

impl Model for Expansion {
    ghost use Rattle.std.specs.Prelude.{◌≡◌, length};
    ghost use Rattle.confer_expand.specs.Progress.{Group};

    ghost Value = { Group };

    ghost view = { λ e. record { number = e.group; kept = e.expander; time = e.time } };

    ghost invariant = { λ e. length e.time ≡ length e.expander };
}

impl Expansion {
    ghost use Rattle.std.specs.Prelude.{◌≡◌, ◌≢◌, ◌↔◌, ◌<◌, ℕ, List, [], length, slice_set, IfOk, OnErr, OnOk, Err};
    ghost use Rattle.cb_frames.specs.Carrying.{IsNumbered};
    ghost use Rattle.cb_frames.specs.Fields.{CastFields, unit_fields};
    ghost use Rattle.cb_times.specs.Group.{IsGroupSize};
    ghost use Rattle.cb_diffs.specs.Expansion.{Expands, IsNotNext, IsStrange};
    ghost use Rattle.cb_diffs.specs.Laws.{IsKept};
    ghost use Rattle.confer_expand.specs.Progress.{IsFresh, SameGroup};
    ghost use Rattle.confer_expand.specs.Steps.{GivesAccepted, GivesTime, IsRead};

    /// For a group of that many members, none of whose casts were accepted.
    pub fn new(alloc: Global, group: u32, size: u32) -> Result<Expansion, NoMemory>
        requires { IsGroupSize size }
        ensures { IfOk result (IsFresh group size) }
    {
        let expander = Expander::new(alloc, size)?;
        let time = VectorTime::zero(alloc, size)?;
        Ok(Expansion {
            alloc,
            group,
            expander,
            time,
        })
    }

    /// The time of the first message of what was accepted last, or of that to which `move_to` moved it.
    pub fn time(&self) -> &VectorTime
        ensures { result.now ≡ self.now.time }
    {
        &self.time
    }

    /// Moves `time` on to this message of what was accepted last: between its messages no field but the sender's grows.
    pub fn move_to(&mut self, name: Name)
        requires { name.sender < length self.old.kept }
        ensures { self.new
            ≡ record self.old { time = slice_set self.old.time name.sender name.number } }
    {
        self.time.set(name.sender, name.number);
    }

    /// The cast or burst that the line is. The time of its first message is then `time`.
    #[tactic(auto, unfolding(crate::specs::Answers::outcome))]
    pub fn accept(&mut self, line: &[u8]) -> Result<Unit, LineFault>
        ensures gives { (accepted : List CastFields)
            → IsKept (length self.old.kept) accepted self.old.kept
            → GivesAccepted accepted line.now self.old self.new result }
        ensures read { IfOk result IsRead }
        ensures member { IfOk result (λ unit. (unit_fields unit).sender < length self.new.kept) }
        ensures same { SameGroup self.old self.new }
        ensures err { OnErr result (self.new ≡ self.old) }
    {
        let bytes = bytes_of(self.alloc, line)?;
        let unit = unit_of(self.alloc, &bytes)?;
        match self.expand(&unit) {
            Ok(()) => Ok(unit),
            Err(fault) => Err(fault),
        }
    }

    fn expand(&mut self, unit: &Unit) -> Result<(), LineFault>
        requires { IsNumbered unit.now }
        ensures gives { (accepted : List CastFields)
            → IsKept (length self.old.kept) accepted self.old.kept
            → GivesTime accepted (unit_fields unit.now) self.old self.new result }
        ensures member { OnOk result ((unit_fields unit.now).sender < length self.new.kept) }
        ensures same { SameGroup self.old self.new }
        ensures err { OnErr result (self.new ≡ self.old) }
    {
        if unit.group() != self.group {
            return Err(LineFault::Refused(Refusal::OtherGroup));
        }
        match self.take(unit) {
            Ok(()) => Ok(()),
            Err(fault) => Err(LineFault::Refused(Refusal::Expand(fault))),
        }
    }

    /// Expands the sender's next cast or burst.
    fn take(&mut self, unit: &Unit) -> Result<(), ExpandFault>
        requires { IsNumbered unit.now }
        ensures ok { OnOk result
            (Expands self.old.kept (unit_fields unit.now) self.new.time self.new.kept) }
        ensures bad_member { (result ≡ Err ExpandFault.BadMember)
            ↔ IsStrange self.old.kept (unit_fields unit.now) }
        ensures not_next { (expected found : ℕ)
            → (result ≡ Err (ExpandFault.NotNext expected found))
            ↔ IsNotNext self.old.kept (unit_fields unit.now) expected found }
        ensures never_for_memory { result ≢ Err ExpandFault.NoMemory }
        ensures number { self.new.number ≡ self.old.number }
        ensures err { OnErr result (self.new ≡ self.old) }
    {
        match unit {
            Unit::One(cast) => self.expander.expand_into(cast, &mut self.time),
            Unit::Many(burst) => self.expander.burst_into(burst, &mut self.time),
        }
    }
}

ghost use Rattle.confer_expand.specs.Steps.{GivesBytes, GivesUnit};

fn bytes_of(alloc: Global, line: &[u8]) -> Result<Bytes, LineFault>
    ensures { GivesBytes line.now result }
{
    let bytes = match hex::decode(alloc, line) {
        Ok(bytes) => bytes,
        Err(FromHexError::OutOfMemory) => return Err(LineFault::NoMemory(AllocError)),
        Err(_) => return Err(LineFault::Refused(Refusal::BadHex)),
    };
    match Bytes::from_vec(bytes) {
        Ok(bytes) => Ok(bytes),
        Err(refused) => Err(LineFault::NoMemory(refused.into())),
    }
}

/// The cast or burst that the bytes are.
fn unit_of(alloc: Global, bytes: &Bytes) -> Result<Unit, LineFault>
    ensures { GivesUnit bytes.now result }
{
    match cb_frames::decode(alloc, bytes) {
        Ok(Frame::Cast(cast)) => Ok(Unit::One(cast)),
        Ok(Frame::Burst(burst)) => Ok(Unit::Many(burst)),
        Ok(Frame::Status(_) | Frame::Request(_) | Frame::Help(_)) => {
            Err(LineFault::Refused(Refusal::NotACast))
        }
        Err(FrameFault::NoMemory) => Err(LineFault::NoMemory(AllocError)),
        Err(fault) => Err(LineFault::Refused(Refusal::Frame(fault))),
    }
}
