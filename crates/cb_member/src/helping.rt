//! Whom a member asks for the missing casts of another, beside that one itself.

ghost use Rattle.std.specs.Prelude.{◌≡◌, ◌≢◌, ◌↔◌, ◌<◌, ◌≤◌, ◌==◌, ◌&&◌, not, nat_le, nat_lt, length, IfOk, IfErr, IfSome, Some, Ok, Err, true, false};
ghost use Rattle.std.specs.List.{list_all, range_with_len};
ghost use Rattle.cb_history.specs.Helping.{help_for, help_to};
ghost use Rattle.cb_history.specs.Known.{missing, ranges_of, acknowledged_of};
ghost use Rattle.cb_member.specs.Helping.{help_answer_among, help_for_among, helper_among, may_ask_among, RefusesAmong};
ghost use Rattle.cb_member.specs.State.{IsState, OnAll};

use crate::state::State;
use cb_frames::{Range, frame_text};
use cb_gaps::help_of;
use cb_history::{HelpFault, Outgoing};
use cb_times::NoMemory;

/// The members of a group of this size, in rising order.
fn members_below(size: u32) -> &'static [u32]
    requires { size ≤ 64 }
    ensures { result.now ≡ range_with_len 0 size }
{
    const MEMBERS: &[u32] = &[
        0, 1, 2, 3, 4, 5, 6, 7, 8, 9, 10, 11, 12, 13, 14, 15, 16, 17, 18, 19, 20, 21, 22, 23, 24,
        25, 26, 27, 28, 29, 30, 31, 32, 33, 34, 35, 36, 37, 38, 39, 40, 41, 42, 43, 44, 45, 46, 47,
        48, 49, 50, 51, 52, 53, 54, 55, 56, 57, 58, 59, 60, 61, 62, 63,
    ];
    &MEMBERS[..size as usize]
}

/// All these are members of a group of this size.
fn are_members(members: &[u32], size: u32) -> bool
    ensures { result ≡ list_all (λ k. nat_lt k size) members.now }
{
    members.iter().all(|k| *k < size)
}

impl State {
    /// The frame that asks a third member for the missing casts of member i. `None` where none is missing, or nobody else is known to
    /// have the first of them.
    pub fn help(&self, i: u32) -> Result<Option<Outgoing>, NoMemory>
        requires state { IsState self.now }
        requires of_group { i < self.now.seat.group.size }
        requires other { i ≢ self.now.seat.me }
        ensures { IfOk result (λ out. OnAll self.now (λ facts. out
            ≡ help_for self.now.seat facts i (ranges_of (missing self.now.seat facts i)))) }
    {
        let members = members_below(self.seat.group().size());
        self.ask_among(i, members)
    }

    /// The frame that asks one of these members for the missing casts of member i.
    #[tactic(auto, unfolding(crate::specs::Helping::help_answer_among))]
    pub fn help_among(&self, i: u32, members: &[u32]) -> Result<Option<Outgoing>, HelpFault>
        requires { IsState self.now }
        ensures asked { IfOk result (λ out. OnAll self.now (λ facts.
            help_answer_among self.now.seat facts i members.now ≡ Ok out)) }
        ensures refused { IfErr result (λ fault. OnAll self.now (λ facts.
            RefusesAmong self.now.seat facts i members.now fault)) }
        ensures bad_member { (result ≡ Err HelpFault.BadMember)
            ↔ (may_ask_among self.now.seat i members.now ≡ false) }
    {
        if !self.may_ask(i, members) {
            return Err(HelpFault::BadMember);
        }
        let help = self.ask_among(i, members)?;
        Ok(help)
    }

    /// Member i is another of the group, and these are members of it.
    fn may_ask(&self, i: u32, members: &[u32]) -> bool
        requires { IsState self.now }
        ensures { result ≡ may_ask_among self.now.seat i members.now }
    {
        let size = self.seat.group().size();
        i < size && i != self.seat.me() && are_members(members, size)
    }

    /// `None` where nothing of i is missing, or none of these members, but for i and this one, is known to have the first of it.
    fn ask_among(&self, i: u32, members: &[u32]) -> Result<Option<Outgoing>, NoMemory>
        requires state { IsState self.now }
        requires may { may_ask_among self.now.seat i members.now ≡ true }
        ensures { IfOk result (λ out. OnAll self.now (λ facts. out ≡ help_for_among self.now.seat facts
            i (ranges_of (missing self.now.seat facts i)) members.now)) }
    {
        let ranges = self.missing(i)?;
        let Some(first) = ranges.first() else {
            return Ok(None);
        };
        match self.helper_among(i, first.first, members) {
            Some(helper) => self.help_from(helper, i, &ranges),
            None => Ok(None),
        }
    }

    /// The first of these members, other than both, that is known to have delivered this message of member i.
    fn helper_among(&self, i: u32, number: u32, members: &[u32]) -> Option<u32>
        requires state { IsState self.now }
        requires of_group { i < self.now.seat.group.size }
        requires members { list_all (λ k. nat_lt k self.now.seat.group.size) members.now ≡ true }
        ensures first { OnAll self.now (λ facts. result
            ≡ helper_among self.now.seat facts i number members.now) }
        ensures member { IfSome result (λ k. k < self.now.seat.group.size) }
    {
        for k in members {
            if self.may_help(*k, i, number) {
                return Some(*k);
            }
        }
        None
    }

    /// Member k is another than both, and known to have delivered this message of member i.
    fn may_help(&self, k: u32, i: u32, number: u32) -> bool
        requires state { IsState self.now }
        requires member { k < self.now.seat.group.size }
        requires of_group { i < self.now.seat.group.size }
        ensures { OnAll self.now (λ facts. result ≡ (not (k == i) && not (k == self.now.seat.me)
            && nat_le number (acknowledged_of self.now.seat facts k i))) }
    {
        k != i && k != self.seat.me() && number <= self.knowledge.acks.learnt(k, i)
    }

    /// The help frame to that member for the first of these ranges, where there are some.
    fn help_from(&self, helper: u32, i: u32, ranges: &[Range]) -> Result<Option<Outgoing>, NoMemory>
        requires state { IsState self.now }
        requires helper { helper < self.now.seat.group.size }
        requires of_group { i < self.now.seat.group.size }
        requires asked { OnAll self.now (λ facts. ranges.now
            ≡ ranges_of (missing self.now.seat facts i)) }
        requires some { 0 < length ranges.now }
        ensures { IfOk result (λ out. out ≡ help_to self.now.seat i ranges.now (Some helper)) }
    {
        let (group, me) = (self.seat.group().number(), self.seat.me());
        let Some(frame) = help_of(self.alloc, group, me, helper, i, ranges)? else {
            return Ok(None);
        };
        Ok(Some(Outgoing {
            to: Some(helper),
            bytes: frame_text(self.alloc, &frame)?,
        }))
    }
}
