//! The audit: whether histories are what the members of a group did in some run.

ghost use Rattle.std.specs.Prelude.{◌≡◌, ◌↔◌, ◌<◌, ◌≤◌, ℕ, List, [], length, map, Err, IfOk, IfErr};
ghost use Rattle.std.specs.Prelude.{MatchOption};
ghost use Rattle.std.specs.Bool.{Decides};
ghost use Rattle.cb_history.specs.Legal.{longest_history};
ghost use Rattle.cb_schedules.specs.Headline.{Headline};
ghost use Rattle.cb_world.specs.World.{run_in};
ghost use Rattle.cb_trace.specs.Text.{HistoryFields, history_fields};
ghost use Rattle.cb_trace.specs.Auditing.{AreOfEachMember, AreWrongMembers, AreLegalHistories};
ghost use Rattle.cb_trace.specs.Auditing.{SaysWrongAnswer, SaysFault, IsJoint, IsAudited};
ghost use Rattle.cb_trace.specs.Auditing.{entries_at, longest};
ghost use Rattle.cb_trace.specs.Search.{IsJoining, IsSearched};

use crate::fault::AuditFault;
use crate::joining::{Joining, first_left, join};
use crate::joint::Joint;
use crate::replaying::first_wrong;
use cb_member::{Group, History, NoMemory};
use cb_world::{PlayFault, World};
use indexmap::IndexMap;
use std::alloc::{AllocError, Global};

/// Looks for a run of the whole group in which each member did what its history says.
///
/// Of the members whose next entry may go the joint order takes the smallest: a cast and a tick may go
/// always, an arrival once its bytes were sent by a cast or a tick that was taken. `Unsent` is answered only
/// where no joint order exists. Where there is one, its steps are a schedule whose run has exactly these
/// histories; so all that is true after every schedule is true of what these members did.
pub fn audit(alloc: Global, histories: &[History]) -> Result<Joint, AuditFault>
    ensures joint { IfOk result (λ joint. IsJoint (map history_fields histories.now)
        joint.setting joint.steps) }
    ensures run { IfOk result (λ joint. (k : ℕ) → (run_in joint).histories k
        ≡ entries_at (map history_fields histories.now) k) }
    ensures headline { IfOk result (λ joint. Headline joint.setting (run_in joint)) }
    ensures wrong_member { (result ≡ Err AuditFault.WrongMember)
        ↔ AreWrongMembers (map history_fields histories.now) }
    ensures fault { IfErr result (SaysFault (map history_fields histories.now)) }
{
    let Some(group) = group_of(histories) else {
        return Err(AuditFault::WrongMember);
    };
    audit_members(alloc, group, histories)
}

/// The group of which there is one history for each member, in the order of their numbers.
fn group_of(histories: &[History]) -> Option<Group>
    ensures { MatchOption result (AreWrongMembers (map history_fields histories.now))
        (λ group. AreOfEachMember group (map history_fields histories.now)) }
{
    let group = histories.first()?.group;
    if are_of_each_member(group, histories) {
        Some(group)
    } else {
        None
    }
}

fn are_of_each_member(group: Group, histories: &[History]) -> bool
    ensures { Decides result (AreOfEachMember group (map history_fields histories.now)) }
{
    if histories.len() != group.size() as usize {
        return false;
    }
    for k in 0..histories.len() {
        if !is_of_member(&histories[k], group, k) {
            return false;
        }
    }
    true
}

fn is_of_member(history: &History, group: Group, k: usize) -> bool
    ensures { Decides result ((history.now.group ≡ group) × (history.now.me ≡ k)) }
{
    history.group == group && history.me as usize == k
}

fn audit_members(alloc: Global, group: Group, histories: &[History]) -> Result<Joint, AuditFault>
    requires { AreOfEachMember group (map history_fields histories.now) }
    ensures audited { IfOk result (IsAudited (map history_fields histories.now)) }
    ensures fault { IfErr result (SaysFault (map history_fields histories.now)) }
{
    match first_wrong_answer(alloc, group, histories)? {
        Some((member, entry)) => Err(AuditFault::WrongAnswer { member, entry }),
        None => joint_of(alloc, group, histories),
    }
}

/// The least member with a wrong entry, and its first one.
fn first_wrong_answer(
    alloc: Global,
    group: Group,
    histories: &[History],
) -> Result<Option<(u32, usize)>, NoMemory>
    requires { AreOfEachMember group (map history_fields histories.now) }
    ensures { IfOk result (SaysWrongAnswer group (map history_fields histories.now)) }
{
    for history in histories {
        if let Some(entry) = first_wrong(alloc, history)? {
            return Ok(Some((history.me, entry)));
        }
    }
    Ok(None)
}

/// The joint order of legal histories.
fn joint_of(alloc: Global, group: Group, histories: &[History]) -> Result<Joint, AuditFault>
    requires { AreLegalHistories group (map history_fields histories.now) }
    ensures audited { IfOk result (IsAudited (map history_fields histories.now)) }
    ensures fault { IfErr result (SaysFault (map history_fields histories.now)) }
{
    let history_max = longest_of(histories);
    let joining = joined(alloc, group, histories, history_max)?;
    finish(histories, joining, history_max)
}

/// All entries that may go have gone.
fn joined(
    alloc: Global,
    group: Group,
    histories: &[History],
    history_max: usize,
) -> Result<Joining, NoMemory>
    requires legal { AreLegalHistories group (map history_fields histories.now) }
    requires longest { history_max ≡ longest (map history_fields histories.now) }
    ensures { IfOk result (IsSearched (map history_fields histories.now)) }
{
    let mut joining = start(alloc, group, histories.len(), history_max)?;
    join(alloc, histories, &mut joining)?;
    Ok(joining)
}

/// A joint order, where no entry is left.
fn finish(histories: &[History], joining: Joining, history_max: usize) -> Result<Joint, AuditFault>
    requires longest { history_max ≡ longest (map history_fields histories.now) }
    requires searched { IsSearched (map history_fields histories.now) joining }
    ensures audited { IfOk result (IsAudited (map history_fields histories.now)) }
    ensures fault { IfErr result (SaysFault (map history_fields histories.now)) }
{
    match first_left(histories, &joining.gone) {
        Some(k) => Err(AuditFault::Unsent {
            member: k as u32,
            entry: joining.gone[k] + 1,
        }),
        None => Ok(Joint {
            world: joining.world,
            steps: joining.steps,
            history_max,
        }),
    }
}

/// How many entries the longest history has; 1 where all are empty.
fn longest_of(histories: &[History]) -> usize
    ensures { result ≡ longest (map history_fields histories.now) }
{
    let mut most = 1;
    for history in histories {
        most = most.max(history.entries.len());
    }
    most
}

/// Nothing has gone yet.
fn start(alloc: Global, group: Group, size: usize, history_max: usize) -> Result<Joining, NoMemory>
    requires limit { (1 ≤ history_max) × (history_max ≤ longest_history) }
    ensures { IfOk result (λ joining. (histories : List HistoryFields) → length histories ≡ size
        → IsJoining (record { group = group; limit = history_max }) histories joining) }
{
    let world = match World::new(alloc, group, history_max) {
        Ok(world) => world,
        Err(PlayFault::NoMemory) => return Err(AllocError),
        Err(PlayFault::BadLimit) => unreachable!("the limit is within the bounds"),
    };
    Ok(Joining {
        gone: vec![in alloc; 0; size]?,
        world,
        steps: Vec::new(alloc),
        first_frames: IndexMap::new(alloc),
    })
}
