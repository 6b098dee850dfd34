//! What a restart does to a member: without its history the others take its casts for repeats; with it, it goes on.

use crate::{HISTORY_LIMIT, show};
use bytes::Bytes;
use cb_journal::{JournalWriter, read_journal};
use cb_member::{Arrival, Group, Member};
use cb_replay::resume;
use std::alloc::Global;

/// Member 0 begins again, once without its history and once with it, and casts each time. The second takes its place.
pub fn restart(rt: &HostRuntime, members: &mut [Member]) -> anyhow::Result<()> {
    let Some((old, others)) = members.split_first_mut() else {
        return Ok(());
    };
    let group = old.seat().group();
    without_history(rt, group, others)?;
    let journal = journal_of(rt.alloc(), old)?;
    *old = back(rt.alloc(), &journal)?;
    drop(journal);
    cast_to(rt, old, others, "back again")
}

fn without_history(rt: &HostRuntime, group: Group, others: &mut [Member]) -> anyhow::Result<()> {
    let mut member = Member::new(rt.alloc(), group, 0, HISTORY_LIMIT)?;
    let cast = cast_to(rt, &mut member, others, "hello again");
    drop(member);
    cast
}

/// Member 0 casts to all others.
fn cast_to(
    rt: &HostRuntime,
    member: &mut Member,
    others: &mut [Member],
    text: &str,
) -> anyhow::Result<()> {
    let frame = member.cast(text.as_bytes())?.out;
    println!(rt; "0 casts {text:?}")?;
    for other in others {
        take(rt, other, &frame)?;
    }
    Ok(())
}

/// Prints what the frame is to the member.
fn take(rt: &HostRuntime, member: &mut Member, frame: &Bytes) -> anyhow::Result<()> {
    let me = member.seat().me();
    match member.arrive(frame)? {
        Arrival::Repeat => Ok(println!(rt; "{me} takes it for a repeat")?),
        Arrival::Accepted { deliveries, .. } => show(rt, me, deliveries),
    }
}

// GUIDE: begin
/// The journal of all that the member did, as it is written entry by entry.
fn journal_of(alloc: Global, member: &Member) -> anyhow::Result<Vec<u8>> {
    let mut journal = JournalWriter::begin(alloc, Vec::new(alloc), member.seat())?;
    for entry in member.history() {
        journal.append(entry)?;
    }
    Ok(journal.into_device())
}

/// The member whose journal these bytes are, whatever a crash left of the last line.
fn back(alloc: Global, bytes: &[u8]) -> anyhow::Result<Member> {
    let journal = read_journal(alloc, bytes)?;
    Ok(resume(alloc, journal.history, HISTORY_LIMIT)?)
}
// GUIDE: end
