//! A window that stays full, and who it waits for.

use cb_member::Member;

/// Member 0 finds its window full, with a status of member 1 too: it waits for a member that says nothing.
pub fn wait(rt: &HostRuntime, members: &mut [Member]) -> anyhow::Result<()> {
    let Some((member, others)) = members.split_first_mut() else {
        return Ok(());
    };
    if let Some(other) = others.first_mut() {
        hear(member, other)?;
    }
    if let Err(refusal) = member.cast(b"more") {
        println!(rt; "0 keeps \"more\": {refusal}")?;
    }
    for other in others {
        print(rt, member, other.seat().me())?;
    }
    Ok(())
}

/// The other member ticks, and the member takes what it sends.
fn hear(member: &mut Member, other: &mut Member) -> anyhow::Result<()> {
    for status in other.tick()?.out {
        drop(member.arrive(&status.bytes)?);
    }
    Ok(())
}

// GUIDE: begin
/// Says how many casts of member 0 the other one is known to have delivered, and whether it keeps the window full.
fn print(rt: &HostRuntime, member: &Member, other: u32) -> anyhow::Result<()> {
    let count = member.acknowledged_by(other).unwrap_or(0);
    println!(rt; "{other} is known to have delivered {count} casts of 0")?;
    if member.keeps_window_full(other) {
        println!(rt; "{other} keeps the window full")?;
    }
    Ok(())
}
// GUIDE: end
