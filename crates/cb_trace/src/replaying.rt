//! A history is replayed by a new member.

ghost use Rattle.std.specs.Prelude.{◌<◌, IfOk, map};
ghost use Rattle.cb_history.specs.Facts.{entry_fields};
ghost use Rattle.cb_trace.specs.Auditing.{seat_of};
ghost use Rattle.cb_trace.specs.Replaying.{SaysFirstWrong};

use cb_member::{History, LONGEST_HISTORY, Member, NewFault, NoMemory};
use cb_replay::replay;
use std::alloc::{AllocError, Global};

/// The number of the first entry that a fresh member does not give, called as the entries tell; `None` where the history is legal.
pub fn first_wrong(alloc: Global, history: &History) -> Result<Option<usize>, NoMemory>
    requires { history.now.me < history.now.group.size }
    ensures { IfOk result (SaysFirstWrong (seat_of history.now.group history.now.me)
        (map entry_fields history.now.entries.items)) }
{
    match Member::new(alloc, history.group, history.me, LONGEST_HISTORY) {
        Ok(mut member) => {
            let answer = replay(alloc, &mut member, &history.entries);
            drop(member);
            answer
        }
        Err(NewFault::NoMemory) => Err(AllocError),
        Err(_fault) => unreachable!("it is a member of the group"),
    }
}
