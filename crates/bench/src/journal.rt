//! A group in one thread, in which nothing is lost, whose members keep no journal, or each one in memory, in a file or in a file that is
//! synced after each entry. Or the first member comes back by the journal that such a run left in the folder.

mod desk;
mod plan;
mod run;
mod shelf;

use crate::fault::Fault;
use crate::journal::plan::{Plan, Way, plan_of};
use crate::journal::run::{Outcome, outcome_of};
use crate::journal::shelf::{Unsynced, name_of};
use cb_history::LONGEST_HISTORY;
use cb_journal::read_journal;
use cb_replay::resume;
use std::fs;
use std::fs::File;
use std::process::ExitCode;

/// The first member comes back by its journal.
fn come_back(rt: &HostRuntime) -> Result<Outcome, Fault> {
    let name = name_of(rt, 0)?;
    let bytes = fs::read(rt, name.as_str())?;
    let journal = read_journal(rt.alloc(), &bytes)?;
    drop(bytes);
    let member = resume(rt.alloc(), journal.history, LONGEST_HISTORY)?;
    let entries = member.history().len();
    drop(member);
    Ok(Outcome {
        deliveries: 0,
        entries,
    })
}

fn outcome(rt: &HostRuntime, plan: &Plan) -> Result<Outcome, Fault> {
    match plan.way {
        Way::Nothing => outcome_of::<Vec<u8>>(rt, plan, false),
        Way::Memory => outcome_of::<Vec<u8>>(rt, plan, true),
        Way::File => outcome_of::<Unsynced>(rt, plan, true),
        Way::Sync => outcome_of::<File>(rt, plan, true),
        Way::Back => come_back(rt),
    }
}

/// Runs what the words order, and prints how many messages were delivered, and how many entries the first member has.
pub fn print(rt: &HostRuntime, words: &[String]) -> Result<ExitCode, Fault> {
    let Some(plan) = plan_of(words) else {
        return Err(Fault::JournalWords);
    };
    let Outcome {
        deliveries,
        entries,
    } = outcome(rt, &plan)?;
    println!(rt; "deliveries {deliveries} entries {entries}")?;
    Ok(ExitCode::from(0))
}
