//! A group in threads over links that lose frames, repeat them and hold them back. It ends when each member has seen all messages, or has no
//! turn left. Then it waits for a byte of its input, so that somebody can look at what the process has left, and prints what the audit of the
//! histories says. `checks/soak.sh` runs it.

ghost use Rattle.std.specs.Prelude.{◌≡◌};

use crate::caster::Caster;
use crate::fault::Fault;
use crate::lossy::{Chance, Lossy};
use crate::plan::{LinkKind, Plan, plan_of};
use crate::tally::Tally;
use crate::words::number;
use cb_member::History;
use cb_threads::{
    ChannelLink, Gathering, GroupReport, Inlet, Limits, Outlet, Pace, PaceFault, TcpLink, UdpLink,
    run_group,
};
use cb_trace::audit;
use std::alloc::Global;
use std::io::Read;
use std::net::{Net, TcpListener, TcpStream};
use std::process::ExitCode;
use std::sync::Wait;
use std::thread::{Threads, sleep};
use std::time::Clock;

/// A group, and how it is disturbed and ends.
#[derive(Clone, Copy, Drop)]
struct Course {
    plan: Plan,
    /// What losses and ticks are drawn from.
    seed: u64,
    /// How many entries each history may have.
    history_max: usize,
    /// How many turns each worker makes at most.
    turns: u64,
}

fn course_of(words: &[String]) -> Option<Course> {
    Some(Course {
        plan: plan_of(words)?,
        seed: u64::from(number(words, 8)?),
        history_max: number(words, 9)? as usize,
        turns: u64::from(number(words, 10)?),
    })
}

/// Between two ticks there are so many milliseconds at most.
const SLOWEST: u64 = 50;

/// One to fifty milliseconds between two ticks.
#[derive(Drop)]
pub struct Uneven {
    chance: Chance,
}

impl Uneven {
    pub fn new(chance: Chance) -> Uneven {
        Uneven { chance }
    }
}

impl Pace for Uneven {
    ghost failed = { λ pace. 0 };

    fn failures(&self) -> u64 {
        0
    }

    fn wait<R: Wait + Clock>(&mut self, rt: &R) -> Result<(), PaceFault> {
        sleep(rt, self.chance.millis(SLOWEST));
        Ok(())
    }
}

/// What a group left: its histories, and what was counted.
#[derive(Drop)]
pub struct Ran {
    histories: Vec<History>,
    tally: Tally,
}

/// Runs the group that the words order until each member has seen every message, or has no turn left.
pub fn run<R: Threads + Wait + Clock + Net<Listener = TcpListener, Stream = TcpStream> + Sync>(
    rt: &R,
    alloc: Global,
    words: &[String],
) -> Result<Ran, Fault> {
    let Some(course) = course_of(words) else {
        return Err(Fault::SoakWords);
    };
    match course.plan.link {
        LinkKind::Channel => {
            let links = ChannelLink::group(alloc, course.plan.group.size())?;
            run_over(rt, alloc, course, links)
        }
        LinkKind::Udp => {
            let links = UdpLink::group(rt, alloc, course.plan.group.size())?;
            run_over(rt, alloc, course, links)
        }
        LinkKind::Tcp => {
            let links = TcpLink::group(rt, alloc, course.plan.group.size())?;
            run_over(rt, alloc, course, links)
        }
    }
}

fn run_over<I: Inlet + Send + Drop, O: Outlet + Send + Drop, R: Threads + Wait + Clock + Sync>(
    rt: &R,
    alloc: Global,
    course: Course,
    links: Vec<(I, O)>,
) -> Result<Ran, Fault> {
    let Course {
        plan,
        seed,
        history_max,
        turns,
    } = course;
    let links = lossy(alloc, seed, links)?;
    let mut paces = Vec::new(alloc);
    let mut talkers = Vec::new(alloc);
    for member in 0..plan.group.size() {
        paces.push(Uneven::new(chance_of(seed, member, 1)))?;
        talkers.push(Gathering::new(Caster::new(alloc, plan), plan.burst))?;
    }
    let (group, limits) = (plan.group, Limits { turns });
    match run_group(rt, alloc, group, history_max, links, paces, talkers, limits) {
        Ok(ran) => Ok(left(history_max, ran)),
        Err(fault) => Err(Fault::Group(fault)),
    }
}

/// What the links and the paces of a member draw from, each from numbers of its own.
fn chance_of(seed: u64, member: u32, which: u64) -> Chance {
    let of_member = u64::from(member).saturating_mul(2).saturating_add(which);
    Chance::new(seed.saturating_mul(1_000).saturating_add(of_member))
}

fn lossy<I: Drop, O: Drop>(
    alloc: Global,
    seed: u64,
    links: Vec<(I, O)>,
) -> Result<Vec<(Lossy<I>, O)>, Fault> {
    let mut all = Vec::with_capacity(alloc, links.len())?;
    let mut member = 0;
    for (inner, outlet) in links {
        let inlet = Lossy::new(alloc, inner, chance_of(seed, member, 0));
        all.push((inlet, outlet))?;
        member = member.saturating_add(1);
    }
    Ok(all)
}

/// The histories, and what was counted; links, paces and talkers are dropped.
fn left<I: Drop, O: Drop>(
    history_max: usize,
    ran: GroupReport<I, O, Uneven, Gathering<Caster>>,
) -> Ran {
    let GroupReport { reports, histories } = ran;
    let mut tally = Tally::none();
    for report in &reports {
        tally.add_report(report);
    }
    drop(reports);
    for history in &histories {
        tally.add_history(history_max, &history.entries);
    }
    Ran { histories, tally }
}

fn print_tally(rt: &HostRuntime, tally: Tally, with_all: bool) -> Result<(), Fault> {
    if with_all {
        println!(rt; "{tally}")?;
    } else {
        println!(rt; "casts {} deliveries {}", tally.casts, tally.deliveries)?;
    }
    Ok(())
}

/// Prints how many messages were cast and delivered, and with all everything else that was counted; then what the audit of the histories
/// says. The status is 1 where it says no.
pub fn print(rt: &HostRuntime, ran: Ran, with_all: bool) -> Result<ExitCode, Fault> {
    let Ran { histories, tally } = ran;
    print_tally(rt, tally, with_all)?;
    let _count = rt.stdin().read(&mut [0])?;
    match audit(rt.alloc(), &histories) {
        Ok(joint) => {
            drop(joint);
            println!(rt; "audit yes")?;
            Ok(ExitCode::from(0))
        }
        Err(fault) => {
            println!(rt; "audit no {fault}")?;
            Ok(ExitCode::from(1))
        }
    }
}
