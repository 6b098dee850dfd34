//! A whole group in threads, which ends when each member has seen all messages. `bench/plain_group.rs` is the same in plain Rust.

ghost use Rattle.std.specs.Prelude.{◌≡◌};

use crate::caster::Caster;
use crate::fault::Fault;
use crate::plan::{LinkKind, Plan, plan_of};
use cb_member::LONGEST_HISTORY;
use cb_threads::{
    ChannelLink, Every, Gathering, GroupReport, Inlet, Limits, LinkFault, MemberReport, Outlet,
    Received, TcpLink, UdpLink, run_group,
};
use std::alloc::Global;
use std::net::{Net, TcpListener, TcpStream};
use std::process::ExitCode;
use std::sync::Wait;
use std::thread::Threads;
use std::time::{Clock, Duration};

/// The first bytes of cast frames, of one message and of several.
const CASTS: [u8; 2] = [0x11, 0x21];

/// An inlet that counts the cast frames that it receives.
#[derive(Drop)]
pub struct Counting<I> {
    pub inner: I,
    pub casts: u64,
}

impl<I: Inlet> Inlet for Counting<I> {
    ghost failed = { λ c. I.failed c.inner };

    fn failures(&self) -> u64 {
        self.inner.failures()
    }

    fn receive<R: Wait + Clock>(&mut self, rt: &R) -> Result<Received, LinkFault> {
        let received = self.inner.receive(rt);
        if is_cast(&received) {
            self.casts = self.casts.saturating_add(1);
        }
        received
    }

    fn close(&mut self) {
        self.inner.close();
    }
}

fn is_cast(received: &Result<Received, LinkFault>) -> bool {
    match received {
        Ok(Received::Frame(frame)) => frame
            .as_slice()
            .first()
            .is_some_and(|kind| CASTS.contains(kind)),
        _ => false,
    }
}

/// The outcome of a run.
#[derive(Clone, Copy)]
pub struct Ran {
    /// The messages of others that were delivered.
    deliveries: u64,
    /// The received cast frames, of which those above the deliveries are repeats.
    arrivals: u64,
}

/// Runs the group that the words order until each member has seen every message.
pub fn run<R: Threads + Wait + Clock + Net<Listener = TcpListener, Stream = TcpStream> + Sync>(
    rt: &R,
    alloc: Global,
    words: &[String],
) -> Result<Ran, Fault> {
    let Some(plan) = plan_of(words) else {
        return Err(Fault::GroupWords);
    };
    match plan.link {
        LinkKind::Channel => {
            let links = ChannelLink::group(alloc, plan.group.size())?;
            run_over(rt, alloc, plan, links)
        }
        LinkKind::Udp => {
            let links = UdpLink::group(rt, alloc, plan.group.size())?;
            run_over(rt, alloc, plan, links)
        }
        LinkKind::Tcp => {
            let links = TcpLink::group(rt, alloc, plan.group.size())?;
            run_over(rt, alloc, plan, links)
        }
    }
}

fn run_over<I: Inlet + Send + Drop, O: Outlet + Send + Drop, R: Threads + Wait + Clock + Sync>(
    rt: &R,
    alloc: Global,
    plan: Plan,
    links: Vec<(I, O)>,
) -> Result<Ran, Fault> {
    let links = with_counts(alloc, links)?;
    let mut paces = Vec::new(alloc);
    let mut talkers = Vec::new(alloc);
    for _member in 0..plan.group.size() {
        paces.push(Every(Duration::from_millis(1)))?;
        talkers.push(Gathering::new(Caster::new(alloc, plan), plan.burst))?;
    }
    let limits = Limits { turns: u64::MAX };
    match run_group(
        rt,
        alloc,
        plan.group,
        LONGEST_HISTORY,
        links,
        paces,
        talkers,
        limits,
    ) {
        Ok(ran) => Ok(counted(ran)),
        Err(fault) => Err(Fault::Group(fault)),
    }
}

fn with_counts<I: Drop, O: Drop>(
    alloc: Global,
    links: Vec<(I, O)>,
) -> Result<Vec<(Counting<I>, O)>, Fault> {
    let mut all = Vec::with_capacity(alloc, links.len())?;
    for (inner, outlet) in links {
        all.push((Counting { inner, casts: 0 }, outlet))?;
    }
    Ok(all)
}

fn counted<I: Drop, O: Drop>(ran: GroupReport<Counting<I>, O, Every, Gathering<Caster>>) -> Ran {
    let mut sum = Ran {
        deliveries: 0,
        arrivals: 0,
    };
    for report in &ran.reports {
        sum.deliveries = sum.deliveries.saturating_add(report.deliveries);
        sum.arrivals = sum.arrivals.saturating_add(arrivals(report));
    }
    sum
}

fn arrivals<I, O>(report: &MemberReport<Counting<I>, O, Every, Gathering<Caster>>) -> u64 {
    match &report.inlet {
        Some(inlet) => inlet.casts,
        None => 0,
    }
}

/// Prints how many messages were delivered, and with all also how many cast frames were received, repeats among them.
pub fn print(rt: &HostRuntime, ran: Ran, with_all: bool) -> Result<ExitCode, Fault> {
    if with_all {
        println!(rt; "deliveries {} arrivals {}", ran.deliveries, ran.arrivals)?;
    } else {
        println!(rt; "deliveries {}", ran.deliveries)?;
    }
    Ok(ExitCode::from(0))
}
