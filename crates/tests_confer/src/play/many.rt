//! Much of a kind: casts that one arrival delivers, frames that one request is answered with, members.

use super::{joined, prints_made};
use std::alloc::{AllocError, Global};
use std::process::Abort;

/// How many messages member 0 casts: more than a group has members, or a request ranges.
const CASTS: u32 = 100;

/// A group of two, in which member 0 may be so far ahead.
const FIRST: &str = "group 7 size 2 window 256 history 1000\n";

/// The casts of member 0.
fn put_casts(script: &mut String, text: &mut String) -> Result<(), AllocError> {
    for number in 0..CASTS {
        let next = number.saturating_add(1);
        write!(script, "cast 0 -\n")?;
        write!(text, "{next} cast 0.{next} [{next},0]\n")?;
        write!(text, " > {number} all 110700{next:02x}0000\n")?;
    }
    Ok(())
}

/// Their frames but the first arrive at member 1, the last one first.
fn put_arrivals(script: &mut String, text: &mut String) -> Result<(), AllocError> {
    for number in 1..CASTS {
        let frame = CASTS.saturating_sub(number);
        let step = CASTS.saturating_add(number);
        write!(script, "arrive 1 {frame}\n")?;
        write!(text, "{step} arrive accepted changed\n")?;
    }
    Ok(())
}

/// The first one arrives, and all are delivered.
fn put_last_arrival(script: &mut String, text: &mut String) -> Result<(), AllocError> {
    write!(script, "arrive 1 0\n")?;
    write!(text, "200 arrive accepted changed\n")?;
    for number in 1..=CASTS {
        write!(text, " = 0.{number} [{number},0] \"\"\n")?;
    }
    Ok(())
}

const ALL_DELIVERED: &str = "member 0 time [100,0] stable 0 entries 100
member 1 time [100,0] stable 0 entries 100
";

#[test]
fn one_arrival_delivers_all_that_waited_for_it(rt: HostRuntime) {
    let alloc = rt.alloc();
    let mut script = String::from_str(alloc, FIRST).expect(&rt, "memory");
    let mut text = String::new(alloc);
    put_casts(&mut script, &mut text).expect(&rt, "memory");
    put_arrivals(&mut script, &mut text).expect(&rt, "memory");
    put_last_arrival(&mut script, &mut text).expect(&rt, "memory");
    text.push_str(ALL_DELIVERED).expect(&rt, "memory");
    prints_made(&rt, alloc, script, text);
}

/// The last frame alone arrives at member 1. Its tick says that it delivered nothing, and asks for the others.
const ASKED: &str = "101 arrive accepted changed
102 tick entered
 > 100 all 12070100
 > 101 0 13070100010062
103 arrive accepted same
";

/// The first 64 of them, which is the most for a request, are sent again, to member 1 alone.
fn put_repair(text: &mut String) -> Result<(), AllocError> {
    for number in 1..65u32 {
        let frame = number.saturating_add(101);
        write!(text, " > {frame} 1 110700{number:02x}0000\n")?;
    }
    Ok(())
}

const REPAIRED: &str = "member 0 time [100,0] stable 0 entries 100
member 1 time [0,0] stable 0 entries 2
";

#[test]
fn one_request_is_answered_with_64_frames(rt: HostRuntime) {
    let alloc = rt.alloc();
    let mut script = String::from_str(alloc, FIRST).expect(&rt, "memory");
    let mut text = String::new(alloc);
    put_casts(&mut script, &mut text).expect(&rt, "memory");
    script
        .push_str("arrive 1 99\ntick 1\narrive 0 101\n")
        .expect(&rt, "memory");
    text.push_str(ASKED).expect(&rt, "memory");
    put_repair(&mut text).expect(&rt, "memory");
    text.push_str(REPAIRED).expect(&rt, "memory");
    prints_made(&rt, alloc, script, text);
}

/// The lines of so many members to whom nothing happened, whose time is this.
fn put_members(text: &mut String, size: u32, time: &str) -> Result<(), AllocError> {
    for number in 0..size {
        write!(text, "member {number} time {time} stable 0 entries 0\n")?;
    }
    Ok(())
}

#[test]
fn each_of_64_members_has_its_line(rt: HostRuntime) {
    let alloc = rt.alloc();
    let zeros = "0,".repeat(alloc, 63).expect(&rt, "memory");
    let time = joined(&rt, alloc, &["[", zeros.as_str(), "0]"]);
    drop(zeros);
    let mut text = String::new(alloc);
    put_members(&mut text, 64, &time).expect(&rt, "memory");
    drop(time);
    let script = joined(&rt, alloc, &["group 7 size 64 window 4 history 100"]);
    prints_made(&rt, alloc, script, text);
}
