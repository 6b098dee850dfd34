//! The readings of a member that keeps its history.

use crate::call::{Matter, Reading};
use crate::texts::{
    put_all_entries, put_all_events, put_count, put_help, put_is, put_missing, put_time_line,
    put_waits,
};
use cb_member::Member;
use cb_times::NoMemory;

pub fn read_member(member: &Member, reading: Reading, text: &mut Vec<u8>) -> Result<(), NoMemory> {
    match reading {
        Reading::Time => put_time_line(text, member.time()),
        Reading::Events => put_all_events(text, member.events()),
        Reading::Entries => put_all_entries(text, member.history()),
        Reading::Waiting => put_count(text, Some(member.waiting())),
        Reading::OwnStable => put_count(text, Some(member.stable())),
        Reading::Of(matter, i) => read_of(member, matter, i, text),
    }
}

fn read_of(member: &Member, matter: Matter, i: u32, text: &mut Vec<u8>) -> Result<(), NoMemory> {
    match matter {
        Matter::Stable => put_count(text, member.stable_of(i)),
        Matter::Delivered => put_count(text, member.delivered_of(i)),
        Matter::Acknowledged => put_count(text, member.acknowledged_by(i)),
        Matter::Full => put_is(text, member.keeps_window_full(i)),
        Matter::Waits => put_waits(text, member.waits_for(i)),
        Matter::Missing => put_missing(text, &member.missing(i)),
        Matter::Help => put_help(text, &member.help(i)),
    }
}
