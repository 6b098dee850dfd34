//! What the subcommands of `confer` share: an input that is read, a text that is written, how numbers, names, times
//! and payloads are printed, and how a member's conference is shown the member's events.
#![tactic(auto)]

mod conference;
mod fault;
mod streams;
mod text;

pub use conference::{SCREEN, new_conference, show_message};
pub use fault::LinesFault;
pub use streams::{LONGEST_INPUT, read, read_whole, room, write_whole};
pub use text::{
    LONGEST_TIME, put_fault, put_hex, put_name, put_number, put_parameter, put_payload, put_time,
};
