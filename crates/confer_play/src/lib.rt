//! `confer play`: a script of steps, run in a group of members, and what each step was answered.
//!
//! From the streams down: `running` reads the script whole, runs its steps and writes the outcome of them,
//! `reading` reads the lines of the script, `script` has what they say, `rooms` has the group and its
//! members' conferences, and `transcript` says what is printed. Stands on `cb_world` for the group and on
//! `cb_rooms` for conferences. `laws` says of every conference over causal broadcast what these show.
#![tactic(auto)]

mod fault;
pub mod laws;
mod reading;
mod rooms;
mod running;
mod script;
mod transcript;

pub use fault::ScriptFault;
pub use reading::script_of;
pub use running::play_script;
pub use script::{Script, ScriptStep, Setting};
