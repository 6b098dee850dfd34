//! The texts of the folder `schedules/`, copied by `checks/schedules.py --write`. Change them there.

mod limits;
mod order;
mod repair;
mod screens;

/// A script, and what `confer play` prints of it.
pub struct Schedule {
    pub script: &'static str,
    pub text: &'static str,
}

/// All schedules, by their themes.
pub fn parts() -> [&'static [Schedule]; 4] {
    [
        order::schedules(),
        repair::schedules(),
        limits::schedules(),
        screens::schedules(),
    ]
}
