//! Workers and groups over real threads.

ghost use Rattle.std.specs.Prelude.{◌≡◌, []};

mod at_once;
mod bursts;
mod closing;
mod ending;
mod faults;
mod gathering;
mod going_on;
mod group;
mod helps;
mod naps;
mod parts;
mod patient;
mod plan;
mod post;
mod refusals;
mod reports;
mod sender;
mod speaker;
