//! Links in one thread.

ghost use Rattle.std.specs.Prelude.{◌≡◌};

mod addressed;
mod channel;
mod coming;
mod failing;
mod fakes;
mod going;
mod links;
mod mailbox;
mod tcp;
mod wakeups;
