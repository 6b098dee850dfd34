//! The name of a message.
ghost use Rattle.std.specs.Prelude.{Some};
ghost use Rattle.cb_times.specs.Name.{name_text};

use std::fmt;

/// Which message it is: the message of this number by this member.
///
/// Members are numbered from 0, the messages of each from 1. A name prints as in `0.1`. The default, 0.0, is no message's name.
#[derive(Clone, Copy, Debug, Default, PartialEq, Eq, PartialOrd, Ord, Hash)]
pub struct Name {
    /// The member that cast the message.
    pub sender: u32,
    /// Which of the sender's messages it is.
    pub number: u32,
}

impl fmt::Display for Name {
    ghost output = { λ name. Some (name_text name) };

    fn fmt<W: fmt::Write>(&self, f: &mut fmt::Formatter<W>) -> fmt::Result {
        write!(f, "{}.{}", self.sender, self.number)
    }
}
