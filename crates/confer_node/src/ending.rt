//! When a run ends.

ghost use Rattle.std.specs.Prelude.{◌≡◌, ◌⊎◌, Err, IfErr, IfOk, IsOk, None, Ok, Some, true};
ghost use Rattle.confer_node.specs.Ending.{IsSettled};
ghost use Rattle.confer_node.specs.Statuses.{end_status};

use crate::fault::Fault;
use cb_member::Member;
use std::time::Duration;

/// So many seconds all has to be done before a run ends: the others are to learn it too.
pub const LINGER: u64 = 2;

/// How a run ended.
#[derive(Clone, Copy, Debug, PartialEq, Eq)]
pub enum Ended {
    /// All lines are cast, all that is delivered here is known to be delivered by all, and each
    /// other member was heard.
    Stable,
    /// The time that was given is over before that.
    TimeOver,
}

impl Ended {
    /// The exit status of a run that ended so.
    pub fn status(self) -> u8
        ensures { result ≡ end_status self }
    {
        match self {
            Ended::Stable => 0,
            Ended::TimeOver => 1,
        }
    }
}

/// Where a run stands.
#[derive(Clone, Copy, Debug)]
pub struct Standing {
    pub now: Duration,
    /// All lines are cast, all that is delivered here is stable, and each other member was heard.
    pub is_done: bool,
    /// How many entries the history has.
    pub entries: usize,
}

/// When a run is to end. It is asked from the end of the input on.
#[derive(Clone, Copy, Debug)]
pub struct Ending {
    /// So long the run goes on behind the end of its input at most. None: as long as it takes.
    patience: Option<Duration>,
    /// When it was first asked.
    since: Option<Duration>,
    /// Since when all has been done, and how many entries there were then.
    done: Option<(Duration, usize)>,
}

impl Ending {
    pub fn new(patience: Option<Duration>) -> Ending
        ensures { result.patience ≡ patience }
    {
        Ending {
            patience,
            since: None,
            done: None,
        }
    }

    /// Whether the run ends here, and how.
    pub fn look(&mut self, standing: Standing) -> Option<Ended>
        ensures stable { result ≡ Some Ended.Stable → standing.is_done ≡ true }
        ensures patient { self.old.patience ≡ None → ¬ (result ≡ Some Ended.TimeOver) }
        ensures same { self.new.patience ≡ self.old.patience }
    {
        let since = self.since.unwrap_or(standing.now);
        self.since = Some(since);
        if self.has_lingered(standing) {
            return Some(Ended::Stable);
        }
        let patience = self.patience?;
        if patience <= standing.now.saturating_sub(since) {
            return Some(Ended::TimeOver);
        }
        None
    }

    /// Whether all has been done for so long, with nothing entered since.
    fn has_lingered(&mut self, standing: Standing) -> bool
        ensures done { result ≡ true → standing.is_done ≡ true }
        ensures same { self.new.patience ≡ self.old.patience }
    {
        if !standing.is_done {
            self.done = None;
            return false;
        }
        if let Some((since, entries)) = self.done {
            if entries == standing.entries {
                return Duration::from_secs(LINGER) <= standing.now.saturating_sub(since);
            }
        }
        self.done = Some((standing.now, standing.entries));
        false
    }
}

/// How a run ends whose trace was written, or was not. What ended the run comes first.
pub fn outcome(ended: Result<Ended, Fault>, written: Result<(), Fault>) -> Result<Ended, Fault>
    ensures well { IfOk result (λ e. (ended ≡ Ok e) × IsOk written) }
    ensures fault { IfErr result (λ fault. (ended ≡ Err fault)
        ⊎ (IsOk ended × (written ≡ Err fault))) }
{
    let ended = ended?;
    written?;
    Ok(ended)
}

/// Whether no message waits, and every message that is delivered here is known to be delivered by all.
pub fn is_settled(member: &Member) -> bool
    ensures { result ≡ true → IsSettled member.now }
{
    if member.waiting() != 0 {
        return false;
    }
    for i in 0..member.seat().group().size() {
        if member.stable_of(i) != member.delivered_of(i) {
            return false;
        }
    }
    true
}
