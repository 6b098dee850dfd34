//! How a run begins that fills windows first, and goes on.

/// How often the windows are filled: once so that all waits in the reorder buffers, and once so that it waits in the delay queues.
const FILLINGS: u64 = 2;

/// So many rounds after each filling nobody casts, until everything is asked for, delivered and known to be.
const QUIET: u64 = 5;

/// What is done in a round.
#[derive(Clone, Copy, Debug)]
pub enum Stage {
    /// All cast one message before they take anything, and of these all miss each.
    MissAll,
    /// The same, but each member misses that of the member after it alone.
    MissOne,
    /// All take and cast, and nobody ticks: what is cast depends on what others miss, until no window has room.
    Fill,
    /// All take and tick, and nobody casts.
    Quiet,
    /// All take, cast and tick, and frames are lost by chance.
    Disturbed,
}

/// The stage of a round of members with this window. Where windows are not filled first, all rounds are alike.
pub fn stage_of(is_full: bool, window: u32, round: u64) -> Stage {
    // with one cast a round a window is full after as many rounds as it is wide; in one more the last casts are taken
    let filled = u64::from(window) + 1;
    let length = filled + QUIET;
    if !is_full || round / length >= FILLINGS {
        return Stage::Disturbed;
    }
    match (round / length, round % length) {
        (0, 0) => Stage::MissAll,
        (_, 0) => Stage::MissOne,
        (_, step) if step < filled => Stage::Fill,
        _ => Stage::Quiet,
    }
}
