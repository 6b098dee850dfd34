//! Counts and numbers of messages.

ghost use Rattle.cb_history.specs.CountLaws.{OwnCastsHaveNumbers, MessagesHaveNumbers, CountsAreNumbers, KnownAreNumbers, NoNumberIsFull, HistoriesLeaveNumbers};

/// Whatever the length of a history, messages have numbers up to 4,294,967,295, so no count is above it, and at
/// that many own casts the window is full. A history within its limit has fewer.
pub fn counts_are_numbers()
    ensures own { OwnCastsHaveNumbers }
    ensures there { MessagesHaveNumbers }
    ensures counts { CountsAreNumbers }
    ensures known { KnownAreNumbers }
    ensures full { NoNumberIsFull }
    ensures left { HistoriesLeaveNumbers }
{}
