//! The calls that added the entries of a history.

ghost use Rattle.cb_history.specs.ReplayLaws.{EntryTellsItsCall, EntriesOfBytesTellBytes, LegalEntriesAreBytes, OneMoreIsDecided, ReplayingDecides};

/// An entry determines the call that added it, and no other call adds it. Hence a history is checked by making its
/// calls again: it is legal exactly where its entries are of bytes and each is added by the call that it determines,
/// to those before it.
pub fn entries_tell_their_calls()
    ensures call { EntryTellsItsCall }
    ensures bytes { EntriesOfBytesTellBytes }
    ensures legal { LegalEntriesAreBytes }
    ensures one_more { OneMoreIsDecided }
    ensures decides { ReplayingDecides }
{}
