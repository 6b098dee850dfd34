//! Legal histories, what calls make of them and what their entries say.

ghost use Rattle.cb_history.specs.HistoryLaws.{PrefixIsLegal, PrefixOfFactsIsLegal, LastFactIsAStep, CallsKeepLegal, LegalHistoriesSayLegalFacts, EachEntrySaysOneFact, OwnFramesHaveTexts, EntriesSayTheirTexts, ArrivalsNameDeliveries};
ghost use Rattle.cb_history.specs.LimitLaws.{LimitIsAdded, LegalIsAddedInLimit, LegalFactsInLimit, LegalAnswersByStable, CallsKeepEntries, EntriesSayLegalFacts};

/// What stands before any place of a legal history is one, and so it is with its facts, each of which is a step from those before it.
pub fn prefixes_are_legal()
    ensures entries { PrefixIsLegal }
    ensures facts { PrefixOfFactsIsLegal }
    ensures step { LastFactIsAStep }
{}

/// A call of bytes keeps a history legal, whatever limit up to the greatest it is made with.
pub fn calls_keep_histories_legal()
    ensures { CallsKeepLegal }
{}

/// What is written is read back: each entry of a legal history says one fact, and each fact is a step from those before it.
/// All that a member sends has a text, and what it stores is the text of what it says, so what is sent again is as it was sent
/// first. An arrival's entry names what was delivered by it.
pub fn histories_say_facts()
    ensures legal { LegalHistoriesSayLegalFacts }
    ensures each { EachEntrySaysOneFact }
    ensures texts { OwnFramesHaveTexts }
    ensures stored { EntriesSayTheirTexts }
    ensures delivered { ArrivalsNameDeliveries }
{}

/// Legality is what calls add, however many entries there are, and the limit is added to it: a history is legal
/// exactly where each entry is the one that a call adds with the greatest limit, and then numbers are left. Without
/// a limit too calls keep it, and entries say legal facts.
pub fn legality_without_a_limit()
    ensures limit { LimitIsAdded }
    ensures entries { LegalIsAddedInLimit }
    ensures facts { LegalFactsInLimit }
    ensures answers { LegalAnswersByStable }
    ensures calls { CallsKeepEntries }
    ensures said { EntriesSayLegalFacts }
{}
