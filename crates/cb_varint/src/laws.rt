//! The laws of spellings, as contracts of functions that do nothing.

ghost use Rattle.cb_varint.specs.Laws.{OneSpelling, NoneBeginsAnother, SpellingIsIt};

/// One number has one spelling, which the word `spelling` names, and no spelling begins another.
pub fn one_spelling()
    ensures one { OneSpelling }
    ensures apart { NoneBeginsAnother }
    ensures named { SpellingIsIt }
{}
