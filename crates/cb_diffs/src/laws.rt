//! The laws of expansion, as contracts of functions that do nothing.

ghost use Rattle.cb_diffs.specs.Laws.{NothingIsKept, ExpandingIsSumming, TimesAreSums};
ghost use Rattle.cb_diffs.specs.Returning.{DifferencesExpandBack, DifferencesAddUp};
ghost use Rattle.cb_diffs.specs.Sent.{RepeatsChangeNothing, SentTimesAreSums};

/// The one time that is kept for each sender is what all its frames add up to.
pub fn expanding_is_summing()
    ensures start { NothingIsKept }
    ensures step { ExpandingIsSumming }
    ensures all { TimesAreSums }
{}

/// What `difference` takes of the successive times of a sender's messages expands to these times again.
pub fn differences_expand_back()
    ensures expands { DifferencesExpandBack }
    ensures adds_up { DifferencesAddUp }
{}

/// A time worked out from all frames that were sent, repeats among them, is the sum over the frames, each counted once.
pub fn repeats_count_once()
    ensures sums { SentTimesAreSums }
    ensures repeats { RepeatsChangeNothing }
{}
