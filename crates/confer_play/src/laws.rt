//! Conferences over causal broadcast, as contracts of functions that do nothing.
//!
//! Each member's conference is shown the messages of the member's events in their order, its own casts among
//! them. The one premise is that whoever casts an answer composed it in its own conference, at or before the
//! cast: then no network, however it loses, repeats or reorders frames, can show an answer to anyone before
//! its question.

ghost use Rattle.std.specs.Prelude.{ℕ};
ghost use Rattle.cb_causality.specs.Laws.{EachRun};
ghost use Rattle.cb_schedules.specs.Headline.{EachSchedule};
ghost use Rattle.cb_schedules.specs.Messages.{causal_lists};
ghost use Rattle.confer_play.specs.Playing.{EachScript, events_in};
ghost use Rattle.confer_play.specs.Rooms.{AnswersWereComposed, HasNoOrphan, ShowsAllLines, ShowsClosedArrivals, AgreeOnLines, QuestionsComeFirst};

/// No answer before its question, in every run of the causal broadcast machine: no member's conference ever
/// answers `Orphan`. Each message that is a line has its line there, and all members who have the line of a
/// message have the same.
pub fn no_answer_before_its_question()
    ensures no_orphan { EachRun (λ size lists. AnswersWereComposed lists
        → (j : ℕ) → HasNoOrphan (lists j)) }
    ensures lines { EachRun (λ size lists. AnswersWereComposed lists
        → (j : ℕ) → ShowsAllLines (lists j)) }
    ensures agree { EachRun (λ size lists. AnswersWereComposed lists → AgreeOnLines lists) }
{}

/// No answer before its question, whatever a schedule casts, ticks, loses, repeats or reorders. And where a
/// line has arrived together with its whole past, it is shown.
pub fn no_answer_before_its_question_over_lossy_links()
    ensures no_orphan { EachSchedule (λ setting s. AnswersWereComposed (causal_lists setting s)
        → (j : ℕ) → HasNoOrphan (causal_lists setting s j)) }
    ensures closed { EachSchedule (λ setting s. AnswersWereComposed (causal_lists setting s)
        → ShowsClosedArrivals setting s) }
    ensures agree { EachSchedule (λ setting s. AnswersWereComposed (causal_lists setting s)
        → AgreeOnLines (causal_lists setting s)) }
{}

/// No answer before its question, after every script whose plain casts carry no answer: each answer was composed
/// where its question was shown, so no member's conference ever answers `Orphan`, each message that is a line has
/// its line there, and all members who have the line of a message have the same.
pub fn no_answer_before_its_question_in_a_script()
    ensures { EachScript (λ w. QuestionsComeFirst (events_in w)) }
{}
