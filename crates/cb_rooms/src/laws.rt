//! The laws of payloads and of views, as contracts of functions that do nothing.

ghost use Rattle.cb_rooms.specs.Laws.{OnePayload, OneLine, ReadingIsExact, ViewGoesOn, OnlyShownAdds, OneLineForEachName, AnswersStandBehindQuestions};

/// A line has one payload, and a payload one line. Reading finds it exactly where there is one.
pub fn one_payload()
    ensures payload { OnePayload }
    ensures line { OneLine }
    ensures reading { ReadingIsExact }
{}

/// The view grows by what a message adds, which is a line where it is answered `Shown` and else nothing.
pub fn a_view_grows_by_what_is_shown()
    ensures goes_on { ViewGoesOn }
    ensures shown { OnlyShownAdds }
{}

/// In every view each name has one line, and an answer stands behind the line of its question, in the same room.
pub fn no_answer_stands_before_its_question()
    ensures once { OneLineForEachName }
    ensures behind { AnswersStandBehindQuestions }
{}
