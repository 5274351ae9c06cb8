//! What holds of the lines of answers. A call of one of these does nothing but give the law to the caller.

ghost use Rattle.answer_text.specs.Laws.{AreLinesOfAnswers, AreLinesOfJudged};

/// What is said of a report is the line of its answer.
pub fn lines_are_of_answers()
    ensures { AreLinesOfAnswers }
{}

/// What is said of a report or a sharp text is the line of its answer.
pub fn lines_are_of_judged()
    ensures { AreLinesOfJudged }
{}
