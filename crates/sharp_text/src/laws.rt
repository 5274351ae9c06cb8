//! What holds of the texts of sharp verdicts. The law is the contract of a function that does nothing.

ghost use Rattle.sharp_text.specs.Laws.{RightSharpVerdictsHaveTexts};

/// Each right sharp verdict has a text: all that it names is in range.
pub fn right_sharp_verdicts_have_texts()
    ensures { RightSharpVerdictsHaveTexts }
{}
