//! What holds of sharp texts. Each law is the contract of a function that does nothing.

ghost use Rattle.sharp_laws.specs.Laws.{AreSharpTextsDistinct, AreToldApart, ConfirmedSharpClaimsHold, CutSharpTextsAreForm, HasNoSharpPrefix, IsSharpJudgeComplete, IsSharpJudgeSound, SharpClaimsHold, SharpConfirmedWithinLimit, SharpFaultsAreFirst, SharpLemmasAreFew, SharpLemmasFit, SharpLinesAreAnswered, SharpLinesAreShort, SharpTableFaultsAreFirst, SharpTextsAreConfirmed, SharpTextsAreNoReports};

/// What the judge confirms is the text of a right sharp verdict.
pub fn sharp_judge_is_sound()
    ensures { IsSharpJudgeSound }
{}

/// The judge confirms the text of each right sharp verdict with fewer than 2^64 lemmas, where the study has
/// at most 40 axioms.
pub fn sharp_judge_is_complete()
    ensures { IsSharpJudgeComplete }
{}

/// Where fewer than 2^64 bytes of a text are read, exactly the texts of right sharp verdicts that have no
/// more are confirmed, where the study has at most 40 axioms.
pub fn sharp_texts_are_confirmed()
    ensures { SharpTextsAreConfirmed }
{}

/// Where only so many bytes of a text are read, exactly those confirmed sharp texts are confirmed that have
/// no more.
pub fn sharp_confirmed_within_limit()
    ensures { SharpConfirmedWithinLimit }
{}

/// No rule makes the bodies of all instances that a right sharp verdict lists true, so none satisfies its
/// core. The rule that is the mark of an instance makes those of the others true.
pub fn sharp_claims_hold()
    ensures { SharpClaimsHold }
{}

/// The same holds of a sharp text that the judge confirms.
pub fn confirmed_sharp_claims_hold()
    ensures { ConfirmedSharpClaimsHold }
{}

/// Different right sharp verdicts have different texts.
pub fn sharp_texts_are_distinct()
    ensures { AreSharpTextsDistinct }
{}

/// No line of the text of a right sharp verdict with fewer than 2^64 lemmas is longer than 4,096 bytes, where
/// the study has at most 40 axioms.
pub fn sharp_lines_are_short()
    ensures { SharpLinesAreShort }
{}

/// No proper prefix of a confirmed sharp text is confirmed.
pub fn sharp_prefixes_are_refused()
    ensures { HasNoSharpPrefix }
{}

/// A right sharp text that is cut anywhere before its end is refused where it is cut, where the study has at
/// most 40 axioms.
pub fn cut_sharp_texts_are_form()
    ensures { CutSharpTextsAreForm }
{}

/// The judge names the first faulty line, and no line after it plays a part.
pub fn sharp_faults_are_first()
    ensures { SharpFaultsAreFirst }
{}

/// The fault of the table of a mark is the first of the other instances whose body is false of it, and there
/// is none where the bodies of all are true.
pub fn sharp_table_faults_are_first()
    ensures { SharpTableFaultsAreFirst }
{}

/// Lines without a line end within them are answered as the text that has them, each with its line end.
pub fn sharp_lines_are_answered()
    ensures { SharpLinesAreAnswered }
{}

/// Lines without a fault have given at most as many lemmas as they are.
pub fn sharp_lemmas_are_few()
    ensures { SharpLemmasAreFew }
{}

/// The text of a sharp verdict has at least as many bytes as its story has lemmas.
pub fn sharp_lemmas_fit()
    ensures { SharpLemmasFit }
{}

/// No text is confirmed both as a report and as a sharp text.
pub fn reports_are_told_apart()
    ensures { AreToldApart }
{}

/// The judge of reports refuses the first line of a sharp text.
pub fn sharp_texts_are_no_reports()
    ensures { SharpTextsAreNoReports }
{}
