//! What holds of reports. Each law is the contract of a function that does nothing.

ghost use Rattle.verdicts.specs.Laws.{AreTextsDistinct, ConfirmedClaimsHold, ConfirmedWithinLimit, CutReportsAreForm, FaultsAreFirst, HasNoConfirmedPrefix, IsJudgeComplete, IsJudgeSound, LemmasAreFew, LinesAreAnswered, LinesAreShort, PrintedTextsAreReports, RightClaimsHold, RightVerdictsHaveTexts, TableFaultsAreFirst};

/// Each right verdict has a text: all that it names is in range.
pub fn right_verdicts_have_texts()
    ensures { RightVerdictsHaveTexts }
{}

/// Different verdicts that have a text have different texts, and so have the two versions of one verdict.
pub fn texts_are_distinct()
    ensures { AreTextsDistinct }
{}

/// No line of the text of a right verdict with fewer than 2^64 lemmas is longer than 4,096 bytes, in each
/// version that the size may have, where the study has at most 40 axioms.
pub fn lines_are_short()
    ensures { LinesAreShort }
{}

/// The size may have the version that is printed, and so what is printed of a right verdict that claims
/// something is its report.
pub fn printed_texts_are_reports()
    ensures { PrintedTextsAreReports }
{}

/// What the judge confirms is the report of a right verdict.
pub fn judge_is_sound()
    ensures { IsJudgeSound }
{}

/// The judge confirms the report of each right verdict with fewer than 2^64 lemmas, where the study has at
/// most 40 axioms.
pub fn judge_is_complete()
    ensures { IsJudgeComplete }
{}

/// Lines without a line end within them are answered as the text that has them, each with its line end.
pub fn lines_are_answered()
    ensures { LinesAreAnswered }
{}

/// Lines without a fault have given at most as many lemmas as they are.
pub fn lemmas_are_few()
    ensures { LemmasAreFew }
{}

/// What the report of a right verdict claims holds.
pub fn right_claims_hold()
    ensures { RightClaimsHold }
{}

/// A confirmed rule satisfies all axioms; no rule satisfies the core of a confirmed impossibility, and where
/// no mark is open some rule satisfies it without any one of its axioms.
pub fn confirmed_claims_hold()
    ensures { ConfirmedClaimsHold }
{}

/// No proper prefix of a confirmed report is confirmed.
pub fn prefixes_are_refused()
    ensures { HasNoConfirmedPrefix }
{}

/// Where only so many bytes of a text are read, exactly those confirmed reports are confirmed that have no
/// more.
pub fn confirmed_within_limit()
    ensures { ConfirmedWithinLimit }
{}

/// The judge names the first faulty line, and no line after it plays a part.
pub fn faults_are_first()
    ensures { FaultsAreFirst }
{}

/// The fault of a table is the first axiom that it does not satisfy, at its least instance, and there is none
/// where it satisfies all.
pub fn table_faults_are_first()
    ensures { TableFaultsAreFirst }
{}

/// A right report that is cut anywhere before its end is refused where it is cut, where the study has at most
/// 40 axioms.
pub fn cut_reports_are_form()
    ensures { CutReportsAreForm }
{}
