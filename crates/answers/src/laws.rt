//! What follows from the table of answers. Each law is the contract of a function that does nothing.

ghost use Rattle.answers.specs.GainLaws.{GainsAreAnswered, NoneIsNoGain};
ghost use Rattle.answers.specs.SharpenLaws.{EnoughSharpens, SharpenedAreConfirmed, SharpenedHolds, SharpeningsAreAnswered, WrittenSharpeningsAreConfirmed, WrittenSharpeningsHold};
ghost use Rattle.answers.specs.RowLaws.{AdoptedAreConfirmed, AdoptedHolds, AdoptsAsLrat, CallsAreConclusive, ConfirmedIsUnsatisfiable, DecidedAreConfirmed, DecidedHolds, EnoughAdopts, EnoughDecides, EnoughProves, ExportedSaysStudy, ProvedAreAdopted, ProvedAreConfirmed, ProvedHolds, SampledHolds, WrittenAdoptionsHold, WrittenDecisionsHold};
ghost use Rattle.answers.specs.Laws.{CheckedAreRight, ConfirmedHolds, ChecksAreAnswered, AnswersAreOne, UsageIsExact, LibraryIsWritten, RefusedLeavesUnopened, OtherWordsTouchNone, CallsAreComplete, WrittenProofsAreAdopted, WrittenProofsAreConfirmed, WrittenReportsAreConfirmed};

/// `check` confirms exactly the reports of right verdicts that claim something and the texts of right sharp
/// verdicts, within its limit.
pub fn checked_are_right()
    ensures { CheckedAreRight }
{}

/// What a confirmed report or sharp text claims of rules holds.
pub fn confirmed_holds()
    ensures { ConfirmedHolds }
{}

/// Each row of `check` is what is answered where it applies.
pub fn checks_are_answered()
    ensures { ChecksAreAnswered }
{}

/// Over some files words have one answer: the rows of the table exclude one another.
pub fn answers_are_one()
    ensures { AnswersAreOne }
{}

/// Status 2 comes exactly where the words are no command, whatever the shelf tells.
pub fn usage_is_exact()
    ensures { UsageIsExact }
{}

/// `axioms` writes the library, whatever the shelf tells.
pub fn library_is_written()
    ensures { LibraryIsWritten }
{}

/// Where the study of a command is refused, nothing of another file was read, want of memory aside.
pub fn refused_leaves_unopened()
    ensures { RefusedLeavesUnopened }
{}

/// Words that name no file touch none.
pub fn other_words_touch_none()
    ensures { OtherWordsTouchNone }
{}

/// Where no fault is counted and nothing is refused, the answer is the one that was asked for, or want of
/// memory.
pub fn calls_are_complete()
    ensures { CallsAreComplete }
{}

/// What `export` writes is satisfiable exactly where some rule satisfies all axioms.
pub fn exported_says_study()
    ensures { ExportedSaysStudy }
{}

/// Whatever study is read, a rule that `decide` prints satisfies its axioms, and an impossibility holds for
/// every rule: its story is accepted over the sentences alone, and each axiom of its core is needed or marked
/// open.
pub fn decided_holds()
    ensures { DecidedHolds }
{}

/// The headline, of what was written: a rule that a call of `decide` has written satisfies the axioms of the
/// study that was read, and an impossibility holds for every rule of its size.
pub fn written_decisions_hold()
    ensures { WrittenDecisionsHold }
{}

/// What `decide` prints is, within the limit of reports, confirmed by `check`.
pub fn decided_are_confirmed()
    ensures { DecidedAreConfirmed }
{}

/// Where the limit of a study is at least 3 to the number of its variables, `decide` decides it, with no open
/// mark.
pub fn enough_decides()
    ensures { EnoughDecides }
{}

/// Where the limit of a study is at least 3 to the number of its variables, `proof` finds a rule or a
/// refutation.
pub fn enough_proves()
    ensures { EnoughProves }
{}

/// A refutation that `proof` writes leaves no rule, and a verdict of it has one.
pub fn proved_holds()
    ensures { ProvedHolds }
{}

/// Where `lrat` confirms, no assignment satisfies the clauses.
pub fn confirmed_is_unsatisfiable()
    ensures { ConfirmedIsUnsatisfiable }
{}

/// Where `export` and `proof` end with status 0 over one study, `lrat` confirms over files that hold what
/// they write, whatever else these hold; but where `proof` writes that there is a rule, or a text that is
/// longer than `lrat` reads. What `export` writes never is.
pub fn proved_are_confirmed()
    ensures { ProvedAreConfirmed }
{}

/// The same of calls: what calls of `export` and `proof` have written of one study, a call of `lrat` over
/// files that hold it confirms, faults and want of memory aside.
pub fn written_proofs_are_confirmed()
    ensures { WrittenProofsAreConfirmed }
{}

/// Whatever study and proof are read, an impossibility that `adopt` prints holds for every rule, and the
/// proof names each axiom of its core.
pub fn adopted_holds()
    ensures { AdoptedHolds }
{}

/// The same of what was written by a call of `adopt`.
pub fn written_adoptions_hold()
    ensures { WrittenAdoptionsHold }
{}

/// What `adopt` prints is, within the limit of reports, confirmed by `check`.
pub fn adopted_are_confirmed()
    ensures { AdoptedAreConfirmed }
{}

/// The same of calls: what a call of `decide` or of `adopt` has written, a call of `check` over files that
/// hold it confirms, faults and want of memory aside.
pub fn written_reports_are_confirmed()
    ensures { WrittenReportsAreConfirmed }
{}

/// `adopt` ends with the status of `lrat` over what `export` writes, and refuses a proof with the same line.
pub fn adopts_as_lrat()
    ensures { AdoptsAsLrat }
{}

/// A refutation that `proof` writes is adopted, if it is no longer than `adopt` reads.
pub fn proved_are_adopted()
    ensures { ProvedAreAdopted }
{}

/// The same of calls: what a call of `proof` has written, a call of `adopt` over files that hold it adopts,
/// faults and want of memory aside.
pub fn written_proofs_are_adopted()
    ensures { WrittenProofsAreAdopted }
{}

/// Where the limit of a study is at least 3 to the number of its variables, each axiom of a core that `adopt`
/// prints has its rule.
pub fn enough_adopts()
    ensures { EnoughAdopts }
{}

/// The same of calls: no call of `decide`, `proof`, `adopt` or `sharpen` over such a study ends with status
/// 4, has a log of a search that spent its limit, or prints an open mark.
pub fn calls_are_conclusive()
    ensures { CallsAreConclusive }
{}

/// What `sample` says of the study of a number holds.
pub fn sampled_holds()
    ensures { SampledHolds }
{}

/// Of the confirmed report of a rule `gain` says `none` exactly where no voter gains in the rule.
pub fn none_is_no_gain()
    ensures { NoneIsNoGain }
{}

/// Each row of `gain` is what is answered where it applies; a sharp text is no report, and its first line is
/// refused.
pub fn gains_are_answered()
    ensures { GainsAreAnswered }
{}

/// Whatever study is read, a rule that `sharpen` prints satisfies its axioms; and where it prints a sharp
/// text, no rule makes the bodies of all listed instances true, and for each of these a rule is printed that
/// makes the bodies of the others true, or an open mark.
pub fn sharpened_holds()
    ensures { SharpenedHolds }
{}

/// The same of what was written by a call of `sharpen`.
pub fn written_sharpenings_hold()
    ensures { WrittenSharpeningsHold }
{}

/// Where the limit of a study is at least 3 to the number of its variables, each instance that `sharpen`
/// lists has its rule.
pub fn enough_sharpens()
    ensures { EnoughSharpens }
{}

/// What `sharpen` prints is, within the limit of reports, confirmed by `check`.
pub fn sharpened_are_confirmed()
    ensures { SharpenedAreConfirmed }
{}

/// The same of calls: what a call of `sharpen` has written, a call of `check` over files that hold it
/// confirms, faults and want of memory aside.
pub fn written_sharpenings_are_confirmed()
    ensures { WrittenSharpeningsAreConfirmed }
{}

/// Each row of `sharpen` is what is answered where it applies; a study whose frames and instances together
/// pass a limit gets its line, and no other does.
pub fn sharpenings_are_answered()
    ensures { SharpeningsAreAnswered }
{}
