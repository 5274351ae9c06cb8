//! What holds of calls. Each law is the contract of a function that does nothing.

ghost use Rattle.explain_answers.specs.Completeness.{ExplainCallsAreComplete, EnoughMaps, RefusedExplainLeavesUnopened, ExplainUsageIsExact};
ghost use Rattle.explain_answers.specs.Laws.{PagesAreExact, PagesAreWritten, InstancesAreExact, InstancesAreWritten, RulesAreExact, RulesAreWritten, CoresAreExact, CoresAreWritten, LooksAreExact, LooksAreWritten};

/// A page is written exactly where the file is the report of a right verdict or the text of a right sharp
/// verdict, within the limit of reports, and it is the page of that verdict; of other files the status and
/// the text are those of `check`.
pub fn pages_are_exact()
    ensures { PagesAreExact }
{}

/// At status 0 the sink took the page of a right verdict or of a right sharp verdict, and of the report of a
/// right verdict or the text of a right sharp verdict it takes the page, faults and want of memory aside.
pub fn pages_are_written()
    ensures { PagesAreWritten }
{}

/// Of a study that a file gives an instance is told as it is defined, with status 0, or it is said why there
/// is none, with status 3.
pub fn instances_are_exact()
    ensures { InstancesAreExact }
{}

/// The sink takes that, faults and want of memory aside.
pub fn instances_are_written()
    ensures { InstancesAreWritten }
{}

/// A right list of rules is written of a study whose clauses are not refused.
pub fn rules_are_exact()
    ensures { RulesAreExact }
{}

/// At a status below 5 the sink took it.
pub fn rules_are_written()
    ensures { RulesAreWritten }
{}

/// A right map is written of a study whose clauses are not refused.
pub fn cores_are_exact()
    ensures { CoresAreExact }
{}

/// At a status below 5 the sink took it.
pub fn cores_are_written()
    ensures { CoresAreWritten }
{}

/// Of a study that a file gives it is told what it asks, or its clauses are refused; of a file that gives
/// none the line of the refusal is written, and what helps.
pub fn looks_are_exact()
    ensures { LooksAreExact }
{}

/// So of what a call has written.
pub fn looks_are_written()
    ensures { LooksAreWritten }
{}

/// Where no device fails, the text of the row is written, or memory is wanting: which statuses that leaves,
/// command by command.
pub fn calls_are_complete()
    ensures { ExplainCallsAreComplete }
{}

/// Status 2 comes exactly where the words are no command, with the usage line, and touches no file.
pub fn usage_is_exact()
    ensures { ExplainUsageIsExact }
{}

/// At status 3 none but the first file of a command was touched, and `story` leaves the report alone where no
/// study is given.
pub fn refused_leaves_unopened()
    ensures { RefusedExplainLeavesUnopened }
{}

/// With a limit of at least 3 to the number of variables, a map has no open set.
pub fn enough_maps()
    ensures { EnoughMaps }
{}
