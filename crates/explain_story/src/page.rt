//! The page of a verdict.

ghost use Rattle.std.specs.Prelude.{IfOk, IsTrue};
ghost use Rattle.verdicts.specs.Report.{is_right};
ghost use Rattle.sharp_verdicts.specs.Right.{IsSharpRight};
ghost use Rattle.verdict_reading.specs.SharpCollected.{as_said};
ghost use Rattle.explain_answers.specs.Page.{IsPageText, IsSharpPageText};

use edge::Bytes;
use kinds::over_kind;
use lists::NoMemory;
use outcomes::{OutcomeKind, Setting};
use pages::{Source, page_text};
use sharp_pages::sharp_page_text;
use std::alloc::Global;
use verdict_reading::SharpVerdict;
use verdicts::Verdict;
use vocab::Study;

/// What a page calls its version.
const VERSION: &[u8] = b"explain 1";

/// The page of a right verdict, beside its kind.
fn page_over<K: OutcomeKind>(
    alloc: Global,
    setting: &Setting<K>,
    name: &str,
    report: &str,
    verdict: &Verdict,
) -> Result<Bytes, NoMemory>
    requires right { IsTrue (is_right setting.now.study.now verdict.now) }
    ensures { IfOk result (IsPageText setting.now.study.now name.now report.now verdict.now) }
{
    let source = Source {
        study: name.as_bytes(),
        report: report.as_bytes(),
        version: VERSION,
    };
    page_text(alloc, setting, &source, verdict)
}

/// The page of a right verdict on a study, of the files of these names. Error: want of memory.
pub(crate) fn make_page(
    alloc: Global,
    study: &Study,
    name: &str,
    report: &str,
    verdict: &Verdict,
) -> Result<Bytes, NoMemory>
    requires right { IsTrue (is_right study.now verdict.now) }
    ensures { IfOk result (IsPageText study.now name.now report.now verdict.now) }
{
    over_kind!(
        study.size(),
        kind,
        {
            let setting = Setting { kind: &kind, study };
            page_over(alloc, &setting, name, report, verdict)
        }
    )
}

/// The page of a right sharp verdict, beside its kind.
fn sharp_page_over<K: OutcomeKind>(
    alloc: Global,
    setting: &Setting<K>,
    name: &str,
    report: &str,
    sharp: &SharpVerdict,
) -> Result<Bytes, NoMemory>
    requires right { IsSharpRight setting.now.study.now (as_said sharp.now) }
    ensures { IfOk result (IsSharpPageText setting.now.study.now name.now report.now (as_said sharp.now)) }
{
    let source = Source {
        study: name.as_bytes(),
        report: report.as_bytes(),
        version: VERSION,
    };
    sharp_page_text(
        alloc,
        setting,
        &source,
        &sharp.core,
        &sharp.story,
        &sharp.instances,
        &sharp.marks,
    )
}

/// The page of a right sharp verdict on a study, of the files of these names. Error: want of memory.
pub(crate) fn make_sharp_page(
    alloc: Global,
    study: &Study,
    name: &str,
    report: &str,
    sharp: &SharpVerdict,
) -> Result<Bytes, NoMemory>
    requires right { IsSharpRight study.now (as_said sharp.now) }
    ensures { IfOk result (IsSharpPageText study.now name.now report.now (as_said sharp.now)) }
{
    over_kind!(
        study.size(),
        kind,
        {
            let setting = Setting { kind: &kind, study };
            sharp_page_over(alloc, &setting, name, report, sharp)
        }
    )
}
