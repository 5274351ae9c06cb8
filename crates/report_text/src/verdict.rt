//! The text of a verdict.

ghost use Rattle.std.specs.Prelude.{◌≡◌, IsTrue, OnOk, OnErr};
ghost use Rattle.std.specs.Io.KnownBytes.{Appends};
ghost use Rattle.edge.specs.Faults.{HasCause};
ghost use Rattle.edge.specs.Told.{AppendsPrefix, TellsAsBefore};
ghost use Rattle.verdicts.specs.declared.verdicts.Verdict.TheVariants.{Impossible};
ghost use Rattle.verdicts.specs.Report.{has_text, report_text};
ghost use Rattle.texts.specs.Page.{Pours};

use crate::counts::Count;
use crate::head::Head;
use crate::lines::Told;
use crate::rules::{Rows, pour_witnesses};
use crate::words::Subject;
use edge::{Failed, Sink};
use lists::Items;
use meaning::{Lemma, Witnesses};
use outcomes::{OutcomeKind, Setting};
use texts::{Page, Raw, Text, Two};
use verdicts::Verdict;
use vocab::{Places, Study};

/// Adds the text of an impossibility.
fn pour_impossible<'a, K: OutcomeKind, O: Sink>(
    setting: &'a Setting<'a, K>,
    core: &'a Places,
    story: &'a Items<Lemma>,
    witnesses: &Witnesses,
    page: &mut Page,
    out: &mut O,
) -> Result<(), Failed>
    requires { IsTrue (has_text setting.now.study.now (Impossible core.now story.now witnesses.now)) }
    ensures { Pours (O.taken out.old) (O.taken out.new) page.old page.new
        (O.faults out.old) (O.faults out.new) result
        (report_text setting.now.study.now (Impossible core.now story.now witnesses.now)) }
{
    let study = setting.study;
    let of = Subject {
        study,
        space: setting.kind.space(),
    };
    let told = Told {
        of,
        core: core.as_slice(),
        lemmas: story.as_slice(),
    };
    Two(Head { of }, told).pour(page, out)?;
    pour_witnesses(setting, core.as_slice(), witnesses.as_slice(), page, out)?;
    Raw(b"end\n").pour(page, out)
}

/// Adds the text of a verdict that has one to what a page holds in front of a sink. No memory is taken.
pub fn pour_verdict<K: OutcomeKind, O: Sink>(
    kind: &K,
    study: &Study,
    verdict: &Verdict,
    page: &mut Page,
    out: &mut O,
) -> Result<(), Failed>
    requires size { study.now.size ≡ K.size kind.now }
    requires has_text { IsTrue (has_text study.now verdict.now) }
    ensures { Pours (O.taken out.old) (O.taken out.new) page.old page.new
        (O.faults out.old) (O.faults out.new) result (report_text study.now verdict.now) }
{
    let setting = Setting { kind, study };
    let of = Subject {
        study,
        space: kind.space(),
    };
    match verdict {
        Verdict::Possible(table) => {
            let count = Count {
                key: b"verdict possible\nrule ",
                count: u64::from(of.space.count()),
            };
            let rows = Two(Rows { kind, table }, Raw(b"end\n"));
            Two(Head { of }, Two(count, rows)).pour(page, out)
        }
        Verdict::Impossible {
            core,
            story,
            witnesses,
        } => pour_impossible(&setting, core, story, witnesses, page, out),
        Verdict::Undecided => {
            let limit = Count {
                key: b"verdict undecided\nconflicts ",
                count: u64::from(study.conflicts()),
            };
            Two(Head { of }, Two(limit, Raw(b"end\n"))).pour(page, out)
        }
    }
}

/// Writes the text of a verdict that has one. Where the sink fails, the front of the text was written. No
/// memory is taken.
pub fn print<K: OutcomeKind, O: Sink>(
    kind: &K,
    study: &Study,
    verdict: &Verdict,
    out: &mut O,
) -> Result<(), Failed>
    requires size { study.now.size ≡ K.size kind.now }
    requires has_text { IsTrue (has_text study.now verdict.now) }
    ensures ok { OnOk result
        (Appends (O.taken out.old) (O.taken out.new) (report_text study.now verdict.now)) }
    ensures err { OnErr result
        (AppendsPrefix (O.taken out.old) (O.taken out.new) (report_text study.now verdict.now)) }
    ensures tells { TellsAsBefore (O.taken out.old) (O.taken out.new) }
    ensures cause { HasCause (O.faults out.old) (O.faults out.new) result }
{
    let mut page = Page::new();
    pour_verdict(kind, study, verdict, &mut page, out)?;
    page.hand_on(out)
}
