//! The text of a sharp verdict.

ghost use Rattle.std.specs.Prelude.{◌≡◌, IsTrue};
ghost use Rattle.sharp_verdicts.specs.Right.{pointed};
ghost use Rattle.sharp_verdicts.specs.SharpLines.{sharp_text};
ghost use Rattle.texts.specs.Page.{Pours};
ghost use Rattle.sharp_text.specs.Conditions.{has_sharp_text};

use crate::marks::pour_marks;
use edge::{Failed, Sink};
use outcomes::{OutcomeKind, Setting};
use report_text::{About, Count, Subject, Told};
use sharp_verdicts::Sharp;
use texts::{Page, Raw, Text, Two};
use vocab::Study;

/// Adds the text of a sharp verdict that has one to what a page holds in front of a sink. No memory is taken.
pub fn pour_sharp<'a, K: OutcomeKind, O: Sink>(
    kind: &'a K,
    study: &'a Study,
    sharp: &'a Sharp,
    page: &mut Page,
    out: &mut O,
) -> Result<(), Failed>
    requires size { study.now.size ≡ K.size kind.now }
    requires has_text { IsTrue (has_sharp_text study.now (pointed sharp.now)) }
    ensures { Pours (O.taken out.old) (O.taken out.new) page.old page.new
        (O.faults out.old) (O.faults out.new) result (sharp_text study.now (pointed sharp.now)) }
{
    let setting = Setting { kind, study };
    let of = Subject {
        study,
        space: kind.space(),
    };
    let told = Told {
        of,
        core: sharp.core.as_slice(),
        lemmas: sharp.story.as_slice(),
    };
    let count = Count {
        key: b"instances ",
        count: sharp.instances.len() as u64,
    };
    let front = Two(About { of }, Two(told, count));
    Two(Raw(b"bench sharp 1\n"), front).pour(page, out)?;
    pour_marks(
        &setting,
        sharp.instances.as_slice(),
        sharp.marks.as_slice(),
        page,
        out,
    )?;
    Raw(b"end\n").pour(page, out)
}
