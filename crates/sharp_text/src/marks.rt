//! The marks of instances.

ghost use Rattle.std.specs.Prelude.{IsTrue};
ghost use Rattle.std.specs.Cmp.Lexicographic.{pointwise};
ghost use Rattle.sharp_verdicts.specs.SharpLines.{all_mark_lines, mark_lines};
ghost use Rattle.texts.specs.Page.{Pours};
ghost use Rattle.sharp_text.specs.Conditions.{is_mark_text};
ghost use Rattle.sharp_text.specs.Pieces.{sharp_lines_text};

use edge::{Failed, Sink};
use instance_studies::values_of;
use meaning::Witness;
use outcomes::{OutcomeKind, Setting};
use report_text::{Count, InstanceWords, Rows, Subject};
use sharp_verdicts::Cited;
use texts::{Page, Raw, Text, Two};

/// The mark of an instance: a rule with its rows, or an open mark.
fn pour_mark<K: OutcomeKind, O: Sink>(
    setting: &Setting<K>,
    cited: Cited,
    mark: &Witness,
    page: &mut Page,
    out: &mut O,
) -> Result<(), Failed>
    requires can { IsTrue (is_mark_text setting.now.study.now cited mark.now) }
    ensures { Pours (O.taken out.old) (O.taken out.new) page.old page.new
        (O.faults out.old) (O.faults out.new) result
        (sharp_lines_text setting.now.study.now (mark_lines setting.now.study.now cited mark.now)) }
{
    let kind = setting.kind;
    let study = setting.study;
    let space = kind.space();
    let instance = InstanceWords {
        of: Subject { study, space },
        place: cited.axiom,
        values: values_of(space, study, cited),
    };
    match mark {
        Witness::Rule(table) => {
            let count = Count {
                key: b" rule ",
                count: u64::from(space.count()),
            };
            let rows = Two(count, Rows { kind, table });
            Two(Raw(b"needs "), Two(instance, rows)).pour(page, out)
        }
        Witness::Open(limit) => {
            let open = Count {
                key: b" open ",
                count: u64::from(*limit),
            };
            Two(Raw(b"needs "), Two(instance, open)).pour(page, out)
        }
    }
}

/// A mark for each instance.
pub(crate) fn pour_marks<K: OutcomeKind, O: Sink>(
    setting: &Setting<K>,
    instances: &[Cited],
    marks: &[Witness],
    page: &mut Page,
    out: &mut O,
) -> Result<(), Failed>
    requires { IsTrue (pointwise (is_mark_text setting.now.study.now) instances.now marks.now) }
    ensures { Pours (O.taken out.old) (O.taken out.new) page.old page.new
        (O.faults out.old) (O.faults out.new) result
        (sharp_lines_text setting.now.study.now
        (all_mark_lines setting.now.study.now instances.now marks.now)) }
{
    for place in 0..marks.len() {
        pour_mark(setting, instances[place], &marks[place], page, out)?;
    }
    Ok(())
}
