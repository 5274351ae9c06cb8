//! Rules row by row, and the witnesses of a core.

ghost use Rattle.std.specs.Prelude.{◌++◌, ◌∷◌, ◌<◌, [], nat_lt, length, IsTrue};
ghost use Rattle.std.specs.List.{list_all};
ghost use Rattle.std.specs.Cmp.Lexicographic.{pointwise};
ghost use Rattle.meaning.specs.Texts.{outcome_text, profile_text};
ghost use Rattle.meaning.specs.Truth.{is_rule};
ghost use Rattle.verdicts.specs.Report.{all_witness_lines, is_witness_text, witness_lines};
ghost use Rattle.report_text.specs.Pieces.{lines_text};
ghost use Rattle.texts.specs.Spelled.{spelled};
ghost use Rattle.texts.specs.Page.{Pours};

use crate::counts::Count;
use edge::{Failed, Sink};
use meaning::Witness;
use outcomes::{OutcomeKind, Setting};
use texts::{Page, Raw, Text, Two};
use vocab::Table;

/// The rows of a rule.
#[derive(Drop)]
pub struct Rows<'a, K> {
    pub kind: &'a K,
    pub table: &'a Table,
}

impl<K: OutcomeKind> Text for Rows<'_, K> {
    ghost can = { λ rows. IsTrue (is_rule (K.size rows.kind.now) rows.table.now) };

    ghost text = { λ rows.
        spelled (λ p o. profile_text (K.size rows.kind.now) p ++
        (32 ∷ (outcome_text (K.size rows.kind.now) o ++ 10 ∷ []))) 0 rows.table.now };

    fn pour<O: Sink>(&self, page: &mut Page, out: &mut O) -> Result<(), Failed> {
        for p in 0..self.table.len() {
            let profile = self.kind.space().profile_text(p as u32);
            let outcome = self.kind.text(u32::from(*self.table.get(p)));
            let end = Two(Raw(outcome.bytes()), Raw(b"\n"));
            Two(Raw(profile.bytes()), Two(Raw(b" "), end)).pour(page, out)?;
        }
        Ok(())
    }
}

/// The witness of the axiom at a place: a rule with its rows, or an open mark.
fn pour_witness<K: OutcomeKind, O: Sink>(
    setting: &Setting<K>,
    place: u32,
    witness: &Witness,
    page: &mut Page,
    out: &mut O,
) -> Result<(), Failed>
    requires place { place < length setting.now.study.now.axioms }
    requires can { IsTrue (is_witness_text setting.now.study.now place witness.now) }
    ensures { Pours (O.taken out.old) (O.taken out.new) page.old page.new
        (O.faults out.old) (O.faults out.new) result
        (lines_text setting.now.study.now (witness_lines setting.now.study.now place witness.now)) }
{
    let kind = setting.kind;
    let name = setting.study.axioms().get(place as usize).name();
    match witness {
        Witness::Rule(table) => {
            let count = Count {
                key: b" rule ",
                count: u64::from(kind.space().count()),
            };
            let rows = Two(count, Rows { kind, table });
            Two(Raw(b"without "), Two(Raw(name.bytes()), rows)).pour(page, out)
        }
        Witness::Open(limit) => {
            let open = Count {
                key: b" open ",
                count: u64::from(*limit),
            };
            Two(Raw(b"without "), Two(Raw(name.bytes()), open)).pour(page, out)
        }
    }
}

/// A witness for each axiom of a core.
pub(crate) fn pour_witnesses<K: OutcomeKind, O: Sink>(
    setting: &Setting<K>,
    core: &[u32],
    witnesses: &[Witness],
    page: &mut Page,
    out: &mut O,
) -> Result<(), Failed>
    requires core { IsTrue (list_all (λ k. nat_lt k (length setting.now.study.now.axioms)) core.now) }
    requires can { IsTrue (pointwise (is_witness_text setting.now.study.now) core.now witnesses.now) }
    ensures { Pours (O.taken out.old) (O.taken out.new) page.old page.new
        (O.faults out.old) (O.faults out.new) result
        (lines_text setting.now.study.now
        (all_witness_lines setting.now.study.now core.now witnesses.now)) }
{
    for place in 0..witnesses.len() {
        pour_witness(setting, core[place], &witnesses[place], page, out)?;
    }
    Ok(())
}
