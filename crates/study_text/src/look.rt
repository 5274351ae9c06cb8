//! A look at a study.

ghost use Rattle.std.specs.Prelude.{◌≡◌, ◌++◌, IfOk, OnOk};
ghost use Rattle.meaning.specs.StudyClauses.{study_clauses};
ghost use Rattle.meaning.specs.Variables.{variable_count};
ghost use Rattle.search_logs.specs.Spent.{all_places};
ghost use Rattle.texts.specs.Page.{Pours};
ghost use Rattle.study_text.specs.LookText.{last_lines, made_text, study_text};

use crate::kept::{count_all, kept_literal_count};
use crate::lines::{put_axioms, put_nearest, put_number_line, put_share};
use crate::shares::{Share, all_shares, nearest};
use clause_form::Ground;
use edge::{Bytes, Failed, Sink};
use lists::NoMemory;
use outcomes::{OutcomeKind, Setting};
use profiles::Space;
use report_text::{About, Subject};
use std::alloc::Global;
use texts::{Page, Raw, Text, Two};
use vocab::Study;

/// What a study asks.
#[derive(Drop)]
pub struct Look {
    /// The lines after those that say what the study is.
    pub lines: Bytes,
}

/// How many variables the clauses of a study have.
fn variable_count<K: OutcomeKind>(kind: &K) -> u32
    ensures { result ≡ variable_count (K.size kind.now) }
{
    kind.space().count() * kind.bits()
}

/// Adds the lines of the study as a whole that follow those of its axioms.
fn put_last(
    alloc: Global,
    out: &mut Bytes,
    space: &Space,
    study: &Study,
    ground: &Ground,
) -> Result<(), NoMemory>
    requires { study.now.size ≡ space.now }
    ensures { OnOk result (out.new ≡ out.old ++ last_lines study.now ground.now) }
{
    let shares = all_shares(alloc, space, study, ground)?;
    put_share(out, &Share::Clauses(count_all(ground)))?;
    put_share(out, &Share::Literals(kept_literal_count(ground)))?;
    put_nearest(out, nearest(shares.as_slice()))?;
    out.append(b"end\n")?;
    Ok(())
}

/// What a study asks, beside its kind, where the ground has its kept clauses: those of all its axioms. The only
/// error is want of memory.
pub fn look_at<K: OutcomeKind>(
    alloc: Global,
    kind: &K,
    study: &Study,
    ground: &Ground,
) -> Result<Look, NoMemory>
    requires size { study.now.size ≡ K.size kind.now }
    requires clauses { ground.now ≡ study_clauses study.now.size study.now.axioms (all_places study.now) }
    ensures { IfOk result (λ look. made_text study.now look ≡ study_text study.now) }
{
    let space = kind.space();
    let mut lines = Bytes::new(alloc);
    put_share(&mut lines, &Share::Profiles(space.count()))?;
    put_number_line(&mut lines, b"variables", variable_count(kind))?;
    put_axioms(alloc, &mut lines, space, study, ground)?;
    put_last(alloc, &mut lines, space, study, ground)?;
    Ok(Look { lines })
}

/// Adds a look at a study to what a page holds in front of a sink: what the study is, as in a report, and the lines of
/// the look. No memory is taken.
pub fn pour_look<K: OutcomeKind, O: Sink>(
    setting: &Setting<K>,
    look: &Look,
    page: &mut Page,
    out: &mut O,
) -> Result<(), Failed>
    ensures { Pours (O.taken out.old) (O.taken out.new) page.old page.new
        (O.faults out.old) (O.faults out.new) result (made_text setting.now.study.now look.now) }
{
    let of = Subject {
        study: setting.study,
        space: setting.kind.space(),
    };
    let front = Two(Raw(b"bench study 1\n"), About { of });
    Two(front, Raw(look.lines.as_slice())).pour(page, out)
}
