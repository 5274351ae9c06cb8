//! What shows that no axiom of a core can be left out.

ghost use Rattle.std.specs.Prelude.{◌≡◌, ◌++◌, length, OnOk};
ghost use Rattle.std.specs.List.{flat_map};
ghost use Rattle.vocab.specs.Range.{below};
ghost use Rattle.pages.specs.Witnesses.{mark_body_html, witness_html, witness_at, witnesses_html};

use html::{Html, put_number};
use lists::NoMemory;
use meaning::Witness;
use outcomes::OutcomeKind;
use profiles::Space;
use rule_pages::{put_name, put_rule};
use story_pages::put_axiom;
use vocab::{Axiom, Table};

/// Adds the mark of an axiom of the core: a rule.
fn put_ruled<K: OutcomeKind>(out: &mut Html, kind: &K, table: &Table) -> Result<(), NoMemory>
    ensures { OnOk result (out.new ≡ out.old ++ mark_body_html (K.size kind.now) (Witness.Rule table.now)) }
{
    put_name(out, kind, table)?;
    out.append(b"</p>\n")?;
    put_rule(out, kind, table)?;
    Ok(())
}

/// Adds the mark of an axiom of the core: open.
fn put_open(out: &mut Html, space: &Space, limit: u32) -> Result<(), NoMemory>
    ensures { OnOk result (out.new ≡ out.old ++ mark_body_html space.now (Witness.Open limit)) }
{
    out.append(
        b" it is not known whether some rule satisfies the others: the search gave up after ",
    )?;
    put_number(out, limit as u64)?;
    out.append(b" conflicts.</p>\n")?;
    Ok(())
}

/// Adds the mark of an axiom of the core.
fn put_mark<K: OutcomeKind>(out: &mut Html, kind: &K, mark: &Witness) -> Result<(), NoMemory>
    ensures { OnOk result (out.new ≡ out.old ++ mark_body_html (K.size kind.now) mark.now) }
{
    match mark {
        Witness::Rule(table) => put_ruled(out, kind, table),
        Witness::Open(limit) => put_open(out, kind.space(), *limit),
    }
}

/// Adds an axiom of the core with its mark.
fn put_witness<K: OutcomeKind>(
    out: &mut Html,
    kind: &K,
    axioms: &[Axiom],
    place: u32,
    mark: &Witness,
) -> Result<(), NoMemory>
    ensures { OnOk result (out.new ≡ out.old ++ witness_html (K.size kind.now) axioms.now place mark.now) }
{
    out.append(b"<div><p>Without ")?;
    put_axiom(out, axioms, place)?;
    put_mark(out, kind, mark)?;
    out.append(b"</div>\n")?;
    Ok(())
}

/// Adds the axiom at a place of the core with its mark, if there are both.
fn put_witness_at<K: OutcomeKind>(
    out: &mut Html,
    kind: &K,
    axioms: &[Axiom],
    core: &[u32],
    witnesses: &[Witness],
    place: usize,
) -> Result<(), NoMemory>
    ensures { OnOk result (out.new ≡ out.old ++
        witness_at (K.size kind.now) axioms.now core.now witnesses.now place) }
{
    match (core.get(place), witnesses.get(place)) {
        (Some(axiom), Some(mark)) => put_witness(out, kind, axioms, *axiom, mark),
        _ => Ok(()),
    }
}

/// Adds the axioms of the core with their marks, up to a place.
fn put_marks<K: OutcomeKind>(
    out: &mut Html,
    kind: &K,
    axioms: &[Axiom],
    core: &[u32],
    witnesses: &[Witness],
) -> Result<(), NoMemory>
    ensures { OnOk result (out.new ≡ out.old ++
        flat_map (witness_at (K.size kind.now) axioms.now core.now witnesses.now)
        (below (length witnesses.now))) }
{
    let count = witnesses.len();
    for place in 0..count {
        put_witness_at(out, kind, axioms, core, witnesses, place)?;
    }
    Ok(())
}

/// Adds the marks of a core.
pub(crate) fn put_witnesses<K: OutcomeKind>(
    out: &mut Html,
    kind: &K,
    axioms: &[Axiom],
    core: &[u32],
    witnesses: &[Witness],
) -> Result<(), NoMemory>
    ensures { OnOk result (out.new ≡ out.old ++
        witnesses_html (K.size kind.now) axioms.now core.now witnesses.now) }
{
    out.append(
        b"<h2>Without one of the axioms: a rule that satisfies the others</h2>\n<div class=w>\n",
    )?;
    put_marks(out, kind, axioms, core, witnesses)?;
    out.append(b"</div>\n")?;
    Ok(())
}
