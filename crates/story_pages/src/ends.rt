//! The ends of lemmas.

ghost use Rattle.std.specs.Prelude.{◌≡◌, ◌++◌, ◌<◌, slice_get, length, OnOk};
ghost use Rattle.std.specs.List.{flat_map};
ghost use Rattle.vocab.specs.Formula.{prefix_of};
ghost use Rattle.vocab.specs.Range.{below};
ghost use Rattle.vocab.specs.Tree.{tree_of};
ghost use Rattle.html.specs.Facts.{alternative_html};
ghost use Rattle.story_pages.specs.Ends.{mark_html, voter_label, is_by_outcome, against_claim, ballot_value_html, profile_value_html, value_html, valued_html, value_at, prefixed_html, values_html, against_html, nothing_left, reason_html, end_html};

use crate::sentences::{put_axiom, put_since};
use html::{Html, put_alternative, put_ballot, put_number, put_profile};
use lists::NoMemory;
use meaning::{Lemma, Reason};
use profiles::Space;
use tellings::Telling;
use vocab::{Axiom, Env, Formula, Literal, Sort};

/// Adds what stands before the value of a level.
fn put_mark(out: &mut Html, level: u8) -> Result<(), NoMemory>
    ensures { OnOk result (out.new ≡ out.old ++ mark_html level) }
{
    if level == 0 {
        return out.append(b" for ");
    }
    out.append(b", ")
}

/// Adds a voter.
fn put_voter(out: &mut Html, i: u32) -> Result<(), NoMemory>
    ensures { OnOk result (out.new ≡ out.old ++ voter_label i) }
{
    out.append(b"voter ")?;
    put_number(out, i as u64 + 1)?;
    Ok(())
}

/// Adds an alternative; one that has no letter is shown as `?`.
fn put_any_alternative(out: &mut Html, x: u32) -> Result<(), NoMemory>
    ensures { OnOk result (out.new ≡ out.old ++ alternative_html x) }
{
    if x < 26 {
        return put_alternative(out, x as u8);
    }
    put_alternative(out, 26)
}

/// Adds a ballot as a value.
fn put_ballot_value(out: &mut Html, space: &Space, b: u32) -> Result<(), NoMemory>
    ensures { OnOk result (out.new ≡ out.old ++ ballot_value_html space.now b) }
{
    out.append(b"ballot ")?;
    put_ballot(out, space, b)?;
    Ok(())
}

/// Adds a profile as a value.
fn put_profile_value(out: &mut Html, space: &Space, p: u32) -> Result<(), NoMemory>
    ensures { OnOk result (out.new ≡ out.old ++ profile_value_html space.now p) }
{
    out.append(b"profile ")?;
    put_profile(out, space, p)?;
    Ok(())
}

/// Adds a value of a sort.
fn put_value(out: &mut Html, space: &Space, sort: Sort, value: u32) -> Result<(), NoMemory>
    ensures { OnOk result (out.new ≡ out.old ++ value_html space.now sort value) }
{
    match sort {
        Sort::Voter => put_voter(out, value),
        Sort::Alt => put_any_alternative(out, value),
        Sort::Ballot => put_ballot_value(out, space, value),
        Sort::Profile => put_profile_value(out, space, value),
    }
}

/// The sort of the leading universal of a level, if there is one.
fn sort_at(formula: &Formula, level: u8) -> Option<Sort>
    ensures { result ≡ slice_get (prefix_of (tree_of formula.now)) level }
{
    match formula {
        Formula::All(sort, inner) => {
            if level == 0 {
                return Some(*sort);
            }
            sort_at(inner, level - 1)
        }
        _ => None,
    }
}

/// Adds the value of a level, of its sort.
fn put_marked(
    out: &mut Html,
    space: &Space,
    sort: Sort,
    level: u8,
    value: u32,
) -> Result<(), NoMemory>
    ensures { OnOk result (out.new ≡ out.old ++ valued_html space.now (Some sort) level value) }
{
    put_mark(out, level)?;
    put_value(out, space, sort, value)?;
    Ok(())
}

/// Adds the value of the leading universal of a level.
fn put_value_at(
    out: &mut Html,
    space: &Space,
    formula: &Formula,
    values: &Env,
    level: u8,
) -> Result<(), NoMemory>
    requires { level < length values.now }
    ensures { OnOk result (out.new ≡ out.old ++
        value_at space.now (prefix_of (tree_of formula.now)) values.now level) }
{
    match sort_at(formula, level) {
        Some(sort) => put_marked(out, space, sort, level, values.get(level)),
        None => Ok(()),
    }
}

/// Adds the values of the leading universals of a formula.
fn put_prefixed(
    out: &mut Html,
    space: &Space,
    formula: &Formula,
    values: &Env,
) -> Result<(), NoMemory>
    ensures { OnOk result (out.new ≡ out.old ++
        prefixed_html space.now (prefix_of (tree_of formula.now)) values.now) }
{
    let count = values.len();
    for level in 0..count {
        put_value_at(out, space, formula, values, level)?;
    }
    Ok(())
}

/// Adds the values that an instance gives the leading universals of the axiom at a place.
fn put_values(
    out: &mut Html,
    space: &Space,
    axioms: &[Axiom],
    place: u32,
    values: &Env,
) -> Result<(), NoMemory>
    ensures { OnOk result (out.new ≡ out.old ++
        values_html space.now (slice_get axioms.now place) values.now) }
{
    match axioms.get(place as usize) {
        Some(axiom) => put_prefixed(out, space, axiom.sentence(), values),
        None => Ok(()),
    }
}

/// Adds an instance of an axiom that is contradicted.
fn put_against(
    out: &mut Html,
    space: &Space,
    axioms: &[Axiom],
    place: u32,
    values: &Env,
) -> Result<(), NoMemory>
    ensures { OnOk result (out.new ≡ out.old ++ against_html space.now axioms.now place values.now) }
{
    out.append(b"against ")?;
    put_axiom(out, axioms, place)?;
    put_values(out, space, axioms, place, values)?;
    Ok(())
}

/// Adds that no outcome is left at a profile.
fn put_nothing_left(out: &mut Html, space: &Space, p: u32) -> Result<(), NoMemory>
    ensures { OnOk result (out.new ≡ out.old ++ nothing_left space.now p) }
{
    out.append(b"nothing is left at ")?;
    put_profile(out, space, p)?;
    Ok(())
}

/// Adds an earlier claim that is contradicted.
fn put_against_claim(out: &mut Html, place: u32) -> Result<(), NoMemory>
    ensures { OnOk result (out.new ≡ out.old ++ against_claim place) }
{
    out.append(b"against claim ")?;
    put_number(out, place as u64 + 1)?;
    Ok(())
}

/// Adds the last reason of a lemma.
fn put_reason(
    out: &mut Html,
    space: &Space,
    axioms: &[Axiom],
    reason: &Reason,
) -> Result<(), NoMemory>
    ensures { OnOk result (out.new ≡ out.old ++ reason_html space.now axioms.now reason.now) }
{
    match *reason {
        Reason::Axiom(place, values) => put_against(out, space, axioms, place, &values),
        Reason::Outcome(p) => put_nothing_left(out, space, p),
        Reason::Lemma(place) => put_against_claim(out, place),
    }
}

/// Whether a reason is what is left at a profile.
fn is_by_outcome(reason: &Reason) -> bool
    ensures { result ≡ is_by_outcome reason.now }
{
    match *reason {
        Reason::Axiom(_, _) => false,
        Reason::Outcome(_) => true,
        Reason::Lemma(_) => false,
    }
}

/// Adds what the last reason of a lemma rests on, and the reason.
fn put_end(
    out: &mut Html,
    space: &Space,
    axioms: &[Axiom],
    last: &Reason,
    rests: &[Literal],
) -> Result<(), NoMemory>
    ensures { OnOk result (out.new ≡ out.old ++ end_html space.now axioms.now last.now rests.now) }
{
    put_since(out, space, is_by_outcome(last), rests)?;
    put_reason(out, space, axioms, last)?;
    Ok(())
}

/// Adds what the last reason of a lemma that is told so rests on, and the reason.
pub(crate) fn put_end_of(
    out: &mut Html,
    space: &Space,
    axioms: &[Axiom],
    lemma: &Lemma,
    telling: &Telling,
) -> Result<(), NoMemory>
    ensures { OnOk result (out.new ≡ out.old ++
        end_html space.now axioms.now lemma.now.last telling.now.end) }
{
    put_end(out, space, axioms, &lemma.last, telling.end.as_slice())
}
