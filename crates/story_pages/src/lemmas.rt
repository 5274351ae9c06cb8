//! Parts of a lemma on the page.

ghost use Rattle.std.specs.Prelude.{◌≡◌, ◌++◌, length, OnOk};
ghost use Rattle.std.specs.List.{flat_map};
ghost use Rattle.story_pages.specs.Lemmas.{many_claims, claims_words, fact_item, opposite_html, claimed_html, ending_html, title_html, supposed_html, suppose_html, columns_of, folded_table_html, wide_html, fitted_html, table_html};

use crate::known::KnownCells;
use html::{
    Cells, Html, is_gridded, profile_of, put_fact, put_grid, put_number, put_profile_columns,
};
use lists::NoMemory;
use meaning::Lemma;
use profiles::Space;
use tellings::{Passage, Telling};
use vocab::Literal;

/// Adds a fact among others.
fn put_fact_item(out: &mut Html, space: &Space, literal: &Literal) -> Result<(), NoMemory>
    ensures { OnOk result (out.new ≡ out.old ++ fact_item space.now literal.now) }
{
    out.append(b"<span>")?;
    put_fact(out, space, literal)?;
    out.append(b"</span>")?;
    Ok(())
}

/// Adds facts.
fn put_fact_items(out: &mut Html, space: &Space, literals: &[Literal]) -> Result<(), NoMemory>
    ensures { OnOk result (out.new ≡ out.old ++ flat_map (fact_item space.now) literals.now) }
{
    for literal in literals {
        put_fact_item(out, space, literal)?;
    }
    Ok(())
}

/// Adds a claim: the opposite of a supposition.
fn put_opposite(out: &mut Html, space: &Space, literal: &Literal) -> Result<(), NoMemory>
    ensures { OnOk result (out.new ≡ out.old ++ opposite_html space.now literal.now) }
{
    put_fact_item(out, space, &literal.opposite())
}

/// Adds the opposites of suppositions.
fn put_opposites(out: &mut Html, space: &Space, suppose: &[Literal]) -> Result<(), NoMemory>
    ensures { OnOk result (out.new ≡ out.old ++ flat_map (opposite_html space.now) suppose.now) }
{
    for literal in suppose {
        put_opposite(out, space, literal)?;
    }
    Ok(())
}

/// Adds that one of several things is claimed, or that there is no rule.
fn put_many_claims(out: &mut Html, suppose: &[Literal]) -> Result<(), NoMemory>
    ensures { OnOk result (out.new ≡ out.old ++ many_claims (length suppose.now)) }
{
    if suppose.len() == 0 {
        return out.append(b": no rule satisfies these axioms");
    }
    out.append(b", one of these: ")
}

/// Adds how many things are claimed.
fn put_claims_words(out: &mut Html, suppose: &[Literal]) -> Result<(), NoMemory>
    ensures { OnOk result (out.new ≡ out.old ++ claims_words (length suppose.now)) }
{
    if suppose.len() == 1 {
        return out.append(b": ");
    }
    put_many_claims(out, suppose)
}

/// Adds what a lemma of a number claims.
fn put_claimed(
    out: &mut Html,
    space: &Space,
    number: u64,
    suppose: &[Literal],
) -> Result<(), NoMemory>
    ensures { OnOk result (out.new ≡ out.old ++ claimed_html space.now number suppose.now) }
{
    out.append(b"Claim ")?;
    put_number(out, number)?;
    put_claims_words(out, suppose)?;
    put_opposites(out, space, suppose)?;
    Ok(())
}

/// Adds what a lemma of a number claims.
pub(crate) fn put_claimed_by(
    out: &mut Html,
    space: &Space,
    number: u64,
    lemma: &Lemma,
) -> Result<(), NoMemory>
    ensures { OnOk result (out.new ≡ out.old ++ claimed_html space.now number lemma.now.suppose) }
{
    put_claimed(out, space, number, lemma.suppose.as_slice())
}

/// Adds what a lemma of a number claims that supposes nothing: the last is the conclusion.
fn put_ending(
    out: &mut Html,
    space: &Space,
    is_last: bool,
    number: u64,
    suppose: &[Literal],
) -> Result<(), NoMemory>
    ensures { OnOk result (out.new ≡ out.old ++ ending_html space.now is_last number suppose.now) }
{
    if is_last {
        return out.append(b"Conclusion");
    }
    put_claimed(out, space, number, suppose)
}

/// Adds what a lemma of a number claims, which stands by itself.
pub(crate) fn put_title(
    out: &mut Html,
    space: &Space,
    is_last: bool,
    number: u64,
    lemma: &Lemma,
) -> Result<(), NoMemory>
    ensures { OnOk result (out.new ≡ out.old ++ title_html space.now is_last number lemma.now.suppose) }
{
    let suppose = lemma.suppose.as_slice();
    if suppose.len() == 0 {
        return put_ending(out, space, is_last, number, suppose);
    }
    put_claimed(out, space, number, suppose)
}

/// Adds suppositions, of which there are some.
fn put_supposed(out: &mut Html, space: &Space, suppose: &[Literal]) -> Result<(), NoMemory>
    ensures { OnOk result (out.new ≡ out.old ++ supposed_html space.now suppose.now) }
{
    out.append(b"<div class=e>Suppose not: ")?;
    put_fact_items(out, space, suppose)?;
    out.append(b".</div>\n")?;
    Ok(())
}

/// Adds suppositions, if there are any.
pub(crate) fn put_suppose(out: &mut Html, space: &Space, lemma: &Lemma) -> Result<(), NoMemory>
    ensures { OnOk result (out.new ≡ out.old ++ suppose_html space.now lemma.now.suppose) }
{
    let suppose = lemma.suppose.as_slice();
    if suppose.len() == 0 {
        return Ok(());
    }
    put_supposed(out, space, suppose)
}

/// Adds the profile of the first supposition as columns, if there is one.
pub(crate) fn put_columns_of(out: &mut Html, space: &Space, lemma: &Lemma) -> Result<(), NoMemory>
    ensures { OnOk result (out.new ≡ out.old ++ columns_of space.now lemma.now.suppose) }
{
    match lemma.suppose.as_slice().get(0) {
        Some(literal) => put_profile_columns(out, space, profile_of(literal)),
        None => Ok(()),
    }
}

/// Adds a table in a fold.
fn put_folded<C: Cells>(out: &mut Html, space: &Space, cells: &C) -> Result<(), NoMemory>
    ensures { OnOk result (out.new ≡ out.old ++ folded_table_html space.now (C.cell cells.now)) }
{
    out.append(b"<details class=k><summary>Table: what is known at each profile</summary><div>\n")?;
    put_grid(out, space, cells)?;
    out.append(b"</div></details>\n")?;
    Ok(())
}

/// Adds a table for two voters with more than six ballots, unless these are too many.
fn put_wide<C: Cells>(out: &mut Html, space: &Space, cells: &C) -> Result<(), NoMemory>
    ensures { OnOk result (out.new ≡ out.old ++ wide_html space.now (C.cell cells.now)) }
{
    if !is_gridded(space, 25) {
        return Ok(());
    }
    put_folded(out, space, cells)
}

/// Adds a table for two voters, unless their ballots are too many.
fn put_fitted<C: Cells>(out: &mut Html, space: &Space, cells: &C) -> Result<(), NoMemory>
    ensures { OnOk result (out.new ≡ out.old ++ fitted_html space.now (C.cell cells.now)) }
{
    if is_gridded(space, 7) {
        return put_grid(out, space, cells);
    }
    put_wide(out, space, cells)
}

/// Adds what is known where, for two voters with at most 24 ballots.
pub(crate) fn put_table(
    out: &mut Html,
    space: &Space,
    forced: &Passage,
    lemma: &Lemma,
    telling: &Telling,
) -> Result<(), NoMemory>
    ensures { OnOk result (out.new ≡ out.old ++
        table_html space.now forced.now.steps lemma.now telling.now) }
{
    let cells = KnownCells {
        suppose: lemma.suppose.as_slice(),
        forced: forced.steps.as_slice(),
        steps: telling.passage.steps.as_slice(),
    };
    put_fitted(out, space, &cells)
}
