//! Atoms and formulas.

ghost use Rattle.std.specs.Prelude.{◌≡◌, ◌+◌, ◌∷◌, [], ◌++◌, codes, length, IfOk, OnOk};
ghost use Rattle.vocab.specs.Tree.{atom_tree, term_tree, tree_of};
ghost use Rattle.syntax.specs.Canonical.{term_text, canonical_text};
ghost use Rattle.syntax.specs.Grammar.{word_of_sort};
ghost use Rattle.instance_text.specs.Bodies.{atom, common_sort, constants_sort, formula, named_sentence, known_sort, term, variable_name};

use crate::pieces::{put_variable, sort_at, sort_word};
use crate::terms::{Around, Triple, put_prefers, put_term, put_three, put_wins};
use edge::Bytes;
use lists::{Items, NoMemory};
use profiles::Space;
use std::alloc::Global;
use vocab::{Atom, Env, Formula, Sort, Term};

/// The sort of a term, but for a constant.
fn known_sort(sorts: &[Sort], given: &Term) -> Option<Sort>
    ensures { result ≡ known_sort sorts.now (term_tree given.now) }
{
    match given {
        Term::Var(level) => Some(sort_at(sorts, *level)),
        Term::Const(_) => None,
        Term::With(_, _, _) => Some(Sort::Profile),
        Term::SwapVoters(_, _, _) => Some(Sort::Profile),
        Term::SwapAlts(_, _, _) => Some(Sort::Profile),
        Term::Swap(_, _, _) => Some(Sort::Alt),
    }
}

/// The sort of two constants of which no more is known.
fn constants_sort(space: &Space, left: &Term, right: &Term) -> Sort
    ensures { result ≡ constants_sort space.now (term_tree left.now) (term_tree right.now) }
{
    match (left, right) {
        (Term::Const(c), Term::Const(d)) => {
            let size = space.size();
            let alternatives = size.sort_len(Sort::Alt);
            if *c < alternatives && *d < alternatives {
                return Sort::Alt;
            }
            let voters = size.sort_len(Sort::Voter);
            if *c < voters && *d < voters {
                return Sort::Voter;
            }
            Sort::Ballot
        }
        _ => Sort::Ballot,
    }
}

/// The sort of the two terms of an equation.
fn common_sort(around: &Around, left: &Term, right: &Term) -> Sort
    ensures { result ≡ common_sort around.now.space.now around.now.sorts.now (term_tree left.now)
        (term_tree right.now) }
{
    match known_sort(around.sorts, left) {
        Some(sort) => sort,
        None => match known_sort(around.sorts, right) {
            Some(sort) => sort,
            None => constants_sort(around.space, left, right),
        },
    }
}

/// Adds an equation of two terms of a sort.
fn put_equal(
    out: &mut Bytes,
    around: &Around,
    sort: Sort,
    left: &Term,
    right: &Term,
) -> Result<(), NoMemory>
    ensures { OnOk result (out.new ≡ out.old ++ (
        term_text (term around.now.space.now around.now.values.now around.now.sorts.now sort
        (term_tree left.now)) ++ codes " = " ++
        term_text (term around.now.space.now around.now.values.now around.now.sorts.now sort
        (term_tree right.now)))) }
{
    put_term(out, around, sort, left)?;
    out.append(b" = ")?;
    put_term(out, around, sort, right)?;
    Ok(())
}

/// Adds an atom.
fn put_atom(out: &mut Bytes, around: &Around, given: &Atom) -> Result<(), NoMemory>
    ensures { OnOk result (out.new ≡ out.old ++
        canonical_text (atom around.now.space.now around.now.values.now around.now.sorts.now
        (atom_tree given.now))) }
{
    match given {
        Atom::Equal(s, t) => put_equal(out, around, common_sort(around, s, t), s, t),
        Atom::Prefers(i, x, y, p) => put_prefers(out, around, i, x, y, p),
        Atom::Better(b, x, y) => {
            let sorts = Triple(Sort::Ballot, Sort::Alt, Sort::Alt);
            put_three(out, around, b"better", sorts, b, x, y)
        }
        Atom::Casts(i, b, p) => {
            let sorts = Triple(Sort::Voter, Sort::Ballot, Sort::Profile);
            put_three(out, around, b"casts", sorts, i, b, p)
        }
        Atom::Majority(x, y, p) => {
            let sorts = Triple(Sort::Alt, Sort::Alt, Sort::Profile);
            put_three(out, around, b"majority", sorts, x, y, p)
        }
        Atom::Wins(x, p) => put_wins(out, around, x, p),
        Atom::Ranks(x, y, p) => {
            let sorts = Triple(Sort::Alt, Sort::Alt, Sort::Profile);
            put_three(out, around, b"ranks", sorts, x, y, p)
        }
    }
}

/// These sorts and one more.
fn with_sort(alloc: Global, sorts: &[Sort], sort: Sort) -> Result<Items<Sort>, NoMemory>
    ensures { IfOk result (λ all. all ≡ sorts.now ++ sort ∷ []) }
{
    let mut all = Items::new(alloc);
    all.append(sorts)?;
    all.push(sort)?;
    Ok(all)
}

/// Adds a quantifier with its variable, up to the body.
fn put_binder(
    out: &mut Bytes,
    quantifier: &[u8],
    sorts: &[Sort],
    sort: Sort,
) -> Result<(), NoMemory>
    ensures { OnOk result (out.new ≡ out.old ++ (quantifier.now ++ variable_name sort (length sorts.now + 1)
        ++ codes ": " ++ word_of_sort sort ++ codes ". ")) }
{
    out.append(quantifier)?;
    put_variable(out, sort, sorts.len() as u64 + 1)?;
    out.append(b": ")?;
    out.append(sort_word(sort))?;
    out.append(b". ")?;
    Ok(())
}

/// Adds a formula.
#[cycle(formulas)]
pub(crate) fn put_formula(
    alloc: Global,
    out: &mut Bytes,
    around: &Around,
    given: &Formula,
) -> Result<(), NoMemory>
    ensures { OnOk result (out.new ≡ out.old ++
        canonical_text (formula around.now.space.now around.now.values.now around.now.sorts.now
        (tree_of given.now))) }
{
    match given {
        Formula::Leaf(leaf) => put_atom(out, around, leaf),
        Formula::Not(inner) => put_negation(alloc, out, around, inner),
        Formula::Both(left, right) => put_group(alloc, out, around, left, b" & ", right),
        Formula::Either(left, right) => put_group(alloc, out, around, left, b" | ", right),
        Formula::Implies(left, right) => put_group(alloc, out, around, left, b" -> ", right),
        Formula::Same(left, right) => put_group(alloc, out, around, left, b" <-> ", right),
        Formula::All(sort, inner) => put_quantified(alloc, out, around, b"all ", *sort, inner),
        Formula::Exists(sort, inner) => put_quantified(alloc, out, around, b"some ", *sort, inner),
    }
}

/// Adds the negation of a formula.
#[cycle(formulas)]
fn put_negation(
    alloc: Global,
    out: &mut Bytes,
    around: &Around,
    inner: &Formula,
) -> Result<(), NoMemory>
    ensures { OnOk result (out.new ≡ out.old ++ (codes "!" ++
        canonical_text (formula around.now.space.now around.now.values.now around.now.sorts.now
        (tree_of inner.now)))) }
{
    out.append(b"!")?;
    put_formula(alloc, out, around, inner)?;
    Ok(())
}

/// Adds two formulas with what stands between them, in brackets.
#[cycle(formulas)]
fn put_group(
    alloc: Global,
    out: &mut Bytes,
    around: &Around,
    left: &Formula,
    joint: &[u8],
    right: &Formula,
) -> Result<(), NoMemory>
    ensures { OnOk result (out.new ≡ out.old ++ (codes "(" ++ canonical_text
        (formula around.now.space.now around.now.values.now around.now.sorts.now (tree_of left.now))
        ++ joint.now ++ canonical_text
        (formula around.now.space.now around.now.values.now around.now.sorts.now (tree_of right.now))
        ++ codes ")")) }
{
    out.append(b"(")?;
    put_formula(alloc, out, around, left)?;
    out.append(joint)?;
    put_formula(alloc, out, around, right)?;
    out.append(b")")?;
    Ok(())
}

/// Adds a quantified formula.
#[cycle(formulas)]
fn put_quantified(
    alloc: Global,
    out: &mut Bytes,
    around: &Around,
    quantifier: &[u8],
    sort: Sort,
    inner: &Formula,
) -> Result<(), NoMemory>
    ensures { OnOk result (out.new ≡ out.old ++ (quantifier.now
        ++ variable_name sort (length around.now.sorts.now + 1) ++ codes ": " ++ word_of_sort sort
        ++ codes ". " ++ canonical_text (formula around.now.space.now around.now.values.now
        (around.now.sorts.now ++ sort ∷ []) (tree_of inner.now)))) }
{
    put_binder(out, quantifier, around.sorts, sort)?;
    let sorts = with_sort(alloc, around.sorts, sort)?;
    let inside = Around {
        space: around.space,
        values: around.values,
        sorts: sorts.as_slice(),
    };
    put_formula(alloc, out, &inside, inner)?;
    Ok(())
}

/// Adds a whole sentence, each variable by the letter of its sort and its place.
pub fn put_sentence(
    alloc: Global,
    out: &mut Bytes,
    space: &Space,
    given: &Formula,
) -> Result<(), NoMemory>
    ensures { OnOk result (out.new ≡
        out.old ++ canonical_text (named_sentence space.now (tree_of given.now))) }
{
    let values = Env::none();
    let sorts = Items::new(alloc);
    let around = Around {
        space,
        values: &values,
        sorts: sorts.as_slice(),
    };
    put_formula(alloc, out, &around, given)
}
