//! Terms, and calls of functions and predicates.

ghost use Rattle.std.specs.Prelude.{◌≡◌, ◌++◌, codes, OnOk};
ghost use Rattle.vocab.specs.Tree.{term_tree};
ghost use Rattle.syntax.specs.Canonical.{term_text, list_text};
ghost use Rattle.instance_text.specs.Bodies.{term, two, three, four};

use crate::pieces::{put_constant, put_written, sort_at};
use edge::Bytes;
use lists::NoMemory;
use profiles::Space;
use vocab::{Env, Sort, Term};

/// What terms stand in: a size, the values of the outermost variables, and the sorts of all.
#[derive(Clone, Copy)]
pub(crate) struct Around<'a> {
    pub(crate) space: &'a Space,
    pub(crate) values: &'a Env,
    pub(crate) sorts: &'a [Sort],
}

/// Adds a term of a sort.
#[cycle(terms)]
pub(crate) fn put_term(
    out: &mut Bytes,
    around: &Around,
    sort: Sort,
    given: &Term,
) -> Result<(), NoMemory>
    ensures { OnOk result (out.new ≡ out.old ++
        term_text (term around.now.space.now around.now.values.now around.now.sorts.now sort
        (term_tree given.now))) }
{
    match given {
        Term::Var(level) => {
            let sort = sort_at(around.sorts, *level);
            put_written(out, around.space, around.values, sort, *level)
        }
        Term::Const(value) => put_constant(out, around.space, sort, *value),
        Term::With(p, i, b) => {
            put_three(
                out,
                around,
                b"with",
                Triple(Sort::Profile, Sort::Voter, Sort::Ballot),
                p,
                i,
                b,
            )
        }
        Term::SwapVoters(p, i, j) => {
            put_three(
                out,
                around,
                b"swap_voters",
                Triple(Sort::Profile, Sort::Voter, Sort::Voter),
                p,
                i,
                j,
            )
        }
        Term::SwapAlts(p, x, y) => {
            put_three(
                out,
                around,
                b"swap_alts",
                Triple(Sort::Profile, Sort::Alt, Sort::Alt),
                p,
                x,
                y,
            )
        }
        Term::Swap(x, y, z) => {
            put_three(
                out,
                around,
                b"swap",
                Triple(Sort::Alt, Sort::Alt, Sort::Alt),
                x,
                y,
                z,
            )
        }
    }
}

/// The sorts of three arguments.
#[derive(Clone, Copy)]
pub(crate) struct Triple(pub(crate) Sort, pub(crate) Sort, pub(crate) Sort);

/// Adds the name of a symbol, and its first argument.
#[cycle(terms)]
fn put_first(
    out: &mut Bytes,
    around: &Around,
    name: &[u8],
    sort: Sort,
    given: &Term,
) -> Result<(), NoMemory>
    ensures { OnOk result (out.new ≡ out.old ++ (name.now ++ codes "(" ++
        term_text (term around.now.space.now around.now.values.now around.now.sorts.now sort
        (term_tree given.now)))) }
{
    out.append(name)?;
    out.append(b"(")?;
    put_term(out, around, sort, given)?;
    Ok(())
}

/// Adds a further argument.
#[cycle(terms)]
fn put_next(out: &mut Bytes, around: &Around, sort: Sort, given: &Term) -> Result<(), NoMemory>
    ensures { OnOk result (out.new ≡ out.old ++ (codes ", " ++
        term_text (term around.now.space.now around.now.values.now around.now.sorts.now sort
        (term_tree given.now)))) }
{
    out.append(b", ")?;
    put_term(out, around, sort, given)?;
    Ok(())
}

/// Adds a symbol at three arguments.
#[cycle(terms)]
pub(crate) fn put_three(
    out: &mut Bytes,
    around: &Around,
    name: &[u8],
    sorts: Triple,
    first: &Term,
    second: &Term,
    third: &Term,
) -> Result<(), NoMemory>
    ensures { OnOk result (out.new ≡ out.old ++ (name.now ++ codes "(" ++ list_text (three
        (term around.now.space.now around.now.values.now around.now.sorts.now sorts.0 (term_tree first.now))
        (term around.now.space.now around.now.values.now around.now.sorts.now sorts.1 (term_tree second.now))
        (term around.now.space.now around.now.values.now around.now.sorts.now sorts.2 (term_tree third.now)))
        ++ codes ")")) }
{
    put_first(out, around, name, sorts.0, first)?;
    put_next(out, around, sorts.1, second)?;
    put_next(out, around, sorts.2, third)?;
    out.append(b")")?;
    Ok(())
}

/// Adds `wins` at its two arguments.
pub(crate) fn put_wins(out: &mut Bytes, around: &Around, x: &Term, p: &Term) -> Result<(), NoMemory>
    ensures { OnOk result (out.new ≡ out.old ++ (codes "wins" ++ codes "(" ++ list_text (two
        (term around.now.space.now around.now.values.now around.now.sorts.now Sort.Alt (term_tree x.now))
        (term around.now.space.now around.now.values.now around.now.sorts.now Sort.Profile (term_tree p.now)))
        ++ codes ")")) }
{
    put_first(out, around, b"wins", Sort::Alt, x)?;
    put_next(out, around, Sort::Profile, p)?;
    out.append(b")")?;
    Ok(())
}

/// Adds `prefers` at its four arguments.
pub(crate) fn put_prefers(
    out: &mut Bytes,
    around: &Around,
    i: &Term,
    x: &Term,
    y: &Term,
    p: &Term,
) -> Result<(), NoMemory>
    ensures { OnOk result (out.new ≡ out.old ++ (codes "prefers" ++ codes "(" ++ list_text (four
        (term around.now.space.now around.now.values.now around.now.sorts.now Sort.Voter (term_tree i.now))
        (term around.now.space.now around.now.values.now around.now.sorts.now Sort.Alt (term_tree x.now))
        (term around.now.space.now around.now.values.now around.now.sorts.now Sort.Alt (term_tree y.now))
        (term around.now.space.now around.now.values.now around.now.sorts.now Sort.Profile (term_tree p.now)))
        ++ codes ")")) }
{
    put_first(out, around, b"prefers", Sort::Voter, i)?;
    put_next(out, around, Sort::Alt, x)?;
    put_next(out, around, Sort::Alt, y)?;
    put_next(out, around, Sort::Profile, p)?;
    out.append(b")")?;
    Ok(())
}
