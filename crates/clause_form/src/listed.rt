//! Clauses of which a few short ones take no memory.

ghost use Rattle.std.specs.Prelude.{◌≡◌, [], ◌∷◌, ◌++◌, reverse, OnOk, IfOk};
ghost use Rattle.clause_form.specs.Factors.{each_joined};
ghost use Rattle.clause_form.specs.Listed.{clauses_kept};

use crate::factored::Factored;
use cnf::{Lit, Store};
use lists::NoMemory;
use std::alloc::Global;
use std::marker::Model;

/// One clause of one or two literals in place, or two of two literals; or any clauses in memory.
enum Kept {
    One(Lit),
    Two(Lit, Lit),
    Pair(Lit, Lit, Lit, Lit),
    Many(Factored),
}

/// Written out, so that letting go of these clauses is one call.
impl Drop for Kept {
    fn drop(self) {
        match self {
            Kept::One(_) => {}
            Kept::Two(_, _) => {}
            Kept::Pair(_, _, _, _) => {}
            Kept::Many(_) => {}
        }
    }
}

/// Clauses. One clause of one or two literals takes no memory, nor do two of two: most parts of most sentences
/// are a literal, or two joined, or an equivalence of two.
#[derive(Drop)]
pub(crate) struct Listed {
    kept: Kept,
}

impl Model for Listed {
    ghost use Rattle.std.specs.Prelude.{List};
    ghost use Rattle.cnf.specs.Sat.{Clause};
    ghost use Rattle.clause_form.specs.Listed.{clauses_kept};

    ghost Value = { List Clause };

    ghost view = { λ l. clauses_kept l.kept };
}

impl Kept {
    /// The clauses in memory.
    fn factored(self, alloc: Global) -> Result<Factored, NoMemory>
        ensures { IfOk result (λ f. f ≡ clauses_kept self) }
    {
        match self {
            Kept::One(lit) => Factored::one(alloc, lit),
            Kept::Two(first, second) => {
                let mut clauses = Store::new(alloc);
                clauses.push(&[first, second])?;
                Ok(Factored::of(alloc, clauses))
            }
            Kept::Pair(a, b, c, d) => {
                let mut clauses = Store::new(alloc);
                clauses.push(&[a, b])?;
                clauses.push(&[c, d])?;
                Ok(Factored::of(alloc, clauses))
            }
            Kept::Many(clauses) => Ok(clauses),
        }
    }

    /// Appends the clauses to a list, from the last to the first.
    fn push_backwards(self, alloc: Global, out: &mut Store) -> Result<(), NoMemory>
        ensures { OnOk result (out.new ≡ out.old ++ reverse (clauses_kept self)) }
    {
        match self {
            Kept::One(lit) => {
                out.push(&[lit])?;
                Ok(())
            }
            Kept::Two(first, second) => {
                out.push(&[first, second])?;
                Ok(())
            }
            Kept::Pair(a, b, c, d) => {
                out.push(&[c, d])?;
                out.push(&[a, b])?;
                Ok(())
            }
            Kept::Many(clauses) => {
                let written = clauses.written(alloc)?;
                push_backwards(&written, out)?;
                Ok(())
            }
        }
    }
}

/// A copy of one short clause in memory, or a copy of any clauses.
fn copied(alloc: Global, kept: &Kept) -> Result<Kept, NoMemory>
    ensures { IfOk result (λ copy. clauses_kept copy ≡ clauses_kept kept.now) }
{
    match kept {
        Kept::One(lit) => Ok(Kept::One(*lit)),
        Kept::Two(first, second) => Ok(Kept::Two(*first, *second)),
        Kept::Pair(a, b, c, d) => Ok(Kept::Pair(*a, *b, *c, *d)),
        Kept::Many(clauses) => {
            let copy = clauses.copy(alloc)?;
            Ok(Kept::Many(copy))
        }
    }
}

/// Each clause of `first` joined with each of others, in memory.
fn joined(alloc: Global, first: &Kept, rest: Kept) -> Result<Factored, NoMemory>
    ensures { IfOk result (λ f. f ≡ each_joined (clauses_kept first.now) (clauses_kept rest)) }
{
    let rest = rest.factored(alloc)?;
    match first {
        Kept::Many(clauses) => rest.after(alloc, clauses),
        _ => {
            let short = copied(alloc, first)?;
            let clauses = short.factored(alloc)?;
            rest.after(alloc, &clauses)
        }
    }
}

/// Each clause of `first` joined with each of others.
fn each(alloc: Global, first: &Kept, rest: Kept) -> Result<Kept, NoMemory>
    ensures { IfOk result
        (λ k. clauses_kept k ≡ each_joined (clauses_kept first.now) (clauses_kept rest)) }
{
    match (first, &rest) {
        (Kept::One(l), Kept::One(k)) => Ok(Kept::Two(*l, *k)),
        (Kept::One(l), _) => {
            let clauses = rest.factored(alloc)?;
            let clauses = clauses.after_one(*l)?;
            Ok(Kept::Many(clauses))
        }
        _ => {
            let clauses = joined(alloc, first, rest)?;
            Ok(Kept::Many(clauses))
        }
    }
}

/// Appends clauses to a list.
fn push_kept(alloc: Global, kept: &Kept, out: &mut Store) -> Result<(), NoMemory>
    ensures { OnOk result (out.new ≡ out.old ++ clauses_kept kept.now) }
{
    match kept {
        Kept::One(lit) => {
            out.push(&[*lit])?;
            Ok(())
        }
        Kept::Two(first, second) => {
            out.push(&[*first, *second])?;
            Ok(())
        }
        Kept::Pair(a, b, c, d) => {
            out.push(&[*a, *b])?;
            out.push(&[*c, *d])?;
            Ok(())
        }
        Kept::Many(clauses) => clauses.push_to(alloc, out),
    }
}

/// Appends clauses from the last to the first.
fn push_backwards(rows: &Store, out: &mut Store) -> Result<(), NoMemory>
    ensures { OnOk result (out.new ≡ out.old ++ reverse rows.now) }
{
    for k in (0..rows.len()).rev() {
        out.push(rows.get(k))?;
    }
    Ok(())
}

/// The clauses and then those of others, in memory.
fn followed(alloc: Global, first: Kept, rest: &Kept) -> Result<Kept, NoMemory>
    ensures { IfOk result
        (λ k. clauses_kept k ≡ clauses_kept first ++ clauses_kept rest.now) }
{
    match (&first, rest) {
        (Kept::Two(a, b), Kept::Two(c, d)) => Ok(Kept::Pair(*a, *b, *c, *d)),
        _ => {
            let clauses = first.factored(alloc)?;
            let mut written = clauses.written(alloc)?;
            push_kept(alloc, rest, &mut written)?;
            Ok(Kept::Many(Factored::of(alloc, written)))
        }
    }
}

impl Listed {
    /// The clause of one literal.
    pub(crate) fn one(lit: Lit) -> Listed
        ensures { result ≡ (lit ∷ []) ∷ [] }
    {
        Listed {
            kept: Kept::One(lit),
        }
    }

    /// Two clauses of two literals.
    pub(crate) fn pair(a: Lit, b: Lit, c: Lit, d: Lit) -> Listed
        ensures { result ≡ (a ∷ b ∷ []) ∷ (c ∷ d ∷ []) ∷ [] }
    {
        Listed {
            kept: Kept::Pair(a, b, c, d),
        }
    }

    /// Appends the clauses to a list, from the last to the first.
    pub(crate) fn push_backwards(self, alloc: Global, out: &mut Store) -> Result<(), NoMemory>
        ensures { OnOk result (out.new ≡ out.old ++ reverse self) }
    {
        let Listed { kept } = self;
        kept.push_backwards(alloc, out)
    }

    /// The same clauses.
    pub(crate) fn copy(&self, alloc: Global) -> Result<Listed, NoMemory>
        ensures { IfOk result (λ copy. copy ≡ self.now) }
    {
        let kept = copied(alloc, &self.kept)?;
        Ok(Listed { kept })
    }

    /// These clauses and then others.
    pub(crate) fn before(self, alloc: Global, rest: &Listed) -> Result<Listed, NoMemory>
        ensures { IfOk result (λ l. l ≡ self ++ rest.now) }
    {
        let Listed { kept } = self;
        let kept = followed(alloc, kept, &rest.kept)?;
        Ok(Listed { kept })
    }

    /// Each clause of `first` joined with each of these.
    pub(crate) fn after(self, alloc: Global, first: &Listed) -> Result<Listed, NoMemory>
        ensures { IfOk result (λ l. l ≡ each_joined first.now self) }
    {
        let Listed { kept } = self;
        let kept = each(alloc, &first.kept, kept)?;
        Ok(Listed { kept })
    }
}
