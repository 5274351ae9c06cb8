//! Clauses that begin alike.

ghost use Rattle.std.specs.Prelude.{◌≡◌, [], ◌∷◌, ◌++◌, map, reverse, OnOk, IfOk};
ghost use Rattle.clause_form.specs.Factors.{each_joined, prefixed};

use cnf::{Lit, Store};
use lists::NoMemory;
use std::alloc::Global;
use std::marker::Model;

/// Clauses that all begin with the same literals: those literals once, from the last to the first, and what
/// is left of each clause. So literals are put before all clauses by appending them to the former.
pub(crate) struct Factored {
    prefix: Vec<Lit>,
    rests: Store,
}

/// Written out, so that letting go of these clauses is one call.
impl Drop for Factored {
    fn drop(self) {
        let Factored {
            prefix: _,
            rests: _,
        } = self;
    }
}

impl Model for Factored {
    ghost use Rattle.std.specs.Prelude.{List, reverse};
    ghost use Rattle.cnf.specs.Sat.{Clause};
    ghost use Rattle.clause_form.specs.Factors.{prefixed};

    ghost Value = { List Clause };

    ghost view = { λ f. prefixed (reverse f.prefix.items) f.rests };
}

/// Appends literals from the last to the first.
fn extend_backwards(row: &mut Vec<Lit>, more: &[Lit]) -> Result<(), NoMemory>
    ensures { OnOk result (row.new.items ≡ row.old.items ++ reverse more.now) }
{
    for k in (0..more.len()).rev() {
        row.push(more[k])?;
    }
    Ok(())
}

/// Appends all clauses of a list, each with literals before its own, which are given from the last to the
/// first.
fn push_behind(
    alloc: Global,
    out: &mut Store,
    prefix: &[Lit],
    rests: &Store,
) -> Result<(), NoMemory>
    ensures { OnOk result (out.new ≡ out.old ++ prefixed (reverse prefix.now) rests.now) }
{
    let mut row = Vec::new(alloc);
    for k in 0..rests.len() {
        row.clear();
        extend_backwards(&mut row, prefix)?;
        row.extend_from_slice(rests.get(k))?;
        out.push(row.as_slice())?;
    }
    Ok(())
}

/// Appends all clauses of a list, each with literals before its own.
fn push_prefixed(
    out: &mut Store,
    row: &mut Vec<Lit>,
    first: &[Lit],
    more: &Store,
) -> Result<(), NoMemory>
    ensures { OnOk result (out.new ≡ out.old ++ prefixed first.now more.now) }
{
    for k in 0..more.len() {
        row.clear();
        row.extend_from_slice(first)?;
        row.extend_from_slice(more.get(k))?;
        out.push(row.as_slice())?;
    }
    Ok(())
}

/// Each clause of a list joined with each of another.
fn joined(alloc: Global, left: &Store, right: &Store) -> Result<Store, NoMemory>
    ensures { IfOk result (λ clauses. clauses ≡ each_joined left.now right.now) }
{
    let mut clauses = Store::new(alloc);
    let mut row = Vec::new(alloc);
    for k in 0..left.len() {
        push_prefixed(&mut clauses, &mut row, left.get(k), right)?;
    }
    Ok(clauses)
}

/// A copy of literals.
fn copy_of(alloc: Global, literals: &[Lit]) -> Result<Vec<Lit>, NoMemory>
    ensures { IfOk result (λ copy. copy.items ≡ literals.now) }
{
    let mut copy = Vec::new(alloc);
    copy.extend_from_slice(literals)?;
    Ok(copy)
}

/// Appends the literals of one clause from the last to the first, and then others that are given so.
fn extend_by_both(row: &mut Vec<Lit>, clause: &[Lit], before: &[Lit]) -> Result<(), NoMemory>
    ensures { OnOk result (row.new.items ≡ (row.old.items ++ reverse clause.now) ++ before.now) }
{
    extend_backwards(row, clause)?;
    row.extend_from_slice(before)?;
    Ok(())
}

impl Factored {
    /// The clause of one literal.
    pub(crate) fn one(alloc: Global, lit: Lit) -> Result<Factored, NoMemory>
        ensures { IfOk result (λ f. f ≡ (lit ∷ []) ∷ []) }
    {
        let mut prefix = Vec::new(alloc);
        prefix.push(lit)?;
        let mut rests = Store::new(alloc);
        rests.push(&[])?;
        Ok(Factored { prefix, rests })
    }

    /// These clauses.
    pub(crate) fn of(alloc: Global, clauses: Store) -> Factored
        ensures { result ≡ clauses }
    {
        Factored {
            prefix: Vec::new(alloc),
            rests: clauses,
        }
    }

    /// Appends the clauses to a list.
    pub(crate) fn push_to(&self, alloc: Global, out: &mut Store) -> Result<(), NoMemory>
        ensures { OnOk result (out.new ≡ out.old ++ self.now) }
    {
        push_behind(alloc, out, self.prefix.as_slice(), &self.rests)
    }

    /// The same clauses, written out.
    pub(crate) fn copy(&self, alloc: Global) -> Result<Factored, NoMemory>
        ensures { IfOk result (λ f. f ≡ self.now) }
    {
        let mut clauses = Store::new(alloc);
        self.push_to(alloc, &mut clauses)?;
        Ok(Factored::of(alloc, clauses))
    }

    /// The clauses, written out. Nothing is copied where none of their literals are kept apart.
    pub(crate) fn written(self, alloc: Global) -> Result<Store, NoMemory>
        ensures { IfOk result (λ clauses. clauses ≡ self) }
    {
        let Factored { prefix, rests } = self;
        if prefix.len() == 0 {
            return Ok(rests);
        }
        let mut clauses = Store::new(alloc);
        push_behind(alloc, &mut clauses, prefix.as_slice(), &rests)?;
        Ok(clauses)
    }

    /// These clauses with one literal before each. None is copied.
    pub(crate) fn after_one(self, lit: Lit) -> Result<Factored, NoMemory>
        ensures { IfOk result (λ f. f ≡ each_joined ((lit ∷ []) ∷ []) self) }
    {
        let Factored { mut prefix, rests } = self;
        prefix.push(lit)?;
        Ok(Factored { prefix, rests })
    }

    /// Each clause of `first` joined with each of these. Of these none is copied where `first` is one clause.
    pub(crate) fn after(self, alloc: Global, first: &Factored) -> Result<Factored, NoMemory>
        ensures { IfOk result (λ f. f ≡ each_joined first.now self) }
    {
        if first.rests.len() == 1 {
            let Factored { mut prefix, rests } = self;
            extend_by_both(&mut prefix, first.rests.get(0), first.prefix.as_slice())?;
            return Ok(Factored { prefix, rests });
        }
        let written = self.written(alloc)?;
        let rests = joined(alloc, &first.rests, &written)?;
        let prefix = copy_of(alloc, first.prefix.as_slice())?;
        Ok(Factored { prefix, rests })
    }
}
