//! How many clauses a formula has at most, whatever values its variables have.

ghost use Rattle.std.specs.Prelude.{◌≡◌, ℕ, ◌≤◌, List, ◌++◌, length};
ghost use Rattle.vocab.specs.Size.{IsSize, sort_count};
ghost use Rattle.vocab.specs.Tree.{atom_tree, tree_of};
ghost use Rattle.meaning.specs.Clauses.{Disjunction, joined};
ghost use Rattle.meaning.specs.Measure.{measure_of};
ghost use Rattle.meaning.specs.Written.{Written, Neg, And, Or, Iff, and_chain, or_chain, write_atom, write_out};
ghost use Rattle.clause_form.specs.Bounds.{AreBounded, AreWithin, IsBound, IsWithin};

use meaning::Counts;
use profiles::Space;
use vocab::{Atom, Formula, Size, Sort};

/// What stands whatever the rule and the values of the variables: that something is known of a formula, or
/// else how many plus and how many minus clauses it has at most.
#[derive(Clone, Copy)]
enum Bound {
    Known,
    Open(Counts, Counts),
}

/// The bound of the clauses of both.
fn added(a: Counts, b: Counts) -> Counts
    ensures { (xs ys : List Disjunction) → AreWithin xs a → AreWithin ys b → AreWithin (xs ++ ys) result }
{
    Counts {
        clauses: a.clauses.saturating_add(b.clauses),
        literals: a.literals.saturating_add(b.literals),
    }
}

/// The bound of each clause of the one joined with each of the other.
fn multiplied(a: Counts, b: Counts) -> Counts
    ensures { (xs ys : List Disjunction) → AreWithin xs a → AreWithin ys b → AreWithin (joined xs ys) result }
{
    let left = a.literals.saturating_mul(b.clauses);
    let right = a.clauses.saturating_mul(b.literals);
    Counts {
        clauses: a.clauses.saturating_mul(b.clauses),
        literals: left.saturating_add(right),
    }
}

/// The greater of both.
fn greater(a: Counts, b: Counts) -> Counts
    ensures left { (xs : List Disjunction) → AreWithin xs a → AreWithin xs result }
    ensures right { (xs : List Disjunction) → AreWithin xs b → AreWithin xs result }
{
    Counts {
        clauses: a.clauses.max(b.clauses),
        literals: a.literals.max(b.literals),
    }
}

/// The bound of a negation.
fn negation(a: Bound) -> Bound
    ensures { (x : Written) → IsBound a x → IsBound result (Neg x) }
{
    match a {
        Bound::Known => Bound::Known,
        Bound::Open(p, m) => Bound::Open(m, p),
    }
}

/// The bound of a conjunction.
fn conjunction(a: Bound, b: Bound) -> Bound
    ensures { (x y : Written) → IsBound a x → IsBound b y → IsBound result (And x y) }
{
    match (a, b) {
        (Bound::Known, _) => b,
        (_, Bound::Known) => a,
        (Bound::Open(p, m), Bound::Open(q, n)) => Bound::Open(added(p, q), multiplied(m, n)),
    }
}

/// The bound of a disjunction.
fn disjunction(a: Bound, b: Bound) -> Bound
    ensures { (x y : Written) → IsBound a x → IsBound b y → IsBound result (Or x y) }
{
    match (a, b) {
        (Bound::Known, _) => b,
        (_, Bound::Known) => a,
        (Bound::Open(p, m), Bound::Open(q, n)) => Bound::Open(multiplied(p, q), added(m, n)),
    }
}

/// The bound of a formula or of its negation.
fn unsigned(a: Bound) -> Bound
    ensures same { (x : Written) → IsBound a x → IsBound result x }
    ensures turned { (x : Written) → IsBound a x → IsBound result (Neg x) }
{
    match a {
        Bound::Known => Bound::Known,
        Bound::Open(p, m) => {
            let most = greater(p, m);
            Bound::Open(most, most)
        }
    }
}

/// The bound of an equivalence.
fn equivalence(a: Bound, b: Bound) -> Bound
    ensures { (x y : Written) → IsBound a x → IsBound b y → IsBound result (Iff x y) }
{
    match (a, b) {
        (Bound::Known, _) => unsigned(b),
        (_, Bound::Known) => unsigned(a),
        (Bound::Open(p, m), Bound::Open(q, n)) => Bound::Open(
            added(multiplied(m, q), multiplied(p, n)),
            added(multiplied(m, n), multiplied(p, q)),
        ),
    }
}

/// The bound of a chain of so many conjunctions.
fn all_of(part: Bound, count: u32) -> Bound
    requires { 1 ≤ count }
    ensures { (ws : List Written) → length ws ≡ count → AreBounded part ws → IsBound result (and_chain ws) }
{
    let mut all = part;
    for _ in 1..count {
        all = conjunction(part, all);
    }
    all
}

/// The bound of a chain of so many disjunctions.
fn some_of(part: Bound, count: u32) -> Bound
    requires { 1 ≤ count }
    ensures { (ws : List Written) → length ws ≡ count → AreBounded part ws → IsBound result (or_chain ws) }
{
    let mut some = part;
    for _ in 1..count {
        some = disjunction(part, some);
    }
    some
}

/// The bound of an atom: a literal, or what is known.
fn atom_bound(space: &Space, atom: &Atom) -> Bound
    ensures { (env : List ℕ) → IsBound result (write_atom space.now env (atom_tree atom.now)) }
{
    let _ = space;
    let one = Counts {
        clauses: 1,
        literals: 1,
    };
    match atom {
        Atom::Wins(_, _) => Bound::Open(one, one),
        Atom::Ranks(_, _, _) => Bound::Open(one, one),
        Atom::Equal(_, _) => Bound::Known,
        Atom::Prefers(_, _, _, _) => Bound::Known,
        Atom::Better(_, _, _) => Bound::Known,
        Atom::Casts(_, _, _) => Bound::Known,
        Atom::Majority(_, _, _) => Bound::Known,
    }
}

/// How many values a sort has.
pub(crate) fn values(space: &Space, sort: Sort) -> u32
    ensures count { result ≡ sort_count space.now sort }
    ensures some { 1 ≤ result }
{
    values_of(space.size(), sort)
}

/// How many values a sort of a size has: at least one.
fn values_of(size: Size, sort: Sort) -> u32
    requires { IsSize size }
    ensures count { result ≡ sort_count size sort }
    ensures some { 1 ≤ result }
{
    size.sort_len(sort)
}

/// The bound of a formula.
fn bound_of(space: &Space, formula: &Formula) -> Bound
    ensures { (env : List ℕ) → IsBound result (write_out space.now (tree_of formula.now) env) }
{
    match formula {
        Formula::Leaf(atom) => atom_bound(space, atom),
        Formula::Not(f) => negation(bound_of(space, f)),
        Formula::Both(f, g) => conjunction(bound_of(space, f), bound_of(space, g)),
        Formula::Either(f, g) => disjunction(bound_of(space, f), bound_of(space, g)),
        Formula::Implies(f, g) => disjunction(negation(bound_of(space, f)), bound_of(space, g)),
        Formula::Same(f, g) => equivalence(bound_of(space, f), bound_of(space, g)),
        Formula::All(sort, f) => all_of(bound_of(space, f), values(space, *sort)),
        Formula::Exists(sort, f) => some_of(bound_of(space, f), values(space, *sort)),
    }
}

/// How many plus clauses the formula has at most, whatever values its free variables have, and how many
/// literals stand in them: what its measure is at most. It is found from the shape of the formula alone.
pub fn most_counts(space: &Space, formula: &Formula) -> Counts
    ensures { (env : List ℕ) → IsWithin (measure_of (write_out space.now (tree_of formula.now) env)) result }
{
    match bound_of(space, formula) {
        Bound::Known => Counts {
            clauses: 1,
            literals: 0,
        },
        Bound::Open(plus, _) => plus,
    }
}
