//! Clauses of formulas, worked out by hand: for five voters and two alternatives, where at profile 0 the
//! variables 1 and 2 say that `a` and `b` win, and at profile 1 the variables 3 and 4; and of one for one
//! voter and rankings.

ghost use Rattle.std.specs.Prelude.{◌≡◌, ◌≤◌, ◌<◌, [], IfOk, IsTrue, if◌then◌else◌};
ghost use Rattle.vocab.specs.declared.kinds.Kind.TheVariants.{Choice};
ghost use Rattle.vocab.specs.Formula.{quantifier_depth};
ghost use Rattle.vocab.specs.Size.{full_size};
ghost use Rattle.vocab.specs.Sorted.{is_sorted};
ghost use Rattle.vocab.specs.Tree.{atom_tree, term_tree, tree_of, All, Const, Either, Exists, Leaf, Ranks, WinsAt};
ghost use Rattle.worlds.specs.Conditions.{IsFormulaAt};

use clause_form::{ClauseList, FormFault, Ground, clauses, measure};
use cnf::{Clauses, Lit};
use lists::NoMemory;
use meaning::{Counts, Origin};
use outcomes::{ChoiceKind, OutcomeKind, RankingKind};
use profiles::Space;
use std::alloc::Global;
use std::process::Abort;
use std::test::Fail;
use vocab::{Atom, Env, Formula, Kind, Size, Sort, Term};

/// A sentence for choices of five voters and two alternatives.
#[derive(Drop)]
struct Sentence {
    formula: Box<Formula>,
    ghost sorted: { IsTrue (is_sorted (full_size Choice 5 2) [] (tree_of formula.value)) },
    ghost shallow: { quantifier_depth (tree_of formula.value) ≤ 12 },
}

type Made = Result<Sentence, NoMemory>;

/// Takes what workers on several threads may read.
fn share<T: Send + Sync>(_shared: &T) {}

/// Choices of five voters and two alternatives.
fn choices(rt: &impl Abort) -> ChoiceKind
    ensures { ⟦<ChoiceKind as OutcomeKind>⟧.size result ≡ full_size Choice 5 2 }
{
    ChoiceKind::new(Space::new(Size::check(Kind::Choice, 5, 2).expect(rt, "a size")))
}

fn leaf(alloc: Global, atom: Atom) -> Made
    requires sorted { IsTrue (is_sorted (full_size Choice 5 2) [] (Leaf (atom_tree atom))) }
{
    let formula = Box::new(alloc, Formula::Leaf(atom))?;
    Ok(Sentence { formula })
}

/// An alternative wins at a profile.
fn wins(alloc: Global, x: u32, p: u32) -> Made
    requires alternative { x < 2 }
    requires profile { p < 32 }
{
    leaf(alloc, Atom::Wins(Term::Const(x), Term::Const(p)))
}

/// Two alternatives are one.
fn equal(alloc: Global, x: u32, y: u32) -> Made
    requires left { x < 2 }
    requires right { y < 2 }
{
    leaf(alloc, Atom::Equal(Term::Const(x), Term::Const(y)))
}

fn not(alloc: Global, a: Made) -> Made {
    let formula = Box::new(alloc, Formula::Not(a?.formula))?;
    Ok(Sentence { formula })
}

fn and(alloc: Global, a: Made, b: Made) -> Made {
    let formula = Box::new(alloc, Formula::Both(a?.formula, b?.formula))?;
    Ok(Sentence { formula })
}

fn or(alloc: Global, a: Made, b: Made) -> Made {
    let formula = Box::new(alloc, Formula::Either(a?.formula, b?.formula))?;
    Ok(Sentence { formula })
}

fn implies(alloc: Global, a: Made, b: Made) -> Made {
    let formula = Box::new(alloc, Formula::Implies(a?.formula, b?.formula))?;
    Ok(Sentence { formula })
}

fn same(alloc: Global, a: Made, b: Made) -> Made {
    let formula = Box::new(alloc, Formula::Same(a?.formula, b?.formula))?;
    Ok(Sentence { formula })
}

/// For all values of a sort, or for some.
fn over(alloc: Global, all: bool, sort: Sort, body: Box<Formula>) -> Result<Box<Formula>, NoMemory>
    ensures { IfOk result
        (λ f. tree_of f.value ≡
        (if all then All sort (tree_of body.value) else Exists sort (tree_of body.value))) }
{
    if all {
        return Ok(Box::new(alloc, Formula::All(sort, body))?);
    }
    Ok(Box::new(alloc, Formula::Exists(sort, body))?)
}

/// The value of a quantifier wins at profile 0, or with none `a`.
fn winner(alloc: Global, term: Term) -> Result<Box<Formula>, NoMemory>
    ensures { IfOk result (λ f. tree_of f.value ≡ Leaf (WinsAt (term_tree term) (Const 0))) }
{
    Ok(Box::new(alloc, Formula::Leaf(Atom::Wins(term, Term::Const(0))))?)
}

/// For all voters, and all alternatives, or for some: the alternative wins at profile 0.
fn ten(alloc: Global, all: bool) -> Made {
    let inner = over(alloc, all, Sort::Alt, winner(alloc, Term::Var(1))?)?;
    let formula = over(alloc, all, Sort::Voter, inner)?;
    Ok(Sentence { formula })
}

/// For all voters, or for some: `a` wins at profile 0.
fn five(alloc: Global, all: bool) -> Made {
    let formula = over(alloc, all, Sort::Voter, winner(alloc, Term::Const(0))?)?;
    Ok(Sentence { formula })
}

/// For all alternatives, or for some: the alternative wins at profile 0.
fn two(alloc: Global, all: bool) -> Made {
    let formula = over(alloc, all, Sort::Alt, winner(alloc, Term::Var(0))?)?;
    Ok(Sentence { formula })
}

/// Whether a list has these clauses, each followed by a 0, in which a negative literal has its sign.
fn has_rows(list: &ClauseList, want: &[i64]) -> bool {
    let mut rest = want;
    for k in 0..list.len() {
        for lit in list.get(k) {
            let number = i64::from(lit.variable());
            let signed = if lit.positive() { number } else { -number };
            let Some((first, after)) = rest.split_first() else {
                return false;
            };
            if *first != signed {
                return false;
            }
            rest = after;
        }
        let Some((0, after)) = rest.split_first() else {
            return false;
        };
        rest = after;
    }
    rest.is_empty()
}

/// The clauses and the literals of a list as `has_rows` takes it.
fn counts_of(want: &[i64]) -> Counts {
    let mut counts = Counts {
        clauses: 0,
        literals: 0,
    };
    for number in want {
        if *number == 0 {
            counts.clauses = counts.clauses.saturating_add(1);
        } else {
            counts.literals = counts.literals.saturating_add(1);
        }
    }
    counts
}

/// Takes a formula that has these clauses, and appends them after those that are there.
fn has_clauses<K: OutcomeKind>(
    rt: &impl Abort,
    alloc: Global,
    kind: &K,
    body: &Formula,
    want: &[i64],
) -> Result<(), Fail>
    requires { IsFormulaAt (K.size kind.now) (tree_of body.now) [] }
{
    let counts = counts_of(want);
    assert!(rt; measure(kind, body, &Env::none()) == counts);
    let mut list = ClauseList::new(alloc);
    assert!(rt; clauses(alloc, kind, body, &Env::none(), &mut list) == Ok(()));
    assert!(rt; has_rows(&list, want));
    assert!(rt; clauses(alloc, kind, body, &Env::none(), &mut list) == Ok(()));
    assert!(rt; list.len() as u64 == counts.clauses.saturating_mul(2));
    Ok(())
}

fn gives(rt: &impl Abort, alloc: Global, made: Made, want: &[i64]) -> Result<(), Fail> {
    has_clauses(rt, alloc, &choices(rt), &made?.formula, want)
}

#[test]
fn connectives_have_clauses(rt: HostRuntime) -> Result<(), Fail> {
    let alloc = rt.alloc();
    let (a, b) = (wins(alloc, 0, 0), wins(alloc, 1, 1));
    gives(&rt, alloc, not(alloc, wins(alloc, 1, 1)), &[-4, 0])?;
    gives(&rt, alloc, and(alloc, a, b), &[1, 0, 4, 0])?;
    let (a, b) = (wins(alloc, 0, 0), wins(alloc, 1, 1));
    gives(&rt, alloc, or(alloc, a, b), &[1, 4, 0])?;
    let (a, b) = (wins(alloc, 0, 0), wins(alloc, 1, 1));
    gives(&rt, alloc, implies(alloc, a, b), &[-1, 4, 0])?;
    let (a, b) = (wins(alloc, 0, 0), wins(alloc, 1, 1));
    gives(&rt, alloc, same(alloc, a, b), &[-1, 4, 0, 1, -4, 0])
}

#[test]
fn negations_have_clauses(rt: HostRuntime) -> Result<(), Fail> {
    let alloc = rt.alloc();
    let both = and(alloc, wins(alloc, 0, 0), wins(alloc, 1, 1));
    gives(&rt, alloc, not(alloc, both), &[-1, -4, 0])?;
    let either = or(alloc, wins(alloc, 0, 0), wins(alloc, 1, 1));
    gives(&rt, alloc, not(alloc, either), &[-1, 0, -4, 0])?;
    let onward = implies(alloc, wins(alloc, 0, 0), wins(alloc, 1, 1));
    gives(&rt, alloc, not(alloc, onward), &[1, 0, -4, 0])?;
    let equivalent = same(alloc, wins(alloc, 0, 0), wins(alloc, 1, 1));
    gives(&rt, alloc, not(alloc, equivalent), &[-1, -4, 0, 1, 4, 0])
}

#[test]
fn parts_have_clauses(rt: HostRuntime) -> Result<(), Fail> {
    let alloc = rt.alloc();
    let left = and(alloc, wins(alloc, 0, 0), wins(alloc, 1, 0));
    let right = and(alloc, wins(alloc, 0, 1), wins(alloc, 1, 1));
    let want = [1, 3, 0, 1, 4, 0, 2, 3, 0, 2, 4, 0];
    gives(&rt, alloc, or(alloc, left, right), &want)?;
    let left = and(alloc, wins(alloc, 0, 0), wins(alloc, 1, 1));
    let sides = same(alloc, left, wins(alloc, 1, 0));
    gives(&rt, alloc, sides, &[-1, -4, 2, 0, 1, -2, 0, 4, -2, 0])?;
    let right = and(alloc, wins(alloc, 0, 1), wins(alloc, 1, 1));
    let some = or(alloc, two(alloc, false), right);
    let long = or(alloc, wins(alloc, 0, 2), some);
    gives(&rt, alloc, long, &[5, 1, 2, 3, 0, 5, 1, 2, 4, 0])
}

#[test]
fn quantifiers_have_clauses(rt: HostRuntime) -> Result<(), Fail> {
    let alloc = rt.alloc();
    gives(&rt, alloc, two(alloc, true), &[1, 0, 2, 0])?;
    gives(&rt, alloc, two(alloc, false), &[1, 2, 0])?;
    gives(&rt, alloc, not(alloc, two(alloc, true)), &[-1, -2, 0])?;
    gives(&rt, alloc, not(alloc, two(alloc, false)), &[-1, 0, -2, 0])?;
    gives(
        &rt,
        alloc,
        five(alloc, true),
        &[1, 0, 1, 0, 1, 0, 1, 0, 1, 0],
    )?;
    let want = [1, 2, 1, 2, 1, 2, 1, 2, 1, 2, 0];
    gives(&rt, alloc, ten(alloc, false), &want)
}

#[test]
fn what_is_known_is_left_out(rt: HostRuntime) -> Result<(), Fail> {
    let alloc = rt.alloc();
    gives(&rt, alloc, equal(alloc, 0, 0), &[])?;
    gives(&rt, alloc, equal(alloc, 0, 1), &[0])?;
    let false_side = or(alloc, equal(alloc, 0, 1), wins(alloc, 1, 1));
    gives(&rt, alloc, false_side, &[4, 0])?;
    let true_side = and(alloc, wins(alloc, 1, 1), equal(alloc, 0, 0));
    gives(&rt, alloc, true_side, &[4, 0])?;
    let turned = same(alloc, equal(alloc, 0, 1), wins(alloc, 1, 1));
    gives(&rt, alloc, turned, &[-4, 0])?;
    let refuted = implies(alloc, wins(alloc, 1, 1), equal(alloc, 0, 1));
    gives(&rt, alloc, refuted, &[-4, 0])
}

fn counts(clauses: u64, literals: u64) -> Counts {
    Counts { clauses, literals }
}

/// The clauses and the literals of a list.
fn counts_in(list: &ClauseList) -> Counts {
    counts(list.len() as u64, list.literal_count() as u64)
}

/// Appends the clauses of a sentence.
fn append(
    rt: &impl Abort,
    alloc: Global,
    sentence: &Sentence,
    list: &mut ClauseList,
) -> Result<(), FormFault> {
    clauses(alloc, &choices(rt), &sentence.formula, &Env::none(), list)
}

/// Takes a sentence with so many clauses and literals, which is refused as wide once one clause more is
/// asked for.
fn is_at_limit(
    rt: &impl Abort,
    alloc: Global,
    made: Made,
    narrow: Counts,
    wide: Counts,
) -> Result<(), Fail> {
    let sentence = made?;
    let mut list = ClauseList::new(alloc);
    assert!(rt; measure(&choices(rt), &sentence.formula, &Env::none()) == narrow);
    assert!(rt; append(rt, alloc, &sentence, &mut list) == Ok(()));
    assert!(rt; counts_in(&list) == narrow);
    let more = and(alloc, wins(alloc, 0, 0), Ok(sentence))?;
    assert!(rt; append(rt, alloc, &more, &mut list) == Err(FormFault::Wide(wide)));
    assert!(rt; counts_in(&list) == narrow);
    Ok(())
}

#[test]
fn limits_are_reached(rt: HostRuntime) -> Result<(), Fail> {
    let alloc = rt.alloc();
    let mut many = ten(alloc, true);
    for _ in 0..4 {
        many = or(alloc, ten(alloc, true), many);
    }
    is_at_limit(
        &rt,
        alloc,
        many,
        counts(100_000, 500_000),
        counts(100_001, 500_001),
    )?;
    let mut long = five(alloc, false);
    for _ in 0..7 {
        long = or(alloc, ten(alloc, false), long);
    }
    long = or(alloc, five(alloc, true), long);
    for _ in 0..4 {
        long = or(alloc, ten(alloc, true), long);
    }
    is_at_limit(
        &rt,
        alloc,
        long,
        counts(50_000, 4_000_000),
        counts(50_001, 4_000_001),
    )
}

#[test]
fn what_is_not_asked_for_may_be_wide(rt: HostRuntime) -> Result<(), Fail> {
    let alloc = rt.alloc();
    let mut pairs = two(alloc, false);
    for _ in 0..19 {
        pairs = and(alloc, two(alloc, false), pairs);
    }
    let pairs = pairs?;
    let mut list = ClauseList::new(alloc);
    assert!(rt; append(&rt, alloc, &pairs, &mut list) == Ok(()));
    let counts_of_pairs = counts_in(&list);
    share(&list);
    share(&counts_of_pairs);
    assert!(rt; counts_of_pairs == counts(20, 40));
    Ok(())
}

#[test]
fn counts_end_at_the_largest_number(rt: HostRuntime) -> Result<(), Fail> {
    let alloc = rt.alloc();
    let mut many = ten(alloc, true);
    for _ in 0..19 {
        many = or(alloc, ten(alloc, true), many);
    }
    let many = many?;
    let measured = measure(&choices(&rt), &many.formula, &Env::none());
    assert!(rt; measured == counts(u64::MAX, u64::MAX));
    gives(&rt, alloc, or(alloc, equal(alloc, 0, 0), Ok(many)), &[])
}

/// At a profile `b` stands above an alternative.
fn ranks_b(alloc: Global, x: u32, p: u32) -> Result<Box<Formula>, NoMemory>
    ensures { IfOk result (λ f. tree_of f.value ≡ Leaf (Ranks (Const 1) (Const x) (Const p))) }
{
    let atom = Atom::Ranks(Term::Const(1), Term::Const(x), Term::Const(p));
    Ok(Box::new(alloc, Formula::Leaf(atom))?)
}

/// At profile 1 `b` stands above `a`, or at profile 0 above itself.
fn above(alloc: Global) -> Result<Box<Formula>, NoMemory>
    ensures { IfOk result
        (λ f. tree_of f.value ≡
        Either (Leaf (Ranks (Const 1) (Const 0) (Const 1))) (Leaf (Ranks (Const 1) (Const 1) (Const 0)))) }
{
    let above = ranks_b(alloc, 0, 1)?;
    let itself = ranks_b(alloc, 1, 0)?;
    Ok(Box::new(alloc, Formula::Either(above, itself))?)
}

#[test]
fn rankings_have_clauses(rt: HostRuntime) -> Result<(), Fail> {
    let kind = RankingKind::new(Space::new(Size::check(Kind::Ranking, 1, 2)?));
    let body = above(rt.alloc())?;
    has_clauses(&rt, rt.alloc(), &kind, &body, &[-2, 0])
}

/// Takes a place whose clause has this number and this origin.
fn has_origin(rt: &impl Abort, ground: &Ground, k: u32, number: u64, origin: Origin) {
    assert!(rt; k < ground.clauses().len());
    assert!(rt; ground.clauses().origin(k) == number);
    assert!(rt; ground.origin(k) == origin);
}

/// The clause of one literal under each of these numbers.
fn numbered(rt: &impl Abort, alloc: Global, numbers: &[u64]) -> Ground {
    let mut clauses = Clauses::new(alloc);
    for number in numbers {
        assert!(rt; clauses.push(&[Lit::new(1, true)], *number) == Ok(()));
    }
    Ground::new(clauses)
}

fn instance(axiom: u32, number: u64) -> Origin {
    Origin::Instance { axiom, number }
}

#[test]
fn origins_are_read(rt: HostRuntime) {
    let numbers = [
        0,
        4_294_967_295,
        4_294_967_296,
        2 * 4_294_967_296 + 7,
        40 * 4_294_967_296 + 19_999_999,
    ];
    let ground = numbered(&rt, rt.alloc(), &numbers);
    has_origin(&rt, &ground, 0, numbers[0], Origin::Frame(0));
    has_origin(&rt, &ground, 1, numbers[1], Origin::Frame(4_294_967_295));
    has_origin(&rt, &ground, 2, numbers[2], instance(0, 0));
    has_origin(&rt, &ground, 3, numbers[3], instance(1, 7));
    has_origin(&rt, &ground, 4, numbers[4], instance(39, 19_999_999));
}
