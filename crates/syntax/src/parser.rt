//! From lexemes to trees.
//!
//! Each form of a formula is a small function of its own that is not inlined, so that a level of nesting
//! takes little of the stack: with 600 lexemes there are up to 600 levels.

ghost use Rattle.std.specs.Prelude.{◌≡◌, ◌<◌, ◌↔◌, List, ℕ, [], ◌∷◌, length, codes, MatchOption, IsTrue, IfOk, IsErrOf};
ghost use Rattle.vocab.specs.NamedView.{named_term_tree, named_terms_tree, named_tree};
ghost use Rattle.vocab.specs.declared.kinds.Sort.{Sort as SortOf};
ghost use Rattle.syntax.specs.declared.lexemes.Joint.{Joint as JointOf};
ghost use Rattle.syntax.specs.declared.lexemes.Lexeme.{Lexeme as Lex};
ghost use Rattle.vocab.specs.NamedTree as trees;
ghost use Rattle.syntax.specs.Opening.{Opens};
ghost use Rattle.syntax.specs.Grammar.{IsFree, Reads, IsChain, Chains, joint_lexeme, joined_by, word_of_sort, word_of_quantifier, bound};
ghost use Rattle.syntax.specs.Fronts.{TermAt, NoTerm, ListAt, NoTerms, AtomAt, NoAtom, BinderAt, NoBinder, FormulaAt, NoFormula, NoChain};

use crate::lexemes::{Joint, Lexeme, Quantifier};
use lists::NoMemory;
use std::alloc::Global;
use vocab::{Name, Named, NamedTerm, Sort, Terms};

/// Why lexemes give no tree.
#[derive(Clone, Copy)]
pub enum Stop {
    NoReading,
    NoMemory,
}

impl From<NoMemory> for Stop {
    ghost use Rattle.syntax.specs.declared.parser.Stop.TheVariants.{NoMemory as no_memory};

    ghost from_gives = { λ _ e. e ≡ no_memory };

    fn from(_: NoMemory) -> Self {
        Stop::NoMemory
    }
}

fn is_free(name: &Name) -> bool
    ensures { IsTrue result ↔ IsFree name.now }
{
    name.bytes() != b"all".as_slice() && name.bytes() != b"some".as_slice()
}

/// The first lexeme, and the others.
fn next(lexemes: &[Lexeme]) -> Option<(Lexeme, &[Lexeme])>
    ensures { MatchOption result (lexemes.now ≡ []) (λ x. lexemes.now ≡ x.0 ∷ x.1.now) }
{
    match lexemes.split_first() {
        None => None,
        Some((first, rest)) => Some((*first, rest)),
    }
}

/// What follows this lexeme, where it comes first.
fn after(lexemes: &[Lexeme], mark: Lexeme) -> Option<&[Lexeme]>
    ensures { MatchOption result ((rest : List Lex) → lexemes.now ≡ mark ∷ rest → ⊥)
        (λ rest. lexemes.now ≡ mark ∷ rest.now) }
{
    match next(lexemes) {
        None => None,
        Some((first, rest)) => if first == mark { Some(rest) } else { None },
    }
}

/// A formula in a box. The parser holds its formulas so: to drop a formula in place would write out the drop
/// of each of its forms at each early exit, where the drop of a box is one call.
fn boxed(alloc: Global, formula: Named) -> Result<Box<Named>, NoMemory>
    ensures { IfOk result (λ b. named_tree b.value ≡ named_tree formula) }
{
    Ok(Box::new(alloc, formula)?)
}

/// The term that the lexemes begin with, and what follows it.
#[cycle(terms)]
#[inline(never)]
fn term(alloc: Global, lexemes: &[Lexeme]) -> Result<(NamedTerm, &[Lexeme]), Stop>
    ensures found { IfOk result (λ x. TermAt lexemes.now (named_term_tree x.0) x.1.now) }
    ensures none { IsErrOf result Stop.NoReading → NoTerm lexemes.now }
    ensures shorter { IfOk result (λ x. length x.1.now < length lexemes.now) }
{
    let Some((first, rest)) = next(lexemes) else {
        return Err(Stop::NoReading);
    };
    match first {
        Lexeme::Word(name) => {
            if !is_free(&name) {
                return Err(Stop::NoReading);
            }
            let Some(inner) = after(rest, Lexeme::Open) else {
                return Ok((NamedTerm::Var(name), rest));
            };
            let mut parts = Terms::new(alloc);
            let end = terms(alloc, inner, &mut parts)?;
            Ok((NamedTerm::Call(name, parts), end))
        }
        Lexeme::Voter(number) => Ok((NamedTerm::Voter(number), rest)),
        Lexeme::Alt(number) => Ok((NamedTerm::Alt(number), rest)),
        Lexeme::Ballot(text) => Ok((NamedTerm::Ballot(text), rest)),
        _ => Err(Stop::NoReading),
    }
}

/// The terms up to the closing mark, which go to the end of `parts`.
#[cycle(terms)]
#[inline(never)]
fn terms<'a>(alloc: Global, lexemes: &'a [Lexeme], parts: &mut Terms) -> Result<&'a [Lexeme], Stop>
    ensures found { IfOk result
        (λ rest. ListAt lexemes.now (named_terms_tree parts.old) (named_terms_tree parts.new) rest.now) }
    ensures none { IsErrOf result Stop.NoReading → NoTerms lexemes.now }
    ensures shorter { IfOk result (λ rest. length rest.now < length lexemes.now) }
{
    let (first, rest) = term(alloc, lexemes)?;
    parts.push(first)?;
    if let Some(more) = after(rest, Lexeme::Comma) {
        return terms(alloc, more, parts);
    }
    match after(rest, Lexeme::Close) {
        Some(end) => Ok(end),
        None => Err(Stop::NoReading),
    }
}

/// The atom that the lexemes begin with, and what follows it. A term comes first, and then `=` tells which.
#[inline(never)]
fn atom(alloc: Global, lexemes: &[Lexeme]) -> Result<(Box<Named>, &[Lexeme]), Stop>
    ensures found { IfOk result (λ x. AtomAt lexemes.now (named_tree x.0.value) x.1.now) }
    ensures none { IsErrOf result Stop.NoReading → NoAtom lexemes.now }
    ensures shorter { IfOk result (λ x. length x.1.now < length lexemes.now) }
{
    let (left, rest) = term(alloc, lexemes)?;
    if let Some(more) = after(rest, Lexeme::Equals) {
        let (right, end) = term(alloc, more)?;
        return Ok((boxed(alloc, Named::Equal(left, right))?, end));
    }
    match left {
        NamedTerm::Call(name, parts) => Ok((boxed(alloc, Named::Pred(name, parts))?, rest)),
        NamedTerm::Var(_) | NamedTerm::Voter(_) | NamedTerm::Alt(_) | NamedTerm::Ballot(_) => {
            Err(Stop::NoReading)
        }
    }
}

fn word_of(lexeme: Lexeme) -> Option<Name>
    ensures { MatchOption result ((name : List ℕ) → lexeme ≡ Lexeme.Word name → ⊥)
        (λ name. lexeme ≡ Lexeme.Word name) }
{
    match lexeme {
        Lexeme::Word(name) => Some(name),
        _ => None,
    }
}

fn sort_of(lexeme: Lexeme) -> Option<Sort>
    ensures { MatchOption result ((s : SortOf) → lexeme ≡ Lexeme.Word (word_of_sort s) → ⊥)
        (λ s. lexeme ≡ Lexeme.Word (word_of_sort s)) }
{
    let name = word_of(lexeme)?;
    let word = name.bytes();
    if word == b"voter".as_slice() {
        Some(Sort::Voter)
    } else if word == b"alt".as_slice() {
        Some(Sort::Alt)
    } else if word == b"ballot".as_slice() {
        Some(Sort::Ballot)
    } else if word == b"profile".as_slice() {
        Some(Sort::Profile)
    } else {
        None
    }
}

/// A variable and its sort.
#[derive(Clone, Copy)]
struct Variable {
    name: Name,
    sort: Sort,
}

/// A variable and its sort, up to the dot.
fn binder(lexemes: &[Lexeme]) -> Option<(Variable, &[Lexeme])>
    ensures { MatchOption result (NoBinder lexemes.now)
        (λ x. BinderAt lexemes.now x.0.name x.0.sort x.1.now) }
{
    let Some((first, rest)) = next(lexemes) else {
        return None;
    };
    let Some(name) = word_of(first) else {
        return None;
    };
    let Some(rest) = after(rest, Lexeme::Colon) else {
        return None;
    };
    let Some((second, rest)) = next(rest) else {
        return None;
    };
    let Some(sort) = sort_of(second) else {
        return None;
    };
    let Some(rest) = after(rest, Lexeme::Dot) else {
        return None;
    };
    if is_free(&name) {
        Some((Variable { name, sort }, rest))
    } else {
        None
    }
}

fn joint_of(mark: Lexeme) -> Option<Joint>
    ensures { MatchOption result ((j : JointOf) → mark ≡ joint_lexeme j → ⊥) (λ j. mark ≡ joint_lexeme j) }
{
    match mark {
        Lexeme::And => Some(Joint::Both),
        Lexeme::Or => Some(Joint::Either),
        Lexeme::Implies => Some(Joint::Implies),
        Lexeme::Same => Some(Joint::Same),
        _ => None,
    }
}

fn mark(joint: Joint) -> Lexeme
    ensures { result ≡ joint_lexeme joint }
{
    match joint {
        Joint::Both => Lexeme::And,
        Joint::Either => Lexeme::Or,
        Joint::Implies => Lexeme::Implies,
        Joint::Same => Lexeme::Same,
    }
}

fn may_chain(joint: Joint) -> bool
    ensures { IsTrue result ↔ Chains joint }
{
    matches!(joint, Joint::Both | Joint::Either)
}

fn join(
    alloc: Global,
    joint: Joint,
    left: Box<Named>,
    right: Box<Named>,
) -> Result<Box<Named>, NoMemory>
    ensures { IfOk result
        (λ b. named_tree b.value ≡ joined_by joint (named_tree left.value) (named_tree right.value)) }
{
    match joint {
        Joint::Both => boxed(alloc, Named::Both(left, right)),
        Joint::Either => boxed(alloc, Named::Either(left, right)),
        Joint::Implies => boxed(alloc, Named::Implies(left, right)),
        Joint::Same => boxed(alloc, Named::Same(left, right)),
    }
}

fn negated(alloc: Global, inner: Box<Named>) -> Result<Box<Named>, NoMemory>
    ensures { IfOk result (λ b. named_tree b.value ≡ trees.Not (named_tree inner.value)) }
{
    boxed(alloc, Named::Not(inner))
}

fn quantify(
    alloc: Global,
    quantifier: Quantifier,
    variable: Variable,
    inner: Box<Named>,
) -> Result<Box<Named>, NoMemory>
    ensures { IfOk result (λ b. named_tree b.value ≡
        bound quantifier variable.name variable.sort (named_tree inner.value)) }
{
    match quantifier {
        Quantifier::All => boxed(alloc, Named::All(variable.name, variable.sort, inner)),
        Quantifier::Exists => boxed(alloc, Named::Exists(variable.name, variable.sort, inner)),
    }
}

/// What a formula begins with.
#[derive(Clone, Copy)]
pub enum Opening {
    Quantified(Quantifier),
    Negation,
    Group,
    Atom,
}

/// The form of a formula that begins with this lexeme.
#[inline(never)]
fn opening_of(first: Lexeme) -> Opening
    ensures { Opens result first }
{
    match first {
        Lexeme::Not => Opening::Negation,
        Lexeme::Open => Opening::Group,
        Lexeme::Word(name) => {
            if name.bytes() == b"all".as_slice() {
                Opening::Quantified(Quantifier::All)
            } else if name.bytes() == b"some".as_slice() {
                Opening::Quantified(Quantifier::Exists)
            } else {
                Opening::Atom
            }
        }
        _ => Opening::Atom,
    }
}

/// The formula that the lexemes begin with, and what follows it.
#[cycle(formulas)]
#[inline(never)]
fn formula(alloc: Global, lexemes: &[Lexeme]) -> Result<(Box<Named>, &[Lexeme]), Stop>
    ensures found { IfOk result (λ x. FormulaAt lexemes.now (named_tree x.0.value) x.1.now) }
    ensures none { IsErrOf result Stop.NoReading → NoFormula lexemes.now }
    ensures shorter { IfOk result (λ x. length x.1.now < length lexemes.now) }
{
    let Some((first, rest)) = next(lexemes) else {
        return Err(Stop::NoReading);
    };
    match opening_of(first) {
        Opening::Quantified(quantifier) => quantified(alloc, quantifier, rest),
        Opening::Negation => negation(alloc, rest),
        Opening::Group => group(alloc, rest),
        Opening::Atom => atom(alloc, lexemes),
    }
}

/// What follows a quantifier.
#[cycle(formulas)]
#[inline(never)]
fn quantified(
    alloc: Global,
    quantifier: Quantifier,
    rest: &[Lexeme],
) -> Result<(Box<Named>, &[Lexeme]), Stop>
    ensures found { IfOk result
        (λ x. FormulaAt (Lexeme.Word (word_of_quantifier quantifier) ∷ rest.now)
        (named_tree x.0.value) x.1.now) }
    ensures none { IsErrOf result Stop.NoReading →
        NoFormula (Lexeme.Word (word_of_quantifier quantifier) ∷ rest.now) }
    ensures shorter { IfOk result (λ x. length x.1.now < length rest.now) }
{
    let Some((variable, body)) = binder(rest) else {
        return Err(Stop::NoReading);
    };
    let (inner, end) = formula(alloc, body)?;
    Ok((quantify(alloc, quantifier, variable, inner)?, end))
}

/// What follows a `!`.
#[cycle(formulas)]
#[inline(never)]
fn negation(alloc: Global, rest: &[Lexeme]) -> Result<(Box<Named>, &[Lexeme]), Stop>
    ensures found { IfOk result (λ x. FormulaAt (Lexeme.Not ∷ rest.now) (named_tree x.0.value) x.1.now) }
    ensures none { IsErrOf result Stop.NoReading → NoFormula (Lexeme.Not ∷ rest.now) }
    ensures shorter { IfOk result (λ x. length x.1.now < length rest.now) }
{
    let (inner, end) = formula(alloc, rest)?;
    Ok((negated(alloc, inner)?, end))
}

/// What follows a `(`.
#[cycle(formulas)]
#[inline(never)]
fn group(alloc: Global, rest: &[Lexeme]) -> Result<(Box<Named>, &[Lexeme]), Stop>
    ensures found { IfOk result (λ x. FormulaAt (Lexeme.Open ∷ rest.now) (named_tree x.0.value) x.1.now) }
    ensures none { IsErrOf result Stop.NoReading → NoFormula (Lexeme.Open ∷ rest.now) }
    ensures shorter { IfOk result (λ x. length x.1.now < length rest.now) }
{
    let (left, rest) = formula(alloc, rest)?;
    let Some((mark, rest)) = next(rest) else {
        return Err(Stop::NoReading);
    };
    let Some(joint) = joint_of(mark) else {
        return Err(Stop::NoReading);
    };
    let (right, end) = chain(alloc, joint, rest)?;
    Ok((join(alloc, joint, left, right)?, end))
}

/// What follows a joint in a group.
#[cycle(formulas)]
#[inline(never)]
fn chain(alloc: Global, joint: Joint, lexemes: &[Lexeme]) -> Result<(Box<Named>, &[Lexeme]), Stop>
    ensures found { IfOk result (λ x. IsChain joint lexemes.now (named_tree x.0.value) x.1.now) }
    ensures none { IsErrOf result Stop.NoReading → NoChain joint lexemes.now }
    ensures shorter { IfOk result (λ x. length x.1.now < length lexemes.now) }
{
    let (first, rest) = formula(alloc, lexemes)?;
    if let Some(end) = after(rest, Lexeme::Close) {
        return Ok((first, end));
    }
    if !may_chain(joint) {
        return Err(Stop::NoReading);
    }
    let Some(more) = after(rest, mark(joint)) else {
        return Err(Stop::NoReading);
    };
    let (others, end) = chain(alloc, joint, more)?;
    Ok((join(alloc, joint, first, others)?, end))
}

/// The sentence that the lexemes are.
pub fn sentence(alloc: Global, lexemes: &[Lexeme]) -> Result<Box<Named>, Stop>
    ensures found { IfOk result (λ b. Reads lexemes.now (named_tree b.value)) }
    ensures none { IsErrOf result Stop.NoReading → (f : trees.NamedTree) → Reads lexemes.now f → ⊥ }
{
    let (named, rest) = formula(alloc, lexemes)?;
    if rest.is_empty() {
        Ok(named)
    } else {
        Err(Stop::NoReading)
    }
}
