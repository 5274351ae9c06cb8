//! The functions and predicates of sentences.

ghost use Rattle.std.specs.Prelude.{◌≡◌, [], ◌∷◌, length};
ghost use Rattle.sorts.specs.Symbols.{function_of, predicate_of, function_sorts, predicate_sorts, given_sort, is_said_of};
ghost use Rattle.vocab.specs.Sorted.{has_winners, same_sort};

use vocab::{Kind, Name, Sort};

/// A function of terms.
#[derive(Clone, Copy)]
pub enum Function {
    With,
    SwapVoters,
    SwapAlts,
    Swap,
}

/// A predicate of terms.
#[derive(Clone, Copy)]
pub enum Predicate {
    Prefers,
    Better,
    Casts,
    Majority,
    Wins,
    Ranks,
}

/// The function of a name.
#[tactic(auto, unfolding(crate::specs::Symbols::function_of))]
pub fn function_named(name: &Name) -> Option<Function>
    ensures { result ≡ function_of name.now }
{
    let text = name.bytes();
    if text == b"with".as_slice() {
        Some(Function::With)
    } else if text == b"swap_voters".as_slice() {
        Some(Function::SwapVoters)
    } else if text == b"swap_alts".as_slice() {
        Some(Function::SwapAlts)
    } else if text == b"swap".as_slice() {
        Some(Function::Swap)
    } else {
        None
    }
}

/// The predicate of a name.
#[tactic(auto, unfolding(crate::specs::Symbols::predicate_of))]
pub fn predicate_named(name: &Name) -> Option<Predicate>
    ensures { result ≡ predicate_of name.now }
{
    let text = name.bytes();
    if text == b"prefers".as_slice() {
        Some(Predicate::Prefers)
    } else if text == b"better".as_slice() {
        Some(Predicate::Better)
    } else if text == b"casts".as_slice() {
        Some(Predicate::Casts)
    } else if text == b"majority".as_slice() {
        Some(Predicate::Majority)
    } else if text == b"wins".as_slice() {
        Some(Predicate::Wins)
    } else if text == b"ranks".as_slice() {
        Some(Predicate::Ranks)
    } else {
        None
    }
}

/// Whether two sorts are the same.
pub fn is_same(left: Sort, right: Sort) -> bool
    ensures { result ≡ same_sort left right }
{
    matches!(
        (left, right),
        (Sort::Voter, Sort::Voter)
            | (Sort::Alt, Sort::Alt)
            | (Sort::Ballot, Sort::Ballot)
            | (Sort::Profile, Sort::Profile)
    )
}

impl Function {
    /// The sorts of its arguments.
    pub fn sorts(self) -> (Sort, Sort, Sort)
        ensures { function_sorts self ≡ result.0 ∷ result.1 ∷ result.2 ∷ [] }
    {
        match self {
            Function::With => (Sort::Profile, Sort::Voter, Sort::Ballot),
            Function::SwapVoters => (Sort::Profile, Sort::Voter, Sort::Voter),
            Function::SwapAlts => (Sort::Profile, Sort::Alt, Sort::Alt),
            Function::Swap => (Sort::Alt, Sort::Alt, Sort::Alt),
        }
    }

    /// The sort of what it gives.
    pub fn given_sort(self) -> Sort
        ensures { result ≡ given_sort self }
    {
        match self {
            Function::With | Function::SwapVoters | Function::SwapAlts => Sort::Profile,
            Function::Swap => Sort::Alt,
        }
    }
}

impl Predicate {
    /// How many arguments it has.
    pub fn arity(self) -> usize
        ensures { result ≡ length (predicate_sorts self) }
    {
        match self {
            Predicate::Prefers => 4,
            Predicate::Better | Predicate::Casts | Predicate::Majority | Predicate::Ranks => 3,
            Predicate::Wins => 2,
        }
    }

    /// Whether it may be said of rules of the kind.
    pub fn is_said_of(self, kind: Kind) -> bool
        ensures { result ≡ is_said_of kind self }
    {
        match self {
            Predicate::Wins => has_winners(kind),
            Predicate::Ranks => !has_winners(kind),
            _ => true,
        }
    }
}

/// Whether the outcome of rules of the kind has winners.
fn has_winners(kind: Kind) -> bool
    ensures { result ≡ has_winners kind }
{
    match kind {
        Kind::Choice | Kind::Sets => true,
        Kind::Ranking => false,
    }
}
