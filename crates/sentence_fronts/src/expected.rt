//! What is expected next, and what is expected once it came.

ghost use Rattle.std.specs.Prelude.{◌≡◌, MatchOption, Some, None};
ghost use Rattle.sentence_fronts.specs.Expected.{expected_after, may_end as can_end};

use crate::lexeme_kinds::LexemeKind;

/// A part of a sentence that is still to come.
#[derive(Clone, Copy)]
pub(crate) enum Symbol {
    Formula,
    /// What follows a name with which a formula began.
    AfterName,
    /// What follows a name and its arguments with which a formula began: an equality, or nothing.
    AfterCall,
    /// A joint, and what follows it in its group.
    Joint,
    /// The end of a group of `&`, or one more of its parts.
    MoreAnds,
    /// The end of a group of `|`, or one more of its parts.
    MoreOrs,
    Term,
    /// What follows a name with which a term began: arguments, or nothing.
    MayCall,
    /// The end of a list of arguments, or one more of them.
    MoreTerms,
    Variable,
    Sort,
    Colon,
    Dot,
    Close,
    Equals,
}

/// What a formula goes on with after a lexeme that begins it.
fn formula_after(kind: LexemeKind) -> Option<&'static [Symbol]>
    ensures { MatchOption result (expected_after Symbol.Formula kind ≡ None)
        (λ next. expected_after Symbol.Formula kind ≡ Some next.now) }
{
    match kind {
        LexemeKind::Quantifier => Some(&[
            Symbol::Formula,
            Symbol::Dot,
            Symbol::Sort,
            Symbol::Colon,
            Symbol::Variable,
        ]),
        LexemeKind::Not => Some(&[Symbol::Formula]),
        LexemeKind::Open => Some(&[Symbol::Joint, Symbol::Formula]),
        LexemeKind::Name | LexemeKind::Sort => Some(&[Symbol::AfterName]),
        LexemeKind::Voter | LexemeKind::Alt | LexemeKind::Ballot => {
            Some(&[Symbol::Term, Symbol::Equals])
        }
        _ => None,
    }
}

/// What a joint of a group goes on with.
fn joint_after(kind: LexemeKind) -> Option<&'static [Symbol]>
    ensures { MatchOption result (expected_after Symbol.Joint kind ≡ None)
        (λ next. expected_after Symbol.Joint kind ≡ Some next.now) }
{
    match kind {
        LexemeKind::And => Some(&[Symbol::MoreAnds, Symbol::Formula]),
        LexemeKind::Or => Some(&[Symbol::MoreOrs, Symbol::Formula]),
        LexemeKind::Implies | LexemeKind::Same => Some(&[Symbol::Close, Symbol::Formula]),
        _ => None,
    }
}

/// What a term goes on with after a lexeme that begins it.
fn term_after(kind: LexemeKind) -> Option<&'static [Symbol]>
    ensures { MatchOption result (expected_after Symbol.Term kind ≡ None)
        (λ next. expected_after Symbol.Term kind ≡ Some next.now) }
{
    match kind {
        LexemeKind::Name | LexemeKind::Sort => Some(&[Symbol::MayCall]),
        LexemeKind::Voter | LexemeKind::Alt | LexemeKind::Ballot => Some(&[]),
        _ => None,
    }
}

/// What is expected in place of the symbol after a lexeme of this kind, the next last; None where none of the
/// kind begins it.
pub(crate) fn expected_after(symbol: Symbol, kind: LexemeKind) -> Option<&'static [Symbol]>
    ensures { MatchOption result (expected_after symbol kind ≡ None)
        (λ next. expected_after symbol kind ≡ Some next.now) }
{
    match (symbol, kind) {
        (Symbol::Formula, _) => formula_after(kind),
        (Symbol::Joint, _) => joint_after(kind),
        (Symbol::Term, _) => term_after(kind),
        (Symbol::AfterName, LexemeKind::Open) => {
            Some(&[Symbol::AfterCall, Symbol::MoreTerms, Symbol::Term])
        }
        (Symbol::AfterName | Symbol::AfterCall, LexemeKind::Equals) => Some(&[Symbol::Term]),
        (Symbol::MayCall, LexemeKind::Open) | (Symbol::MoreTerms, LexemeKind::Comma) => {
            Some(&[Symbol::MoreTerms, Symbol::Term])
        }
        (Symbol::MoreAnds, LexemeKind::And) => Some(&[Symbol::MoreAnds, Symbol::Formula]),
        (Symbol::MoreOrs, LexemeKind::Or) => Some(&[Symbol::MoreOrs, Symbol::Formula]),
        (Symbol::MoreAnds | Symbol::MoreOrs | Symbol::MoreTerms | Symbol::Close, LexemeKind::Close)
        | (Symbol::Variable, LexemeKind::Name | LexemeKind::Sort)
        | (Symbol::Sort, LexemeKind::Sort)
        | (Symbol::Colon, LexemeKind::Colon)
        | (Symbol::Dot, LexemeKind::Dot)
        | (Symbol::Equals, LexemeKind::Equals) => Some(&[]),
        _ => None,
    }
}

/// Whether the symbol may stand for no lexeme.
pub(crate) fn may_end(symbol: Symbol) -> bool
    ensures { result ≡ can_end symbol }
{
    matches!(symbol, Symbol::AfterCall | Symbol::MayCall)
}
