//! What may stand at a place.

ghost use Rattle.std.specs.Prelude.{◌≡◌, true, List, IsTrue, IsFalse, IfOk};
ghost use Rattle.syntax.specs.declared.lexemes.Lexeme.{Lexeme as Lex};
ghost use Rattle.sentence_fronts.specs.LexemeKinds.{all_kinds};
ghost use Rattle.sentence_fronts.specs.Fronts.{EachMay, NoneMay, IsKindTold, IsPassed, TellsKinds};
ghost use Rattle.sentence_fronts.specs.Expected.{Expects, is_settled};

use crate::expected::Symbol;
use crate::lexeme_kinds::{LexemeKind, kinds};
use crate::steps::{is_complete, step};
use lists::{Items, NoMemory};
use std::alloc::Global;

/// Whether lexemes of this kind may come next.
fn may_follow(stack: &[Symbol], kind: LexemeKind) -> bool
    requires { is_settled stack.now ≡ true }
    ensures yes { IsTrue result → (before : List Lex) → Expects before stack.now → EachMay before kind }
    ensures no { IsFalse result → (before : List Lex) → Expects before stack.now → NoneMay before kind }
{
    match step(stack, kind) {
        Some(_) => true,
        None => false,
    }
}

/// Whether the kind is told.
fn is_told(stack: &[Symbol], kind: LexemeKind) -> bool
    requires { is_settled stack.now ≡ true }
    ensures yes { IsTrue result → (before : List Lex) → Expects before stack.now → IsKindTold before kind }
    ensures no { IsFalse result → (before : List Lex) → Expects before stack.now → IsPassed before kind }
{
    match kind {
        LexemeKind::End => is_complete(stack),
        LexemeKind::Sort => {
            !may_follow(stack, LexemeKind::Name) && may_follow(stack, LexemeKind::Sort)
        }
        _ => may_follow(stack, kind),
    }
}

/// All kinds that are told.
pub(crate) fn told(alloc: Global, stack: &[Symbol]) -> Result<Items<LexemeKind>, NoMemory>
    requires { is_settled stack.now ≡ true }
    ensures { IfOk result
        (λ next. (before : List Lex) → Expects before stack.now → TellsKinds before all_kinds next) }
{
    let mut next = Items::new(alloc);
    for kind in kinds() {
        if is_told(stack, *kind) {
            next.push(*kind)?;
        }
    }
    Ok(next)
}
