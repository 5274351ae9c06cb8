//! The furthest place of a text to which some sentence goes.

ghost use Rattle.std.specs.Prelude.{◌≡◌, ◌≤◌, ◌∷◌, [], true, length, List, ℕ, IfOk};
ghost use Rattle.syntax.specs.declared.lexemes.Lexeme.{Lexeme as Lex};
ghost use Rattle.syntax.specs.Lexemes.{Lexes, is_white_space, starts_without};
ghost use Rattle.sentence_fronts.specs.Expected.{Walks, IsStop};
ghost use Rattle.sentence_fronts.specs.Fronts.{IsFurthest};

use crate::expected::Symbol;
use crate::lexeme_kinds::{LexemeKind, kind_of};
use crate::steps::take_lexeme;
use crate::telling::told;
use lists::{Items, NoMemory};
use std::alloc::Global;
use syntax::{first_lexeme, is_blank_byte};

/// How far some sentence goes along with a text: up to which byte, from 0, and what may stand there.
///
/// There stands the first lexeme with which no sentence goes on, or what is no lexeme, or the text ends.
#[derive(Drop)]
pub struct FurthestPlace {
    pub offset: u64,
    pub next: Items<LexemeKind>,
}

/// What follows the blanks at the front.
fn after_blanks(text: &[u8]) -> &[u8]
    ensures lexed { (ls : List Lex) (end : List ℕ) → Lexes result.now ls end → Lexes text.now ls end }
    ensures bare { starts_without is_white_space result.now ≡ true }
    ensures within { length result.now ≤ length text.now }
{
    let mut rest = text;
    while let Some((c, more)) = rest.split_first() {
        if !is_blank_byte(*c) {
            return rest;
        }
        rest = more;
    }
    rest
}

/// Goes along with the text as far as some sentence does, and gives what is left of it.
fn walk<'a>(stack: &mut Vec<Symbol>, text: &'a [u8]) -> Result<&'a [u8], NoMemory>
    requires { stack.old.items ≡ Symbol.Formula ∷ [] }
    ensures walks { IfOk result (λ rest. Walks text.now stack.new.items rest.now) }
    ensures stops { IfOk result (λ rest. IsStop rest.now stack.new.items) }
{
    let mut rest = after_blanks(text);
    while let Some((lexeme, more)) = first_lexeme(rest) {
        if !take_lexeme(stack, kind_of(lexeme))? {
            return Ok(rest);
        }
        rest = after_blanks(more);
    }
    Ok(rest)
}

/// The furthest place of a text to which some sentence goes, and what may stand there.
pub fn furthest(alloc: Global, text: &[u8]) -> Result<FurthestPlace, NoMemory>
    ensures { IfOk result (λ found. IsFurthest text.now found.offset found.next) }
{
    let mut stack = Vec::new(alloc);
    stack.push(Symbol::Formula)?;
    let rest = walk(&mut stack, text)?;
    let offset = (text.len() - rest.len()) as u64;
    let next = told(alloc, stack.as_slice())?;
    Ok(FurthestPlace { offset, next })
}
