//! Reading a sentence.

ghost use Rattle.std.specs.Prelude.{MatchResult};
ghost use Rattle.vocab.specs.NamedView.{named_tree};
ghost use Rattle.syntax.specs.Sentence.{IsSentence, IsFault};

use crate::SyntaxFault;
use crate::lexer::lexed;
use crate::limits::{fits, has_few};
use crate::parser::sentence;
use std::alloc::Global;
use vocab::Named;

/// The greatest depth of a sentence.
const DEPTH: u8 = 64;

/// The most quantifiers on one path.
const QUANTIFIERS: u8 = 12;

/// The sentence of a text, or the first reason why it has none.
///
/// There is at most one answer beside want of memory (`laws::texts_have_one_answer`).
pub fn read(alloc: Global, text: &[u8]) -> Result<Named, SyntaxFault>
    ensures { MatchResult result
        (λ named. IsSentence text.now (named_tree named)) (λ fault. IsFault text.now fault) }
{
    let lexemes = lexed(alloc, text)?;
    let named = sentence(alloc, lexemes.as_slice())?;
    if !fits(&named, DEPTH) {
        return Err(SyntaxFault::Deep);
    }
    if !has_few(&named, QUANTIFIERS) {
        return Err(SyntaxFault::Variables);
    }
    Ok(Box::into_inner(named))
}
