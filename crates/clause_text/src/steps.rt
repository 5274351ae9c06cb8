//! The lines of a derivation.

ghost use Rattle.std.specs.Prelude.{◌≡◌, ◌≤◌, [], IfOk, option_map};
ghost use Rattle.verdicts.specs.Numbers.{number_within};
ghost use Rattle.clause_text.specs.ReadLrat.{most_id, id_of, hint_of, is_zero, ids_of, hints_of, literals_read, dropping, adding, told};
ghost use Rattle.clause_text.specs.Words.{words_in_line};

use crate::lines::{is_same, next_word};
use crate::tokens::{Word, token_of};
use cnf::{Ids, Lits, Step};
use lists::NoMemory;
use std::alloc::Global;
use verdicts::number_within;

/// The greatest id.
const MOST_ID: u64 = 9_223_372_036_854_775_807;

/// What a line is: a step, one but for a hint below 0, or neither.
#[derive(Drop)]
pub(crate) enum Told {
    Read(Step),
    Negative,
    Formless,
}

/// An id is from 1 to the greatest.
fn id_of(word: &[u8]) -> Option<u64>
    ensures { result ≡ id_of word.now }
{
    number_within(word, 1, MOST_ID)
}

/// A hint: an id, and whether it is below 0.
#[derive(Clone, Copy)]
struct Hint {
    negative: bool,
    id: u64,
}

/// A hint is an id, of which a minus says that it is below 0.
fn hint_of(word: &[u8]) -> Option<Hint>
    ensures { hint_of word.now ≡ option_map (λ hint. (hint.negative, hint.id)) result }
{
    let (negative, word) = match word.split_first() {
        Some((b'-', rest)) => (true, rest),
        _ => (false, word),
    };
    let Some(id) = id_of(word) else {
        return None;
    };
    Some(Hint { negative, id })
}

/// Whether a word is 0.
fn is_zero(word: &[u8]) -> bool
    ensures { result ≡ is_zero word.now }
{
    is_same(word, b"0")
}

/// Ids, and then 0 as the last word.
fn ids_of(alloc: Global, line: &[u8]) -> Result<Option<Ids>, NoMemory>
    ensures { IfOk result (λ ids. ids ≡ ids_of (words_in_line line.now)) }
{
    let mut ids = Ids::new(alloc);
    let Some((first, rest)) = next_word(line) else {
        return Ok(None);
    };
    let mut word = first;
    let mut left = rest;
    while let Some((next, more)) = next_word(left) {
        let Some(id) = id_of(word) else {
            return Ok(None);
        };
        ids.push(id)?;
        word = next;
        left = more;
    }
    Ok(if is_zero(word) { Some(ids) } else { None })
}

/// Hints, and whether one of them is below 0.
#[derive(Drop)]
struct Hints {
    negative: bool,
    ids: Ids,
}

/// Hints, and then 0 as the last word.
fn hints_of(alloc: Global, line: &[u8]) -> Result<Option<Hints>, NoMemory>
    ensures { IfOk result (λ found. hints_of (words_in_line line.now) ≡
        option_map (λ hints. (hints.negative, hints.ids)) found) }
{
    let mut hints = Hints {
        negative: false,
        ids: Ids::new(alloc),
    };
    let Some((first, rest)) = next_word(line) else {
        return Ok(None);
    };
    let mut word = first;
    let mut left = rest;
    while let Some((next, more)) = next_word(left) {
        let Some(hint) = hint_of(word) else {
            return Ok(None);
        };
        hints.ids.push(hint.id)?;
        hints.negative = hints.negative || hint.negative;
        word = next;
        left = more;
    }
    Ok(if is_zero(word) { Some(hints) } else { None })
}

/// Reads the literals before the first 0, and answers what is left behind it.
fn read_literals<'a>(
    clause: &mut Lits,
    variables: u32,
    line: &'a [u8],
) -> Result<Option<&'a [u8]>, NoMemory>
    requires variables { variables ≤ 10000000 }
    requires empty { clause.old ≡ [] }
    ensures { IfOk result (λ found. literals_read variables (words_in_line line.now) ≡
        option_map (λ rest. (clause.new, words_in_line rest.now)) found) }
{
    let mut left = line;
    while let Some((word, more)) = next_word(left) {
        match token_of(variables, word) {
            Word::Stray => return Ok(None),
            Word::Ends => return Ok(Some(more)),
            Word::Says(lit) => clause.push(lit)?,
        }
        left = more;
    }
    Ok(None)
}

/// What is taken away; the id at the front means nothing.
fn dropping(alloc: Global, front: &[u8], rest: &[u8]) -> Result<Told, NoMemory>
    ensures { IfOk result (λ found. found ≡
        dropping (number_within 0 most_id front.now) (ids_of (words_in_line rest.now))) }
{
    if number_within(front, 0, MOST_ID).is_none() {
        return Ok(Told::Formless);
    }
    match ids_of(alloc, rest)? {
        Some(ids) => Ok(Told::Read(Step::Drop { ids })),
        None => Ok(Told::Formless),
    }
}

/// An added clause with its hints.
fn adding(alloc: Global, variables: u32, front: &[u8], rest: &[u8]) -> Result<Told, NoMemory>
    requires { variables ≤ 10000000 }
    ensures { IfOk result (λ found. found ≡
        adding (id_of front.now) (literals_read variables (words_in_line rest.now))) }
{
    let Some(id) = id_of(front) else {
        return Ok(Told::Formless);
    };
    let mut clause = Lits::new(alloc);
    let Some(rest) = read_literals(&mut clause, variables, rest)? else {
        return Ok(Told::Formless);
    };
    let Some(hints) = hints_of(alloc, rest)? else {
        return Ok(Told::Formless);
    };
    if hints.negative {
        return Ok(Told::Negative);
    }
    Ok(Told::Read(Step::Add {
        id,
        clause,
        hints: hints.ids,
    }))
}

/// What a line is.
pub(crate) fn told_by(alloc: Global, variables: u32, line: &[u8]) -> Result<Told, NoMemory>
    requires { variables ≤ 10000000 }
    ensures { IfOk result (λ found. found ≡ told variables (words_in_line line.now)) }
{
    let Some((front, rest)) = next_word(line) else {
        return Ok(Told::Formless);
    };
    let Some((second, after)) = next_word(rest) else {
        return Ok(Told::Formless);
    };
    if is_same(second, b"d") {
        dropping(alloc, front, after)
    } else {
        adding(alloc, variables, front, rest)
    }
}
