//! From text to lexemes.

ghost use Rattle.std.specs.Prelude.{◌≡◌, ◌<◌, ◌≤◌, ◌+◌, ◌-◌, Some, None, true, length, take, drop, not, MatchOption, MatchResult};
ghost use Rattle.std.specs.List.{list_all};
ghost use Rattle.vocab.specs.Name.{is_lower, is_digit, is_name_byte, has_name_shape};
ghost use Rattle.syntax.specs.declared.lexemes.Lexeme.{Lexeme as Lex};
ghost use Rattle.syntax.specs.Sentence.{AreFew, IsFault, IsLexFault};
ghost use Rattle.syntax.specs.Scanning.{lexeme_at, word_at, voter_at, alternative_at, ballot_at, arrow_at, angle_at, mark_at, run_length, room_for};
ghost use Rattle.syntax.specs.Lexemes.{continued_number, starts_without, is_white_space};

use crate::SyntaxFault;
use crate::lexemes::Lexeme;
use lists::Items;
use std::alloc::Global;
use vocab::Name;

/// The most lexemes of a sentence.
const LEXEMES: u64 = 600;

/// The most bytes of a name.
const NAME_BYTES: usize = 16;

fn is_lower_byte(c: u8) -> bool
    ensures { result ≡ is_lower c }
{
    b'a' <= c && c <= b'z'
}

fn is_digit_byte(c: u8) -> bool
    ensures { result ≡ is_digit c }
{
    b'0' <= c && c <= b'9'
}

fn goes_on(c: u8) -> bool
    ensures { result ≡ is_name_byte c }
{
    is_lower_byte(c) || is_digit_byte(c) || c == b'_'
}

/// Whether a byte is a tab, a line feed, a carriage return or a space.
pub fn is_blank_byte(c: u8) -> bool
    ensures { result ≡ is_white_space c }
{
    c == b'\t' || c == b'\n' || c == b'\r' || c == b' '
}

/// How long the run of such bytes at the front is.
fn name_length(bytes: &[u8]) -> usize
    ensures value { result ≡ run_length is_name_byte bytes.now }
    ensures within { result ≤ length bytes.now }
{
    bytes.iter().take_while(|c| goes_on(**c)).count()
}

fn digits_length(bytes: &[u8]) -> usize
    ensures value { result ≡ run_length is_digit bytes.now }
    ensures within { result ≤ length bytes.now }
{
    bytes.iter().take_while(|c| is_digit_byte(**c)).count()
}

fn letters_length(bytes: &[u8]) -> usize
    ensures value { result ≡ run_length is_lower bytes.now }
    ensures within { result ≤ length bytes.now }
{
    bytes.iter().take_while(|c| is_lower_byte(**c)).count()
}

fn word(bytes: &[u8]) -> Option<(Lexeme, &[u8])>
    requires { has_name_shape (take (run_length is_name_byte bytes.now) bytes.now) ≡ true }
    ensures { MatchOption result (word_at bytes.now ≡ None)
        (λ x. word_at bytes.now ≡ Some (x.0, x.1.now)) }
{
    let (run, rest) = bytes.split_at(name_length(bytes));
    if run.len() > NAME_BYTES {
        return None;
    }
    match Name::new(run) {
        None => None,
        Some(name) => Some((Lexeme::Word(name), rest)),
    }
}

fn arrow(lexeme: Lexeme, bytes: &[u8]) -> Option<(Lexeme, &[u8])>
    ensures { MatchOption result (arrow_at lexeme bytes.now ≡ None)
        (λ x. arrow_at lexeme bytes.now ≡ Some (x.0, x.1.now)) }
{
    match bytes.split_first() {
        Some((c, rest)) if *c == b'>' => Some((lexeme, rest)),
        _ => None,
    }
}

fn alternative(bytes: &[u8]) -> Option<(Lexeme, &[u8])>
    ensures { MatchOption result (alternative_at bytes.now ≡ None)
        (λ x. alternative_at bytes.now ≡ Some (x.0, x.1.now)) }
{
    let Some((c, rest)) = bytes.split_first() else {
        return None;
    };
    if is_lower_byte(*c) && ends_name(rest) {
        Some((Lexeme::Alt(*c - b'a'), rest))
    } else {
        None
    }
}

fn ends_name(bytes: &[u8]) -> bool
    ensures { result ≡ starts_without is_name_byte bytes.now }
{
    match bytes.split_first() {
        None => true,
        Some((c, _)) => !goes_on(*c),
    }
}

/// The number that the digits stand for, after those of `n`.
fn number_after(n: u16, digits: &[u8]) -> u16
    requires each { list_all is_digit digits.now ≡ true }
    requires room { n < room_for digits.now }
    ensures { result ≡ continued_number n digits.now }
{
    match digits.split_first() {
        None => n,
        Some((c, rest)) => number_after(10 * n + u16::from(*c - b'0'), rest),
    }
}

fn voter(bytes: &[u8]) -> Option<(Lexeme, &[u8])>
    ensures { MatchOption result (voter_at bytes.now ≡ None)
        (λ x. voter_at bytes.now ≡ Some (x.0, x.1.now)) }
{
    let (run, rest) = bytes.split_at(digits_length(bytes));
    if 1 <= run.len() && run.len() <= 3 {
        Some((Lexeme::Voter(number_after(0, run)), rest))
    } else {
        None
    }
}

fn letters_name(letters: &[u8]) -> Name
    requires each { list_all is_lower letters.now ≡ true }
    requires some { 1 ≤ length letters.now }
    requires few { length letters.now ≤ 8 }
    ensures { result ≡ letters.now }
{
    Name::new(letters).unwrap()
}

fn ballot(bytes: &[u8]) -> Option<(Lexeme, &[u8])>
    ensures { MatchOption result (ballot_at bytes.now ≡ None)
        (λ x. ballot_at bytes.now ≡ Some (x.0, x.1.now)) }
{
    let (run, rest) = bytes.split_at(letters_length(bytes));
    let Some((close, rest)) = rest.split_first() else {
        return None;
    };
    if !(*close == b'>' && 1 <= run.len() && run.len() <= 8) {
        return None;
    }
    Some((Lexeme::Ballot(letters_name(run)), rest))
}

fn angle(bytes: &[u8]) -> Option<(Lexeme, &[u8])>
    ensures { MatchOption result (angle_at bytes.now ≡ None)
        (λ x. angle_at bytes.now ≡ Some (x.0, x.1.now)) }
{
    match bytes.split_first() {
        None => None,
        Some((c, rest)) => {
            if *c == b'-' {
                arrow(Lexeme::Same, rest)
            } else {
                ballot(bytes)
            }
        }
    }
}

fn mark_or_constant(c: u8, rest: &[u8]) -> Option<(Lexeme, &[u8])>
    ensures { MatchOption result (mark_at c rest.now ≡ None)
        (λ x. mark_at c rest.now ≡ Some (x.0, x.1.now)) }
{
    match c {
        b'(' => Some((Lexeme::Open, rest)),
        b')' => Some((Lexeme::Close, rest)),
        b',' => Some((Lexeme::Comma, rest)),
        b':' => Some((Lexeme::Colon, rest)),
        b'.' => Some((Lexeme::Dot, rest)),
        b'=' => Some((Lexeme::Equals, rest)),
        b'!' => Some((Lexeme::Not, rest)),
        b'&' => Some((Lexeme::And, rest)),
        b'|' => Some((Lexeme::Or, rest)),
        b'-' => arrow(Lexeme::Implies, rest),
        b'<' => angle(rest),
        b'#' => voter(rest),
        b'@' => alternative(rest),
        _ => None,
    }
}

/// The lexeme that the bytes begin with, and what follows it; None where none begins there, as at a blank.
pub fn first_lexeme(bytes: &[u8]) -> Option<(Lexeme, &[u8])>
    ensures { MatchOption result (lexeme_at bytes.now ≡ None)
        (λ x. lexeme_at bytes.now ≡ Some (x.0, x.1.now)) }
{
    match bytes.split_first() {
        None => None,
        Some((c, rest)) => {
            if is_lower_byte(*c) {
                word(bytes)
            } else {
                mark_or_constant(*c, rest)
            }
        }
    }
}

/// The lexemes of a text.
pub fn lexed(alloc: Global, text: &[u8]) -> Result<Items<Lexeme>, SyntaxFault>
    ensures { MatchResult result
        (λ found. AreFew text.now found) (λ fault. IsFault text.now fault × IsLexFault fault) }
{
    let mut found = Items::new(alloc);
    let mut count = 0u64;
    let mut rest = text;
    while let Some((c, more)) = rest.split_first() {
        if is_blank_byte(*c) {
            rest = more;
        } else {
            let Some((lexeme, more)) = first_lexeme(rest) else {
                return Err(SyntaxFault::Lexeme((text.len() - rest.len()) as u64));
            };
            if count < LEXEMES {
                found.push(lexeme)?;
            }
            count += 1;
            rest = more;
        }
    }
    if count > LEXEMES {
        return Err(SyntaxFault::Long(count));
    }
    Ok(found)
}
