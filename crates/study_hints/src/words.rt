//! Words that help whatever the study is.

ghost use Rattle.std.specs.Prelude.{◌≡◌, option_map};
ghost use Rattle.study_hints.specs.Words.{all_symbols, function_words, key_words, kind_words, predicate_words, size_words, symbol_words, syntax_words};

use syntax::SyntaxFault;
use vocab::SizeFault;

/// The form of a key of a study; of another word the keys.
pub(crate) fn key_words(key: &[u8]) -> &'static [u8]
    ensures { result.now ≡ key_words key.now }
{
    if key == b"kind".as_slice() {
        return b"help kind: a string, one of choice ranking sets\n";
    }
    if key == b"voters".as_slice() {
        return b"help voters: an integer from 1 to 8\n";
    }
    if key == b"alternatives".as_slice() {
        return b"help alternatives: an integer from 1 to 5\n";
    }
    if key == b"ballots".as_slice() {
        return b"help ballots: an array of strings, or no such key\n";
    }
    if key == b"absent".as_slice() {
        return b"help absent: true or false, or no such key\n";
    }
    if key == b"conflicts".as_slice() {
        return b"help conflicts: an integer from 1 to 1000000, or no such key\n";
    }
    if key == b"axioms".as_slice() {
        return b"help axioms: an array of strings, above [sentences]\n";
    }
    if key == b"sentences".as_slice() {
        return b"help sentences: a table of strings under names, or no such key\n";
    }
    b"help keys: kind voters alternatives ballots absent conflicts axioms sentences\nhelp below [sentences]: a letter a to z, then a to z, 0 to 9 and _, at most 32 in all, and a string\n"
}

/// Numbers that are no size.
pub(crate) fn size_words(fault: SizeFault) -> &'static [u8]
    ensures { result.now ≡ size_words fault }
{
    match fault {
        SizeFault::Voters(_) => b"help voters: an integer from 1 to 8\n",
        SizeFault::Alternatives(_) => b"help alternatives: an integer from 1 to 5\n",
        SizeFault::Profiles(_) => {
            b"help profiles: at most 20000, so fewer voters, alternatives or ballots\n"
        }
        SizeFault::Domain => b"help ballots: at least one, or no such key\n",
    }
}

/// A text that is no sentence, where a place in it says nothing.
pub(crate) fn syntax_words(fault: SyntaxFault) -> &'static [u8]
    ensures { result.now ≡ syntax_words fault }
{
    match fault {
        SyntaxFault::Deep => b"help a sentence: at most 64 parts within one another\n",
        SyntaxFault::Variables =>
            b"help a sentence: at most 12 of all and some within one another\n",
        SyntaxFault::Long(_) => b"help a sentence: at most 600 names, constants and marks\n",
        SyntaxFault::Lexeme(_) => b"",
        SyntaxFault::NoReading => b"",
        SyntaxFault::NoMemory => b"",
    }
}

/// What a predicate is said of, if the name is one's.
fn predicate_words(name: &[u8]) -> Option<&'static [u8]>
    ensures { option_map (λ words. words.now) result ≡ predicate_words name.now }
{
    if name == b"prefers".as_slice() {
        return Some(b"help prefers(voter, alt, alt, profile)\n");
    }
    if name == b"better".as_slice() {
        return Some(b"help better(ballot, alt, alt)\n");
    }
    if name == b"casts".as_slice() {
        return Some(b"help casts(voter, ballot, profile)\n");
    }
    if name == b"majority".as_slice() {
        return Some(b"help majority(alt, alt, profile)\n");
    }
    if name == b"wins".as_slice() {
        return Some(b"help wins(alt, profile)\n");
    }
    if name == b"ranks".as_slice() {
        return Some(b"help ranks(alt, alt, profile)\n");
    }
    None
}

/// What a function takes, or the two sides of an equation.
fn function_words(name: &[u8]) -> &'static [u8]
    ensures { result.now ≡ function_words name.now }
{
    if name == b"with".as_slice() {
        return b"help with(profile, voter, ballot)\n";
    }
    if name == b"swap_voters".as_slice() {
        return b"help swap_voters(profile, voter, voter)\n";
    }
    if name == b"swap_alts".as_slice() {
        return b"help swap_alts(profile, alt, alt)\n";
    }
    if name == b"swap".as_slice() {
        return b"help swap(alt, alt, alt)\n";
    }
    if name == b"=".as_slice() {
        return b"help = stands between two of one sort\n";
    }
    b""
}

/// What a symbol is said of.
pub(crate) fn symbol_words(name: &[u8]) -> &'static [u8]
    ensures { result.now ≡ symbol_words name.now }
{
    match predicate_words(name) {
        Some(words) => words,
        None => function_words(name),
    }
}

/// All symbols.
pub(crate) fn all_symbols() -> &'static [u8]
    ensures { result.now ≡ all_symbols }
{
    b"help formulas: prefers better casts majority; wins of choice and sets; ranks of ranking\nhelp terms: with swap_voters swap_alts swap\n"
}

/// Of which rules outcomes are said.
pub(crate) fn kind_words() -> &'static [u8]
    ensures { result.now ≡ kind_words }
{
    b"help wins: of choice and sets; ranks: of ranking\n"
}
