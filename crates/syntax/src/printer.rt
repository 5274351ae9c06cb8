//! Writing a sentence.

ghost use Rattle.std.specs.Prelude.{◌≡◌, ◌++◌, codes, decimal, OnOk, OnErr};
ghost use Rattle.std.specs.Io.KnownBytes.{Appends};
ghost use Rattle.edge.specs.Faults.{HasCause};
ghost use Rattle.edge.specs.Told.{TellsAsBefore, AppendsPrefix};
ghost use Rattle.texts.specs.Page.{Pours};
ghost use Rattle.vocab.specs.NamedView.{named_term_tree, named_terms_tree, named_tree};
ghost use Rattle.syntax.specs.Canonical.{term_text, list_text, canonical_text};
ghost use Rattle.syntax.specs.Grammar.{word_of_sort};

use edge::{Failed, Sink};
use texts::{Number, Page, Raw, Text, Two, put_text};
use vocab::{Name, Named, NamedTerm, Sort, Terms};

/// Writes the canonical text of a sentence. Where the sink fails, a prefix of that text was written. No
/// memory is taken.
///
/// An alternative is written as its letter. No text reads as an alternative above 25: such a one is written
/// as the byte that follows `a` by that many, after 255 again from 0.
pub fn print<K: Sink>(sentence: &Named, out: &mut K) -> Result<(), Failed>
    ensures ok { OnOk result (Appends (K.taken out.old) (K.taken out.new)
        (canonical_text (named_tree sentence.now))) }
    ensures err { OnErr result (AppendsPrefix (K.taken out.old) (K.taken out.new)
        (canonical_text (named_tree sentence.now))) }
    ensures tells { TellsAsBefore (K.taken out.old) (K.taken out.new) }
    ensures cause { HasCause (K.faults out.old) (K.faults out.new) result }
{
    put_text(&SentenceText(sentence), out)
}

/// A sentence.
#[derive(Drop)]
struct SentenceText<'a>(&'a Named);

impl Text for SentenceText<'_> {
    ghost can = { λ _. Unit {0} };

    ghost text = { λ sentence. canonical_text (named_tree sentence.0.now) };

    fn pour<K: Sink>(&self, page: &mut Page, out: &mut K) -> Result<(), Failed> {
        pour_formula(self.0, page, out)
    }
}

fn sort_word(sort: Sort) -> &'static [u8]
    ensures { result.now ≡ word_of_sort sort }
{
    match sort {
        Sort::Voter => b"voter",
        Sort::Alt => b"alt",
        Sort::Ballot => b"ballot",
        Sort::Profile => b"profile",
    }
}

/// A quantifier, a variable and its sort, up to the body.
fn pour_binder<K: Sink>(
    quantifier: &[u8],
    name: &Name,
    sort: Sort,
    page: &mut Page,
    out: &mut K,
) -> Result<(), Failed>
    ensures { Pours (K.taken out.old) (K.taken out.new) page.old page.new
        (K.faults out.old) (K.faults out.new) result
        (quantifier.now ++ name.now ++ codes ": " ++ word_of_sort sort ++ codes ". ") }
{
    let variable = Two(Raw(quantifier), Raw(name.bytes()));
    let sorted = Two(Two(variable, Raw(b": ")), Raw(sort_word(sort)));
    Two(sorted, Raw(b". ")).pour(page, out)
}

#[cycle(pour_formulas)]
fn pour_formula<K: Sink>(formula: &Named, page: &mut Page, out: &mut K) -> Result<(), Failed>
    ensures { Pours (K.taken out.old) (K.taken out.new) page.old page.new
        (K.faults out.old) (K.faults out.new) result (canonical_text (named_tree formula.now)) }
{
    match formula {
        Named::Pred(name, arguments) => pour_call(name, arguments, page, out),
        Named::Equal(left, right) => pour_equality(left, right, page, out),
        Named::Not(inner) => pour_negation(inner, page, out),
        Named::Both(left, right) => pour_group(left, b" & ", right, page, out),
        Named::Either(left, right) => pour_group(left, b" | ", right, page, out),
        Named::Implies(left, right) => pour_group(left, b" -> ", right, page, out),
        Named::Same(left, right) => pour_group(left, b" <-> ", right, page, out),
        Named::All(name, sort, inner) => pour_quantified(b"all ", name, *sort, inner, page, out),
        Named::Exists(name, sort, inner) => {
            pour_quantified(b"some ", name, *sort, inner, page, out)
        }
    }
}

#[cycle(pour_formulas)]
fn pour_negation<K: Sink>(inner: &Named, page: &mut Page, out: &mut K) -> Result<(), Failed>
    ensures { Pours (K.taken out.old) (K.taken out.new) page.old page.new
        (K.faults out.old) (K.faults out.new) result (codes "!" ++ canonical_text (named_tree inner.now)) }
{
    page.put(out, b"!")?;
    pour_formula(inner, page, out)
}

#[cycle(pour_formulas)]
fn pour_quantified<K: Sink>(
    quantifier: &[u8],
    name: &Name,
    sort: Sort,
    inner: &Named,
    page: &mut Page,
    out: &mut K,
) -> Result<(), Failed>
    ensures { Pours (K.taken out.old) (K.taken out.new) page.old page.new
        (K.faults out.old) (K.faults out.new) result
        (quantifier.now ++ name.now ++ codes ": " ++ word_of_sort sort ++ codes ". "
        ++ canonical_text (named_tree inner.now)) }
{
    pour_binder(quantifier, name, sort, page, out)?;
    pour_formula(inner, page, out)
}

/// Two parts with what stands between them, in brackets.
#[cycle(pour_formulas)]
fn pour_group<K: Sink>(
    left: &Named,
    joint: &[u8],
    right: &Named,
    page: &mut Page,
    out: &mut K,
) -> Result<(), Failed>
    ensures { Pours (K.taken out.old) (K.taken out.new) page.old page.new
        (K.faults out.old) (K.faults out.new) result
        (codes "(" ++ canonical_text (named_tree left.now) ++ joint.now
        ++ canonical_text (named_tree right.now) ++ codes ")") }
{
    page.put(out, b"(")?;
    pour_formula(left, page, out)?;
    page.put(out, joint)?;
    pour_formula(right, page, out)?;
    page.put(out, b")")
}

/// A term.
#[derive(Drop)]
struct TermText<'a>(&'a NamedTerm);

impl Text for TermText<'_> {
    ghost can = { λ _. Unit {0} };

    ghost text = { λ term. term_text (named_term_tree term.0.now) };

    fn pour<K: Sink>(&self, page: &mut Page, out: &mut K) -> Result<(), Failed> {
        pour_term(self.0, page, out)
    }
}

fn pour_equality<K: Sink>(
    left: &NamedTerm,
    right: &NamedTerm,
    page: &mut Page,
    out: &mut K,
) -> Result<(), Failed>
    ensures { Pours (K.taken out.old) (K.taken out.new) page.old page.new
        (K.faults out.old) (K.faults out.new) result
        (term_text (named_term_tree left.now) ++ codes " = " ++ term_text (named_term_tree right.now)) }
{
    Two(Two(TermText(left), Raw(b" = ")), TermText(right)).pour(page, out)
}

#[cycle(pour_terms)]
fn pour_term<K: Sink>(term: &NamedTerm, page: &mut Page, out: &mut K) -> Result<(), Failed>
    ensures { Pours (K.taken out.old) (K.taken out.new) page.old page.new
        (K.faults out.old) (K.faults out.new) result (term_text (named_term_tree term.now)) }
{
    match term {
        NamedTerm::Var(name) => page.put(out, name.bytes()),
        NamedTerm::Voter(number) => pour_voter(*number, page, out),
        NamedTerm::Alt(number) => page.put(out, &[b'@', b'a'.wrapping_add(*number)]),
        NamedTerm::Ballot(letters) => pour_ballot(letters, page, out),
        NamedTerm::Call(name, arguments) => pour_call(name, arguments, page, out),
    }
}

fn pour_voter<K: Sink>(number: u16, page: &mut Page, out: &mut K) -> Result<(), Failed>
    ensures { Pours (K.taken out.old) (K.taken out.new) page.old page.new
        (K.faults out.old) (K.faults out.new) result (codes "#" ++ decimal number) }
{
    Two(Raw(b"#"), Number(u64::from(number))).pour(page, out)
}

fn pour_ballot<K: Sink>(letters: &Name, page: &mut Page, out: &mut K) -> Result<(), Failed>
    ensures { Pours (K.taken out.old) (K.taken out.new) page.old page.new
        (K.faults out.old) (K.faults out.new) result (codes "<" ++ letters.now ++ codes ">") }
{
    Two(Two(Raw(b"<"), Raw(letters.bytes())), Raw(b">")).pour(page, out)
}

/// A function or a predicate at its arguments.
#[cycle(pour_terms)]
fn pour_call<K: Sink>(
    name: &Name,
    arguments: &Terms,
    page: &mut Page,
    out: &mut K,
) -> Result<(), Failed>
    ensures { Pours (K.taken out.old) (K.taken out.new) page.old page.new
        (K.faults out.old) (K.faults out.new) result
        (name.now ++ codes "(" ++ list_text (named_terms_tree arguments.now) ++ codes ")") }
{
    Two(Raw(name.bytes()), Raw(b"(")).pour(page, out)?;
    pour_list(arguments, page, out)?;
    page.put(out, b")")
}

#[cycle(pour_terms)]
fn pour_list<K: Sink>(terms: &Terms, page: &mut Page, out: &mut K) -> Result<(), Failed>
    ensures { Pours (K.taken out.old) (K.taken out.new) page.old page.new
        (K.faults out.old) (K.faults out.new) result (list_text (named_terms_tree terms.now)) }
{
    if terms.len() == 0 {
        return Ok(());
    }
    pour_term(terms.get(0), page, out)?;
    for place in 1..terms.len() {
        let term = terms.get(place);
        page.put(out, b", ")?;
        pour_term(term, page, out)?;
    }
    Ok(())
}
