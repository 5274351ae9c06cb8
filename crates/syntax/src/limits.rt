//! How deep a sentence is, and how many quantifiers stand on one path.

ghost use Rattle.std.specs.Prelude.{◌≡◌, ◌≤◌, nat_le};
ghost use Rattle.vocab.specs.NamedView.{named_term_tree, named_terms_tree, named_tree};
ghost use Rattle.vocab.specs.NamedDepth.{term_depth, terms_depth, named_depth, quantifiers};

use vocab::{Named, NamedTerm, Terms};

/// Whether the term is at most so deep.
#[cycle(depths)]
fn term_fits(term: &NamedTerm, most: u8) -> bool
    ensures { result ≡ nat_le (term_depth (named_term_tree term.now)) most }
{
    if most == 0 {
        return false;
    }
    match term {
        NamedTerm::Var(_) | NamedTerm::Voter(_) | NamedTerm::Alt(_) | NamedTerm::Ballot(_) => true,
        NamedTerm::Call(_, parts) => terms_fit(parts, most - 1),
    }
}

#[cycle(depths)]
fn terms_fit(terms: &Terms, most: u8) -> bool
    ensures { result ≡ nat_le (terms_depth (named_terms_tree terms.now)) most }
{
    for place in 0..terms.len() {
        if !term_fits(terms.get(place), most) {
            return false;
        }
    }
    true
}

/// Whether the sentence is at most so deep.
pub fn fits(sentence: &Named, most: u8) -> bool
    ensures { result ≡ nat_le (named_depth (named_tree sentence.now)) most }
{
    if most == 0 {
        return false;
    }
    match sentence {
        Named::Pred(_, parts) => terms_fit(parts, most - 1),
        Named::Equal(left, right) => term_fits(left, most - 1) && term_fits(right, most - 1),
        Named::Not(inner) => fits(inner, most - 1),
        Named::Both(left, right)
        | Named::Either(left, right)
        | Named::Implies(left, right)
        | Named::Same(left, right) => fits(left, most - 1) && fits(right, most - 1),
        Named::All(_, _, inner) | Named::Exists(_, _, inner) => fits(inner, most - 1),
    }
}

/// Whether at most so many quantifiers stand on one path.
pub fn has_few(sentence: &Named, most: u8) -> bool
    ensures { result ≡ nat_le (quantifiers (named_tree sentence.now)) most }
{
    match sentence {
        Named::Pred(_, _) | Named::Equal(_, _) => true,
        Named::Not(inner) => has_few(inner, most),
        Named::Both(left, right)
        | Named::Either(left, right)
        | Named::Implies(left, right)
        | Named::Same(left, right) => has_few(left, most) && has_few(right, most),
        Named::All(_, _, inner) | Named::Exists(_, _, inner) => {
            most != 0 && has_few(inner, most - 1)
        }
    }
}
