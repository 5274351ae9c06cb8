//! Facts, claim by claim.

ghost use Rattle.std.specs.Prelude.{◌≡◌, ◌++◌, ℕ, List, count_by, OnOk};
ghost use Rattle.std.specs.List.{flat_map};
ghost use Rattle.vocab.specs.declared.literals.Literal.{Literal};
ghost use Rattle.vocab.specs.Range.{below};
ghost use Rattle.story_pages.specs.Claims.{is_alike, is_stated, above_html, winning_html, claims_html, unfolded_html, begin_fold_html, end_fold_html, start_html, some_html, profile_or_ballots_html, at_html, listed_html, some_held, held_html, facts_html, said_html, alone_html, alone_claims_html, placed_html, some_stated, stated_html, stated_facts_html};

use html::{Html, profile_of, put_ballots, put_claim, put_number, put_profile};
use lists::NoMemory;
use profiles::Space;
use tellings::Placed;
use vocab::{Kind, Literal};

/// What is said of each claim.
trait Phrases {
    /// The text that is said of a claim.
    ghost phrase: { Self → Literal → List ℕ };

    /// Adds what is said of a claim.
    fn put_phrase(&self, out: &mut Html, head: &Literal) -> Result<(), NoMemory>
        ensures { OnOk result (out.new ≡ out.old ++ phrase self.now head.now) };
}

/// Adds what is said of an alternative that stands above another.
fn put_above<P: Phrases>(out: &mut Html, space: &Space, phrases: &P, x: u8) -> Result<(), NoMemory>
    ensures { OnOk result (out.new ≡ out.old ++
        above_html space.now.alternatives (P.phrase phrases.now) x) }
{
    let count = space.size().alternatives();
    for y in 0..count {
        phrases.put_phrase(out, &Literal::Above(x, y, 0))?;
    }
    Ok(())
}

/// Adds what is said of all alternatives that stand above another.
fn put_all_above<P: Phrases>(out: &mut Html, space: &Space, phrases: &P) -> Result<(), NoMemory>
    ensures { OnOk result (out.new ≡ out.old ++
        flat_map (above_html space.now.alternatives (P.phrase phrases.now)) (below space.now.alternatives)) }
{
    let count = space.size().alternatives();
    for x in 0..count {
        put_above(out, space, phrases, x)?;
    }
    Ok(())
}

/// Adds what is said of an alternative that wins, or does not.
fn put_winning<P: Phrases>(out: &mut Html, phrases: &P, x: u8) -> Result<(), NoMemory>
    ensures { OnOk result (out.new ≡ out.old ++ winning_html (P.phrase phrases.now) x) }
{
    phrases.put_phrase(out, &Literal::Wins(x, 0))?;
    phrases.put_phrase(out, &Literal::Loses(x, 0))?;
    Ok(())
}

/// Adds what is said of all alternatives that win, or do not.
fn put_all_winning<P: Phrases>(out: &mut Html, space: &Space, phrases: &P) -> Result<(), NoMemory>
    ensures { OnOk result (out.new ≡ out.old ++
        flat_map (winning_html (P.phrase phrases.now)) (below space.now.alternatives)) }
{
    let count = space.size().alternatives();
    for x in 0..count {
        put_winning(out, phrases, x)?;
    }
    Ok(())
}

/// Adds what is said of all claims of a kind.
fn put_claims<P: Phrases>(
    out: &mut Html,
    space: &Space,
    phrases: &P,
    kind: Kind,
) -> Result<(), NoMemory>
    ensures { OnOk result (out.new ≡ out.old ++
        claims_html space.now.alternatives (P.phrase phrases.now) kind) }
{
    match kind {
        Kind::Choice => put_all_winning(out, space, phrases),
        Kind::Ranking => put_all_above(out, space, phrases),
        Kind::Sets => put_all_winning(out, space, phrases),
    }
}

/// Whether two literals claim the same, each of its own profile.
fn is_alike(head: &Literal, literal: &Literal) -> bool
    ensures { result ≡ is_alike head.now literal.now }
{
    match (*head, *literal) {
        (Literal::Wins(x, _), Literal::Wins(y, _)) => x == y,
        (Literal::Loses(x, _), Literal::Loses(y, _)) => x == y,
        (Literal::Above(x, y, _), Literal::Above(v, w, _)) => x == v && y == w,
        _ => false,
    }
}

/// Adds the head of so many folded profiles.
fn put_unfolded(out: &mut Html, count: usize) -> Result<(), NoMemory>
    ensures { OnOk result (out.new ≡ out.old ++ unfolded_html count) }
{
    out.append(b" <details><summary>")?;
    put_number(out, count as u64)?;
    out.append(b" profiles</summary><code>")?;
    Ok(())
}

/// Adds the head of so many profiles: more than six are folded.
fn put_fold(out: &mut Html, count: usize) -> Result<(), NoMemory>
    ensures { OnOk result (out.new ≡ out.old ++ begin_fold_html count) }
{
    if count > 6 {
        return put_unfolded(out, count);
    }
    Ok(())
}

/// Adds the end of so many profiles.
fn put_end_fold(out: &mut Html, count: usize) -> Result<(), NoMemory>
    ensures { OnOk result (out.new ≡ out.old ++ end_fold_html count) }
{
    if count > 6 {
        return out.append(b"</code></details></div>");
    }
    out.append(b"</div>")
}

/// Adds a claim that is made so often, up to the profiles.
fn put_start(out: &mut Html, space: &Space, head: &Literal, count: usize) -> Result<(), NoMemory>
    ensures { OnOk result (out.new ≡ out.old ++ start_html space.now head.now count) }
{
    out.append(b"<div>")?;
    put_claim(out, space.size().kind(), head)?;
    out.append(b" at")?;
    put_fold(out, count)?;
    Ok(())
}

/// Adds a profile: one of more than six stands in a fold.
fn put_spot(out: &mut Html, space: &Space, count: usize, p: u32) -> Result<(), NoMemory>
    ensures { OnOk result (out.new ≡ out.old ++ profile_or_ballots_html space.now count p) }
{
    if count > 6 {
        return put_ballots(out, space, p);
    }
    put_profile(out, space, p)
}

/// Adds the profile of a fact, of so many that make a claim.
fn put_at(out: &mut Html, space: &Space, count: usize, literal: &Literal) -> Result<(), NoMemory>
    ensures { OnOk result (out.new ≡ out.old ++ at_html space.now count literal.now) }
{
    out.append(b" ")?;
    put_spot(out, space, count, profile_of(literal))?;
    Ok(())
}

/// How many facts make a claim.
fn count_alike(facts: &[Literal], head: &Literal) -> usize
    ensures { result ≡ count_by (is_alike head.now) facts.now }
{
    let mut count = 0;
    for fact in facts {
        if is_alike(head, fact) {
            count += 1;
        }
    }
    count
}

/// Adds the profile of a fact, if it makes a claim.
fn put_listed(
    out: &mut Html,
    space: &Space,
    count: usize,
    head: &Literal,
    fact: &Literal,
) -> Result<(), NoMemory>
    ensures { OnOk result (out.new ≡ out.old ++ listed_html space.now count head.now fact.now) }
{
    if !is_alike(head, fact) {
        return Ok(());
    }
    put_at(out, space, count, fact)
}

/// Adds the profiles of the facts that make a claim, which are so many.
fn put_all_listed(
    out: &mut Html,
    space: &Space,
    facts: &[Literal],
    head: &Literal,
    count: usize,
) -> Result<(), NoMemory>
    ensures { OnOk result (out.new ≡ out.old ++
        flat_map (listed_html space.now count head.now) facts.now) }
{
    for fact in facts {
        put_listed(out, space, count, head, fact)?;
    }
    Ok(())
}

/// Adds the facts that make a claim, which are so many.
fn put_some_held(
    out: &mut Html,
    space: &Space,
    facts: &[Literal],
    head: &Literal,
    count: usize,
) -> Result<(), NoMemory>
    ensures { OnOk result (out.new ≡ out.old ++
        some_html space.now head.now count (flat_map (listed_html space.now count head.now) facts.now)) }
{
    put_start(out, space, head, count)?;
    put_all_listed(out, space, facts, head, count)?;
    put_end_fold(out, count)?;
    Ok(())
}

/// Facts in a list, claim by claim.
#[derive(Drop)]
struct Listed<'a> {
    space: &'a Space,
    facts: &'a [Literal],
}

impl Phrases for Listed<'_> {
    ghost phrase = { λ listed head. held_html listed.space.now listed.facts.now head };

    fn put_phrase(&self, out: &mut Html, head: &Literal) -> Result<(), NoMemory> {
        let count = count_alike(self.facts, head);
        if count == 0 {
            return Ok(());
        }
        put_some_held(out, self.space, self.facts, head, count)
    }
}

/// Adds facts, claim by claim.
pub(crate) fn put_facts(out: &mut Html, space: &Space, facts: &[Literal]) -> Result<(), NoMemory>
    ensures { OnOk result (out.new ≡ out.old ++ facts_html space.now facts.now) }
{
    let listed = Listed { space, facts };
    put_claims(out, space, &listed, space.size().kind())
}

/// Adds a claim alone.
fn put_said(out: &mut Html, space: &Space, head: &Literal) -> Result<(), NoMemory>
    ensures { OnOk result (out.new ≡ out.old ++ said_html space.now head.now) }
{
    out.append(b"<div>")?;
    put_claim(out, space.size().kind(), head)?;
    out.append(b"</div>")?;
    Ok(())
}

/// The claims of facts in a list, without profiles.
#[derive(Drop)]
struct Alone<'a> {
    space: &'a Space,
    facts: &'a [Literal],
}

impl Phrases for Alone<'_> {
    ghost phrase = { λ alone head. alone_html alone.space.now alone.facts.now head };

    fn put_phrase(&self, out: &mut Html, head: &Literal) -> Result<(), NoMemory> {
        if count_alike(self.facts, head) == 0 {
            return Ok(());
        }
        put_said(out, self.space, head)
    }
}

/// Adds the claims that facts make, without profiles.
pub(crate) fn put_alone_claims(
    out: &mut Html,
    space: &Space,
    facts: &[Literal],
) -> Result<(), NoMemory>
    ensures { OnOk result (out.new ≡ out.old ++ alone_claims_html space.now facts.now) }
{
    let alone = Alone { space, facts };
    put_claims(out, space, &alone, space.size().kind())
}

/// Whether the sentence of a number makes a claim by a step.
fn is_stated(number: usize, head: &Literal, placed: &Placed) -> bool
    ensures { result ≡ is_stated number head.now placed.now }
{
    placed.sentence as usize == number && is_alike(head, &placed.step.literal)
}

/// By how many steps the sentence of a number makes a claim.
fn count_stated(steps: &[Placed], number: usize, head: &Literal) -> usize
    ensures { result ≡ count_by (is_stated number head.now) steps.now }
{
    let mut count = 0;
    for placed in steps {
        if is_stated(number, head, placed) {
            count += 1;
        }
    }
    count
}

/// Adds the profile of a step, if the sentence of a number makes a claim by it.
fn put_placed(
    out: &mut Html,
    space: &Space,
    count: usize,
    number: usize,
    head: &Literal,
    placed: &Placed,
) -> Result<(), NoMemory>
    ensures { OnOk result (out.new ≡ out.old ++
        placed_html space.now count number head.now placed.now) }
{
    if !is_stated(number, head, placed) {
        return Ok(());
    }
    put_at(out, space, count, &placed.step.literal)
}

/// Adds the profiles of the steps by which the sentence of a number makes a claim, which are so many.
fn put_all_placed(
    out: &mut Html,
    space: &Space,
    steps: &[Placed],
    number: usize,
    head: &Literal,
    count: usize,
) -> Result<(), NoMemory>
    ensures { OnOk result (out.new ≡ out.old ++
        flat_map (placed_html space.now count number head.now) steps.now) }
{
    for placed in steps {
        put_placed(out, space, count, number, head, placed)?;
    }
    Ok(())
}

/// Adds the facts by which the sentence of a number makes a claim, which are so many.
fn put_some_stated(
    out: &mut Html,
    space: &Space,
    steps: &[Placed],
    number: usize,
    head: &Literal,
    count: usize,
) -> Result<(), NoMemory>
    ensures { OnOk result (out.new ≡ out.old ++
        some_html space.now head.now count
        (flat_map (placed_html space.now count number head.now) steps.now)) }
{
    put_start(out, space, head, count)?;
    put_all_placed(out, space, steps, number, head, count)?;
    put_end_fold(out, count)?;
    Ok(())
}

/// The facts that the sentence of a number states, claim by claim.
#[derive(Drop)]
struct Stated<'a> {
    space: &'a Space,
    steps: &'a [Placed],
    number: usize,
}

impl Phrases for Stated<'_> {
    ghost phrase = { λ stated head. stated_html stated.space.now stated.steps.now stated.number head };

    fn put_phrase(&self, out: &mut Html, head: &Literal) -> Result<(), NoMemory> {
        let count = count_stated(self.steps, self.number, head);
        if count == 0 {
            return Ok(());
        }
        put_some_stated(out, self.space, self.steps, self.number, head, count)
    }
}

/// Adds the facts that the sentence of a number states, claim by claim.
pub(crate) fn put_stated_facts(
    out: &mut Html,
    space: &Space,
    steps: &[Placed],
    number: usize,
) -> Result<(), NoMemory>
    ensures { OnOk result (out.new ≡ out.old ++ stated_facts_html space.now steps.now number) }
{
    let stated = Stated {
        space,
        steps,
        number,
    };
    put_claims(out, space, &stated, space.size().kind())
}
