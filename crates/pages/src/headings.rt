//! The title of a page: what the page says.

ghost use Rattle.std.specs.Prelude.{◌≡◌, ◌++◌, ◌<◌, length, OnOk};
ghost use Rattle.std.specs.Fmt.{decimal};
ghost use Rattle.vocab.specs.Size.{ballot_count};
ghost use Rattle.verdicts.specs.Lines.{name_at};
ghost use Rattle.html.specs.Escapes.{escaped};
ghost use Rattle.pages.specs.Headings.{voter_noun, alternative_noun, voters_html, alternatives_html, away_html, some_ballots_html, domain_html, for_html, between, called_html, listed_name, name_in, names_html, own_name, all_names, none_html, satisfying_html, asked_html, some_rule_html, verdict_claim_html};

use html::{Html, put_number, put_text};
use lists::NoMemory;
use profiles::{Space, ranking_count};
use story_pages::put_axiom;
use verdicts::Verdict;
use vocab::Axiom;

/// Voters, one or several.
fn voter_noun(count: u8) -> &'static [u8]
    ensures { result.now ≡ voter_noun count }
{
    if count == 1 { b" voter" } else { b" voters" }
}

/// Alternatives, one or several.
fn alternative_noun(count: u8) -> &'static [u8]
    ensures { result.now ≡ alternative_noun count }
{
    if count == 1 {
        b" alternative"
    } else {
        b" alternatives"
    }
}

/// Adds voters with their number.
fn put_voters(out: &mut Html, count: u8) -> Result<(), NoMemory>
    ensures { OnOk result (out.new ≡ out.old ++ voters_html count) }
{
    put_number(out, u64::from(count))?;
    out.append(voter_noun(count))?;
    Ok(())
}

/// Adds alternatives with their number.
fn put_alternatives(out: &mut Html, count: u8) -> Result<(), NoMemory>
    ensures { OnOk result (out.new ≡ out.old ++ alternatives_html count) }
{
    put_number(out, u64::from(count))?;
    out.append(alternative_noun(count))?;
    Ok(())
}

/// Adds that voters may stay away, if they may.
fn put_away(out: &mut Html, space: &Space) -> Result<(), NoMemory>
    ensures { OnOk result (out.new ≡ out.old ++ away_html space.now) }
{
    if space.size().absent() {
        return out.append(b", who may stay away,");
    }
    Ok(())
}

/// Adds how many ballots there are.
fn put_ballot_count(out: &mut Html, space: &Space) -> Result<(), NoMemory>
    ensures { OnOk result (out.new ≡ out.old ++ decimal (ballot_count space.now)) }
{
    put_number(out, u64::from(space.ballots()))
}

/// Adds how many rankings may be cast.
fn put_some(out: &mut Html, space: &Space) -> Result<(), NoMemory>
    ensures { OnOk result (out.new ≡ out.old ++ some_ballots_html space.now) }
{
    out.append(b", with ")?;
    put_ballot_count(out, space)?;
    out.append(b" of the rankings as ballots,")?;
    Ok(())
}

/// Adds that not all rankings may be cast, if so.
fn put_domain(out: &mut Html, space: &Space) -> Result<(), NoMemory>
    ensures { OnOk result (out.new ≡ out.old ++ domain_html space.now) }
{
    if space.ballots() == ranking_count(space.alternatives()) {
        return Ok(());
    }
    put_some(out, space)
}

/// Adds the voters of a size.
fn put_size_voters(out: &mut Html, space: &Space) -> Result<(), NoMemory>
    ensures { OnOk result (out.new ≡ out.old ++ voters_html space.now.voters) }
{
    put_voters(out, space.size().voters())
}

/// Adds the alternatives of a size.
fn put_size_alternatives(out: &mut Html, space: &Space) -> Result<(), NoMemory>
    ensures { OnOk result (out.new ≡ out.old ++ alternatives_html space.now.alternatives) }
{
    put_alternatives(out, space.size().alternatives())
}

/// Adds for whom a rule is.
fn put_for(out: &mut Html, space: &Space) -> Result<(), NoMemory>
    ensures { OnOk result (out.new ≡ out.old ++ for_html space.now) }
{
    out.append(b" for ")?;
    put_size_voters(out, space)?;
    put_away(out, space)?;
    out.append(b" and ")?;
    put_size_alternatives(out, space)?;
    put_domain(out, space)?;
    Ok(())
}

/// What stands before a name of some names.
fn between(place: usize, count: usize) -> &'static [u8]
    requires { place < count }
    ensures { result.now ≡ between place count }
{
    if place == 0 {
        return b"";
    }
    if place + 1 == count {
        return b" and ";
    }
    b", "
}

/// Adds the name of the axiom at a place, unmarked.
fn put_bare_name(out: &mut Html, axioms: &[Axiom], place: u32) -> Result<(), NoMemory>
    ensures { OnOk result (out.new ≡ out.old ++ escaped (name_at axioms.now place)) }
{
    match axioms.get(place as usize) {
        Some(axiom) => {
            let name = axiom.name();
            put_text(out, name.bytes())
        }
        None => Ok(()),
    }
}

/// Adds the name of the axiom at a place.
fn put_called(out: &mut Html, marked: bool, axioms: &[Axiom], place: u32) -> Result<(), NoMemory>
    ensures { OnOk result (out.new ≡ out.old ++ called_html marked axioms.now place) }
{
    if marked {
        return put_axiom(out, axioms, place);
    }
    put_bare_name(out, axioms, place)
}

/// Adds the name of an axiom among some names.
fn put_listed_name(
    out: &mut Html,
    marked: bool,
    axioms: &[Axiom],
    count: usize,
    place: usize,
    named: u32,
) -> Result<(), NoMemory>
    requires { place < count }
    ensures { OnOk result (out.new ≡ out.old ++ listed_name marked axioms.now count place named) }
{
    out.append(between(place, count))?;
    put_called(out, marked, axioms, named)?;
    Ok(())
}

/// Adds the name at a place of some axioms.
fn put_name_in(
    out: &mut Html,
    marked: bool,
    axioms: &[Axiom],
    places: &[u32],
    place: usize,
) -> Result<(), NoMemory>
    requires { place < length places.now }
    ensures { OnOk result (out.new ≡ out.old ++ name_in marked axioms.now places.now place) }
{
    match places.get(place) {
        Some(named) => put_listed_name(out, marked, axioms, places.len(), place, *named),
        None => Ok(()),
    }
}

/// Adds the names of some axioms.
fn put_names(out: &mut Html, marked: bool, axioms: &[Axiom], places: &[u32]) -> Result<(), NoMemory>
    ensures { OnOk result (out.new ≡ out.old ++ names_html marked axioms.now places.now) }
{
    let count = places.len();
    for place in 0..count {
        put_name_in(out, marked, axioms, places, place)?;
    }
    Ok(())
}

/// Adds the name of an axiom among those of all.
fn put_own_name(
    out: &mut Html,
    marked: bool,
    axioms: &[Axiom],
    count: u32,
    place: u32,
) -> Result<(), NoMemory>
    requires { place < count }
    ensures { OnOk result (out.new ≡ out.old ++ own_name marked axioms.now count place) }
{
    put_listed_name(out, marked, axioms, count as usize, place as usize, place)
}

/// Adds the names of all axioms.
fn put_all_names(out: &mut Html, marked: bool, axioms: &[Axiom], count: u32) -> Result<(), NoMemory>
    requires { length axioms.now ≡ count }
    ensures { OnOk result (out.new ≡ out.old ++ all_names marked axioms.now) }
{
    for place in 0..count {
        put_own_name(out, marked, axioms, count, place)?;
    }
    Ok(())
}

/// Adds that no rule satisfies some axioms.
fn put_none(
    out: &mut Html,
    marked: bool,
    space: &Space,
    axioms: &[Axiom],
    core: &[u32],
) -> Result<(), NoMemory>
    ensures { OnOk result (out.new ≡ out.old ++ none_html marked axioms.now space.now core.now) }
{
    out.append(b"No rule")?;
    put_for(out, space)?;
    out.append(b" satisfies ")?;
    put_names(out, marked, axioms, core)?;
    Ok(())
}

/// Adds that all axioms are satisfied.
fn put_satisfying(
    out: &mut Html,
    marked: bool,
    axioms: &[Axiom],
    count: u32,
) -> Result<(), NoMemory>
    requires { length axioms.now ≡ count }
    ensures { OnOk result (out.new ≡ out.old ++ satisfying_html marked axioms.now) }
{
    out.append(b" satisfies ")?;
    put_all_names(out, marked, axioms, count)?;
    Ok(())
}

/// Adds that all axioms are satisfied, if there are some.
fn put_asked(out: &mut Html, marked: bool, axioms: &[Axiom], count: u32) -> Result<(), NoMemory>
    requires { length axioms.now ≡ count }
    ensures { OnOk result (out.new ≡ out.old ++ asked_html marked axioms.now) }
{
    if count == 0 {
        return Ok(());
    }
    put_satisfying(out, marked, axioms, count)
}

/// Adds that a rule satisfies all axioms.
fn put_some_rule(
    out: &mut Html,
    marked: bool,
    space: &Space,
    axioms: &[Axiom],
    count: u32,
) -> Result<(), NoMemory>
    requires { length axioms.now ≡ count }
    ensures { OnOk result (out.new ≡ out.old ++ some_rule_html marked axioms.now space.now) }
{
    out.append(b"A rule")?;
    put_for(out, space)?;
    put_asked(out, marked, axioms, count)?;
    Ok(())
}

/// Adds what a verdict says, with or without marks round the names of axioms.
pub(crate) fn put_claim(
    out: &mut Html,
    marked: bool,
    space: &Space,
    axioms: &[Axiom],
    count: u32,
    verdict: &Verdict,
) -> Result<(), NoMemory>
    requires { length axioms.now ≡ count }
    ensures { OnOk result (out.new ≡ out.old ++ verdict_claim_html marked axioms.now space.now verdict.now) }
{
    match verdict {
        Verdict::Possible(_) => put_some_rule(out, marked, space, axioms, count),
        Verdict::Impossible { core, .. } => put_none(out, marked, space, axioms, core.as_slice()),
        Verdict::Undecided => out.append(b"No claim"),
    }
}
