//! How often the lemmas of a story are used, and by which.

ghost use Rattle.std.specs.Prelude.{◌≡◌, ◌==◌, [], ◌∷◌, length, Some, IfOk, if◌then◌else◌};
ghost use Rattle.std.specs.List.{flat_map};
ghost use Rattle.tellings.specs.Tellings.{naming, namings};
ghost use Rattle.premises.specs.Uses.{also, AreNamed, AreUses};

use lists::NoMemory;
use meaning::{Lemma, Reason};
use std::alloc::Global;
use tellings::{Placed, Telling};

/// By which lemmas one is named: by none, once by the one at a place, or more often.
#[derive(Clone, Copy)]
pub(crate) enum Use {
    Never,
    Once(usize),
    Often,
}

/// The use of a lemma that the one at a place names too.
fn also(used: Use, place: usize) -> Use
    ensures { result ≡ also used place }
{
    match used {
        Use::Never => Use::Once(place),
        Use::Once(_) => Use::Often,
        Use::Often => Use::Often,
    }
}

/// Counts the lemma that the one at a place names.
fn count_one(uses: &mut Vec<Use>, place: usize, named: u32)
    ensures size { length uses.new.items ≡ length uses.old.items }
    ensures named { AreNamed uses.old.items uses.new.items (λ j. if named == j then place ∷ [] else []) }
{
    let named = named as usize;
    if named < uses.len() {
        uses[named] = also(uses[named], place);
    }
}

/// Counts what a reason of the lemma at a place names.
fn count(uses: &mut Vec<Use>, place: usize, reason: &Reason)
    ensures size { length uses.new.items ≡ length uses.old.items }
    ensures named { AreNamed uses.old.items uses.new.items (λ j. naming j place reason.now) }
{
    match *reason {
        Reason::Axiom(_, _) => {}
        Reason::Outcome(_) => {}
        Reason::Lemma(named) => count_one(uses, place, named),
    }
}

/// Counts what steps of the lemma at a place name.
fn count_steps(uses: &mut Vec<Use>, place: usize, steps: &[Placed])
    ensures size { length uses.new.items ≡ length uses.old.items }
    ensures named { AreNamed uses.old.items uses.new.items
        (λ j. flat_map (λ placed. naming j place placed.step.reason) steps.now) }
{
    for placed in steps {
        count(uses, place, &placed.step.reason);
    }
}

/// Counts what the lemma at a place names.
fn count_all(uses: &mut Vec<Use>, place: usize, lemma: &Lemma, telling: &Telling)
    ensures size { length uses.new.items ≡ length uses.old.items }
    ensures named { AreNamed uses.old.items uses.new.items
        (λ j. namings j place (Some lemma.now) (Some telling.now)) }
{
    count_steps(uses, place, telling.passage.steps.as_slice());
    count(uses, place, &lemma.last);
}

/// The use of each lemma of a story that is told so.
pub(crate) fn uses_of(
    alloc: Global,
    story: &[Lemma],
    tellings: &[Telling],
) -> Result<Vec<Use>, NoMemory>
    requires { length tellings.now ≡ length story.now }
    ensures { IfOk result (λ uses. AreUses story.now tellings.now uses.items) }
{
    let mut uses = vec![in alloc; Use::Never; story.len()]?;
    for place in 0..story.len() {
        count_all(&mut uses, place, &story[place], &tellings[place]);
    }
    Ok(uses)
}
