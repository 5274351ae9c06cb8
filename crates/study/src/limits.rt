//! How large the sentences of a study may be.

ghost use Rattle.std.specs.Prelude.{◌≡◌};
ghost use Rattle.vocab.specs.Limits.{instance_count, atom_count};
ghost use Rattle.vocab.specs.Tree.{tree_of};
ghost use Rattle.study.specs.Refusing.{Gives};
ghost use Rattle.study.specs.Sentences.{told_count, limit_number, count_of, limit_refusal, opened, within};
ghost use Rattle.study.specs.Steps.{fitting};

use crate::faults::StudyFault;
use vocab::{Axiom, Formula, Name, Size};

/// What is limited of an axiom: its instances, the atoms of its body, and those of the whole, quantifiers
/// written out.
#[derive(Clone, Copy)]
enum Limit {
    Instances,
    Body,
    Work,
}

/// How many instances a sentence has, at most 2^64 - 1.
#[tactic(auto, using(crate::proofs::Counting::told_times))]
pub fn instances(size: Size, sentence: &Formula) -> u64
    ensures { result ≡ told_count (instance_count size (tree_of sentence.now)) }
{
    match sentence {
        Formula::All(sort, inner) => {
            let values = size.sort_len(*sort) as u64;
            values.saturating_mul(instances(size, inner))
        }
        _ => 1,
    }
}

/// How many atoms a formula has, quantifiers written out, at most 2^64 - 1.
#[tactic(auto, using(crate::proofs::Counting::told_times, crate::proofs::Counting::told_plus))]
pub fn atoms(size: Size, formula: &Formula) -> u64
    ensures { result ≡ told_count (atom_count size (tree_of formula.now)) }
{
    match formula {
        Formula::Leaf(_) => 1,
        Formula::Not(inner) => atoms(size, inner),
        Formula::Both(left, right)
        | Formula::Either(left, right)
        | Formula::Implies(left, right)
        | Formula::Same(left, right) => atoms(size, left).saturating_add(atoms(size, right)),
        Formula::All(sort, inner) | Formula::Exists(sort, inner) => {
            let values = size.sort_len(*sort) as u64;
            values.saturating_mul(atoms(size, inner))
        }
    }
}

/// The most that is allowed.
fn most(limit: Limit) -> u64
    ensures { result ≡ limit_number limit }
{
    match limit {
        Limit::Instances => 40_000_000,
        Limit::Body => 1_000_000,
        Limit::Work => 200_000_000,
    }
}

/// What is limited, counted.
fn count(limit: Limit, size: Size, sentence: &Formula) -> u64
    ensures { result ≡ told_count (count_of size limit (tree_of sentence.now)) }
{
    match limit {
        Limit::Instances => instances(size, sentence),
        Limit::Body => atoms(size, sentence.body()),
        Limit::Work => atoms(size, sentence),
    }
}

/// What is refused where the limit is passed.
fn refusal(limit: Limit, name: Name, count: u64) -> StudyFault
    ensures { result ≡ limit_refusal limit name count }
{
    match limit {
        Limit::Instances => StudyFault::Instances(name, count),
        Limit::Body => StudyFault::Body(name, count),
        Limit::Work => StudyFault::Work(name, count),
    }
}

/// Refuses the first axiom that passes a limit.
fn within(limit: Limit, size: Size, axioms: &[Axiom]) -> Result<(), StudyFault>
    ensures { result ≡ within size limit axioms.now }
{
    let most = most(limit);
    for named in axioms {
        let count = count(limit, size, named.sentence());
        if count > most {
            return Err(refusal(limit, named.name(), count));
        }
    }
    Ok(())
}

/// Refuses the first axiom that exchanges alternatives in a profile, where not every ranking may be cast.
fn opened(size: Size, axioms: &[Axiom]) -> Result<(), StudyFault>
    ensures { result ≡ opened size axioms.now }
{
    for named in axioms {
        if !size.has_all_ballots() && named.sentence().swaps_alts() {
            return Err(StudyFault::Open(named.name()));
        }
    }
    Ok(())
}

/// Refuses the first axiom that exchanges alternatives where it may not, and then the first that passes a
/// limit, one limit after the other.
pub(crate) fn fitting(size: Size, axioms: &[Axiom]) -> Result<(), StudyFault>
    ensures { Gives (fitting size axioms.now) result }
{
    opened(size, axioms)?;
    within(Limit::Instances, size, axioms)?;
    within(Limit::Body, size, axioms)?;
    within(Limit::Work, size, axioms)?;
    Ok(())
}
