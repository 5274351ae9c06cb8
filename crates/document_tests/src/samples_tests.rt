//! Numbers, and the study that each of them has.

use crate::fixtures::push_names;
use samples::sample;
use std::alloc::{AllocError, Global};
use std::test::Fail;
use vocab::{Kind, Study};

/// A number, and the kind, the numbers and the axioms of its study.
static SAMPLES: [(u32, &str); 6] = [
    (0, "choice 2 3 20000"),
    (2, "choice 3 3 20000"),
    (112, "choice 2 3 20000 onto non_dictatorship strategyproof"),
    (
        4_294_967_294,
        "choice 3 3 20000 unanimity pareto onto non_dictatorship strategyproof maskin condorcet anonymity neutrality",
    ),
    (29, "ranking 2 3 20000 pareto independence non_dictatorship"),
    (
        4_294_967_295,
        "ranking 3 3 20000 pareto independence non_dictatorship anonymity neutrality",
    ),
];

// The table is handed out as a slice, so that the proof of a test need not read it.
fn samples_of() -> &'static [(u32, &'static str)] {
    &SAMPLES
}

/// The word of a kind.
fn word(kind: Kind) -> &'static str {
    match kind {
        Kind::Choice => "choice",
        Kind::Ranking => "ranking",
        Kind::Sets => "sets",
    }
}

/// The kind and the numbers of a study, and the names of its axioms.
fn shown(alloc: Global, study: &Study) -> Result<String, AllocError> {
    let kind = word(study.size().kind());
    let voters = study.size().voters();
    let alternatives = study.size().alternatives();
    let conflicts = study.conflicts();
    let mut text = format!(in alloc; "{kind} {voters} {alternatives} {conflicts}")?;
    push_names(&mut text, study)?;
    Ok(text)
}

/// Whether this is said of the study of a number.
fn is_shown(alloc: Global, number: u32, wanted: &str) -> Result<bool, Fail> {
    let study = sample(alloc, number)?;
    Ok(shown(alloc, &study)?.as_str() == wanted)
}

#[test]
fn numbers_have_studies(rt: HostRuntime) -> Result<(), Fail> {
    for (number, wanted) in samples_of() {
        assert!(rt; is_shown(rt.alloc(), *number, wanted)?);
    }
    Ok(())
}
