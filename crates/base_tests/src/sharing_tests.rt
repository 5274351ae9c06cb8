//! What workers on several threads read and give is Send and Sync. A type that is not would not compile here.

use crate::vocab_tests::{axiom_of, study_of};
use cnf::{Clauses, Lit, Store};
use crew::Crew;
use edge::Open;
use meaning::{Counts, Origin};
use profiles::Space;
use std::test::Fail;
use vocab::{Axiom, Kind, Name, Places, Size, Study, Table};

/// Takes what workers on several threads may read.
fn share<T: Send + Sync>(_shared: &T) {}

/// Shares an axiom and its parts.
fn share_axiom(axiom: &Axiom) {
    share(&axiom.name());
    share(axiom.sentence());
    share(axiom);
}

/// Shares a study and its size.
fn share_study(study: &Study) {
    share(&study.size());
    share(&Space::new(study.size()));
    share(study);
}

#[test]
fn studies_and_their_parts_are_shared(rt: HostRuntime) -> Result<(), Fail> {
    let name = Name::new(b"a_wins").ok_or("a name")?;
    let size = Size::check(Kind::Choice, 2, 2).ok().ok_or("a size")?;
    let axiom = axiom_of(rt.alloc(), name)?;
    share_axiom(&axiom);
    let study = study_of(rt.alloc(), size)?;
    share_study(&study);
    Ok(())
}

#[test]
fn tables_and_clauses_are_shared(rt: HostRuntime) {
    share(&Table::new(rt.alloc()));
    share(&Places::new(rt.alloc()));
    share(&Lit::new(1, true));
    share(&Store::new(rt.alloc()));
    share(&Clauses::new(rt.alloc()));
    share(&Origin::Frame(0));
    share(&Counts {
        clauses: 0,
        literals: 0,
    });
    let crew = Crew {
        rt: &rt,
        gate: &Open,
        workers: 1,
    };
    share(&crew);
}
