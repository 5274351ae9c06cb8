//! The instances whose clauses a proof names.

ghost use Rattle.std.specs.Prelude.{◌≡◌, length, IfOk};
ghost use Rattle.meaning.specs.StudyClauses.{Sourced};
ghost use Rattle.retell.specs.Cited.{HaveInstances};
ghost use Rattle.instance_cores.specs.Cores.{AreCodes, AreInstancesCited};

use crate::refuted::RefutedStudy;
use clause_form::Ground;
use instance_stories::{code_of, rising};
use lists::NoMemory;
use meaning::Origin;
use outcomes::OutcomeKind;
use renumbering::flags_of;
use sharp_verdicts::{Cited, Instances};
use std::alloc::Global;
use vocab::Study;

/// The numbers of the instances of which the clauses come whose flags are up.
fn codes_of(
    alloc: Global,
    study: &Study,
    clauses: &Ground,
    flags: &[bool],
) -> Result<Vec<u64>, NoMemory>
    requires count { length flags.now ≡ length clauses.now }
    requires instances { HaveInstances study.now.size study.now.axioms clauses.now }
    ensures { IfOk result
        (λ codes. AreCodes study.now clauses.now flags.now (length clauses.now) codes.items) }
{
    // Its contract says that the study is one.
    let _axioms = study.axioms();
    let mut codes = Vec::new(alloc);
    for k in 0..clauses.clauses().len() {
        if !flags[k as usize] {
            continue;
        }
        if let Origin::Instance { axiom: a, number } = clauses.origin(k) {
            codes.push(code_of(Cited { axiom: a, number }))?;
        }
    }
    Ok(codes)
}

/// The instances of which a hint of a refutation's proof names a clause, by axiom and number, each once.
pub fn instances_cited<K: OutcomeKind>(
    alloc: Global,
    refuted: &RefutedStudy<K>,
) -> Result<Instances, NoMemory>
    ensures { IfOk result (AreInstancesCited refuted.now.setting.now.study.now
        refuted.now.refutation.now.clauses refuted.now.refutation.now.proof) }
{
    let study = refuted.setting.study;
    // Its contract says that the study is one.
    let _axioms = study.axioms();
    let refutation = refuted.refutation;
    let count = refutation.clauses.clauses().len();
    let flags = flags_of(alloc, count, refutation.proof.as_slice())?;
    let mut codes = codes_of(alloc, study, &refutation.clauses, flags.as_slice())?;
    let instances = rising(alloc, &mut codes)?;
    Ok(instances)
}
