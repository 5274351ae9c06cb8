//! Studies and proofs by their texts, and the clauses of studies.

ghost use Rattle.std.specs.Prelude.{◌≡◌, ◌<◌, ◌≤◌, ◌-◌, ◌^◌, None, length, IfOk, IsTrue};
ghost use Rattle.std.specs.List.{list_all};
ghost use Rattle.lrat_check.specs.Ranges.{has_next};
ghost use Rattle.cnf.specs.Fresh.{AreOver};
ghost use Rattle.clause_form.specs.Refusals.{first_wide};
ghost use Rattle.meaning.specs.StudyClauses.{study_clauses};
ghost use Rattle.search_logs.specs.Spent.{all_places};
ghost use Rattle.verdicts.specs.Laws.{IsReportable};
ghost use Rattle.vocab.specs.Study.{HasFewAxioms};

use clause_form::Ground;
use clause_text::read_lrat;
use cnf::Derivation;
use crew::Crew;
use edge::Open;
use grounding::ground;
use outcomes::OutcomeKind;
use search_logs::all_places;
use std::alloc::Global;
use std::test::Fail;
use std::thread::Threads;
use study::read_study;
use vocab::Study;

/// The study that a text says, which is one that reports speak of.
fn given(alloc: Global, text: &str) -> Result<Study, Fail>
    ensures reportable { IfOk result IsReportable }
    ensures listed { IfOk result HasFewAxioms }
{
    match read_study(alloc, text.as_bytes()) {
        Ok(study) => Ok(study),
        Err(_) => Err(Fail::from("study")),
    }
}

/// The same in a box.
pub fn study_of(alloc: Global, text: &str) -> Result<Box<Study>, Fail>
    ensures reportable { IfOk result (λ study. IsReportable study.value) }
    ensures listed { IfOk result (λ study. HasFewAxioms study.value) }
{
    let study = given(alloc, text)?;
    Ok(Box::new(alloc, study)?)
}

/// The clauses of all axioms of a study, made by one worker.
pub fn clauses_of<R: Threads + Sync, K: OutcomeKind>(
    rt: &R,
    alloc: Global,
    kind: &K,
    study: &Study,
) -> Result<Ground, Fail>
    requires size { study.now.size ≡ K.size kind.now }
    ensures made { IfOk result (λ made. made ≡
        study_clauses study.now.size study.now.axioms (all_places study.now)) }
    ensures narrow { IfOk result
        (λ _. first_wide study.now.size study.now.axioms (all_places study.now) ≡ None) }
{
    let crew = Crew {
        rt,
        gate: &Open,
        workers: 1,
    };
    let all = all_places(alloc, study)?;
    match ground(alloc, &crew, kind, study, &all) {
        Ok(made) => Ok(made),
        Err(_) => Err(Fail::from("clauses")),
    }
}

/// The lines of a text of at most 1,000 bytes.
pub fn lines_of(alloc: Global, text: &str, variables: u32) -> Result<Derivation, Fail>
    requires { variables ≤ 10000000 }
    ensures over { IfOk result (AreOver variables) }
    ensures numbers { IfOk result (λ lines. IsTrue (list_all has_next lines)) }
    ensures few { IfOk result (λ lines. length lines < 2 ^ 32 - 1) }
{
    let bytes = text.as_bytes();
    if bytes.len() > 1000 {
        return Err(Fail::from("a long text"));
    }
    match read_lrat(alloc, bytes, variables) {
        Ok(lines) => Ok(lines),
        Err(_) => Err(Fail::from("lines")),
    }
}
