//! Studies sharpened by a given proof, and the texts of what they come to.

ghost use Rattle.std.specs.Prelude.{◌≡◌, IfOk};
ghost use Rattle.sharp_verdicts.specs.Sharpened.{IsSharpened};
ghost use Rattle.verdicts.specs.Laws.{IsReportable};
ghost use Rattle.vocab.specs.Study.{HasFewAxioms};

use crate::studies_by_text::{clauses_of, lines_of, study_of};
use core_reduce::{Reduced, reduce, variables};
use crew::Crew;
use edge::{MemorySink, Open};
use instance_cores::RefutedStudy;
use instance_totals::check_total;
use lrat_check::check;
use meaning::Witness;
use outcomes::{ChoiceKind, OutcomeKind, RankingKind, Setting};
use profiles::Space;
use search_logs::all_places;
use sharp_text::laws::right_sharp_verdicts_have_texts;
use sharp_text::pour_sharp;
use sharp_verdicts::Sharp;
use sharpen::sharpen;
use std::alloc::Global;
use std::test::Fail;
use std::thread::Threads;
use texts::Page;
use vocab::{Kind, Study};

/// Anonymity and neutrality for two voters and two alternatives. Variables 1 and 2 say that a and b win at
/// ab|ab, 3 and 4 at ab|ba, 5 and 6 at ba|ab, and 7 and 8 at ba|ba. The clauses 9 to 12 are anonymity's, and
/// 13 to 20 neutrality's.
const SYMMETRIC: &str =
    "kind = \"choice\"\nvoters = 2\nalternatives = 2\naxioms = [\"anonymity\", \"neutrality\"]\n";

/// If a won at ab|ba, then it would at ba|ab by anonymity, and b by neutrality. So b wins at ab|ba, and both
/// at ba|ab.
const SYMMETRIC_PROOF: &str = "21 -3 0 9 17 6 0\n22 0 21 3 11 19 6 0\n";

/// One instance of each axiom is needed.
const SYMMETRIC_FRONT: &str =
    "bench sharp 1\nkind choice\nvoters 2\nalternatives 2\naxioms anonymity neutrality\nverdict impossible\ncore anonymity neutrality\n";

/// For one voter and two alternatives, where variables 1 and 2 say that a stands above b at ab and ba: at
/// ab it does not; and it does at both, as it does at one and both agree. A search may learn one clause.
const HASTY: &str =
    "kind = \"ranking\"\nvoters = 1\nalternatives = 2\nconflicts = 1\naxioms = [\"never\", \"always\"]\n[sentences]\nnever = \"all p: profile. !ranks(@a, @b, with(p, #1, <ab>))\"\nalways = \"all p: profile. ((ranks(@a, @b, with(p, #1, <ab>)) <-> ranks(@a, @b, with(p, #1, <ba>))) & (ranks(@a, @b, with(p, #1, <ab>)) | ranks(@a, @b, with(p, #1, <ba>))))\"\n";

/// The empty clause by the first clause, the third and the fourth.
const HASTY_PROOF: &str = "5 0 1 3 4 0\n";

const HASTY_FRONT: &str =
    "bench sharp 1\nkind ranking\nvoters 1\nalternatives 2\naxioms never always\nverdict impossible\ncore never always\n";

/// Studies and proofs, the front of the text of what each comes to, how many instances are needed, and how
/// many searches spent their limit. Which instances these are is the search's choice.
static SHARPENED: [(&str, &str, &str, usize, usize); 2] = [
    (SYMMETRIC, SYMMETRIC_PROOF, SYMMETRIC_FRONT, 2, 0),
    (HASTY, HASTY_PROOF, HASTY_FRONT, 2, 1),
];

// The table is handed out by a function, so that the proof of a test need not read it.
fn sharpened_studies() -> &'static [(&'static str, &'static str, &'static str, usize, usize)] {
    &SHARPENED
}

/// What a study of a kind is sharpened to, by a refutation of the clauses of all its axioms.
fn sharpened<R: Threads + Sync, K: OutcomeKind>(
    rt: &R,
    alloc: Global,
    kind: &K,
    study: &Study,
    text: &str,
) -> Result<Sharp, Fail>
    requires size { study.now.size ≡ K.size kind.now }
    requires listed { HasFewAxioms study.now }
    ensures { IfOk result (IsSharpened study.now) }
{
    let count = variables(kind);
    if count > 1000 {
        return Err(Fail::from("many variables"));
    }
    let made = clauses_of(rt, alloc, kind, study)?;
    let lines = lines_of(alloc, text, count)?;
    if check(alloc, made.clauses(), &lines).is_err() {
        return Err(Fail::from("no refutation"));
    }
    let crew = Crew {
        rt,
        gate: &Open,
        workers: 2,
    };
    let setting = Setting { kind, study };
    if check_total(alloc, &crew, &setting).is_err() {
        return Err(Fail::from("many instances"));
    }
    let all = all_places(alloc, study)?;
    let Reduced {
        refutation,
        logs: _,
    } = reduce(alloc, kind, study, &all, made, &lines)?;
    let refuted = RefutedStudy {
        setting: &setting,
        refutation: &refutation,
    };
    Ok(sharpen(alloc, &crew, &refuted)?)
}

/// Whether the text of what a study came to begins so, and has its end.
fn is_written<K: OutcomeKind>(
    alloc: Global,
    kind: &K,
    study: &Study,
    sharp: &Sharp,
    front: &str,
) -> Result<bool, Fail>
    requires size { study.now.size ≡ K.size kind.now }
    requires reportable { IsReportable study.now }
    requires sharpened { IsSharpened study.now sharp.now }
{
    right_sharp_verdicts_have_texts();
    let mut out = MemorySink::new(alloc, 2000, &[])?;
    let mut page = Page::new();
    let poured = pour_sharp(kind, study, sharp, &mut page, &mut out);
    if poured.is_err() || page.hand_on(&mut out).is_err() {
        return Err(Fail::from("print"));
    }
    let bytes = out.bytes();
    Ok(bytes.starts_with(front.as_bytes()) && bytes.ends_with(b"\nend\n"))
}

/// How many marks are open.
fn open_marks(marks: &[Witness]) -> usize {
    let mut count: usize = 0;
    for mark in marks {
        if matches!(mark, Witness::Open(_)) {
            count = count.saturating_add(1);
        }
    }
    count
}

/// Whether a study of a kind is sharpened to this text, with as many open marks and logs.
fn is_sharpened<R: Threads + Sync, K: OutcomeKind>(
    rt: &R,
    alloc: Global,
    kind: &K,
    study: &Study,
    proof: &str,
    front: &str,
    instances: usize,
    logs: usize,
) -> Result<bool, Fail>
    requires size { study.now.size ≡ K.size kind.now }
    requires reportable { IsReportable study.now }
    requires listed { HasFewAxioms study.now }
{
    let sharp = sharpened(rt, alloc, kind, study, proof)?;
    let written = is_written(alloc, kind, study, &sharp, front)?;
    Ok(
        written
            && sharp.instances.len() == instances
            && open_marks(sharp.marks.as_slice()) == logs
            && sharp.logs.len() == logs,
    )
}

/// Whether the study that a text says is sharpened so.
fn is_sharpened_by_text<R: Threads + Sync>(
    rt: &R,
    alloc: Global,
    text: &str,
    proof: &str,
    front: &str,
    instances: usize,
    logs: usize,
) -> Result<bool, Fail> {
    let study = study_of(alloc, text)?;
    let space = Space::new(study.size());
    match study.size().kind() {
        Kind::Choice => {
            let kind = ChoiceKind::new(space);
            is_sharpened(rt, alloc, &kind, &study, proof, front, instances, logs)
        }
        Kind::Ranking => {
            let kind = RankingKind::new(space);
            is_sharpened(rt, alloc, &kind, &study, proof, front, instances, logs)
        }
        Kind::Sets => Err(Fail::from("sets")),
    }
}

#[test]
fn needed_instances_are_told(rt: HostRuntime) -> Result<(), Fail> {
    for (text, proof, front, instances, logs) in sharpened_studies() {
        assert!(rt;
            is_sharpened_by_text(&rt, rt.alloc(), text, proof, front, *instances, *logs)?,
            "{front}"
        );
    }
    Ok(())
}
