//! Studies and proofs by their texts, and the clauses of studies.

ghost use Rattle.std.specs.Prelude.{◌≡◌, ◌<◌, ◌≤◌, ◌-◌, ◌^◌, length, IfOk, IsTrue};
ghost use Rattle.std.specs.List.{list_all};
ghost use Rattle.cnf.specs.Fresh.{AreOver};
ghost use Rattle.meaning.specs.StudyClauses.{study_clauses};
ghost use Rattle.lrat_check.specs.Ranges.{has_next};
ghost use Rattle.search_logs.specs.Spent.{all_places};

use clause_form::Ground;
use clause_text::read_lrat;
use cnf::{Clauses, Derivation};
use crew::Crew;
use edge::Open;
use grounding::ground;
use outcomes::{ChoiceKind, OutcomeKind, RankingKind};
use profiles::Space;
use search_logs::all_places;
use std::alloc::Global;
use std::test::Fail;
use std::thread::Threads;
use study::read_study;
use vocab::{Kind, Study};

/// The study that a text says.
pub fn study_of(alloc: Global, text: &str) -> Result<Box<Study>, Fail> {
    let study = read_study(alloc, text.as_bytes()).ok().ok_or("study")?;
    Ok(Box::new(alloc, study)?)
}

/// The clauses of all axioms of a study, made by one worker.
pub fn clauses_of<R: Threads + Sync, K: OutcomeKind>(
    rt: &R,
    alloc: Global,
    kind: &K,
    study: &Study,
) -> Result<Ground, Fail>
    requires size { study.now.size ≡ K.size kind.now }
    ensures { IfOk result (λ made. made ≡
        study_clauses study.now.size study.now.axioms (all_places study.now)) }
{
    let crew = Crew {
        rt,
        gate: &Open,
        workers: 1,
    };
    let all = all_places(alloc, study)?;
    match ground(alloc, &crew, kind, study, &all) {
        Ok(made) => Ok(made),
        Err(_) => Err(Fail::from("clauses")),
    }
}

/// The lines of a text of at most 1,000 bytes.
pub fn lines_of(alloc: Global, text: &str, variables: u32) -> Result<Derivation, Fail>
    requires { variables ≤ 10000000 }
    ensures over { IfOk result (AreOver variables) }
    ensures numbers { IfOk result (λ lines. IsTrue (list_all has_next lines)) }
    ensures few { IfOk result (λ lines. length lines < 2 ^ 32 - 1) }
{
    let bytes = text.as_bytes();
    if bytes.len() > 1000 {
        return Err(Fail::from("a long text"));
    }
    match read_lrat(alloc, bytes, variables) {
        Ok(lines) => Ok(lines),
        Err(_) => Err(Fail::from("lines")),
    }
}

/// Anonymity and neutrality for two voters and two alternatives. Variables 1 and 2 say that a and b win at
/// ab|ab, 3 and 4 at ab|ba, 5 and 6 at ba|ab, and 7 and 8 at ba|ba.
const SYMMETRIC: &str =
    "kind = \"choice\"\nvoters = 2\nalternatives = 2\naxioms = [\"anonymity\", \"neutrality\"]\n";

/// For one voter and one alternative: it does not win. Variable 1 says that it does.
const NONE_WINS: &str =
    "kind = \"choice\"\nvoters = 1\nalternatives = 1\nconflicts = 1\naxioms = [\"none\"]\n[sentences]\nnone = \"all p: profile. !wins(@a, p)\"\n";

/// For one voter and two alternatives, where variables 1 and 2 say that a stands above b at ab and ba: both
/// agree, they do not, and again they do not.
const TWICE_DISPUTED: &str =
    "kind = \"ranking\"\nvoters = 1\nalternatives = 2\nconflicts = 100\naxioms = [\"agree\", \"differ\", \"apart\"]\n[sentences]\nagree = \"all p: profile. (ranks(@a, @b, with(p, #1, <ab>)) <-> ranks(@a, @b, with(p, #1, <ba>)))\"\ndiffer = \"all p: profile. !(ranks(@a, @b, with(p, #1, <ab>)) <-> ranks(@a, @b, with(p, #1, <ba>)))\"\napart = \"all p: profile. !(ranks(@a, @b, with(p, #1, <ab>)) <-> ranks(@a, @b, with(p, #1, <ba>)))\"\n";

/// For one voter and two alternatives, where variables 1 and 2 say that a stands above b at ab and ba: at
/// ab it does not; and it does at both, as it does at one and both agree. A search may learn one clause.
const HASTY: &str =
    "kind = \"ranking\"\nvoters = 1\nalternatives = 2\nconflicts = 1\naxioms = [\"never\", \"always\"]\n[sentences]\nnever = \"all p: profile. !ranks(@a, @b, with(p, #1, <ab>))\"\nalways = \"all p: profile. ((ranks(@a, @b, with(p, #1, <ab>)) <-> ranks(@a, @b, with(p, #1, <ba>))) & (ranks(@a, @b, with(p, #1, <ab>)) | ranks(@a, @b, with(p, #1, <ba>))))\"\n";

/// The clauses of each study, of which 0 ends one, with the numbers of their origins: a profile whose frame
/// it is, or an axiom, from 1, times 2 to the power 32, and its instance.
static WORKED: [(&str, &[i32], &[u64]); 4] = [
    (NONE_WINS, &[1, 0, -1, 0], &[0, 4_294_967_296]),
    (
        HASTY,
        &[-1, 0, -1, 2, 0, 1, -2, 0, 1, 2, 0],
        &[4_294_967_296, 8_589_934_592, 8_589_934_592, 8_589_934_592],
    ),
    (
        TWICE_DISPUTED,
        &[-1, 2, 0, 1, -2, 0, -1, -2, 0, 1, 2, 0, -1, -2, 0, 1, 2, 0],
        &[
            4_294_967_296,
            4_294_967_296,
            8_589_934_592,
            8_589_934_592,
            12_884_901_888,
            12_884_901_888,
        ],
    ),
    // Frames, instances 10 and 11 of anonymity, and instances 2, 3, 10 and 11 of neutrality.
    (
        SYMMETRIC,
        &[
            1, 2, 0, -1, -2, 0, 3, 4, 0, -3, -4, 0, 5, 6, 0, -5, -6, 0, 7, 8, 0, -7, -8, 0, -3, 5,
            0, 3, -5, 0, -4, 6, 0, 4, -6, 0, -1, 8, 0, 1, -8, 0, -2, 7, 0, 2, -7, 0, -3, 6, 0, 3,
            -6, 0, -4, 5, 0, 4, -5, 0,
        ],
        &[
            0,
            0,
            1,
            1,
            2,
            2,
            3,
            3,
            4_294_967_306,
            4_294_967_306,
            4_294_967_307,
            4_294_967_307,
            8_589_934_594,
            8_589_934_594,
            8_589_934_595,
            8_589_934_595,
            8_589_934_602,
            8_589_934_602,
            8_589_934_603,
            8_589_934_603,
        ],
    ),
];

fn worked() -> &'static [(&'static str, &'static [i32], &'static [u64])] {
    &WORKED
}

// Each text is handed out by a function, so that the proof of a test need not read it.
pub fn symmetric() -> &'static str {
    SYMMETRIC
}

pub fn none_wins() -> &'static str {
    NONE_WINS
}

pub fn twice_disputed() -> &'static str {
    TWICE_DISPUTED
}

pub fn hasty() -> &'static str {
    HASTY
}

/// Whether the clauses are these, each followed by a 0, in which a variable without its sign is negative, with
/// these origins.
fn are(clauses: &Clauses, numbers: &[i32], origins: &[u64]) -> bool {
    let mut rest = numbers;
    for k in 0..clauses.len() {
        for lit in clauses.get(k) {
            let number = i64::from(lit.variable());
            let signed = if lit.positive() { number } else { -number };
            let Some((first, after)) = rest.split_first() else {
                return false;
            };
            if i64::from(*first) != signed {
                return false;
            }
            rest = after;
        }
        let Some((0, after)) = rest.split_first() else {
            return false;
        };
        if origins.get(k as usize) != Some(&clauses.origin(k)) {
            return false;
        }
        rest = after;
    }
    rest.is_empty()
}

/// Whether the study that a text says has these clauses, with these origins.
fn has_clauses<R: Threads + Sync>(
    rt: &R,
    alloc: Global,
    text: &str,
    numbers: &[i32],
    origins: &[u64],
) -> Result<bool, Fail> {
    let study = study_of(alloc, text)?;
    let space = Space::new(study.size());
    let made = match study.size().kind() {
        Kind::Choice => clauses_of(rt, alloc, &ChoiceKind::new(space), &study)?,
        Kind::Ranking => clauses_of(rt, alloc, &RankingKind::new(space), &study)?,
        Kind::Sets => return Err(Fail::from("sets")),
    };
    Ok(are(made.clauses(), numbers, origins))
}

#[test]
fn clauses_are_those_worked_out(rt: HostRuntime) -> Result<(), Fail> {
    for (text, numbers, origins) in worked() {
        assert!(rt; has_clauses(&rt, rt.alloc(), text, numbers, origins)?);
    }
    Ok(())
}
