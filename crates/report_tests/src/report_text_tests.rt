//! Reports of studies of one or two voters and two alternatives, and sinks that fail.

ghost use Rattle.std.specs.Prelude.{◌≡◌, [], ◌∷◌, IfOk, IsTrue};
ghost use Rattle.vocab.specs.Size.{outcome_count};
ghost use Rattle.meaning.specs.Truth.{is_rule};
ghost use Rattle.verdicts.specs.Report.{has_text};
ghost use Rattle.report_tests.specs.Examples.{one_axiom};

use crate::studies_by_text::choices;
use edge::{Failed, MemorySink, Sink};
use lists::Items;
use meaning::{Lemma, Reason, StoryStep, Witness};
use outcomes::{ChoiceKind, OutcomeKind};
use profiles::Space;
use profiles::laws::spaces_have_sizes;
use report_text::print;
use std::alloc::Global;
use std::test::Fail;
use verdicts::Verdict;
use vocab::{
    Atom, Axiom, Axioms, Env, Formula, Kind, Literal, Name, Size, Sort, Study, Table, Term,
};

/// A study, the rule of a report, and its text.
static RULES: [(&str, usize, &[u8], &str); 3] = [
    // That each voter is itself.
    (
        "kind = \"choice\"\nvoters = 1\nalternatives = 2\naxioms = [\"same\"]\n[sentences]\nsame = \"all i: voter. i = i\"\n",
        1,
        &[0, 1],
        "bench report 1\nkind choice\nvoters 1\nalternatives 2\naxioms same\nverdict possible\nrule 2\nab a\nba b\nend\n",
    ),
    // The voter may cast `ba` alone.
    (
        "kind = \"choice\"\nvoters = 1\nalternatives = 2\nballots = [\"ba\"]\naxioms = []\n",
        0,
        &[1],
        "bench report 2\nkind choice\nvoters 1\nalternatives 2\nballots ba\nabsent no\naxioms\nverdict possible\nrule 1\nba b\nend\n",
    ),
    // Voters may cast any ranking or be absent, but not both of them.
    (
        "kind = \"choice\"\nvoters = 2\nalternatives = 2\nabsent = true\naxioms = []\n",
        0,
        &[0, 0, 0, 1, 1, 1, 0, 1],
        "bench report 2\nkind choice\nvoters 2\nalternatives 2\nballots ab ba\nabsent yes\naxioms\nverdict possible\nrule 8\nab|ab a\nab|ba a\nab|- a\nba|ab b\nba|ba b\nba|- b\n-|ab a\n-|ba b\nend\n",
    ),
];

static IMPOSSIBLE: &str =
    "bench report 1\nkind choice\nvoters 1\nalternatives 2\naxioms same\nverdict impossible\ncore same\nlemmas 1\nlemma 1\nsuppose a@ab\nso !b@ba by lemma 1\nso b@ab by outcome ba\nclash by axiom same 1\nwithout same rule 2\nab a\nba b\nend\n";

static UNDECIDED: &str =
    "bench report 1\nkind choice\nvoters 1\nalternatives 2\naxioms same\nverdict undecided\nconflicts 100\nend\n";

/// For how many bytes of the claim a sink has room: none, a part, all but one, exactly all, and more.
static ROOMS: [usize; 7] = [0, 20, 100, 150, 219, 220, 1000];

/// A study without axioms, of two voters and five alternatives.
static LARGE: &str = "kind = \"choice\"\nvoters = 2\nalternatives = 5\naxioms = []\n";

// Each text and each table is handed out by a function, so that the proof of a test need not read it.
fn rules() -> &'static [(&'static str, usize, &'static [u8], &'static str)] {
    &RULES
}

fn impossible_text() -> &'static [u8] {
    IMPOSSIBLE.as_bytes()
}

fn undecided_text() -> &'static [u8] {
    UNDECIDED.as_bytes()
}

fn rooms() -> &'static [usize] {
    &ROOMS
}

fn large() -> &'static str {
    LARGE
}

/// The study of one voter, two alternatives, and the axiom that each voter is itself, by the name `same`.
fn one_axiom(alloc: Global) -> Result<Box<Study>, Fail>
    ensures { IfOk result (λ study. study.value ≡ one_axiom) }
{
    let size = Size::check(Kind::Choice, 1, 2).ok().ok_or("size")?;
    let name = Name::new(b"same").ok_or("name")?;
    let same = Formula::Leaf(Atom::Equal(Term::Var(0), Term::Var(0)));
    let mut axioms: Axioms = Items::new(alloc);
    axioms.push(Axiom::new(name, Formula::All(Sort::Voter, Box::new(alloc, same)?)))?;
    Ok(Box::new(alloc, Study::new(size, 100, axioms))?)
}

/// A lemma with a reason of each form.
fn one_lemma(alloc: Global) -> Result<Lemma, Fail>
    ensures { IfOk result (λ lemma. lemma ≡ record {
      suppose = Literal.Wins 0 0 ∷ [];
      steps = record { literal = Literal.Loses 1 1; reason = Reason.Lemma 0 }
          ∷ record { literal = Literal.Wins 1 0; reason = Reason.Outcome 1 } ∷ [];
      last = Reason.Axiom 0 (0 ∷ []);
    }) }
{
    let mut suppose = Items::new(alloc);
    suppose.push(Literal::Wins(0, 0))?;
    let mut steps = Items::new(alloc);
    steps.push(StoryStep {
        literal: Literal::Loses(1, 1),
        reason: Reason::Lemma(0),
    })?;
    steps.push(StoryStep {
        literal: Literal::Wins(1, 0),
        reason: Reason::Outcome(1),
    })?;
    Ok(Lemma {
        suppose,
        steps,
        last: Reason::Axiom(0, Env::none().with(0)),
    })
}

/// The rule of these outcomes.
fn table_of(alloc: Global, outcomes: &[u8]) -> Result<Table, Fail>
    ensures { IfOk result (λ table. table ≡ outcomes.now) }
{
    let mut table = Items::new(alloc);
    table.append(outcomes)?;
    Ok(table)
}

/// A claim with that lemma alone. No claim is checked before it is written.
fn impossible(alloc: Global) -> Result<Verdict, Fail>
    ensures { IfOk result (λ verdict. IsTrue (has_text one_axiom verdict)) }
{
    let mut core = Items::new(alloc);
    core.push(0)?;
    let mut story = Items::new(alloc);
    story.push(one_lemma(alloc)?)?;
    let mut witnesses = Items::new(alloc);
    witnesses.push(Witness::Rule(table_of(alloc, &[0, 1])?))?;
    Ok(Verdict::Impossible {
        core,
        story,
        witnesses,
    })
}

/// The rule of these outcomes, each below `most`, at the profiles of a space.
fn rule_of(alloc: Global, space: &Space, most: u32, codes: &[u8]) -> Result<Table, Fail>
    requires { most ≡ outcome_count space.now.kind space.now.alternatives }
    ensures { IfOk result (λ table. IsTrue (is_rule space.now table)) }
{
    spaces_have_sizes(space);
    let count = space.count() as usize;
    let mut table = Items::new(alloc);
    while table.len() < count {
        let code = codes.get(table.len()).copied().ok_or("an outcome")?;
        if u32::from(code) >= most {
            return Err(Fail::from("no outcome"));
        }
        table.push(code)?;
    }
    Ok(table)
}

/// Prints the report of the rule of these outcomes on the study that a text says.
fn print_rule<S: Sink>(
    alloc: Global,
    text: &str,
    axioms: usize,
    codes: &[u8],
    out: &mut S,
) -> Result<(), Fail> {
    let study = choices(alloc, text, axioms)?;
    let kind = ChoiceKind::new(Space::new(study.size()));
    let rule = Verdict::Possible(rule_of(alloc, kind.space(), kind.outcomes(), codes)?);
    print(&kind, &study, &rule, out).ok().ok_or("print")?;
    Ok(())
}

/// Whether that report is this text.
fn is_written(
    alloc: Global,
    text: &str,
    axioms: usize,
    codes: &[u8],
    wanted: &str,
) -> Result<bool, Fail> {
    let mut out = MemorySink::new(alloc, 1000, &[])?;
    print_rule(alloc, text, axioms, codes, &mut out)?;
    Ok(out.bytes() == wanted.as_bytes())
}

/// Whether a sink with room for so many bytes takes the front of this text of the report of a verdict on
/// the study of one axiom, and whether all of it is printed exactly where there is room.
fn takes_front(alloc: Global, room: usize, verdict: &Verdict, wanted: &[u8]) -> Result<bool, Fail>
    requires { IsTrue (has_text one_axiom verdict.now) }
{
    let study = one_axiom(alloc)?;
    let kind = ChoiceKind::new(Space::new(study.size()));
    let mut out = MemorySink::new(alloc, room, &[])?;
    let done = print(&kind, &study, verdict, &mut out);
    Ok(
        out.bytes().len() == room.min(wanted.len())
            && wanted.starts_with(out.bytes())
            && done.is_ok() == (wanted.len() <= room),
    )
}

#[test]
fn rules_are_written(rt: HostRuntime) -> Result<(), Fail> {
    for (text, axioms, codes, wanted) in rules() {
        assert!(rt; is_written(rt.alloc(), text, *axioms, codes, wanted)?);
    }
    Ok(())
}

/// Whether a sink with room for so many bytes takes the front of the report of the claim.
fn takes_front_of_impossible(alloc: Global, room: usize) -> Result<bool, Fail> {
    let verdict = impossible(alloc)?;
    takes_front(alloc, room, &verdict, impossible_text())
}

// Where there is no room, the front is written.
#[test]
fn claims_are_written_as_far_as_there_is_room(rt: HostRuntime) -> Result<(), Fail> {
    for room in rooms() {
        assert!(rt; takes_front_of_impossible(rt.alloc(), *room)?);
    }
    assert!(rt; takes_front(rt.alloc(), 1000, &Verdict::Undecided, undecided_text())?);
    Ok(())
}

/// Takes all and counts its writes and the bytes. Both stay at their greatest once they are there.
#[derive(Drop)]
struct CountingSink {
    writes: u64,
    bytes: u64,
}

impl Sink for CountingSink {
    ghost use Rattle.std.specs.Prelude.{None};

    ghost taken = { λ _. None };

    ghost faults = { λ _. 0 };

    fn write(&mut self, piece: &[u8]) -> Result<usize, Failed> {
        self.writes = self.writes.saturating_add(1);
        self.bytes = self.bytes.saturating_add(piece.len() as u64);
        Ok(piece.len())
    }

    fn flush(&mut self) -> Result<(), Failed> {
        Ok(())
    }
}

/// So many zeros.
fn zeros(alloc: Global, count: u32) -> Result<Vec<u8>, Fail> {
    let mut zeros = Vec::new(alloc);
    for _ in 0..count {
        zeros.push(0)?;
    }
    Ok(zeros)
}

#[test]
fn large_report_takes_few_writes(rt: HostRuntime) -> Result<(), Fail> {
    let mut out = CountingSink {
        writes: 0,
        bytes: 0,
    };
    let codes = zeros(rt.alloc(), 14_400)?;
    print_rule(rt.alloc(), large(), 0, codes.as_slice(), &mut out)?;
    // The lines but for the rows have 90 bytes, and each of the 14,400 rows has 14.
    assert!(rt; out.bytes == 201_690 && out.writes <= 201_690 / 4096 + 2);
    Ok(())
}
