//! Lines of reports on two voters and two alternatives.

ghost use Rattle.std.specs.Prelude.{◌≡◌};

use crate::studies_by_text::choices;
use meaning::Reason;
use outcomes::ChoiceKind;
use profiles::Space;
use report_lines::{IndexedStudy, Line, Place, read_core, read_line};
use std::test::Fail;
use verdicts::Confirmed;
use vocab::{Env, Kind, Literal, Name};

/// That each alternative is itself, said of each voter.
static STUDY: &str =
    "kind = \"choice\"\nvoters = 2\nalternatives = 2\naxioms = [\"same\"]\n[sentences]\nsame = \"all i: voter. all x: alt. x = x\"\n";

/// The same, where voters may cast `ba` alone.
static ONE_BALLOT: &str =
    "kind = \"choice\"\nvoters = 2\nalternatives = 2\nballots = [\"ba\"]\naxioms = [\"same\"]\n[sentences]\nsame = \"all i: voter. all x: alt. x = x\"\n";

/// Title lines, and their versions.
static TITLES: [(&str, Option<u8>); 4] = [
    ("bench report 1", Some(1)),
    ("bench report 2", Some(2)),
    ("bench report 3", None),
    ("bench report 02", None),
];

/// Lines of ballots, and whether they are those of the study; and those of the study with one ballot.
static BALLOTS: [(&str, Option<bool>); 6] = [
    ("ballots ab ba", Some(true)),
    ("ballots ba ab", Some(false)),
    ("ballots ab", Some(false)),
    ("ballots ab ba ba", Some(false)),
    ("ballots ac", None),
    ("ballots", None),
];

static BALLOTS_OF_ONE: [(&str, Option<bool>); 2] = [
    ("ballots ba", Some(true)),
    ("ballots ab ba", Some(false)),
];

/// Lines of absence, and what they say.
static ABSENCES: [(&str, Option<bool>); 3] = [
    ("absent yes", Some(true)),
    ("absent no", Some(false)),
    ("absent maybe", None),
];

/// Lines that are not read at their places.
static NOT_READ: [(Place, &str); 7] = [
    (Place::AtVoters, "voters 02"),
    (Place::AtVoters, "voters  2"),
    (Place::AtLemma, "lemma 4"),
    (Place::AtStep, "clash by lemma 0"),
    (Place::AtSuppose, "suppose a>b@ab|ab"),
    (Place::AtRow, "ba|ba ab"),
    (Place::AtNothing(Some(Confirmed::Possible)), "end"),
];

// Each text and each table is handed out by a function, so that the proof of a test need not read it.
fn study() -> &'static str {
    STUDY
}

fn one_ballot() -> &'static str {
    ONE_BALLOT
}

fn titles() -> &'static [(&'static str, Option<u8>)] {
    &TITLES
}

fn ballots() -> &'static [(&'static str, Option<bool>)] {
    &BALLOTS
}

fn ballots_of_one() -> &'static [(&'static str, Option<bool>)] {
    &BALLOTS_OF_ONE
}

fn absences() -> &'static [(&'static str, Option<bool>)] {
    &ABSENCES
}

fn not_read() -> &'static [(Place, &'static str)] {
    &NOT_READ
}

/// Whether this is read at a place of a report of the study, before or in the third lemma.
fn reads(study: &IndexedStudy, place: Place, text: &str, line: Option<Line>) -> bool
    requires { study.now.size.kind ≡ Kind.Choice }
{
    let kind = ChoiceKind::new(Space::new(study.study().size()));
    read_line(&kind, study, place, 3, text.as_bytes()) == line
}

#[test]
fn heads_are_read(rt: HostRuntime) -> Result<(), Fail> {
    let whole = choices(rt.alloc(), study(), 1)?;
    let whole = IndexedStudy::new(rt.alloc(), &whole)?;
    for (text, version) in titles() {
        assert!(rt; reads(&whole, Place::AtTitle, text, version.map(Line::Title)));
    }
    for (text, all) in ballots() {
        assert!(rt; reads(&whole, Place::AtBallots, text, all.map(Line::BallotsAre)));
    }
    for (text, absent) in absences() {
        assert!(rt; reads(&whole, Place::AtAbsent, text, absent.map(Line::AbsentIs)));
    }
    let few = choices(rt.alloc(), one_ballot(), 1)?;
    let few = IndexedStudy::new(rt.alloc(), &few)?;
    for (text, all) in ballots_of_one() {
        assert!(rt; reads(&few, Place::AtBallots, text, all.map(Line::BallotsAre)));
    }
    Ok(())
}

#[test]
fn other_lines_are_not_read(rt: HostRuntime) -> Result<(), Fail> {
    let whole = choices(rt.alloc(), study(), 1)?;
    let study = IndexedStudy::new(rt.alloc(), &whole)?;
    for (place, text) in not_read() {
        assert!(rt; reads(&study, *place, text, None));
    }
    Ok(())
}

/// Whether this line is read at a place.
fn says(study: &IndexedStudy, place: Place, text: &str, line: Line) -> bool
    requires { study.now.size.kind ≡ Kind.Choice }
{
    reads(study, place, text, Some(line))
}

#[test]
fn verdicts_are_read(rt: HostRuntime) -> Result<(), Fail> {
    let whole = choices(rt.alloc(), study(), 1)?;
    let study = IndexedStudy::new(rt.alloc(), &whole)?;
    let open = Line::WithOpen(Name::new(b"same").ok_or("name")?, 9);
    let many = "voters 99999999999999999999";
    let end = Place::AtEnd(Some(Confirmed::Possible));
    let found = [
        says(
            &study,
            Place::AtKind,
            "kind ranking",
            Line::KindIs(Kind::Ranking),
        ),
        says(&study, Place::AtVoters, many, Line::VotersAre(u64::MAX)),
        says(
            &study,
            Place::AtAxioms,
            "axioms same",
            Line::AxiomsAre(true),
        ),
        says(
            &study,
            Place::AtAxioms,
            "axioms same same",
            Line::AxiomsAre(false),
        ),
        says(
            &study,
            Place::AtVerdict,
            "verdict undecided",
            Line::SaysUndecided,
        ),
        says(&study, Place::AtCore, "core same same", Line::CoreIs),
        says(&study, Place::AtRow, "ba|ba b", Line::Row(3, 1)),
        says(&study, Place::AtWitness, "without same open 9", open),
        says(&study, end, "end", Line::End),
    ];
    assert!(rt; found == [true; 9]);
    Ok(())
}

#[test]
fn stories_are_read(rt: HostRuntime) -> Result<(), Fail> {
    let whole = choices(rt.alloc(), study(), 1)?;
    let study = IndexedStudy::new(rt.alloc(), &whole)?;
    let wins = Line::Suppose(Literal::Wins(1, 2));
    let so = Line::So(Literal::Loses(0, 1), Reason::Outcome(1));
    let late = Line::Clash(Reason::Lemma(u32::MAX));
    let clash = Line::Clash(Reason::Axiom(0, Env::none().with(1).with(0)));
    let found = [
        says(&study, Place::AtLemma, "lemma 3", Line::Heading(3)),
        says(&study, Place::AtSuppose, "suppose b@ba|ab", wins),
        says(&study, Place::AtSuppose, "so !a@ab|ba by outcome ab|ba", so),
        says(&study, Place::AtStep, "clash by lemma 4294967297", late),
        says(&study, Place::AtStep, "clash by axiom same 2 a", clash),
    ];
    assert!(rt; found == [true; 5]);
    Ok(())
}

#[test]
fn cores_are_read(rt: HostRuntime) -> Result<(), Fail> {
    let whole = choices(rt.alloc(), study(), 1)?;
    let study = IndexedStudy::new(rt.alloc(), &whole)?;
    let core = read_core(rt.alloc(), &study, b"core same")?.ok_or("core")?;
    let other = read_core(rt.alloc(), &study, b"core same other")?;
    let twice = read_core(rt.alloc(), &study, b"core same same")?;
    assert!(rt; core.as_slice() == [0].as_slice() && other.is_none() && twice.is_none());
    Ok(())
}
