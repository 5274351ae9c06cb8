//! Anonymity and neutrality, for two voters and two alternatives, and two texts that say why no rule is both.

ghost use Rattle.std.specs.Prelude.{◌≡◌, length, IfOk};
ghost use Rattle.meaning.proofs.WorkedExamples.{choice};

use std::alloc::Global;
use std::test::Fail;
use study::read_study;
use vocab::{Kind, Size, Study};

static STUDY: &str =
    "kind = \"choice\"\nvoters = 2\nalternatives = 2\naxioms = [\"anonymity\", \"neutrality\"]\n";

/// A report on the study.
static STORY: &str =
    "bench report 1\nkind choice\nvoters 2\nalternatives 2\naxioms anonymity neutrality\nverdict impossible\ncore anonymity neutrality\nlemmas 2\nlemma 1\nsuppose a@ab|ba\nso a@ba|ab by axiom anonymity ab|ba 1 2 a\nso b@ba|ab by axiom neutrality ab|ba a b a\nclash by outcome ba|ab\nlemma 2\nso !a@ab|ba by lemma 1\nso b@ab|ba by outcome ab|ba\nso b@ba|ab by axiom anonymity ab|ba 1 2 b\nso a@ba|ab by axiom neutrality ab|ba a b b\nclash by outcome ba|ab\nwithout anonymity rule 4\nab|ab a\nab|ba a\nba|ab b\nba|ba b\nwithout neutrality rule 4\nab|ab a\nab|ba a\nba|ab a\nba|ba a\nend\n";

/// A sharp text of the study.
static SHARP: &str =
    "bench sharp 1\nkind choice\nvoters 2\nalternatives 2\naxioms anonymity neutrality\nverdict impossible\ncore anonymity neutrality\nlemmas 2\nlemma 1\nsuppose a@ab|ba\nso a@ba|ab by axiom anonymity ab|ba 1 2 a\nso b@ba|ab by axiom neutrality ab|ba a b a\nclash by outcome ba|ab\nlemma 2\nso !a@ab|ba by lemma 1\nso !a@ba|ab by axiom anonymity ab|ba 1 2 a\nso !b@ba|ab by axiom neutrality ab|ba a b a\nclash by outcome ba|ab\ninstances 2\nneeds anonymity ab|ba 1 2 a rule 4\nab|ab a\nab|ba a\nba|ab b\nba|ba b\nneeds neutrality ab|ba a b a rule 4\nab|ab a\nab|ba a\nba|ab a\nba|ba a\nend\n";

/// How many bytes each read gives. Those of one and of five part the title of a text.
static PIECES: [u32; 4] = [1, 5, 14, 4096];

// Each text is handed out by a function, so that the proof of a test need not read it, and so is the table.
fn study_text() -> &'static str {
    STUDY
}

pub fn symmetric_story() -> &'static str {
    STORY
}

pub fn symmetric_sharp() -> &'static [u8] {
    SHARP.as_bytes()
}

pub fn pieces() -> &'static [u32] {
    &PIECES
}

fn two_and_two() -> Result<Size, Fail>
    ensures { IfOk result (λ size. size ≡ choice 2 2) }
{
    Ok(Size::check(Kind::Choice, 2, 2).ok().ok_or("size")?)
}

/// The study that a text says, of this size and with two axioms.
fn of_two_axioms(alloc: Global, text: &str, size: Size) -> Result<Box<Study>, Fail>
    ensures size { IfOk result (λ study. study.value.size ≡ size) }
    ensures axioms { IfOk result (λ study. length study.value.axioms ≡ 2) }
{
    let study = Box::new(
        alloc,
        read_study(alloc, text.as_bytes()).ok().ok_or("study")?,
    )?;
    if study.size() != size || study.axioms().len() != 2 {
        return Err(Fail::from("another study"));
    }
    Ok(study)
}

/// The study. In a box, so that a test drops it by one call.
pub fn symmetric(alloc: Global) -> Result<Box<Study>, Fail>
    ensures size { IfOk result (λ study. study.value.size ≡ choice 2 2) }
    ensures axioms { IfOk result (λ study. length study.value.axioms ≡ 2) }
{
    of_two_axioms(alloc, study_text(), two_and_two()?)
}
