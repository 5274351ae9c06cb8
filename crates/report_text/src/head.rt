//! The names of axioms, and what a report says of its study.

ghost use Rattle.std.specs.Prelude.{◌≡◌, ◌∷◌, nat_lt, length, codes, IsTrue, if◌then◌else◌};
ghost use Rattle.std.specs.List.{list_all};
ghost use Rattle.vocab.specs.Size.{ballot_places};
ghost use Rattle.meaning.specs.Texts.{kind_text, ranking_text};
ghost use Rattle.verdicts.specs.Lines.{name_at};
ghost use Rattle.verdicts.specs.Report.{domain_lines, head_lines, own_version};
ghost use Rattle.report_text.specs.Pieces.{about_lines, lines_text};
ghost use Rattle.texts.specs.Spelled.{spelled};

use crate::counts::Count;
use crate::words::Subject;
use edge::{Failed, Sink};
use profiles::Space;
use texts::{Page, Raw, Text, Two};
use vocab::{Axiom, Kind, Study};

/// The names of axioms, each with a blank before it.
#[derive(Drop)]
struct Names<'a> {
    axioms: &'a [Axiom],
}

impl Text for Names<'_> {
    ghost can = { λ _. Unit {0} };

    ghost text = { λ names. spelled (λ _ a. 32 ∷ a.name) 0 names.axioms.now };

    fn pour<O: Sink>(&self, page: &mut Page, out: &mut O) -> Result<(), Failed> {
        for axiom in self.axioms {
            let name = axiom.name();
            Two(Raw(b" "), Raw(name.bytes())).pour(page, out)?;
        }
        Ok(())
    }
}

/// The names of the axioms at some places, each with a blank before it.
#[derive(Drop)]
pub struct CoreNames<'a> {
    /// The study.
    pub study: &'a Study,
    /// The places, each below the number of its axioms.
    pub core: &'a [u32],
}

impl Text for CoreNames<'_> {
    ghost can = { λ names. IsTrue (list_all (λ k. nat_lt k (length names.study.now.axioms)) names.core.now) };

    ghost text = { λ names. spelled (λ _ k. 32 ∷ name_at names.study.now.axioms k) 0 names.core.now };

    fn pour<O: Sink>(&self, page: &mut Page, out: &mut O) -> Result<(), Failed> {
        for place in self.core {
            let name = self.study.axioms().get(*place as usize).name();
            Two(Raw(b" "), Raw(name.bytes())).pour(page, out)?;
        }
        Ok(())
    }
}

/// The word of a kind.
fn kind_word(kind: Kind) -> &'static [u8]
    ensures { result.now ≡ kind_text kind }
{
    match kind {
        Kind::Choice => b"choice",
        Kind::Ranking => b"ranking",
        Kind::Sets => b"sets",
    }
}

/// The version of a report on the study: 1 where voters may cast any ranking and none may be absent, and else
/// 2.
fn version_of(study: &Study) -> u64
    ensures { result ≡ own_version study.now }
{
    if study.size().full() { 1 } else { 2 }
}

/// The rankings that voters may cast, each with a blank before it.
#[derive(Drop)]
struct Ballots<'a> {
    space: &'a Space,
}

impl Text for Ballots<'_> {
    ghost can = { λ _. Unit {0} };

    ghost text = { λ ballots.
        spelled (λ _ place. 32 ∷ ranking_text ballots.space.now.alternatives place) 0
        (ballot_places ballots.space.now) };

    fn pour<O: Sink>(&self, page: &mut Page, out: &mut O) -> Result<(), Failed> {
        for b in 0..self.space.ballots() {
            let ballot = self.space.ballot_text(b);
            Two(Raw(b" "), Raw(ballot.bytes())).pour(page, out)?;
        }
        Ok(())
    }
}

/// Whether voters may be absent, as a word.
fn absent_word(absent: bool) -> &'static [u8]
    ensures { result.now ≡ (if absent then codes "yes" else codes "no") }
{
    if absent { b"yes" } else { b"no" }
}

/// The lines that say which rankings voters may cast and whether they may be absent: none in version 1.
#[derive(Drop)]
struct Domain<'a> {
    of: Subject<'a>,
}

impl Text for Domain<'_> {
    ghost can = { λ _. Unit {0} };

    ghost text = { λ domain.
        lines_text domain.of.study.now (domain_lines domain.of.study.now (own_version domain.of.study.now)) };

    fn pour<O: Sink>(&self, page: &mut Page, out: &mut O) -> Result<(), Failed> {
        let size = self.of.study.size();
        if size.full() {
            return Ok(());
        }
        let ballots = Ballots {
            space: self.of.space,
        };
        let listed = Two(Raw(b"ballots"), Two(ballots, Raw(b"\n")));
        let word = Raw(absent_word(size.absent()));
        let absent = Two(Raw(b"absent "), Two(word, Raw(b"\n")));
        Two(listed, absent).pour(page, out)
    }
}

/// The lines that say what the study is, after the title.
#[derive(Drop)]
pub struct About<'a> {
    pub of: Subject<'a>,
}

impl Text for About<'_> {
    ghost can = { λ _. Unit {0} };

    ghost text = { λ about.
        lines_text about.of.study.now (about_lines about.of.study.now (own_version about.of.study.now)) };

    fn pour<O: Sink>(&self, page: &mut Page, out: &mut O) -> Result<(), Failed> {
        let study = self.of.study;
        let size = study.size();
        let voters = Count {
            key: b"voters ",
            count: u64::from(size.voters()),
        };
        let alternatives = Count {
            key: b"alternatives ",
            count: u64::from(size.alternatives()),
        };
        let names = Names {
            axioms: study.axioms().as_slice(),
        };
        let axioms = Two(Raw(b"axioms"), Two(names, Raw(b"\n")));
        let word = Two(Raw(kind_word(size.kind())), Raw(b"\n"));
        let kind = Two(Raw(b"kind "), word);
        let domain = Two(Domain { of: self.of }, axioms);
        let counts = Two(voters, Two(alternatives, domain));
        Two(kind, counts).pour(page, out)
    }
}

/// The lines that say what the study is.
#[derive(Drop)]
pub(crate) struct Head<'a> {
    pub(crate) of: Subject<'a>,
}

impl Text for Head<'_> {
    ghost can = { λ _. Unit {0} };

    ghost text = { λ head.
        lines_text head.of.study.now (head_lines head.of.study.now (own_version head.of.study.now)) };

    fn pour<O: Sink>(&self, page: &mut Page, out: &mut O) -> Result<(), Failed> {
        let title = Count {
            key: b"bench report ",
            count: version_of(self.of.study),
        };
        Two(title, About { of: self.of }).pour(page, out)
    }
}
