//! What is said of a verdict in one line: by `proof`, and by `sample`.

ghost use Rattle.std.specs.Prelude.{◌≡◌, ◌∷◌, [], ◌++◌, codes};
ghost use Rattle.meaning.specs.Texts.{kind_text};
ghost use Rattle.verdicts.specs.Words.{claim_text};
ghost use Rattle.answers.specs.Sample.{summary_text};
ghost use Rattle.answer_text.specs.Claims.{claim_line};

use edge::{Failed, Sink};
use texts::{Number, Page, Raw, Text, Two};
use verdicts::Verdict;
use vocab::{Kind, Study};

/// The word of a kind.
fn kind_word(kind: Kind) -> &'static [u8]
    ensures { result.now ≡ kind_text kind }
{
    match kind {
        Kind::Choice => b"choice",
        Kind::Ranking => b"ranking",
        Kind::Sets => b"sets",
    }
}

/// The word of a verdict.
fn claim_word(verdict: &Verdict) -> &'static [u8]
    ensures { result.now ≡ claim_text verdict.now }
{
    match verdict {
        Verdict::Possible(_) => b"possible",
        Verdict::Impossible {
            core: _,
            story: _,
            witnesses: _,
        } => b"impossible",
        Verdict::Undecided => b"undecided",
    }
}

/// The word of a verdict, as a comment of a proof.
#[derive(Drop)]
pub struct ClaimLine<'a>(pub &'a Verdict);

impl Text for ClaimLine<'_> {
    ghost can = { λ _. Unit {0} };

    ghost text = { λ line. claim_line line.0.now };

    fn pour<O: Sink>(&self, page: &mut Page, out: &mut O) -> Result<(), Failed> {
        Two(Raw(b"c "), Two(Raw(claim_word(self.0)), Raw(b"\n"))).pour(page, out)
    }
}

/// The line of a sample: its number, the size of its study, how many axioms and how many clauses that has,
/// and the word of a verdict on it.
#[derive(Drop)]
pub struct SummaryLine<'a> {
    pub number: u32,
    pub study: &'a Study,
    pub clauses: u32,
    pub verdict: &'a Verdict,
}

impl Text for SummaryLine<'_> {
    ghost can = { λ _. Unit {0} };

    ghost text = { λ line. summary_text line.number line.study.now line.clauses line.verdict.now };

    fn pour<O: Sink>(&self, page: &mut Page, out: &mut O) -> Result<(), Failed> {
        let size = self.study.size();
        let axioms = self.study.axioms().as_slice().len() as u64;
        let claim = Two(
            Raw(b" verdict "),
            Two(Raw(claim_word(self.verdict)), Raw(b"\n")),
        );
        let clauses = Two(
            Raw(b" clauses "),
            Two(Number(u64::from(self.clauses)), claim),
        );
        let counts = Two(
            Raw(b" alternatives 3 axioms "),
            Two(Number(axioms), clauses),
        );
        let voters = Two(
            Raw(b" voters "),
            Two(Number(u64::from(size.voters())), counts),
        );
        let kind = Two(Raw(b": kind "), Two(Raw(kind_word(size.kind())), voters));
        Two(Raw(b"sample "), Two(Number(u64::from(self.number)), kind)).pour(page, out)
    }
}
