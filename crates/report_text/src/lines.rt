//! The lines of a story.

ghost use Rattle.std.specs.Prelude.{◌&&◌, nat_lt, length, IsTrue};
ghost use Rattle.std.specs.List.{list_all};
ghost use Rattle.meaning.specs.Literals.{is_literal};
ghost use Rattle.verdicts.specs.Lines.{Suppose};
ghost use Rattle.verdicts.specs.Report.{is_lemma_text, is_reason, lemma_lines, step_line};
ghost use Rattle.report_text.specs.Pieces.{ended_line, lines_text, told_lines};
ghost use Rattle.texts.specs.Spelled.{spelled};

use crate::counts::Count;
use crate::head::CoreNames;
use crate::words::{LiteralWord, ReasonWords, Subject};
use edge::{Failed, Sink};
use meaning::{Lemma, StoryStep};
use texts::{Page, Raw, Text, Two};
use vocab::Literal;

/// A line for each literal that is supposed.
#[derive(Drop)]
struct Supposed<'a> {
    of: Subject<'a>,
    literals: &'a [Literal],
}

impl Text for Supposed<'_> {
    ghost can = { λ lines. IsTrue (list_all (is_literal lines.of.study.now.size) lines.literals.now) };

    ghost text = { λ lines. spelled (λ _ l. ended_line lines.of.study.now (Suppose l)) 0 lines.literals.now };

    fn pour<O: Sink>(&self, page: &mut Page, out: &mut O) -> Result<(), Failed> {
        for literal in self.literals {
            let word = LiteralWord {
                space: self.of.space,
                literal: *literal,
            };
            Two(Raw(b"suppose "), Two(word, Raw(b"\n"))).pour(page, out)?;
        }
        Ok(())
    }
}

/// A line for each step.
#[derive(Drop)]
struct Steps<'a> {
    of: Subject<'a>,
    steps: &'a [StoryStep],
}

impl Text for Steps<'_> {
    ghost can = { λ lines.
        IsTrue (list_all (λ step.
        is_literal lines.of.study.now.size step.literal && is_reason lines.of.study.now step.reason)
        lines.steps.now) };

    ghost text = { λ lines. spelled (λ _ step. ended_line lines.of.study.now (step_line step)) 0
        lines.steps.now };

    fn pour<O: Sink>(&self, page: &mut Page, out: &mut O) -> Result<(), Failed> {
        for step in self.steps {
            let word = LiteralWord {
                space: self.of.space,
                literal: step.literal,
            };
            let reason = ReasonWords {
                of: self.of,
                reason: step.reason,
            };
            let by = Two(Raw(b" by "), Two(reason, Raw(b"\n")));
            Two(Raw(b"so "), Two(word, by)).pour(page, out)?;
        }
        Ok(())
    }
}

/// The lines of a lemma of a number.
#[derive(Drop)]
struct LemmaLines<'a> {
    of: Subject<'a>,
    number: u64,
    lemma: &'a Lemma,
}

impl Text for LemmaLines<'_> {
    ghost can = { λ lines. IsTrue (is_lemma_text lines.of.study.now lines.lemma.now) };

    ghost text = { λ lines. lines_text lines.of.study.now (lemma_lines lines.number lines.lemma.now) };

    fn pour<O: Sink>(&self, page: &mut Page, out: &mut O) -> Result<(), Failed> {
        let heading = Count {
            key: b"lemma ",
            count: self.number,
        };
        let supposed = Supposed {
            of: self.of,
            literals: self.lemma.suppose.as_slice(),
        };
        let steps = Steps {
            of: self.of,
            steps: self.lemma.steps.as_slice(),
        };
        let last = ReasonWords {
            of: self.of,
            reason: self.lemma.last,
        };
        let clash = Two(Raw(b"clash by "), Two(last, Raw(b"\n")));
        Two(heading, Two(supposed, Two(steps, clash))).pour(page, out)
    }
}

/// The lines of the lemmas of a story, which are numbered from 1.
#[derive(Drop)]
struct StoryLines<'a> {
    of: Subject<'a>,
    lemmas: &'a [Lemma],
}

impl Text for StoryLines<'_> {
    ghost can = { λ lines. IsTrue (list_all (is_lemma_text lines.of.study.now) lines.lemmas.now) };

    ghost text = { λ lines.
        spelled (λ number lemma. lines_text lines.of.study.now (lemma_lines number lemma)) 1
        lines.lemmas.now };

    fn pour<O: Sink>(&self, page: &mut Page, out: &mut O) -> Result<(), Failed> {
        for place in 0..self.lemmas.len() {
            let lines = LemmaLines {
                of: self.of,
                number: place as u64 + 1,
                lemma: &self.lemmas[place],
            };
            lines.pour(page, out)?;
        }
        Ok(())
    }
}

/// The lines of an impossibility up to its last lemma: what the verdict is, the names of the axioms of the core,
/// and the story.
#[derive(Drop)]
pub struct Told<'a> {
    pub of: Subject<'a>,
    pub core: &'a [u32],
    pub lemmas: &'a [Lemma],
}

impl Text for Told<'_> {
    ghost can = { λ told.
        IsTrue (list_all (λ k. nat_lt k (length told.of.study.now.axioms)) told.core.now)
        × IsTrue (list_all (is_lemma_text told.of.study.now) told.lemmas.now) };

    ghost text = { λ told. lines_text told.of.study.now
        (told_lines told.of.study.now told.core.now told.lemmas.now) };

    fn pour<O: Sink>(&self, page: &mut Page, out: &mut O) -> Result<(), Failed> {
        let names = CoreNames {
            study: self.of.study,
            core: self.core,
        };
        let count = Count {
            key: b"\nlemmas ",
            count: self.lemmas.len() as u64,
        };
        let lines = StoryLines {
            of: self.of,
            lemmas: self.lemmas,
        };
        let claim = Two(Raw(b"verdict impossible\ncore"), names);
        Two(claim, Two(count, lines)).pour(page, out)
    }
}
