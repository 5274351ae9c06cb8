//! The words of literals, values and reasons.

ghost use Rattle.std.specs.Prelude.{◌≡◌, ◌++◌, ◌+◌, ◌<◌, drop, map, nat_lt, IsTrue};
ghost use Rattle.std.specs.Cmp.Lexicographic.{pointwise};
ghost use Rattle.vocab.specs.declared.kinds.Sort.TheVariants.{Profile};
ghost use Rattle.vocab.specs.Formula.{prefix_of};
ghost use Rattle.vocab.specs.Size.{sort_count};
ghost use Rattle.vocab.specs.Tree.{tree_of};
ghost use Rattle.meaning.specs.Literals.{is_literal};
ghost use Rattle.meaning.specs.Texts.{letter, profile_text};
ghost use Rattle.meaning.specs.declared.stories.Reason.TheVariants.{Axiom as ByAxiom};
ghost use Rattle.verdicts.specs.Lines.{value_words};
ghost use Rattle.verdicts.specs.Report.{is_reason};
ghost use Rattle.verdicts.specs.Texts.{literal_text, value_text};
ghost use Rattle.report_text.specs.Pieces.{spaced, instance_text, reason_text};
ghost use Rattle.texts.specs.Page.{Pours};

use crate::counts::pour_place;
use edge::{Failed, Sink};
use meaning::Reason;
use profiles::Space;
use profiles::laws::spaces_have_sizes;
use texts::{Page, Raw, Text, Two};
use vocab::{Env, Formula, Literal, Sort, Study};

/// A study, and the profiles of its size.
#[derive(Clone, Copy)]
pub struct Subject<'a> {
    pub study: &'a Study,
    pub space: &'a Space,
    pub ghost same: { study.now.size ≡ space.now },
}

/// The letter of an alternative, the first being a.
fn letter(x: u8) -> u8
    requires { x < 8 }
    ensures { result ≡ letter x }
{
    b'a' + x
}

/// What stands before the profile of a literal, and the profile.
fn pour_at<O: Sink>(
    space: &Space,
    front: &[u8],
    p: u32,
    page: &mut Page,
    out: &mut O,
) -> Result<(), Failed>
    requires { p < sort_count space.now Profile }
    ensures { Pours (O.taken out.old) (O.taken out.new) page.old page.new
        (O.faults out.old) (O.faults out.new) result (front.now ++ profile_text space.now p) }
{
    let profile = space.profile_text(p);
    Two(Raw(front), Raw(profile.bytes())).pour(page, out)
}

/// A literal.
#[derive(Drop)]
pub(crate) struct LiteralWord<'a> {
    pub(crate) space: &'a Space,
    pub(crate) literal: Literal,
}

impl Text for LiteralWord<'_> {
    ghost can = { λ word. IsTrue (is_literal word.space.now word.literal) };

    ghost text = { λ word. literal_text word.space.now word.literal };

    fn pour<O: Sink>(&self, page: &mut Page, out: &mut O) -> Result<(), Failed> {
        spaces_have_sizes(self.space);
        match self.literal {
            Literal::Wins(x, p) => pour_at(self.space, &[letter(x), b'@'], p, page, out),
            Literal::Loses(x, p) => pour_at(self.space, &[b'!', letter(x), b'@'], p, page, out),
            Literal::Above(x, y, p) => {
                pour_at(
                    self.space,
                    &[letter(x), b'>', letter(y), b'@'],
                    p,
                    page,
                    out,
                )
            }
        }
    }
}

/// A value of a sort.
#[derive(Drop)]
struct Value<'a> {
    space: &'a Space,
    sort: Sort,
    value: u32,
}

impl Text for Value<'_> {
    ghost can = { λ word. word.value < sort_count word.space.now word.sort };

    ghost text = { λ word. value_text word.space.now word.sort word.value };

    fn pour<O: Sink>(&self, page: &mut Page, out: &mut O) -> Result<(), Failed> {
        spaces_have_sizes(self.space);
        match self.sort {
            Sort::Voter => pour_place(b"", self.value, page, out),
            Sort::Alt => Raw(&[letter(self.value as u8)]).pour(page, out),
            Sort::Ballot => Raw(self.space.ballot_text(self.value).bytes()).pour(page, out),
            Sort::Profile => Raw(self.space.profile_text(self.value).bytes()).pour(page, out),
        }
    }
}

/// The values of the leading universals of a formula, from those of a level on, each with a blank before it.
fn pour_values<O: Sink>(
    of: &Subject,
    formula: &Formula,
    values: &Env,
    level: u8,
    page: &mut Page,
    out: &mut O,
) -> Result<(), Failed>
    requires { IsTrue (pointwise nat_lt (drop level values.now)
        (map (sort_count of.now.study.now.size) (prefix_of (tree_of formula.now)))) }
    ensures { Pours (O.taken out.old) (O.taken out.new) page.old page.new
        (O.faults out.old) (O.faults out.new) result
        (spaced (value_words of.now.study.now (prefix_of (tree_of formula.now)) (drop level values.now))) }
{
    if level >= values.len() {
        return Ok(());
    }
    match formula {
        Formula::All(sort, inner) => {
            let value = Value {
                space: of.space,
                sort: *sort,
                value: values.get(level),
            };
            Two(Raw(b" "), value).pour(page, out)?;
            pour_values(of, inner, values, level + 1, page, out)
        }
        _ => Ok(()),
    }
}

/// The values of the leading universals of a formula, each with a blank before it.
#[derive(Drop)]
struct Values<'a> {
    of: Subject<'a>,
    sentence: &'a Formula,
    values: Env,
}

impl Text for Values<'_> {
    ghost can = { λ words.
        IsTrue (pointwise nat_lt words.values
        (map (sort_count words.of.study.now.size) (prefix_of (tree_of words.sentence.now)))) };

    ghost text = { λ words.
        spaced (value_words words.of.study.now (prefix_of (tree_of words.sentence.now)) words.values) };

    fn pour<O: Sink>(&self, page: &mut Page, out: &mut O) -> Result<(), Failed> {
        pour_values(&self.of, self.sentence, &self.values, 0, page, out)
    }
}

/// An instance of the axiom at a place: its name and the values, each with a blank before it.
fn pour_instance<O: Sink>(
    of: &Subject,
    place: u32,
    values: Env,
    page: &mut Page,
    out: &mut O,
) -> Result<(), Failed>
    requires { IsTrue (is_reason of.now.study.now (ByAxiom place values)) }
    ensures { Pours (O.taken out.old) (O.taken out.new) page.old page.new
        (O.faults out.old) (O.faults out.new) result
        (instance_text of.now.study.now place values) }
{
    let named = of.study.axioms().get(place as usize);
    let name = named.name();
    let values = Values {
        of: *of,
        sentence: named.sentence(),
        values,
    };
    Two(Raw(name.bytes()), values).pour(page, out)
}

/// An instance of an axiom: the name of the axiom, and the values of its leading universals.
#[derive(Drop)]
pub struct InstanceWords<'a> {
    pub of: Subject<'a>,
    pub place: u32,
    pub values: Env,
}

impl Text for InstanceWords<'_> {
    ghost can = { λ words. IsTrue (is_reason words.of.study.now (ByAxiom words.place words.values)) };

    ghost text = { λ words. instance_text words.of.study.now words.place words.values };

    fn pour<O: Sink>(&self, page: &mut Page, out: &mut O) -> Result<(), Failed> {
        pour_instance(&self.of, self.place, self.values, page, out)
    }
}

/// A reason.
#[derive(Drop)]
pub(crate) struct ReasonWords<'a> {
    pub(crate) of: Subject<'a>,
    pub(crate) reason: Reason,
}

impl Text for ReasonWords<'_> {
    ghost can = { λ words. IsTrue (is_reason words.of.study.now words.reason) };

    ghost text = { λ words. reason_text words.of.study.now words.reason };

    fn pour<O: Sink>(&self, page: &mut Page, out: &mut O) -> Result<(), Failed> {
        match self.reason {
            Reason::Axiom(place, values) => {
                let instance = InstanceWords {
                    of: self.of,
                    place,
                    values,
                };
                Two(Raw(b"axiom "), instance).pour(page, out)
            }
            Reason::Outcome(p) => {
                let profile = self.of.space.profile_text(p);
                Two(Raw(b"outcome "), Raw(profile.bytes())).pour(page, out)
            }
            Reason::Lemma(lemma) => pour_place(b"lemma ", lemma, page, out),
        }
    }
}
