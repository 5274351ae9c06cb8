//! What is said of a report or a sharp text.

ghost use Rattle.std.specs.Prelude.{◌++◌, ◌∷◌, [], codes};
ghost use Rattle.texts.specs.Page.{Pours};
ghost use Rattle.verdicts.specs.Numbers.{number_text};
ghost use Rattle.verdicts.specs.Words.{refusal_text};
ghost use Rattle.sharp_verdicts.specs.Judged.{sharp_refusal_text};
ghost use Rattle.answer_text.specs.Said.{confirmed_text, worth_text, sharp_worth_text, judged_worth_text};

use edge::{Failed, Sink};
use report_files::{JudgedWorth, SharpWorth, Worth};
use sharp_verdicts::SharpRefusal;
use texts::{Number, Page, Raw, Text, Two};
use verdicts::{Confirmed, Refusal};
use vocab::Name;

/// Adds `fails`, the name of an axiom and the number of an instance.
fn pour_fails<O: Sink>(
    name: &Name,
    instance: u64,
    page: &mut Page,
    out: &mut O,
) -> Result<(), Failed>
    ensures { Pours (O.taken out.old) (O.taken out.new) page.old page.new
        (O.faults out.old) (O.faults out.new) result
        (codes "fails " ++ (name.now ++ 32 ∷ number_text instance)) }
{
    let instance = Two(Raw(b" "), Number(instance));
    Two(Raw(b"fails "), Two(Raw(name.bytes()), instance)).pour(page, out)
}

/// The word of a refusal; after `fails` come the name of the axiom and the number of the instance.
#[derive(Drop)]
struct RefusalWord<'a>(&'a Refusal);

impl Text for RefusalWord<'_> {
    ghost can = { λ _. Unit {0} };

    ghost text = { λ word. refusal_text word.0.now };

    fn pour<O: Sink>(&self, page: &mut Page, out: &mut O) -> Result<(), Failed> {
        match self.0 {
            Refusal::Form => page.put(out, b"form"),
            Refusal::StudyDiffers => page.put(out, b"study"),
            Refusal::Undecided => page.put(out, b"undecided"),
            Refusal::Core => page.put(out, b"core"),
            Refusal::Row => page.put(out, b"row"),
            Refusal::Fails { axiom, instance } => pour_fails(axiom, *instance, page, out),
            Refusal::NotInCore => page.put(out, b"not_in_core"),
            Refusal::Later => page.put(out, b"later"),
            Refusal::NotForced => page.put(out, b"not_forced"),
            Refusal::Known => page.put(out, b"known"),
            Refusal::Supposes => page.put(out, b"supposes"),
            Refusal::OpenMark => page.put(out, b"open"),
        }
    }
}

/// The word of a refusal of a line of a sharp text.
#[derive(Drop)]
struct SharpRefusalWord<'a>(&'a SharpRefusal);

impl Text for SharpRefusalWord<'_> {
    ghost can = { λ _. Unit {0} };

    ghost text = { λ word. sharp_refusal_text word.0.now };

    fn pour<O: Sink>(&self, page: &mut Page, out: &mut O) -> Result<(), Failed> {
        match self.0 {
            SharpRefusal::Report(word) => RefusalWord(word).pour(page, out),
            SharpRefusal::Instance => page.put(out, b"instance"),
        }
    }
}

/// Adds the line of a report that is confirmed.
fn pour_confirmed<O: Sink>(claim: Confirmed, page: &mut Page, out: &mut O) -> Result<(), Failed>
    ensures { Pours (O.taken out.old) (O.taken out.new) page.old page.new
        (O.faults out.old) (O.faults out.new) result (confirmed_text claim) }
{
    match claim {
        Confirmed::Possible => page.put(out, b"confirmed possible\n"),
        Confirmed::Impossible => page.put(out, b"confirmed impossible\n"),
    }
}

/// Adds the line of a report or a sharp text that is refused at a line, with the word of its refusal.
fn pour_refused<W: Text + Drop, O: Sink>(
    line: u32,
    word: W,
    page: &mut Page,
    out: &mut O,
) -> Result<(), Failed>
    requires { W.can word }
    ensures { Pours (O.taken out.old) (O.taken out.new) page.old page.new
        (O.faults out.old) (O.faults out.new) result
        (codes "refused line " ++ (number_text line ++ codes ": " ++ W.text word ++ 10 ∷ [])) }
{
    let front = Two(Number(u64::from(line)), Raw(b": "));
    let words = Two(Two(front, word), Raw(b"\n"));
    Two(Raw(b"refused line "), words).pour(page, out)
}

/// The line for what a report is worth.
#[derive(Drop)]
pub struct WorthLine<'a>(pub &'a Worth);

impl Text for WorthLine<'_> {
    ghost can = { λ _. Unit {0} };

    ghost text = { λ line. worth_text line.0.now };

    fn pour<O: Sink>(&self, page: &mut Page, out: &mut O) -> Result<(), Failed> {
        match self.0 {
            Worth::Confirmed(claim) => pour_confirmed(*claim, page, out),
            Worth::Faulty { line, refusal } => {
                pour_refused(*line, RefusalWord(refusal), page, out)
            }
            Worth::TooLong => page.put(out, b"refused: too long\n"),
        }
    }
}

/// The line for what a sharp text is worth.
#[derive(Drop)]
struct SharpWorthLine<'a>(&'a SharpWorth);

impl Text for SharpWorthLine<'_> {
    ghost can = { λ _. Unit {0} };

    ghost text = { λ line. sharp_worth_text line.0.now };

    fn pour<O: Sink>(&self, page: &mut Page, out: &mut O) -> Result<(), Failed> {
        match self.0 {
            SharpWorth::Confirmed => page.put(out, b"confirmed sharp\n"),
            SharpWorth::Faulty { line, refusal } => {
                pour_refused(*line, SharpRefusalWord(refusal), page, out)
            }
            SharpWorth::TooLong => page.put(out, b"refused: too long\n"),
        }
    }
}

/// The line for what a report or a sharp text is worth.
#[derive(Drop)]
pub struct JudgedLine<'a>(pub &'a JudgedWorth);

impl Text for JudgedLine<'_> {
    ghost can = { λ _. Unit {0} };

    ghost text = { λ line. judged_worth_text line.0.now };

    fn pour<O: Sink>(&self, page: &mut Page, out: &mut O) -> Result<(), Failed> {
        match self.0 {
            JudgedWorth::Report(worth) => WorthLine(worth).pour(page, out),
            JudgedWorth::Sharp(worth) => SharpWorthLine(worth).pour(page, out),
        }
    }
}
