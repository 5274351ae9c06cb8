//! The command `gain`: reads a study of set-valued rules, and then a report over it.

ghost use Rattle.std.specs.Prelude.{◌≡◌, ◌<◌, ◌≤◌, [], None, Some, IfSome, IfOk, IsErrOf, IsTrue, option_map, slice_index};
ghost use Rattle.edge.specs.Faults.{Rose};
ghost use Rattle.edge.specs.Shelf.{Files, OthersStay};
ghost use Rattle.vocab.specs.declared.kinds.Sort.TheVariants.{Profile};
ghost use Rattle.vocab.specs.Size.{sort_count};
ghost use Rattle.meaning.specs.Texts.{outcome_text};
ghost use Rattle.meaning.specs.Truth.{is_rule};
ghost use Rattle.choice_sets.specs.Laws.{IsManipulation};
ghost use Rattle.words.specs.Words.{Gain};
ghost use Rattle.answers.specs.Gain.{gain_line, rule_gain_text, IsGainSaid};
ghost use Rattle.answer_text.specs.Gains.{words_text};
ghost use Rattle.command_parts.specs.Answers.{HasText, run_of, answer_status, text_of};
ghost use Rattle.command_parts.specs.Answered.{Answers};

use answer_text::GainWords;
use choice_sets::{Manipulation, SetsKind, laws};
use command_parts::{Answer, Opened, Stop, open_study};
use crew::Crew;
use edge::{Gate, Shelf};
use outcomes::OutcomeKind;
use outcomes::laws::kinds_have_sizes;
use profiles::Space;
use report::Topic;
use report_files::{JudgedWorth, Reader, Worth, worth_of};
use std::alloc::Global;
use std::thread::Threads;
use vocab::{Kind, Name, Table};

/// The text of the set at a profile.
fn set_at(kind: &SetsKind, table: &Table, profile: u32) -> Name
    requires rule { IsTrue (is_rule (⟦<SetsKind as OutcomeKind>⟧.size kind.now) table.now) }
    requires profile { profile < sort_count (⟦<SetsKind as OutcomeKind>⟧.size kind.now) Profile }
    ensures { result ≡
        outcome_text (⟦<SetsKind as OutcomeKind>⟧.size kind.now) (slice_index table.now profile) }
{
    kind.text(u32::from(*table.get(profile as usize)))
}

/// The words of a gain in a rule.
fn words_of(kind: &SetsKind, table: &Table, gain: Manipulation) -> GainWords
    requires rule { IsTrue (is_rule (⟦<SetsKind as OutcomeKind>⟧.size kind.now) table.now) }
    requires there { IsManipulation (⟦<SetsKind as OutcomeKind>⟧.size kind.now) gain }
    ensures { words_text result ≡ gain_line (⟦<SetsKind as OutcomeKind>⟧.size kind.now) table.now gain }
{
    // Its contract says that there are few voters.
    kinds_have_sizes(kind);
    let space = kind.space();
    let changed = space.with(gain.profile, gain.voter, gain.ballot);
    GainWords {
        voter: gain.voter + 1,
        profile: space.profile_text(gain.profile),
        ballot: space.ballot_text(gain.ballot),
        after: set_at(kind, table, changed),
        before: set_at(kind, table, gain.profile),
    }
}

/// What is said of the rule of a confirmed report, if it has one.
fn said_of_rule(kind: &SetsKind, rule: Option<&Table>) -> Answer
    requires { IfSome rule (λ table. IsTrue (is_rule (⟦<SetsKind as OutcomeKind>⟧.size kind.now) table.now)) }
    ensures text { text_of result ≡
        rule_gain_text (⟦<SetsKind as OutcomeKind>⟧.size kind.now)
        (option_map (λ table. table.now) rule.entry) }
    ensures run { run_of result ≡ record { status = 0; verdict = None; logs = []; sharp = None } }
    ensures has_text { HasText result }
{
    let Some(table) = rule else {
        return Answer::NoRule;
    };
    // Its contract says that what is found is a manipulation of the size.
    laws::gains_are_found();
    match choice_sets::gain(kind, table) {
        None => Answer::NoGain,
        Some(found) => Answer::Gain(words_of(kind, table, found)),
    }
}

/// Reads the report and says whether a voter gains in its rule.
fn judge_gain<R: Threads + Sync, S: Shelf, G: Gate>(
    alloc: Global,
    crew: &Crew<R, G>,
    shelf: &mut S,
    topic: &Topic<SetsKind>,
    report: &str,
) -> Result<Answer, Stop>
    ensures said { IfOk result (λ answer. (files : Files) → S.files shelf.old ≡ Some files →
        IsGainSaid files report.now topic.now.study.now (run_of answer) (text_of answer)) }
    ensures status { IfOk result (λ answer. answer_status answer ≤ 1) }
    ensures has_text { IfOk result HasText }
    ensures fault { IsErrOf result Stop.ReadFault →
        Rose (S.faults shelf.old report.now) (S.faults shelf.new report.now) }
    ensures others { OthersStay (S.left shelf.old) (S.left shelf.new) report.now }
{
    let mut reader = Reader::new(alloc, crew, topic)?;
    let worth = worth_of(crew, &mut reader, shelf, report)?;
    match worth {
        Worth::Confirmed(_) => Ok(said_of_rule(topic.kind, reader.table())),
        worth => Ok(Answer::Judged(JudgedWorth::Report(worth))),
    }
}

/// Reads the study, and then the report over it, as `check` does; a study of another kind is refused. Where the
/// study is refused, what the shelf has left under the report's name stays as it was. The gate is told of each
/// piece of the work on a rule. Errors: `Stop::ReadFault` where the shelf fails, and `Stop::NoMemory`.
pub fn gain<R: Threads + Sync, S: Shelf, G: Gate>(
    rt: &R,
    alloc: Global,
    gate: &G,
    shelf: &mut S,
    study: &str,
    report: &str,
) -> Result<Answer, Stop>
    ensures { Answers (Some (Gain study.now report.now)) (S.files shelf.old)
        (S.left shelf.old) (S.left shelf.new) (S.faults shelf.old) (S.faults shelf.new) result }
{
    match open_study(alloc, shelf, study) {
        Ok(Opened::Study(whole)) => {
            match whole.study.size().kind() {
                Kind::Sets => {
                    let kind = SetsKind::new(Space::new(whole.study.size()));
                    let topic = Topic {
                        kind: &kind,
                        study: &whole.study,
                    };
                    let crew = Crew {
                        rt,
                        gate,
                        workers: 1,
                    };
                    judge_gain(alloc, &crew, shelf, &topic, report)
                }
                _ => Ok(Answer::OtherKind),
            }
        }
        Ok(Opened::Refused(answer)) => Ok(answer),
        Err(stop) => Err(stop),
    }
}
