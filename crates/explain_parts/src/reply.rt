//! Replies, a variant for each row of the table.

ghost use Rattle.std.specs.Prelude.{◌≡◌};
ghost use Rattle.texts.specs.Page.{Pours};
ghost use Rattle.rules_text.specs.RulesText.{are_rules, rules_text};
ghost use Rattle.map_text.specs.MapText.{HasNames, map_text};
ghost use Rattle.study_text.specs.LookText.{made_text};
ghost use Rattle.explain_answers.specs.Cores.{cores_status};
ghost use Rattle.explain_answers.specs.Instance.{instance_status};
ghost use Rattle.explain_answers.specs.Rules.{rules_status};
ghost use Rattle.explain_parts.specs.Replies.{HasReplyText, status_of, reply_text};

use crate::helped::{Helped, answer_status, let_go};
use command_parts::Answer;
use core_maps::{CoreMap, Ending as MapEnding};
use edge::{Bytes, Failed, Sink};
use instance_text::Said;
use kinds::over_kind;
use map_text::pour_map;
use outcomes::Setting;
use rule_lists::{Ending, RuleList};
use rules_text::pour_rules;
use std::alloc::Global;
use study_text::{Look, pour_look};
use texts::{Page, Text};
use vocab::Study;

/// What is said to words that are no command.
const USAGE: &[u8] =
    b"usage: explain story STUDY REPORT [--workers K] | instance STUDY AXIOM NUMBER | rules STUDY [--most N] [--workers K] | cores STUDY [--workers K] | study STUDY [--workers K]\n";

/// What is answered.
pub enum Reply {
    /// The words are no command.
    Usage,
    /// What `check` answers to a study or a report that is refused.
    Refused(Answer),
    /// The page of the verdict that the report confirms.
    Page(Bytes),
    /// What is said of an instance.
    Instance(Said),
    /// The rules of a study.
    Rules(Study, RuleList),
    /// The map of the axioms of a study.
    Cores(Study, CoreMap),
    /// What a study asks.
    Look(Study, Look),
    /// The line by which a study is refused, and what helps.
    Helped(Helped),
}

impl Drop for Reply {
    fn drop(self) {
        match self {
            Reply::Usage => {}
            Reply::Refused(answer) => let_go(answer),
            Reply::Page(_) => {}
            Reply::Instance(_) => {}
            Reply::Rules(_, _) => {}
            Reply::Cores(_, _) => {}
            Reply::Look(_, _) => {}
            Reply::Helped(_) => {}
        }
    }
}

/// The status of what is said of an instance.
fn instance_status(there: bool) -> u8
    ensures { result ≡ instance_status there }
{
    if there { 0 } else { 3 }
}

/// The status of a list of rules: 4 where it is not known whether there are more.
fn rules_status(ending: Ending) -> u8
    ensures { result ≡ rules_status ending }
{
    match ending {
        Ending::Whole => 0,
        Ending::More => 0,
        Ending::Open => 4,
    }
}

/// The status of a map: 4 where a set is open, or there may be more sets.
fn cores_status(map: &CoreMap) -> u8
    ensures { result ≡ cores_status map.now }
{
    match map.ending {
        MapEnding::Cut => 4,
        MapEnding::Whole => { if map.sets.open.is_empty() { 0 } else { 4 } }
    }
}

/// Adds the text of a list of rules of a study.
fn pour_list<O: Sink>(
    study: &Study,
    list: &RuleList,
    page: &mut Page,
    out: &mut O,
) -> Result<(), Failed>
    requires { are_rules study.now.size list.now.tables }
    ensures { Pours (O.taken out.old) (O.taken out.new) page.old page.new
        (O.faults out.old) (O.faults out.new) result (rules_text study.now list.now) }
{
    over_kind!(
        study.size(),
        kind,
        {
            let setting = Setting { kind: &kind, study };
            pour_rules(&setting, list, page, out)
        }
    )
}

/// Adds the text of a map of the axioms of a study.
fn pour_sets<O: Sink>(
    study: &Study,
    map: &CoreMap,
    page: &mut Page,
    out: &mut O,
) -> Result<(), Failed>
    requires { HasNames study.now map.now.sets }
    ensures { Pours (O.taken out.old) (O.taken out.new) page.old page.new
        (O.faults out.old) (O.faults out.new) result (map_text study.now map.now) }
{
    over_kind!(
        study.size(),
        kind,
        {
            let setting = Setting { kind: &kind, study };
            pour_map(&setting, map, page, out)
        }
    )
}

/// Adds what a study asks.
fn pour_asked<O: Sink>(
    study: &Study,
    look: &Look,
    page: &mut Page,
    out: &mut O,
) -> Result<(), Failed>
    ensures { Pours (O.taken out.old) (O.taken out.new) page.old page.new
        (O.faults out.old) (O.faults out.new) result (made_text study.now look.now) }
{
    over_kind!(
        study.size(),
        kind,
        {
            let setting = Setting { kind: &kind, study };
            pour_look(&setting, look, page, out)
        }
    )
}

impl Reply {
    /// The status, where the text was written: it is below 5.
    pub fn into_status(self, alloc: Global) -> u8
        ensures { result ≡ status_of self }
    {
        match self {
            Reply::Usage => 2,
            Reply::Refused(answer) => answer_status(answer, alloc),
            Reply::Page(_) => 0,
            Reply::Instance(said) => instance_status(said.there),
            Reply::Rules(_, list) => rules_status(list.ending),
            Reply::Cores(_, map) => cores_status(&map),
            Reply::Look(_, _) => 0,
            Reply::Helped(helped) => helped.into_status(alloc),
        }
    }
}

impl Text for Reply {
    ghost can = { λ reply. HasReplyText reply };

    ghost text = { λ reply. reply_text reply };

    fn pour<O: Sink>(&self, page: &mut Page, out: &mut O) -> Result<(), Failed> {
        match self {
            Reply::Usage => page.put(out, USAGE),
            Reply::Refused(answer) => answer.pour(page, out),
            Reply::Page(bytes) => page.put(out, bytes.as_slice()),
            Reply::Instance(said) => page.put(out, said.text.as_slice()),
            Reply::Rules(study, list) => pour_list(study, list, page, out),
            Reply::Cores(study, map) => pour_sets(study, map, page, out),
            Reply::Look(study, look) => pour_asked(study, look, page, out),
            Reply::Helped(helped) => helped.pour(page, out),
        }
    }
}
