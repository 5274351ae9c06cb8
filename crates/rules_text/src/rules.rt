//! Lists of rules.

ghost use Rattle.std.specs.Prelude.{◌≡◌, length};
ghost use Rattle.texts.specs.Page.{Pours};
ghost use Rattle.texts.specs.Spelled.{spelled};
ghost use Rattle.rules_text.specs.RulesText.{are_rules, ending_text, rule_text, rules_text};

use edge::{Failed, Sink};
use outcomes::{OutcomeKind, Setting};
use report_text::{About, Count, Rows, Subject};
use rule_lists::{Ending, RuleList};
use texts::{Page, Raw, Text, Two};
use vocab::Table;

/// Rules, numbered from 1.
#[derive(Drop)]
struct Tables<'a, K> {
    kind: &'a K,
    tables: &'a [Table],
}

impl<K: OutcomeKind> Text for Tables<'_, K> {
    ghost can = { λ rules. are_rules (K.size rules.kind.now) rules.tables.now };

    ghost text = { λ rules. spelled (rule_text (K.size rules.kind.now)) 1 rules.tables.now };

    fn pour<O: Sink>(&self, page: &mut Page, out: &mut O) -> Result<(), Failed> {
        for place in 0..self.tables.len() {
            let heading = Count {
                key: b"rule ",
                count: place as u64 + 1,
            };
            let rows = Rows {
                kind: self.kind,
                table: &self.tables[place],
            };
            Two(heading, rows).pour(page, out)?;
        }
        Ok(())
    }
}

/// How a list of so many rules ends.
#[derive(Drop)]
struct End {
    ending: Ending,
    count: u64,
}

impl Text for End {
    ghost can = { λ _. Unit {0} };

    ghost text = { λ end. ending_text end.ending end.count };

    fn pour<O: Sink>(&self, page: &mut Page, out: &mut O) -> Result<(), Failed> {
        let count = self.count;
        match self.ending {
            Ending::Whole => Count {
                key: b"rules ",
                count,
            }
            .pour(page, out),
            Ending::More => Count {
                key: b"more than ",
                count,
            }
            .pour(page, out),
            Ending::Open => Raw(b"open\n").pour(page, out),
        }
    }
}

/// Adds the text of a list of rules of a study's size to what a page holds in front of a sink: what the study
/// is, as in a report; each rule, numbered from 1, with its rows as in a report; and how the list ends. No
/// memory is taken.
pub fn pour_rules<K: OutcomeKind, O: Sink>(
    setting: &Setting<K>,
    list: &RuleList,
    page: &mut Page,
    out: &mut O,
) -> Result<(), Failed>
    requires { are_rules setting.now.study.now.size list.now.tables }
    ensures { Pours (O.taken out.old) (O.taken out.new) page.old page.new
        (O.faults out.old) (O.faults out.new) result (rules_text setting.now.study.now list.now) }
{
    let of = Subject {
        study: setting.study,
        space: setting.kind.space(),
    };
    let tables = Tables {
        kind: setting.kind,
        tables: list.tables.as_slice(),
    };
    let end = End {
        ending: list.ending,
        count: list.tables.as_slice().len() as u64,
    };
    let rules = Two(tables, Two(end, Raw(b"end\n")));
    Two(Two(Raw(b"bench rules 1\n"), About { of }), rules).pour(page, out)
}
