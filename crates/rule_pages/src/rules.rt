//! Rules as tables and as lists.

ghost use Rattle.std.specs.Prelude.{◌≡◌, ◌++◌, OnOk};
ghost use Rattle.rule_pages.specs.Entries.{ruled_html};
ghost use Rattle.rule_pages.specs.Rules.{shown_html, folded_html, rule_html};

use crate::entries::put_list;
use html::{Cells, Html, is_gridded, put_grid};
use lists::NoMemory;
use outcomes::OutcomeKind;
use vocab::Table;

/// The outcomes of a rule, profile by profile.
#[derive(Drop)]
struct RuleCells<'a, K> {
    kind: &'a K,
    table: &'a Table,
}

impl<K: OutcomeKind> Cells for RuleCells<'_, K> {
    ghost cell = { λ ruled p. ruled_html (K.size ruled.kind.now) ruled.table.now p };

    fn put_cell(&self, out: &mut Html, p: u32) -> Result<(), NoMemory> {
        let outcome = match self.table.as_slice().get(p as usize) {
            Some(outcome) => u32::from(*outcome),
            None => return Ok(()),
        };
        if outcome >= self.kind.outcomes() {
            return Ok(());
        }
        let text = self.kind.text(outcome);
        out.append(text.bytes())
    }
}

/// Adds a table for two voters, and else a list.
fn put_body<K: OutcomeKind>(out: &mut Html, kind: &K, table: &Table) -> Result<(), NoMemory>
    ensures { OnOk result (out.new ≡ out.old ++ shown_html (K.size kind.now) table.now) }
{
    if is_gridded(kind.space(), 25) {
        return put_grid(out, kind.space(), &RuleCells { kind, table });
    }
    put_list(out, kind, table)
}

/// Adds a table or a list that stands closed.
fn put_folded<K: OutcomeKind>(out: &mut Html, kind: &K, table: &Table) -> Result<(), NoMemory>
    ensures { OnOk result (out.new ≡ out.old ++ folded_html (K.size kind.now) table.now) }
{
    out.append(b"<details><summary>profile by profile</summary>\n")?;
    put_body(out, kind, table)?;
    out.append(b"</details>\n")?;
    Ok(())
}

/// Adds a rule: a table for two voters with at most 24 ballots, both of them there, and else a list; of more than
/// a hundred profiles it stands closed.
pub fn put_rule<K: OutcomeKind>(out: &mut Html, kind: &K, table: &Table) -> Result<(), NoMemory>
    ensures { OnOk result (out.new ≡ out.old ++ rule_html (K.size kind.now) table.now) }
{
    if kind.space().count() > 100 {
        return put_folded(out, kind, table);
    }
    put_body(out, kind, table)
}
