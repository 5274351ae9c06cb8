//! Tables in lexicographic order.

ghost use Rattle.std.specs.Prelude.{◌≡◌, ◌≤◌, length, take, slice_get, IfSome, IsTrue, IsFalse, OnOk};
ghost use Rattle.std.specs.List.{list_all};
ghost use Rattle.rule_lists.specs.RuleLists.{has_table, is_table_before, are_tables_rising};
ghost use Rattle.rule_lists.specs.Finding.{PutsTable};

use lists::NoMemory;
use vocab::Table;

/// Whether a table comes before another.
fn is_table_before(left: &[u8], right: &[u8]) -> bool
    ensures { result ≡ is_table_before left.now right.now }
{
    left < right
}

/// The first place whose table does not come before this one; the number of tables where all do.
fn place_for(tables: &[Table], table: &[u8]) -> usize
    ensures within { result ≤ length tables.now }
    ensures before { IsTrue (list_all (λ t. is_table_before t table.now) (take result tables.now)) }
    ensures here { IfSome (slice_get tables.now result) (λ t. IsFalse (is_table_before t table.now)) }
{
    for place in 0..tables.len() {
        if !is_table_before(tables[place].as_slice(), table) {
            return place;
        }
    }
    tables.len()
}

/// Puts a table among rising ones, of which it is none.
pub(crate) fn put(tables: &mut Vec<Table>, table: Table) -> Result<(), NoMemory>
    requires rising { IsTrue (are_tables_rising tables.old.items) }
    requires fresh { IsFalse (has_table tables.old.items table) }
    ensures put { OnOk result (PutsTable tables.old.items tables.new.items table) }
    ensures rising { OnOk result (IsTrue (are_tables_rising tables.new.items)) }
{
    let place = place_for(tables.as_slice(), table.as_slice());
    tables.insert(place, table)?;
    Ok(())
}
