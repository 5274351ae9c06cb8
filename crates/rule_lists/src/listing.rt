//! The list of all rules.

ghost use Rattle.std.specs.Prelude.{◌≡◌, IfOk};
ghost use Rattle.meaning.specs.StudyClauses.{study_clauses};
ghost use Rattle.search_logs.specs.Spent.{all_places};
ghost use Rattle.rule_lists.specs.RuleLists.{IsRuleList};

use crate::answers::RuleList;
use crate::finding::Found;
use clause_form::Ground;
use lists::NoMemory;
use outcomes::{OutcomeKind, Setting};
use std::alloc::Global;
use vocab::Study;

/// The rules that satisfy all axioms of a study, at most as many as are asked for.
fn rules_over<K: OutcomeKind>(
    alloc: Global,
    setting: &Setting<K>,
    ground: &Ground,
    most: u32,
) -> Result<RuleList, NoMemory>
    requires clauses { ground.now ≡ study_clauses setting.now.study.now.size setting.now.study.now.axioms
        (all_places setting.now.study.now) }
    ensures { IfOk result (IsRuleList setting.now.study.now most) }
{
    let _axioms = setting.study.axioms();
    let mut found = Found::new(alloc, setting.study, ground)?;
    for _count in 0..most {
        match found.step(alloc, setting)? {
            None => {}
            Some(ending) => return Ok(found.into_list(ending)),
        }
    }
    let ending = found.end(alloc, setting)?;
    Ok(found.into_list(ending))
}

/// The rules that satisfy all axioms of a study, at most as many as are asked for, in lexicographic order, and
/// whether these are all. The clauses are those of all axioms. After each rule a search goes over the clauses
/// with one more, which leaves that rule out; a refutation of them is why there is no other. The only error is
/// want of memory.
pub fn all_rules<K: OutcomeKind>(
    alloc: Global,
    kind: &K,
    study: &Study,
    ground: &Ground,
    most: u32,
) -> Result<RuleList, NoMemory>
    requires size { study.now.size ≡ K.size kind.now }
    requires clauses { ground.now ≡ study_clauses study.now.size study.now.axioms (all_places study.now) }
    ensures { IfOk result (IsRuleList study.now most) }
{
    let setting = Setting { kind, study };
    rules_over(alloc, &setting, ground, most)
}
