//! Resolving sentences.

ghost use Rattle.std.specs.Prelude.{true, ◌≡◌, ◌≢◌, ◌≤◌, [], IsTrue, IfOk, MatchResult, Ok, Err};
ghost use Rattle.vocab.specs.Formula.{quantifier_depth};
ghost use Rattle.vocab.specs.Limits.{depth};
ghost use Rattle.vocab.specs.NamedDepth.{named_depth, quantifiers};
ghost use Rattle.vocab.specs.NamedView.{named_tree};
ghost use Rattle.vocab.specs.Sorted.{is_sorted_if};
ghost use Rattle.vocab.specs.Tree.{tree_of};
ghost use Rattle.sorts.specs.Answers.{answer_of};
ghost use Rattle.sorts.specs.Laws.{HasTruthOf};

use crate::faults::SortFault;
use crate::formulas::formula;
use crate::scope::Scope;
use profiles::Space;
use std::alloc::Global;
use vocab::{Formula, Named};

/// The tree of a sentence for the size of a space, or the first of its faults in the order of visiting.
///
/// Names become levels, and constants numbers. The sentence's depth is at most 64, with at most 12
/// quantifiers on one path. The tree is closed, well sorted for the size and its kind, and true of the same
/// rules as the sentence by name.
pub fn resolve(alloc: Global, sentence: &Named, space: &Space) -> Result<Formula, SortFault>
    requires shallow { named_depth (named_tree sentence.now) ≤ 64 }
    requires few { quantifiers (named_tree sentence.now) ≤ 12 }
    ensures answer { MatchResult result
        (λ f. answer_of space.now (named_tree sentence.now) ≡ Ok (tree_of f))
        (λ e. e ≢ SortFault.NoMemory → answer_of space.now (named_tree sentence.now) ≡ Err e) }
    ensures sorted { IfOk result (λ f. IsTrue (is_sorted_if true space.now [] (tree_of f))) }
    ensures few_quantifiers { IfOk result (λ f. quantifier_depth (tree_of f) ≤ 12) }
    ensures shallow_tree { IfOk result (λ f. depth (tree_of f) ≤ 64) }
    ensures same_truth { IfOk result (λ f. HasTruthOf space.now (named_tree sentence.now) (tree_of f)) }
{
    formula(alloc, space, &Scope::Outside, sentence)
}
