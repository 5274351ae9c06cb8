//! What holds of resolved sentences. Each law is the contract of a function that does nothing.

ghost use Rattle.sorts.specs.Laws.{SentencesAreSorted, SentencesKeepTruth};

/// A sentence without faults resolves to a well-sorted tree of its shape.
pub fn sentences_are_sorted()
    ensures { SentencesAreSorted }
{}

/// A sentence without faults resolves to a tree with the same truth of every rule.
pub fn sentences_keep_truth()
    ensures { SentencesKeepTruth }
{}
