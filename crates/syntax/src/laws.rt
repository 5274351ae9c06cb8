//! What holds of all texts of sentences.

ghost use Rattle.syntax.specs.Laws.{HaveOneReading, HaveOneAnswer, AreReadBack};

/// A text reads as at most one tree, whatever its depth and its quantifiers.
pub fn texts_have_one_reading()
    ensures { HaveOneReading }
{}

/// A text has at most one answer, want of memory aside. So each refusal comes exactly where it holds.
pub fn texts_have_one_answer()
    ensures { HaveOneAnswer }
{}

/// The canonical text of a tree that some text reads as is read as that tree, where it has at most 600
/// lexemes.
pub fn canonical_texts_are_read_back()
    ensures { AreReadBack }
{}
