//! What holds of each axiom of the library.

ghost use Rattle.axiom_library.specs.Laws.{TextsAreSentences, EntriesAreFound};

/// Each text that the library has under a name is the canonical text of a sentence, which it reads as.
pub fn texts_are_sentences()
    ensures { TextsAreSentences }
{}

/// Each axiom of a library is found under its name, so no name stands twice.
pub fn entries_are_found()
    ensures { EntriesAreFound }
{}
