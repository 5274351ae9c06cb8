//! What holds of pages. Each law is the contract of a function that does nothing.

ghost use Rattle.pages.specs.Laws.{NamesAreShown, NamesReadBack, TextsArePlain, TextsReadBack};

/// A text of a study, of an axiom's name or of a file's, opens no tag on a page, whatever stands in it.
pub fn texts_are_plain()
    ensures { TextsArePlain }
{}

/// What a browser reads of such a text on a page is the text.
pub fn texts_read_back()
    ensures { TextsReadBack }
{}

/// The name of a file brings no control sign to a page.
pub fn names_are_shown()
    ensures { NamesAreShown }
{}

/// What a shell reads of such a name in the command on a page is the name.
pub fn names_read_back()
    ensures { NamesReadBack }
{}
