//! What holds of stories over instances. Each law is the contract of a function that does nothing.

ghost use Rattle.instance_stories.specs.Laws.{NamedStoriesAreAccepted};

/// A story that is accepted over the study of some instances is accepted over their study, once its reasons
/// are named back, with the axioms that it cites as its core.
pub fn named_stories_are_accepted()
    ensures { NamedStoriesAreAccepted }
{}
