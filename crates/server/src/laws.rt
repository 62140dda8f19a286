//! What follows of every evening.

ghost use Rattle.server.specs.Evenings.{SomeoneSawItWhole};

/// Whatever entries an evening leaves, one of its workers had his reason to end in all of them: he whose pass added the last one.
/// So at their end, and not only at some beginning of them, no game runs, or there is no room for more.
pub fn someone_saw_it_whole()
    ensures { SomeoneSawItWhole }
{}
