ghost use Rattle.journal_replay.specs.Legal.{CausesAreExact, LegalHaveNoFirst, SameAreEqual};

use arena_history::beginnings_are_histories;

/// Which journals are legal. An entry has no cause against it exactly where it is allowed at the history before it and the journal
/// lists what it begins, and a journal has no first entry that is not allowed exactly where it is legal.
pub fn legal_journals()
    ensures exact { CausesAreExact }
    ensures legal { LegalHaveNoFirst }
    ensures same { SameAreEqual }
{
    beginnings_are_histories();
}
