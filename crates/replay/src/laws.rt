ghost use Rattle.replay.specs.Replayed.{OneFate, SomeFate};

use journal_replay::legal_journals;
use journal_text::{journal_or_fault, one_journal};

/// A text of bytes comes to one thing alone: it is too long, or is no journal's, or its journal is not legal, or it is a legal
/// journal's.
pub fn one_fate()
    ensures some { SomeFate }
    ensures one { OneFate }
{
    one_journal();
    journal_or_fault();
    legal_journals();
}
