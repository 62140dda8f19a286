ghost use Rattle.std.specs.Prelude.{◌≡◌};
ghost use Rattle.journal_replay.specs.declared.illegal.ReplayFault.TheVariants.{Illegal, OutOfMemory};

use arena_rules::Refusal;
use std::alloc::{AllocError, AllocFailed};

/// Why an entry of a journal is not allowed behind those before it. Where several hold, the earlier comes first.
#[derive(Debug, Clone, Copy, PartialEq, Eq)]
pub enum IllegalCause {
    /// Its stamp is below that of the entry before it.
    StampFalls,
    /// It is no wave, and its command is refused there: the first refusal that holds.
    Refused(Refusal),
    /// It is a wave below the first moment for games.
    Early,
    /// It is a wave at the arena's end or past it.
    Closed,
    /// It is a wave of more entries than stand before it.
    WaveNumber,
    /// It is a wave that starts no pair: its plan has none of which both players are still idle.
    WaveEmpty,
    /// It is a wave behind 8,000,000 entries, or one with which more than 200,000 games would be begun.
    Full,
    /// It is a wave of a journal of version 2, which lists other games than it begins, or lists them in another order.
    PairsDiffer,
}

/// Why a journal has no arena.
#[derive(Debug, Clone, Copy, PartialEq, Eq)]
pub enum ReplayFault {
    /// An entry of the journal is not allowed.
    Illegal {
        /// The number of the first such entry, from 0.
        entry: u64,
        /// The first cause that holds of it.
        cause: IllegalCause,
    },
    /// There was not memory enough.
    OutOfMemory,
}

impl From<AllocError> for ReplayFault {
    ghost from_gives = { λ _ e. e ≡ OutOfMemory };

    fn from(_e: AllocError) -> ReplayFault {
        ReplayFault::OutOfMemory
    }
}

impl<T: Drop> From<AllocFailed<T>> for ReplayFault {
    ghost from_gives = { λ _ e. e ≡ OutOfMemory };

    fn from(_e: AllocFailed<T>) -> ReplayFault {
        ReplayFault::OutOfMemory
    }
}

/// That the entry with this number is not allowed, for this cause.
pub(crate) fn illegal(entry: u64, cause: IllegalCause) -> ReplayFault
    ensures { result ≡ Illegal entry cause }
{
    ReplayFault::Illegal { entry, cause }
}
