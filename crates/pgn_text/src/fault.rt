//! Why a game could not be read.

ghost use Rattle.std.specs.Prelude.{◌≡◌};
ghost use Rattle.pgn_text.specs.declared.fault.ReadPgnFault.TheVariants.{Bad, OutOfMemory};

use std::alloc::{AllocError, AllocFailed};

/// Why the bytes are no game's.
#[derive(Clone, Copy, Debug, PartialEq, Eq)]
pub enum PgnCause {
    /// A line that begins with `[` before the moves has not the form of a tag.
    Tag,
    /// A tag says that the game starts elsewhere, by its name `FEN` or `SetUp`.
    Start,
    /// A token is no legal move of the position in SAN, nor anything else that may stand there.
    San,
    /// A token begins with `(`.
    Variation,
    /// The bytes end before a result, or in a comment.
    Result,
    /// Something stands behind the result.
    After,
}

/// What is wrong with a text, and where.
#[derive(Clone, Copy, Debug, PartialEq, Eq)]
pub struct PgnFault {
    /// The offset of the line, the token or the byte at fault. For `Result` it is the length of the text.
    pub at: usize,
    pub cause: PgnCause,
}

/// Why there is no game.
#[derive(Clone, Copy, Debug, PartialEq, Eq)]
pub enum ReadPgnFault {
    /// The text is that of no game.
    Bad(PgnFault),
    /// There was no room for the tags or the moves. It says nothing of the text.
    OutOfMemory,
}

impl From<PgnFault> for ReadPgnFault {
    ghost from_gives = { λ fault e. e ≡ Bad fault };

    fn from(fault: PgnFault) -> ReadPgnFault {
        ReadPgnFault::Bad(fault)
    }
}

impl From<AllocError> for ReadPgnFault {
    ghost from_gives = { λ _ e. e ≡ OutOfMemory };

    fn from(_e: AllocError) -> ReadPgnFault {
        ReadPgnFault::OutOfMemory
    }
}

impl<T: Drop> From<AllocFailed<T>> for ReadPgnFault {
    ghost from_gives = { λ _ e. e ≡ OutOfMemory };

    fn from(_e: AllocFailed<T>) -> ReadPgnFault {
        ReadPgnFault::OutOfMemory
    }
}
