ghost use Rattle.std.specs.Prelude.{◌≡◌};
ghost use Rattle.arena_core.specs.Answers.{told};

use arena_rules::{Answer, Refusal};
use std::alloc::AllocError;

/// Why a command added no entry.
#[derive(Debug, Clone, Copy, PartialEq, Eq)]
pub enum ApplyFault {
    /// The command is refused.
    Refused(Refusal),
    /// The command is not refused, and no memory was found for its entry.
    OutOfMemory,
}

/// Why a question is not answered.
#[derive(Debug, Clone, Copy, PartialEq, Eq)]
pub enum QueryFault {
    /// No game with this number was begun.
    NoGame,
    /// No memory was found for the answer.
    OutOfMemory,
}

/// An answer, or that no memory was found for it.
pub fn told(answer: Result<Answer, AllocError>) -> Result<Answer, QueryFault>
    ensures { result ≡ told answer }
{
    match answer {
        Ok(answer) => Ok(answer),
        Err(_) => Err(QueryFault::OutOfMemory),
    }
}
