use board::{Move, Position};
use game_room::Outcome;

/// What is kept of a game that ended, beside its header.
#[derive(Debug, Clone, Copy)]
pub struct EndedGame {
    /// The last position.
    pub position: Position,
    /// The last move.
    pub last: Option<Move>,
    /// What White's clock showed at the end, in milliseconds.
    pub white_ms: u64,
    /// The same of Black's clock.
    pub black_ms: u64,
    pub outcome: Outcome,
}

/// A game that a look ended, and how.
#[derive(Debug, Clone, Copy, PartialEq, Eq)]
pub struct GameEnd {
    /// The game's number.
    pub game: u32,
    pub outcome: Outcome,
}
