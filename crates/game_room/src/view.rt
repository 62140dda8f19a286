use crate::outcome::Outcome;
use board::{Colour, Move, Position};

/// What can be seen of a game.
#[derive(Debug, Clone, Copy, PartialEq, Eq)]
pub struct GameView {
    /// The game's number.
    pub id: u32,
    /// The number of the player with White.
    pub white: u32,
    /// The number of the player with Black.
    pub black: u32,
    pub position: Position,
    /// How many moves were made.
    pub plies: u32,
    /// The last move.
    pub last: Option<Move>,
    /// Whose offer of a draw stands.
    pub offer: Option<Colour>,
    /// What White's clock shows, in milliseconds; in an ended game what it showed at the end.
    pub white_ms: u64,
    /// The same of Black's clock.
    pub black_ms: u64,
    pub white_berserk: bool,
    pub black_berserk: bool,
    /// None while the game goes on.
    pub outcome: Option<Outcome>,
}
