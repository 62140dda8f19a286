//! A game as it is written and read.

use board::Move;
use conn::{List, Text};

/// A line that stands before the moves.
#[derive(Debug, Drop)]
pub struct Tag {
    pub name: Text,
    pub value: Text,
}

/// The last token of a game's text.
#[derive(Clone, Copy, Debug, PartialEq, Eq)]
pub enum PgnResult {
    /// White has won, `1-0`.
    White,
    /// Black has won, `0-1`.
    Black,
    /// The game is drawn, `1/2-1/2`.
    Draw,
    /// Nothing is said of the result, `*`.
    Unknown,
}

/// A game from the usual start.
#[derive(Debug, Drop)]
pub struct PgnGame {
    /// What is said of the game, in order.
    pub tags: List<Tag>,
    /// The moves of both sides, in order.
    pub moves: List<Move>,
    pub result: PgnResult,
}
