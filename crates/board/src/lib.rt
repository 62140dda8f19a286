//! The board of chess: squares, pieces, moves as they are named, and positions. It says which squares a side attacks, and
//! reads and writes positions as FEN and moves as words.
//!
//! The layers above rely on three things. A `Position` keeps what `specs/Position.antt` lists, so that nobody asks for it
//! again. `Parts::attacked` is the definition of `specs/Attack.antt` and `Parts::reaches` that of `specs/Reach.antt`, for
//! any board. Each position and each move has exactly
//! one text; reading answers exactly the value that has the text, or else None or the first field that is at fault.
#![tactic(auto)]

mod attack;
mod castling;
mod cells;
mod fen;
mod moves;
mod parts;
mod pawns;
mod piece;
mod placement;
mod position;
mod reach;
mod same;
mod sound;
mod square;
mod start;
#[cfg(test)]
mod tests;
mod words;

pub use attack::{is_on_line, is_pawn_strike, piece_strikes, square_between};
pub use fen::{FenFault, read_fen, write_fen};
pub use moves::Move;
pub use parts::{Parts, Rights};
pub use piece::{Colour, Kind, Piece, is_piece};
pub use placement::Placement;
pub use position::{Position, Status, without_ep};
pub use same::{same_cells, same_placement};
pub use square::Square;
pub use words::{read_move, write_move};
