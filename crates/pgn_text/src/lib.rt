//! Games in the text that every chess program reads: the short notation of moves, SAN, and the movetext of the PGN standard.
//! The layers above rely on three things. A legal move has one SAN, and no other legal move of the position has it, with or
//! without the sign of a check. A written game is read as the same game. Of a text that is no game the first fault is named.
#![tactic(auto)]

mod cells;
mod fault;
mod game;
#[cfg(test)]
mod game_tests;
mod named;
mod notation;
mod read_game;
mod rivals;
mod runs;
mod tag_line;
#[cfg(test)]
mod tests;
mod word;
mod write_game;
mod written;

pub use fault::{PgnCause, PgnFault, ReadPgnFault};
pub use game::{PgnGame, PgnResult, Tag};
pub use named::read_san;
pub use notation::one_san_is_one_move;
pub use read_game::{read_pgn, written_is_read};
pub use write_game::{result_text, write_pgn};
pub use written::write_san;
