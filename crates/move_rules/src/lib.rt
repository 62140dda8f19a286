//! The moves of chess: which are legal in a position, the position after one, and how a game stands by its position. The
//! layer above may rely on a move being accepted exactly where it is legal by the definitions in `specs/`, and on the
//! position after it being exactly theirs.
#![tactic(auto)]

mod after;
mod any_move;
mod board_after;
mod cells;
mod en_passant;
mod ending;
mod king_safety;
mod laws;
mod legal;
mod list;
mod pawns;
mod standing;
#[cfg(test)]
mod tests;

pub use en_passant::{canonical, ep_legal};
pub use ending::{in_check, state};
pub use laws::{en_passant_is_by_a_move, legal_words_are_moves, moves_lead_to_positions};
pub use legal::{is_legal, make};
pub use list::legal_moves;
pub use standing::State;
