//! Chess by sets of squares: a set is a number of 64 bits, in which bit n is the square with number n.
//!
//! The layers above rely on each answer being that of `board`'s definitions: `Bits::attacked` that of `Parts::attacked`, and
//! `Bits::targets` exactly the squares that `Parts::reaches` names. Lines are cut by the first square that is occupied, and
//! steps are read from tables that are proved once, by computation.
#![tactic(auto)]

mod attack;
mod bits;
mod castling;
mod lines;
mod pawns;
mod squares;
mod steps;
mod tables;
#[cfg(test)]
mod tests;

pub use attack::{
    attackers, bishop_strikes, is_attacked, is_king_attacked, queen_strikes, rook_strikes,
    seen_by_king,
};
pub use bits::Bits;
pub use lines::{diagonal_reach, straight_reach};
pub use squares::{
    first_square, has_square, last_square, square_set, squares_from, squares_to, without_first,
};
pub use steps::{king_steps, knight_steps, pawn_strikes};
