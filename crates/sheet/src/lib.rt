//! What each counted game is worth to one player. A sheet keeps a few facts of the games so far and not their list; the
//! layer above relies on its answers being those of the list, by the definitions in `specs/Worth.antt`, which look back.
#![tactic(auto)]

mod laws;
mod score;
mod sheet;
#[cfg(test)]
mod tests;

pub use laws::worth_of_games;
pub use score::Score;
pub use sheet::Sheet;
