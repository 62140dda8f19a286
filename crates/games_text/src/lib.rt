//! The games of an evening in the text that every chess program reads. The layer above relies on `specs/GameTexts.antt`, which
//! says the text of each game that counts and of all of them, for any list of entries over a setup: `write_games` gives it for an
//! arena.
#![tactic(auto)]

mod ended;
mod game;
mod games;
mod laws;
mod line;
mod sent;

pub use games::write_games;
pub use laws::moves_of_games;
