//! One live game of chess. A room keeps the position, those since a pawn last moved or a piece was last captured, the clocks and
//! the standing offer; the layer above relies on every answer being a function of the game's header and its list of events, by
//! the definitions in `specs/Games.antt`, and of nothing else.
#![tactic(auto)]

mod ending;
mod header;
mod laws;
mod outcome;
mod refusal;
mod room;
#[cfg(test)]
mod tests;
mod view;

pub use header::Header;
pub use laws::{
    berserks_and_offers, moves_and_turns, rooms_count, what_changes_nothing, what_ends_a_game,
};
pub use outcome::{Cause, Done, Outcome};
pub use refusal::ActRefusal;
pub use room::Room;
pub use view::GameView;
