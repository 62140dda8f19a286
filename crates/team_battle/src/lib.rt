//! The table of the teams of an arena: each team with the points and the performance of its leaders. `specs/Teams.antt` has
//! the rule. The layers above rely on its answer being that of the setup and the players' rows alone.
#![tactic(auto)]

mod laws;
mod table;
mod tally;
mod team_row;

pub use laws::{each_team_stands_once, teams_are_ordered};
pub use table::team_table;
pub use team_row::TeamRow;

#[cfg(test)]
mod tests;
