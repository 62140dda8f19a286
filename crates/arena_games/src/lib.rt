//! The games of an arena, by their numbers: a live room for each game that goes on, and a short record for each that ended.
//! The layer above relies on every answer being a function of the headers and events of the games that were begun, by the
//! definitions of `specs/Courses.antt` and `specs/Answers.antt`; on acts and looks taking no memory; and on an act finding its
//! room at once.
#![tactic(auto)]

mod ended;
mod games;
mod kept;
mod laws;
mod live;
mod numbers;
mod prepared;
mod record;

pub use ended::GameEnd;
pub use games::Games;
pub use laws::{acts_go_on, looks_end};
pub use prepared::Prepared;

#[cfg(test)]
mod tests;
