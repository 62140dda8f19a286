//! The plan of a wave: who of the idle players meets whom. The rows of a snapshot are cut into groups of fourteen in rank
//! order, and each group is paired by its least partner list, all solvers working at once. The layers above rely on the plan
//! being `planned_pairs` and `planned_alone` of the rows, whatever solvers there are, and on `each_player_once`.
#![tactic(auto)]

mod cutting;
mod laws;
mod listing;
mod planning;
mod snapshot;
mod solving;

pub use laws::each_player_once;
pub use planning::plan;
pub use snapshot::{Plan, Snapshot};

#[cfg(test)]
mod tests;
