//! The performance of a player: the floor of the mean over his counted games of the opponent's rating, 500 more for a
//! win and 500 less for a loss. It keeps a sum and a count and not the list of games; the layer above relies on its
//! answer being that of the list.
#![tactic(auto)]

mod laws;
mod perf;
#[cfg(test)]
mod tests;

pub use laws::performance_range;
pub use perf::Perf;
