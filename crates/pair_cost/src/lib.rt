//! What it costs to pair two players and to leave one alone, which two may not be paired, and who of a pair has White. The
//! layers above rely on the costs being those of `specs/Cost.antt`, on `None` standing exactly for a forbidden pair, on no
//! pair costing more than 22,002,000 and on nobody's being left alone costing more than 5,000,000,000. By `either_way` it
//! makes no difference which of two is named first.
#![tactic(auto)]

mod candidate;
mod colouring;
mod laws;
mod pricing;
#[cfg(test)]
mod tests;

pub use candidate::{Candidate, Frame, Pair};
pub use colouring::colours;
pub use laws::either_way;
pub use pricing::{charge, cost};
