//! The partner list of least key of a group of at most fourteen candidates. A list names for each place the place
//! of its partner, or 14 where it has none; keys compare how many are left alone, then what the pairs and those left alone
//! cost, then the lists themselves. The layer above relies on the contract of `Solve`, which each solver is proved to: the
//! list is one of the partner lists, and none has a smaller key. By `least_list` there is one such list alone.
#![tactic(auto)]

mod bench;
mod choice;
mod laws;
mod offers;
mod partners;
mod place_set;
mod search;
mod solver;

pub use bench::Bench;
pub use laws::{least_list, partner_list};
pub use partners::Partners;
pub use solver::Solve;

#[cfg(test)]
mod tests;
