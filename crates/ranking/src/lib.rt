//! The table of an arena: who stands at which rank. `specs/Order.antt` has the order of its lines, `specs/Rows.antt` what it
//! answers. The layers above rely on its answers being those of the values last given of each player who entered, and on
//! entering and scoring taking no memory.
#![tactic(auto)]

mod laws;
mod line;
mod order;
mod row;
mod table;

pub use laws::{lines_are_ordered, ranks_follow_the_order, rows_are_the_lines};
pub use row::Row;
pub use table::Table;

#[cfg(test)]
mod tests;
