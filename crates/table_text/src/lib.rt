//! The text of a table: a line for each player who entered and for each team, and how much was played. The layer above relies on
//! `specs/Table.antt`, which says the text of any list of entries over a setup: `write_table` gives it for an arena, and `write_summary` its beginning and end.
#![tactic(auto)]

mod table;
mod team_lines;

pub use table::{write_summary, write_table};
