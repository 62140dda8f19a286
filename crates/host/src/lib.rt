//! Connections to an arena: requests are read one after another, each takes at most one turn of the lobby, and each is answered
//! with what the history defines that the turn left. The layer above relies on the contract of `serve_connection`, whose words
//! stand in `specs/`: `Exchanges` (what requests come to), `Answers` (what one comes to at a length of the history and a stamp),
//! `Asked` (what the pass did meanwhile), `Responses` (the bytes of each answer), `Spelt` (the requests of the source's bytes),
//! `Causes` (when each way to end comes, and what was written then), and `Talk`, which has all of it.
#![tactic(auto)]

mod answering;
mod desk;
mod ended;
mod laws;
mod said;
mod sending;
mod serving;

pub use ended::Ended;
pub use serving::serve_connection;
