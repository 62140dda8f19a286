//! The setup of an evening from JSON, or the first fault of its file. The layers above rely on `specs/Reading.antt`, which
//! reads a JSON value member by member and names the first fault, and on this: the setup that is read is good, each player
//! has a key of his own, and a key is found at its player's number.
#![tactic(auto)]

mod fault;
mod head;
mod keys;
mod members;
mod players;
mod read;
mod register;
mod teams;

pub use fault::{Member, ReadSetupFault, SetupCause, SetupFault};
pub use keys::Keys;
pub use read::{read_setup, value_is_json};

#[cfg(test)]
mod tests;
