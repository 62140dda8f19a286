//! What each player of an arena asked for, the seat that he has, and since when he has been idle. The layer above relies on
//! the places being exactly what the calls made of them: `specs/Places.antt` has what each call changes, and the laws, which
//! are public functions with empty bodies, what any list of calls comes to (`specs/Laws.antt`). Nothing takes memory but the
//! first call, which makes the place of each player.
#![tactic(auto)]

mod laws;
mod place;
mod seats;
#[cfg(test)]
mod tests;
mod wish;

pub use laws::{idle_since_by_calls, seats_by_calls, wishes_by_calls};
pub use seats::Seats;
pub use wish::{PlayerSeat, Wish};
