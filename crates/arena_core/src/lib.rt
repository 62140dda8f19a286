//! An arena: its setup and its journal, which is legal at all times, and beside them all that is kept so as to answer at once. The
//! layers above see of it the record of `specs/Held.antt`: setup, entries, and for how many entries more there is room. They rely
//! on `apply` and `commit`, which add exactly the entry that the definitions of `arena_rules` say, or answer exactly their refusal
//! and leave all as it was, and on every other call to answer as these definitions do at the arena's own journal.
#![tactic(auto)]

mod acting;
mod arena;
mod asking;
mod book;
mod fault;
mod freeing;
mod laws;
mod looking;
mod obeying;
mod pages;
mod people;
mod refusals;
mod starting;
mod views;
mod waiting;
mod wishing;

pub use arena::Arena;
pub use arena_rules::{
    Answer, ArenaView, Command, CommitFault, MeView, Phase, PlayerSeat, Query, Refusal, Reply,
};
pub use fault::{ApplyFault, QueryFault};
