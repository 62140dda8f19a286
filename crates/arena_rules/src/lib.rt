//! What is legal in an arena, and what is answered: the commands and questions, which of them is refused at a history and a
//! stamp and why, what the others are answered, what a commit leaves of the journal, and which lists of entries are legal. The
//! definitions are plain functions of a setup and of the history of a list of entries.
//!
//! `specs/Commands.antt` has the commands and the entries that they make, `Verdicts.antt` the refusals in their order,
//! `Commits.antt` the commit of a wave, `Answers.antt` the replies to commands and the answers to questions with what
//! `Views.antt` shows, `Queries.antt` which questions may be asked, and `Legal.antt` which lists of entries are legal.
//!
//! The layers above rely on the laws: public functions that do nothing, whose contracts hold of every setup and every list
//! of entries. Each entry that a command or a commit makes keeps a list legal exactly where nothing refuses it
//! (`what_is_allowed`), each refusal comes exactly where it should (`why_refused`), and a look that is allowed ends a game
//! (`looks_end_games`). Every legal list over a good setup is in range (`legal_lists_in_range`), begins games that a journal of version 2 may list
//! (`games_are_listed`), is fair (`legal_lists_are_fair`), and has games, rooms, tables and snapshots that the calls of the
//! crates below may be handed (`games_of_legal_lists`, `tables_of_legal_lists`).
#![tactic(auto)]

mod command;
mod commit_fault;
mod laws;
mod query;
mod refusal;
#[cfg(test)]
mod tests;
mod view;

pub use command::Command;
pub use commit_fault::CommitFault;
pub use laws::{
    a_leave_is_final, games_are_listed, games_of_legal_lists, legal_lists, legal_lists_are_fair,
    legal_lists_in_range, looks_end_games, plans_of_entries, stamps_of_entries,
    tables_of_legal_lists, what_is_allowed, why_refused, wishes_in_legal_lists,
};
pub use query::{Answer, Query, Reply};
pub use refusal::Refusal;
pub use seats::{PlayerSeat, Wish};
pub use view::{ArenaView, MeView, Phase};
