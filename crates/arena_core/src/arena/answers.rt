//! What is shown of an arena, and what questions are answered.

ghost use Rattle.std.specs.Prelude.{ℕ, ◌≡◌, ◌<◌, ◌≤◌, List, length, IfOk, Some};
ghost use Rattle.arena_history.specs.Games.{begun};
ghost use Rattle.arena_history.specs.Stamps.{last_stamp};
ghost use Rattle.arena_rules.specs.Answers.{answer_to, shown_at};
ghost use Rattle.arena_rules.specs.Views.{arena_view, me_view};
ghost use Rattle.arena_core.specs.Held.{past};

use super::Arena;
use crate::laws::laws_of_histories;
use crate::pages::{entries_from, rows_from};
use crate::views::{me_by, phase};
use arena_history::table_is_in_order;
use arena_rules::{Answer, ArenaView, MeView, Query, games_of_legal_lists};
use conn::List;
use entries::Journal;
use game_room::GameView;
use std::alloc::{AllocError, Global};
use team_battle::team_table;

impl Arena {
    // The arena at a stamp.
    pub(super) fn view(&self, t: u64) -> ArenaView
        ensures { result ≡ arena_view self.now.setup (past self.now) t }
    {
        laws_of_histories();
        ArenaView {
            stamp: t,
            phase: phase(self.book.setup(), t),
            entered: self.people.entered(),
            begun: self.games.begun(),
            running: self.games.running(),
        }
    }

    // A player.
    pub(super) fn me(&self, p: u32) -> MeView
        requires { p < length self.now.setup.players }
        ensures { result ≡ me_view self.now.setup (past self.now) p }
    {
        laws_of_histories();
        table_is_in_order();
        me_by(p, self.people.seat(p), self.people.row_of(p))
    }

    // A game at a stamp, if it was begun.
    pub(super) fn shown(&self, t: u64, g: u32) -> Option<GameView>
        requires { last_stamp self.now.entries ≤ t }
        ensures { result ≡ shown_at self.now.setup (past self.now) t g }
    {
        self.book.keeps();
        laws_of_histories();
        games_of_legal_lists();
        self.games.view(g, t)
    }

    // The table's length, and ten rows of it.
    pub(super) fn standing(&self, alloc: Global, k: u32) -> Result<Answer, AllocError>
        ensures { IfOk result (λ given. (t : ℕ) → answer_to self.now.setup (past self.now) t (Query.Standing k) ≡ Some given) }
    {
        laws_of_histories();
        Ok(Answer::Standing {
            total: self.people.entered(),
            rows: List::of(rows_from(alloc, &self.people, k)?),
        })
    }

    // The table of the teams.
    pub(super) fn team_table(&self, alloc: Global) -> Result<Answer, AllocError>
        ensures { IfOk result (λ given. (t : ℕ) → answer_to self.now.setup (past self.now) t Query.Teams ≡ Some given) }
    {
        Ok(Answer::Teams(List::of(self.teams(alloc)?)))
    }

    // The journal's length, and a thousand entries of it.
    pub(super) fn journal(&self, alloc: Global, k: u64) -> Result<Answer, AllocError>
        ensures { IfOk result (λ given. (t : ℕ) → answer_to self.now.setup (past self.now) t (Query.Journal k) ≡ Some given) }
    {
        laws_of_histories();
        let entries = self.book.entries();
        Ok(Answer::Journal {
            total: entries.len() as u64,
            entries: List::of(entries_from(alloc, entries, k)?),
        })
    }
}
