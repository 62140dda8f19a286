ghost use Rattle.std.specs.Prelude.{◌≡◌, ◌≢◌, ◌≤◌, ◌++◌, ◌∷◌, [], ℕ, length, map, None, IfOk, OnOk, OnErr};
ghost use Rattle.entries.specs.Limits.{max_stamp};
ghost use Rattle.arena_games.specs.Beginnings.{ArePrepared};
ghost use Rattle.arena_games.specs.Courses as course;
ghost use Rattle.arena_history.specs.Stamps.{last_stamp};
ghost use Rattle.arena_rules.specs.Commits.{IsPlanOf, wave_entry, wave_refusal};
ghost use Rattle.arena_rules.specs.Legal.{AllowsWave};
ghost use Rattle.arena_core.specs.Kept.{AreKept};
ghost use Rattle.arena_core.specs.Starting.{AreHeaders, IsReady, waiting};
ghost use Rattle.arena_core.specs.Written.{written_past};

use crate::book::Book;
use crate::laws::laws_of_histories;
use crate::people::People;
use crate::waiting::headers_of;
use arena_games::{Games, Prepared};
use arena_players::waves_are_entries;
use arena_rules::{
    CommitFault, legal_lists, legal_lists_in_range, plans_of_entries, tables_of_legal_lists,
};
use entries::MAX_GAMES;
use game_room::Header;
use std::alloc::{AllocError, Global};
use wave::{Plan, each_player_once};

/// None, or the first refusal of a wave at a stamp that starts so many pairs.
pub fn wave_refusal(book: &Book, t: u64, count: usize) -> Option<CommitFault>
    ensures { result ≡ wave_refusal book.now.setup (written_past book.now) t count }
{
    let setup = book.setup();
    if t < setup.starts {
        return Some(CommitFault::Early);
    }
    if setup.ends <= t {
        return Some(CommitFault::Closed);
    }
    if count == 0 {
        return None;
    }
    if book.lacks_room(count) {
        return Some(CommitFault::Full);
    }
    None
}

/// The headers of the games that the pairs of a plan begin at a stamp, of which both players wait, and their games, for which
/// all memory is taken that they need until they have ended. It fails only for want of memory.
pub fn prepare_wave(
    alloc: Global,
    book: &Book,
    games: &mut Games,
    people: &mut People,
    plan: &Plan,
    t: u64,
) -> Result<(Vec<Header>, Prepared), AllocError>
    requires kept { AreKept book.now.setup book.now.entries games.old people.old }
    requires most { t ≤ max_stamp }
    requires plan { IsPlanOf book.now.setup book.now.entries plan.now }
    requires allowed { AllowsWave book.now.setup (written_past book.now) t plan.now.n }
    ensures kept { AreKept book.now.setup book.now.entries games.new people.new }
    ensures headers { IfOk result (λ made. AreHeaders book.now.setup book.now.entries t plan.now.n made.0.items) }
    ensures ready { IfOk result (λ made. IsReady games.new people.new (length (written_past book.now).starts) made.0.items made.1) }
{
    book.keeps();
    laws_of_histories();
    legal_lists();
    tables_of_legal_lists();
    plans_of_entries();
    each_player_once();
    let first = book.starts().len() as u32;
    let headers = headers_of(alloc, book.setup().control, first, t, people, plan)?;
    let prepared = games.prepare(alloc, headers.as_slice())?;
    people.reserve(first + headers.len() as u32)?;
    Ok((headers, prepared))
}

/// Begins the games of these headers, which are prepared, by a wave of the plan that is not yet written down: whom the plan
/// leaves alone is noted, the players sit down, and the games run. It takes no memory.
pub fn begin_wave(
    book: &Book,
    games: &mut Games,
    people: &mut People,
    plan: &Plan,
    t: u64,
    headers: &[Header],
    prepared: Prepared,
)
    requires kept { AreKept book.now.setup book.now.entries games.old people.old }
    requires plan { IsPlanOf book.now.setup book.now.entries plan.now }
    requires allowed { AllowsWave book.now.setup (written_past book.now) t plan.now.n }
    requires headers { AreHeaders book.now.setup book.now.entries t plan.now.n headers.now }
    requires ready { IsReady games.old people.old (length (written_past book.now).starts) headers.now prepared }
    ensures { (pass : ℕ) → AreKept book.now.setup (book.now.entries ++ wave_entry t pass plan.now.n ∷ []) games.new people.new }
{
    book.keeps();
    laws_of_histories();
    legal_lists();
    legal_lists_in_range();
    tables_of_legal_lists();
    each_player_once();
    waves_are_entries();
    people.leave_alone(plan.alone.items());
    'seating: for header in headers {
        people.begin(header.id, header.white, header.black);
    }
    games.begin(prepared);
}
