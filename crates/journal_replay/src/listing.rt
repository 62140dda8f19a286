ghost use Rattle.std.specs.Prelude.{◌≡◌, ◌≤◌, drop, length};
ghost use Rattle.std.specs.List.{AllPairs};
ghost use Rattle.entries.specs.Limits.{max_games};
ghost use Rattle.entries.specs.Ranges.{listed_at};
ghost use Rattle.entries.specs.declared.journal.Start.{Start};
ghost use Rattle.arena_core.specs.Held.{past};
ghost use Rattle.journal_replay.specs.Causes.{same_start, same_starts, lists_others};

use arena_core::Arena;
use arena_history::games_with_one_more;
use arena_rules::legal_lists_in_range;
use entries::{Journal, Start};

// The same game: of the same entry, and between the same two with the same colours.
fn same_start(a: &Start, b: &Start) -> bool
    ensures { result ≡ same_start a.now b.now }
{
    a.entry == b.entry && a.white == b.white && a.black == b.black
}

// Whether the games that the arena began from this number on are these.
fn begins(arena: &Arena, from: u32, listed: &[Start]) -> bool
    requires { length (past arena.now).starts ≤ max_games }
    ensures { result ≡ same_starts listed.now (drop from (past arena.now).starts) }
{
    let Some(begun) = arena.start(from) else {
        return listed.is_empty();
    };
    if listed.is_empty() {
        return false;
    }
    if !same_start(&listed[0], &begun) {
        return false;
    }
    begins(arena, from + 1, &listed[1..])
}

// The games that are listed at the entry with this number, of games in the order of their entries.
fn listed_at(number: u64, starts: &[Start]) -> &[Start]
    requires { AllPairs (λ (a b : Start). a.entry ≤ b.entry) starts.now }
    ensures { result.now ≡ listed_at number starts.now }
{
    let first = starts.partition_point(|g| g.entry < number);
    let behind = &starts[first..];
    let count = behind.partition_point(|g| g.entry <= number);
    &behind[..count]
}

/// Whether a journal of version 2 lists other games at its entry with this number than the arena has begun behind so many.
pub fn lists_others(journal: &Journal, number: u64, arena: &Arena, begun: u32) -> bool
    requires { AllPairs (λ (a b : Start). a.entry ≤ b.entry) journal.now.starts }
    ensures { result ≡ lists_others journal.now number (drop begun (past arena.now).starts) }
{
    arena.shows_legal();
    games_with_one_more();
    legal_lists_in_range();
    if journal.version != 2 {
        return false;
    }
    !begins(arena, begun, listed_at(number, journal.starts.items()))
}
