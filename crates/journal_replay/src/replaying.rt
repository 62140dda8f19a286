ghost use Rattle.std.specs.Prelude.{◌≡◌, ◌+◌, length, OnOk, slice_get, take, Some};
ghost use Rattle.entries.specs.Ranges.{IsWritable};
ghost use Rattle.journal_replay.specs.Plans.{HavePlans};
ghost use Rattle.journal_replay.specs.Replays.{Adds, Replays};

use crate::adding::add_entry;
use crate::illegal::ReplayFault;
use crate::plans::WavePlans;
use arena_core::Arena;
use arena_history::{beginnings_are_histories, games_with_one_more};
use arena_rules::{legal_lists, legal_lists_in_range, plans_of_entries};
use entries::{Entry, Journal};
use std::alloc::Global;
use std::thread::Threads;

// Makes the plan of the arena's journal, if a later wave names it, adds the next entry, and lets the plan go that was used last.
fn add_next<R: Threads + Sync>(
    rt: &R,
    alloc: Global,
    journal: &Journal,
    arena: &mut Arena,
    plans: &mut WavePlans,
    e: &Entry,
) -> Result<(), ReplayFault>
    requires writable { IsWritable journal.now }
    requires next { slice_get journal.now.entries (length arena.old.entries) ≡ Some e.now }
    requires plans { HavePlans journal.now arena.old plans.old.last_uses plans.old.made }
    ensures adds { Adds journal.now arena.old.entries e.now arena.new.entries result }
    ensures plans { OnOk result (HavePlans journal.now arena.new plans.new.last_uses plans.new.made) }
{
    beginnings_are_histories();
    games_with_one_more();
    legal_lists();
    legal_lists_in_range();
    plans_of_entries();
    arena.shows_legal();
    let number = arena.len();
    plans.make(rt, alloc, arena)?;
    add_entry(alloc, journal, arena, plans, e)?;
    plans.let_go(number, e);
    Ok(())
}

/// The arena of a journal, entry by entry. `Illegal` comes exactly where an entry is not allowed, with the first such entry and the
/// first cause that holds of it, unless memory runs out.
///
/// The cost is that of each entry's own call of the arena. At each length that a later wave names the arena is planned, once, and
/// the plan is kept until its last use.
pub fn arena_of<R: Threads + Sync>(
    rt: &R,
    alloc: Global,
    journal: &Journal,
) -> Result<Arena, ReplayFault>
    requires { IsWritable journal.now }
    ensures { Replays journal.now result }
{
    let mut arena = Arena::new(alloc, journal.setup.copy(alloc)?)?;
    let mut plans = WavePlans::new(alloc, journal.entries.items())?;
    'adding: for e in journal.entries.items() {
        add_next(rt, alloc, journal, &mut arena, &mut plans, e)?;
    }
    Ok(arena)
}
