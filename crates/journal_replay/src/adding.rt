ghost use Rattle.std.specs.Prelude.{◌≡◌, ◌≤◌, ℕ, length};
ghost use Rattle.std.specs.Option.{option_map, IsSome};
ghost use Rattle.std.specs.Ordering.{nat_cmp};
ghost use Rattle.std.specs.BTreeMap.{get};
ghost use Rattle.entries.specs.Limits.{max_stamp};
ghost use Rattle.entries.specs.Ranges.{IsEntryOf, IsWritable};
ghost use Rattle.entries.specs.declared.journal.What.TheVariants as what;
ghost use Rattle.arena_core.specs.Held.{past};
ghost use Rattle.arena_history.specs.Stamps.{last_stamp};
ghost use Rattle.arena_rules.specs.Commands.{IsCommandOf, what_of};
ghost use Rattle.arena_rules.specs.Verdicts.{verdict};
ghost use Rattle.journal_replay.specs.declared.illegal.IllegalCause.TheVariants.{Refused};
ghost use Rattle.journal_replay.specs.Plans.{AreOwnPlans};
ghost use Rattle.journal_replay.specs.Replays.{Adds, Tries};

use crate::illegal::{IllegalCause, ReplayFault, illegal};
use crate::plans::WavePlans;
use crate::waves::add_wave;
use arena_core::{ApplyFault, Arena, Command};
use arena_history::beginnings_are_histories;
use arena_rules::stamps_of_entries;
use entries::{Entry, Journal, What};
use std::alloc::Global;

// The stamp of the last entry, or 0 where there is none.
fn last_stamp(arena: &Arena) -> u64
    ensures { result ≡ last_stamp arena.now.entries }
{
    let Some(i) = arena.len().checked_sub(1) else {
        return 0;
    };
    match arena.entry(i) {
        Some(e) => e.stamp,
        None => unreachable!(),
    }
}

// Adds the entry of a command behind those that the arena has, or says that it is refused there.
fn obey(arena: &mut Arena, e: &Entry, c: Command) -> Result<(), ReplayFault>
    requires not_before { last_stamp arena.old.entries ≤ e.now.stamp }
    requires most { e.now.stamp ≤ max_stamp }
    requires player { IsCommandOf (length arena.old.setup.players) c }
    requires what { e.now.what ≡ what_of c }
    ensures setup { arena.new.setup ≡ arena.old.setup }
    ensures tries { Tries (option_map Refused (verdict arena.old.setup (past arena.old) e.now.stamp c)) arena.old.entries e.now arena.new.entries result }
{
    stamps_of_entries();
    let number = arena.len();
    match arena.apply(e.pass, e.stamp, c) {
        Ok(_) => Ok(()),
        Err(ApplyFault::Refused(refusal)) => Err(illegal(number, IllegalCause::Refused(refusal))),
        Err(ApplyFault::OutOfMemory) => Err(ReplayFault::OutOfMemory),
    }
}

/// Adds an entry of a journal behind those that the arena has, or says why it is not allowed there. The plan that it names, if
/// it is a wave of no more entries than there are, is one of those that were made.
pub fn add_entry(
    alloc: Global,
    journal: &Journal,
    arena: &mut Arena,
    plans: &WavePlans,
    e: &Entry,
) -> Result<(), ReplayFault>
    requires writable { IsWritable journal.now }
    requires setup { arena.old.setup ≡ journal.now.setup }
    requires in_range { IsEntryOf (length journal.now.setup.players) e.now }
    requires own { AreOwnPlans arena.old.setup arena.old.entries plans.now.made }
    requires made { (n : ℕ) → e.now.what ≡ what.Wave n → n ≤ length arena.old.entries → IsSome (get nat_cmp plans.now.made n) }
    ensures setup { arena.new.setup ≡ arena.old.setup }
    ensures adds { Adds journal.now arena.old.entries e.now arena.new.entries result }
{
    beginnings_are_histories();
    if e.stamp < last_stamp(arena) {
        return Err(illegal(arena.len(), IllegalCause::StampFalls));
    }
    match e.what {
        What::Enter(p) => obey(arena, e, Command::Enter(p)),
        What::Pause(p) => obey(arena, e, Command::Pause(p)),
        What::Leave(p) => obey(arena, e, Command::Leave(p)),
        What::Act(p, g, action) => obey(arena, e, Command::Act(p, g, action)),
        What::Tick => obey(arena, e, Command::Tick),
        What::Wave(n) => add_wave(alloc, journal, arena, plans, e, n),
    }
}
