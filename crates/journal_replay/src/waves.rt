ghost use Rattle.std.specs.Prelude.{◌≡◌, ◌≤◌, length, None};
ghost use Rattle.std.specs.Option.{IsSome};
ghost use Rattle.std.specs.Ordering.{nat_cmp};
ghost use Rattle.std.specs.BTreeMap.{get};
ghost use Rattle.entries.specs.Limits.{max_stamp};
ghost use Rattle.entries.specs.Ranges.{IsWritable};
ghost use Rattle.entries.specs.declared.journal.What.TheVariants as what;
ghost use Rattle.arena_core.specs.Held.{past};
ghost use Rattle.arena_history.specs.Stamps.{last_stamp};
ghost use Rattle.arena_rules.specs.Commits.{IsPlanOf};
ghost use Rattle.journal_replay.specs.Causes.{window_cause, wave_cause, games_cause, games_of_wave};
ghost use Rattle.journal_replay.specs.Plans.{AreOwnPlans};
ghost use Rattle.journal_replay.specs.Replays.{Tries};

use crate::illegal::{IllegalCause, ReplayFault, illegal};
use crate::listing::lists_others;
use crate::plans::WavePlans;
use arena_core::{Arena, CommitFault};
use arena_history::{beginnings_are_histories, games_with_one_more};
use arena_rules::{legal_lists_in_range, plans_of_entries, stamps_of_entries};
use entries::{Entry, Journal, Setup};
use std::alloc::Global;
use wave::Plan;

// None, or that a wave of the plan of the first `n` of so many entries is too early, too late, or of more entries than there are.
fn window_cause(setup: &Setup, count: u64, t: u64, n: u64) -> Option<IllegalCause>
    ensures { result ≡ window_cause setup.now count t n }
{
    if t < setup.starts {
        return Some(IllegalCause::Early);
    }
    if t >= setup.ends {
        return Some(IllegalCause::Closed);
    }
    if n > count {
        return Some(IllegalCause::WaveNumber);
    }
    None
}

// Begins the games of a wave that comes in its time, or says why it may not begin them.
fn start_wave(
    alloc: Global,
    journal: &Journal,
    arena: &mut Arena,
    e: &Entry,
    plan: &Plan,
) -> Result<(), ReplayFault>
    requires writable { IsWritable journal.now }
    requires setup { arena.old.setup ≡ journal.now.setup }
    requires not_before { last_stamp arena.old.entries ≤ e.now.stamp }
    requires most { e.now.stamp ≤ max_stamp }
    requires wave { e.now.what ≡ what.Wave plan.now.n }
    requires plan { IsPlanOf arena.old.setup arena.old.entries plan.now }
    requires in_time { window_cause journal.now.setup (length arena.old.entries) e.now.stamp plan.now.n ≡ None }
    ensures setup { arena.new.setup ≡ arena.old.setup }
    ensures tries { Tries (games_cause journal.now (past arena.old) (games_of_wave journal.now (past arena.old) plan.now.n))
        arena.old.entries e.now arena.new.entries result }
{
    beginnings_are_histories();
    games_with_one_more();
    legal_lists_in_range();
    plans_of_entries();
    stamps_of_entries();
    arena.shows_legal();
    let (number, begun) = (arena.len(), arena.begun());
    match arena.commit(alloc, e.pass, e.stamp, plan) {
        Ok(0) => Err(illegal(number, IllegalCause::WaveEmpty)),
        Ok(_) => {
            if lists_others(journal, number, arena, begun) {
                Err(illegal(number, IllegalCause::PairsDiffer))
            } else {
                Ok(())
            }
        }
        Err(CommitFault::Full) => Err(illegal(number, IllegalCause::Full)),
        Err(CommitFault::OutOfMemory) => Err(ReplayFault::OutOfMemory),
        Err(CommitFault::Early) => unreachable!(),
        Err(CommitFault::Closed) => unreachable!(),
    }
}

/// Adds a wave of the plan of the first `n` entries behind those that the arena has, or says why it is not allowed there. The plan
/// is one of those that were made.
pub fn add_wave(
    alloc: Global,
    journal: &Journal,
    arena: &mut Arena,
    plans: &WavePlans,
    e: &Entry,
    n: u64,
) -> Result<(), ReplayFault>
    requires writable { IsWritable journal.now }
    requires setup { arena.old.setup ≡ journal.now.setup }
    requires not_before { last_stamp arena.old.entries ≤ e.now.stamp }
    requires most { e.now.stamp ≤ max_stamp }
    requires wave { e.now.what ≡ what.Wave n }
    requires own { AreOwnPlans arena.old.setup arena.old.entries plans.now.made }
    requires made { n ≤ length arena.old.entries → IsSome (get nat_cmp plans.now.made n) }
    ensures setup { arena.new.setup ≡ arena.old.setup }
    ensures tries { Tries (wave_cause journal.now (past arena.old) e.now.stamp n) arena.old.entries e.now arena.new.entries result }
{
    beginnings_are_histories();
    let number = arena.len();
    if let Some(cause) = window_cause(&journal.setup, number, e.stamp, n) {
        return Err(illegal(number, cause));
    }
    let Some(plan) = plans.of_length(n) else {
        unreachable!()
    };
    start_wave(alloc, journal, arena, e, plan)
}
