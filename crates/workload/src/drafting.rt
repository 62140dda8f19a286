//! How an arena's journal is put together, entry by entry.

ghost use Rattle.std.specs.Prelude.{◌≡◌, ◌<◌, ◌≤◌, IfOk, length};
ghost use Rattle.entries.specs.Limits.{max_stamp};
ghost use Rattle.arena_core.specs.Held.{past};
ghost use Rattle.arena_history.specs.Snapshots.{plan};
ghost use Rattle.arena_history.specs.Stamps.{last_stamp};
ghost use Rattle.arena_rules.specs.Commands.{IsCommandOf, entry_of};
ghost use Rattle.arena_rules.specs.Commits.{IsPlanOf, wave_entry};
ghost use Rattle.workload.specs.Drafts.{behind};
ghost use Rattle.workload.specs.Steps.{ComesTo};
ghost use Rattle.workload.specs.declared.drafting.Stop.TheVariants.{OutOfMemory};

use arena_core::{ApplyFault, Arena, Command, CommitFault};
use arena_history::beginnings_are_histories;
use arena_rules::{plans_of_entries, stamps_of_entries, tables_of_legal_lists};
use group_pairing::Bench;
use std::alloc::{AllocError, AllocFailed, Global};
use std::thread::Threads;
use wave::{Plan, plan};

/// Why no further entry follows.
#[derive(Debug, Clone, Copy, PartialEq, Eq)]
pub enum Stop {
    /// The next entry is not allowed.
    NotAllowed,
    /// There was not memory enough.
    OutOfMemory,
}

impl From<AllocError> for Stop {
    ghost from_gives = { λ _ e. e ≡ OutOfMemory };

    fn from(_e: AllocError) -> Stop {
        Stop::OutOfMemory
    }
}

impl<T: Drop> From<AllocFailed<T>> for Stop {
    ghost from_gives = { λ _ e. e ≡ OutOfMemory };

    fn from(_e: AllocFailed<T>) -> Stop {
        Stop::OutOfMemory
    }
}

/// Adds the entry of a command at `t`, of pass 0, or says that it is not allowed.
pub fn add_command(arena: &mut Arena, t: u64, c: Command) -> Result<(), Stop>
    requires player { IsCommandOf (length arena.old.setup.players) c }
    requires last { last_stamp arena.old.entries ≤ t }
    requires most { t ≤ max_stamp }
    ensures setup { arena.new.setup ≡ arena.old.setup }
    ensures last { last_stamp arena.new.entries ≤ t }
    ensures starts { (past arena.new).starts ≡ (past arena.old).starts }
    ensures comes { ComesTo (behind arena.old.setup arena.old.entries (entry_of t 0 c)) arena.new.entries result }
{
    beginnings_are_histories();
    stamps_of_entries();
    match arena.apply(0, t, c) {
        Ok(_) => Ok(()),
        Err(ApplyFault::Refused(_)) => Err(Stop::NotAllowed),
        Err(ApplyFault::OutOfMemory) => Err(Stop::OutOfMemory),
    }
}

// The plan of the arena's journal.
fn plan_of<R: Threads + Sync>(
    rt: &R,
    alloc: Global,
    solvers: &mut [Bench],
    arena: &Arena,
) -> Result<Plan, AllocError>
    requires { 0 < length solvers.old }
    ensures is { IfOk result (IsPlanOf arena.now.setup arena.now.entries) }
    ensures whole { IfOk result (λ made. made.n ≡ length arena.now.entries) }
{
    arena.shows_legal();
    beginnings_are_histories();
    tables_of_legal_lists();
    plans_of_entries();
    let snapshot = arena.snapshot(alloc, 0)?;
    plan(rt, alloc, solvers, &snapshot)
}

/// Adds a wave at `t`, of pass 0, of the plan of all entries so far, or says that it is not allowed.
pub fn add_wave<R: Threads + Sync>(
    rt: &R,
    alloc: Global,
    solvers: &mut [Bench],
    arena: &mut Arena,
    t: u64,
) -> Result<(), Stop>
    requires solvers { 0 < length solvers.old }
    requires last { last_stamp arena.old.entries ≤ t }
    requires most { t ≤ max_stamp }
    ensures solvers { length solvers.new ≡ length solvers.old }
    ensures setup { arena.new.setup ≡ arena.old.setup }
    ensures last { last_stamp arena.new.entries ≤ t }
    ensures comes { ComesTo (behind arena.old.setup arena.old.entries (wave_entry t 0 (length arena.old.entries)))
        arena.new.entries result }
{
    beginnings_are_histories();
    stamps_of_entries();
    let plan = plan_of(rt, alloc, solvers, arena)?;
    match arena.commit(alloc, 0, t, &plan) {
        Ok(0) => Err(Stop::NotAllowed),
        Ok(_) => Ok(()),
        Err(CommitFault::OutOfMemory) => Err(Stop::OutOfMemory),
        Err(CommitFault::Early) => Err(Stop::NotAllowed),
        Err(CommitFault::Closed) => Err(Stop::NotAllowed),
        Err(CommitFault::Full) => Err(Stop::NotAllowed),
    }
}
