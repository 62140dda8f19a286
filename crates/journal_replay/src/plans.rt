ghost use Rattle.std.specs.Prelude.{◌≡◌, ◌+◌, ◌≤◌, ◌<◌, IfOk, IsTrue, OnOk, cond, length, ℕ, Some, option_copied};
ghost use Rattle.std.specs.Ordering.{nat_cmp};
ghost use Rattle.std.specs.BTreeMap.{get, IsEmpty};
ghost use Rattle.entries.specs.Limits.{max_entries, max_games};
ghost use Rattle.entries.specs.declared.journal.What.TheVariants as what;
ghost use Rattle.wave.specs.declared.snapshot.Plan.{Plan};
ghost use Rattle.arena_core.specs.Held.{past};
ghost use Rattle.arena_history.specs.Snapshots.{plan};
ghost use Rattle.journal_replay.specs.Plans.{AreMade, AreOwnPlans, HasLastUses, IsUsedUntil, Lasts, starts_wave};

use arena_core::Arena;
use arena_history::beginnings_are_histories;
use arena_rules::{plans_of_entries, tables_of_legal_lists};
use entries::{Entry, MAX_GAMES, What};
use group_pairing::Bench;
use std::alloc::{AllocError, Global};
use std::collections::BTreeMap;
use std::thread::Threads;
use wave::{Plan, plan};

/// How many threads solve the groups of a plan at once.
const SOLVERS: usize = 4;

/// The plans that the waves of a journal name: each is made once, when the arena has so many entries, and kept until its last use.
#[derive(Drop)]
pub struct WavePlans {
    solvers: Vec<Bench>,
    ghost some: { 0 < length solvers.items },
    last_uses: BTreeMap<u64, u64>,
    made: BTreeMap<u64, Plan>,
}

// The solvers of plans.
fn solvers(alloc: Global) -> Result<Vec<Bench>, AllocError>
    ensures { IfOk result (λ made. 0 < length made.items) }
{
    let mut made = Vec::new(alloc);
    made.push(Bench::new(alloc)?)?;
    'solvers: for _ in 1..SOLVERS {
        made.push(Bench::new(alloc)?)?;
    }
    Ok(made)
}

// Notes that the entry with this number, behind so many waves, is the last so far that uses its length, if it is one of the first
// 200,001 waves. Answers how many waves there are with it.
fn note_use(
    uses: &mut BTreeMap<u64, u64>,
    waves: u64,
    number: u64,
    e: &Entry,
) -> Result<u64, AllocError>
    requires { waves ≤ 1000000000000000000 }
    ensures waves { IfOk result (λ more. more ≡ waves + cond (starts_wave e.now.what) 1 0) }
    ensures lasts { OnOk result (Lasts uses.old uses.new number) }
    ensures own { OnOk result ((n : ℕ) → e.now.what ≡ what.Wave n → waves ≤ max_games → IsUsedUntil number (get nat_cmp uses.new n)) }
{
    let What::Wave(n) = e.what else {
        return Ok(waves);
    };
    if waves <= u64::from(MAX_GAMES) {
        uses.insert(n, number)?;
    }
    Ok(waves + 1)
}

// For each length that one of the first 200,001 waves names, the number of the last of these waves that names it. A legal journal
// has no more than 200,000 waves.
fn last_uses(alloc: Global, entries: &[Entry]) -> Result<BTreeMap<u64, u64>, AllocError>
    requires { length entries.now ≤ max_entries }
    ensures { IfOk result (HasLastUses entries.now (length entries.now)) }
{
    let mut uses = BTreeMap::new(alloc);
    let mut waves = 0;
    let mut number = 0;
    'noting: for e in entries {
        waves = note_use(&mut uses, waves, number, e)?;
        number += 1;
    }
    Ok(uses)
}

// The plan of the arena's journal.
fn plan_of<R: Threads + Sync>(
    rt: &R,
    alloc: Global,
    solvers: &mut [Bench],
    arena: &Arena,
) -> Result<Plan, AllocError>
    requires { 0 < length solvers.old }
    ensures { IfOk result (λ made. made ≡ plan arena.now.setup (past arena.now)) }
{
    arena.shows_legal();
    tables_of_legal_lists();
    let snapshot = arena.snapshot(alloc, 0)?;
    plan(rt, alloc, solvers, &snapshot)
}

impl WavePlans {
    /// None is made yet. It is found which lengths the waves of these entries name.
    pub fn new(alloc: Global, entries: &[Entry]) -> Result<WavePlans, AllocError>
        requires { length entries.now ≤ max_entries }
        ensures uses { IfOk result (λ plans. HasLastUses entries.now (length entries.now) plans.last_uses) }
        ensures none { IfOk result (λ plans. IsEmpty plans.made) }
    {
        Ok(WavePlans {
            solvers: solvers(alloc)?,
            last_uses: last_uses(alloc, entries)?,
            made: BTreeMap::new(alloc),
        })
    }

    /// The plan of this length, if it was made and is kept.
    pub fn of_length(&self, n: u64) -> Option<&Plan>
        ensures { option_copied result ≡ get nat_cmp self.now.made n }
    {
        self.made.get(&n)
    }

    /// Makes the plan of the arena's journal, if a wave names its length.
    pub fn make<R: Threads + Sync>(
        &mut self,
        rt: &R,
        alloc: Global,
        arena: &Arena,
    ) -> Result<(), AllocError>
        requires own { AreOwnPlans arena.now.setup arena.now.entries self.old.made }
        requires made { AreMade (length arena.now.entries) (length arena.now.entries) self.old.last_uses self.old.made }
        ensures uses { self.new.last_uses ≡ self.old.last_uses }
        ensures own { OnOk result (AreOwnPlans arena.now.setup arena.now.entries self.new.made) }
        ensures made { OnOk result (AreMade (length arena.now.entries + 1) (length arena.now.entries) self.new.last_uses self.new.made) }
    {
        let n = arena.len();
        if !self.last_uses.contains_key(&n) {
            return Ok(());
        }
        beginnings_are_histories();
        plans_of_entries();
        let plan = plan_of(rt, alloc, self.solvers.as_mut_slice(), arena)?;
        self.made.insert(n, plan)?;
        Ok(())
    }

    // Whether the entry with this number is the last that uses this length.
    fn is_last_use(&self, n: u64, number: u64) -> bool
        ensures { IsTrue result → get nat_cmp self.now.last_uses n ≡ Some number }
    {
        match self.last_uses.get(&n) {
            Some(last) => *last == number,
            None => false,
        }
    }

    /// Lets the plan go that the entry with this number used, if no later entry uses it.
    pub fn let_go(&mut self, number: u64, e: &Entry)
        requires made { AreMade (number + 1) number self.old.last_uses self.old.made }
        ensures uses { self.new.last_uses ≡ self.old.last_uses }
        ensures made { AreMade (number + 1) (number + 1) self.new.last_uses self.new.made }
        ensures kept { (n : ℕ) (p : Plan) → get nat_cmp self.new.made n ≡ Some p → get nat_cmp self.old.made n ≡ Some p }
    {
        let What::Wave(n) = e.what else {
            return;
        };
        if self.is_last_use(n, number) {
            self.made.remove(&n);
        }
    }
}
