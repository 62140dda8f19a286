ghost use Rattle.std.specs.Prelude.{ℕ, ◌≡◌, ◌≢◌, ◌<◌, ◌≤◌, [], length, map, All, IfOk, Err, false};
ghost use Rattle.std.specs.List.{range_with_len};
ghost use mathlib.Core.List.{IsPrefix};
ghost use Rattle.arena_core.specs.Answers.{IsSmall};
ghost use Rattle.arena_lock.specs.Turns.{Asked, Committed, Commanded, IsReady, Snapped, pass_of};
ghost use Rattle.arena_rules.specs.Commands.{IsCommandOf};
ghost use Rattle.arena_rules.specs.Commits.{IsPlanOf};
ghost use Rattle.arena_rules.specs.Legal.{IsLegal};
ghost use Rattle.arena_rules.specs.Queries.{IsQueryOf};
ghost use Rattle.entries.specs.Ranges.{IsGood};
ghost use Rattle.turnstile.specs.Histories.{own};
ghost use Rattle.turnstile.specs.Passes.{IsTold, new_pass, own_of};

use arena_core::{Answer, ApplyFault, Arena, Command, CommitFault, Query, QueryFault, Reply};
use arena_rules::plans_of_entries;
use entries::Setup;
use std::alloc::{AllocError, Global};
use std::marker::Model;
use std::sync::Wait;
use turnstile::Turnstile;
use wave::{Plan, Snapshot};

/// A right to take turns at one lobby. Contracts see of it which lobby it is of, its number, the history that it has seen, for
/// each turn that it ended how long that history then was, and whether it has the turn.
pub type Pass = turnstile::Pass<Arena>;

/// An arena behind its lock. Contracts see which lock it is, the arena's setup, and the number of passes.
#[derive(Drop)]
pub struct Lobby {
    lock: Turnstile<Arena>,
    setup: Setup,
}

impl Model for Lobby {
    ghost use Rattle.std.specs.Prelude.{◌≡◌};
    ghost use Rattle.entries.specs.declared.setup.Setup.{Setup};
    ghost use Rattle.entries.specs.Ranges.{IsGood};
    ghost use Rattle.turnstile.specs.Passes.{Lock};

    ghost Value = { Lock Setup };

    ghost view = { λ l. l.lock };

    ghost invariant = { λ l. (l.setup ≡ l.lock.fixed) × IsGood l.lock.fixed };
}

impl Lobby {
    /// A lobby of an arena in which nothing happened yet, and its passes, 1 to 256: the first of the list has the number 0, and
    /// so on. It fails only for want of memory, and then drops the arena.
    pub fn new(alloc: Global, arena: Arena, passes: u32) -> Result<(Lobby, Vec<Pass>), AllocError>
        requires some { (1 ≤ passes) × (passes ≤ 256) }
        requires empty { arena.entries ≡ [] }
        ensures setup { IfOk result (λ r. r.0.fixed ≡ arena.setup) }
        ensures number { IfOk result (λ r. r.0.passes ≡ passes) }
        ensures passes { IfOk result (λ r. r.1.items ≡ map (new_pass r.0) (range_with_len 0 passes)) }

        // What the list of passes says of each, in the words of the other calls' conditions.
        ensures len { IfOk result (λ r. length r.1.items ≡ passes) }
        ensures ready { IfOk result (λ r. All (IsReady r.0) r.1.items) }
    {
        arena.shows_legal();
        let setup = arena.setup().copy(alloc)?;
        match Turnstile::new(alloc, arena, passes) {
            Ok((lock, passes)) => Ok((Lobby { lock, setup }, passes)),
            Err(error) => Err(error),
        }
    }

    /// The arena's setup, which is good. It takes no turn.
    pub fn setup(&self) -> &Setup
        ensures setup { result.now ≡ self.now.fixed }
        ensures good { IsGood self.now.fixed }
    {
        &self.setup
    }

    /// A command of the pass at `now`, a moment of the clock in milliseconds, in one turn. Answers, stamp and cost are those of
    /// `Arena::apply` at the history that the turn finds: `Refused` with the command's first refusal there, and `OutOfMemory`
    /// where it is not refused and there is no memory for its entry, and neither adds an entry.
    pub fn command<R: Wait>(
        &self,
        rt: &R,
        pass: &mut Pass,
        now: u64,
        c: Command,
    ) -> Result<Reply, ApplyFault>
        requires ready { IsReady self.now pass.old }
        requires player { IsCommandOf (length self.now.fixed.players) c }
        ensures ready { IsReady self.now pass.new }
        ensures answer { Commanded self.now.fixed pass.old pass.new now c result }
    {
        let mut arena = self.lock.enter(rt, pass);
        let result = arena.apply(pass.number(), now, c);
        arena.shows_legal();
        self.lock.leave(pass, arena);
        result
    }

    /// A question at `now`, a moment of the clock in milliseconds, in one turn, which adds no entry. Answers and cost are those
    /// of `Arena::query` at the history that the turn finds: `NoGame` where a game is asked for that was not begun there, and
    /// `OutOfMemory` where there is no memory for the answer.
    pub fn query<R: Wait>(
        &self,
        rt: &R,
        alloc: Global,
        pass: &mut Pass,
        now: u64,
        q: Query,
    ) -> Result<Answer, QueryFault>
        requires ready { IsReady self.now pass.old }
        requires player { IsQueryOf (length self.now.fixed.players) q }
        ensures ready { IsReady self.now pass.new }
        ensures answer { Asked self.now.fixed pass.old pass.new now q result }
        ensures memory { IsSmall q → result ≢ Err QueryFault.OutOfMemory }
    {
        let arena = self.lock.enter(rt, pass);
        let result = arena.query(alloc, now, q);
        arena.shows_legal();
        self.lock.leave(pass, arena);
        result
    }

    /// What a wave is planned from at `now`, in one turn, which adds no entry: the idle players of the history that the turn
    /// finds, in the order of its table. It goes once over the table, and fails only for want of memory.
    pub fn snapshot<R: Wait>(
        &self,
        rt: &R,
        alloc: Global,
        pass: &mut Pass,
        now: u64,
    ) -> Result<Snapshot, AllocError>
        requires ready { IsReady self.now pass.old }
        ensures ready { IsReady self.now pass.new }
        ensures answer { Snapped self.now.fixed pass.old pass.new now result }
    {
        let arena = self.lock.enter(rt, pass);
        let result = arena.snapshot(alloc, now);
        arena.shows_legal();
        self.lock.leave(pass, arena);
        result
    }

    /// Commits at `now`, in one turn, the plan of the first `plan.n` entries that the pass has seen: of its pairs those start
    /// whose players are both still idle since then at the history that the turn finds. Answers, stamp and cost are those of
    /// `Arena::commit` there: how many pairs start, or `Early`, `Closed`, `Full` or `OutOfMemory`, which add no entry.
    pub fn commit<R: Wait>(
        &self,
        rt: &R,
        alloc: Global,
        pass: &mut Pass,
        now: u64,
        plan: &Plan,
    ) -> Result<u32, CommitFault>
        requires ready { IsReady self.now pass.old }
        requires plan { IsPlanOf self.now.fixed pass.old.seen plan.now }
        ensures ready { IsReady self.now pass.new }
        ensures answer { Committed self.now.fixed pass.old pass.new now plan.now.n result }
    {
        plans_of_entries();
        let mut arena = self.lock.enter(rt, pass);
        let result = arena.commit(alloc, pass.number(), now, plan);
        arena.shows_legal();
        self.lock.leave(pass, arena);
        result
    }

    /// The arena, once all passes are back: no entry is dropped, changed or invented.
    pub fn close(self, passes: Vec<Pass>) -> Arena
        requires all { length passes.items ≡ self.passes }
        requires of { All (λ p. p.of ≡ self) passes.items }
        requires outside { All (λ p. p.has_turn ≡ false) passes.items }
        ensures begins { All (λ p. IsPrefix p.seen result.entries) passes.items }
        ensures own { All (λ p. own pass_of p.number result.entries ≡ own_of pass_of p) passes.items }
        ensures every { (i : ℕ) → i < self.passes → IsTold pass_of result.entries passes.items i }
        ensures numbers { All (λ e. e.pass < self.passes) result.entries }
        ensures setup { result.setup ≡ self.fixed }
        ensures legal { IsLegal self.fixed result.entries }
    {
        let Lobby { lock, setup: _ } = self;
        let arena = lock.close(passes);
        arena.shows_legal();
        arena
    }
}
