//! How the plan of a wave is committed.

ghost use Rattle.std.specs.Prelude.{◌≡◌, ◌+◌, ◌≤◌, [], ◌∷◌, ◌++◌, length, IfOk, IfErr, OnOk, OnErr, Ok, Err, None, Some};
ghost use Rattle.entries.specs.Limits.{max_stamp};
ghost use Rattle.arena_history.specs.Stamps.{last_stamp};
ghost use Rattle.arena_history.specs.Waves.{started};
ghost use Rattle.arena_rules.specs.Commits.{Commits, IsPlanOf, commit_refusal, wave_entry};
ghost use Rattle.arena_rules.specs.Legal.{AllowsWave};
ghost use Rattle.arena_core.specs.Held.{past};

use super::Arena;
use crate::laws::laws_of_histories;
use crate::starting::{begin_wave, prepare_wave, wave_refusal};
use crate::waiting::count_waiting;
use arena_rules::{
    CommitFault, legal_lists, legal_lists_in_range, plans_of_entries, tables_of_legal_lists,
    what_is_allowed,
};
use std::alloc::{AllocError, Global};
use wave::{Plan, each_player_once};

impl Arena {
    // How many pairs of a plan a wave would start, or its first refusal.
    fn waiting(&self, t: u64, plan: &Plan) -> Result<u32, CommitFault>
        requires { IsPlanOf self.now.setup self.now.entries plan.now }
        ensures count { IfOk result (λ count. count ≡ length (started self.now.setup (past self.now) plan.now.n)) }
        ensures granted { OnOk result (commit_refusal self.now.setup (past self.now) t plan.now.n ≡ None) }
        ensures refused { IfErr result (λ fault. commit_refusal self.now.setup (past self.now) t plan.now.n ≡ Some fault) }
    {
        self.book.keeps();
        laws_of_histories();
        legal_lists();
        legal_lists_in_range();
        tables_of_legal_lists();
        plans_of_entries();
        each_player_once();
        let count = count_waiting(&self.people, plan);
        match wave_refusal(&self.book, t, count) {
            Some(fault) => Err(fault),
            None => Ok(count as u32),
        }
    }

    // What the commit of a plan is answered, and does.
    pub(super) fn commit_plan(
        &mut self,
        alloc: Global,
        pass: u32,
        now: u64,
        plan: &Plan,
    ) -> Result<u32, CommitFault>
        requires { IsPlanOf self.old.setup self.old.entries plan.now }
        ensures setup { self.new.setup ≡ self.old.setup }
        ensures answer { Commits self.old.setup self.old.entries pass now plan.now.n self.new.entries result }
        ensures unchanged { OnErr result (self.new ≡ self.old) }
        ensures nobody { result ≡ Ok 0 → self.new ≡ self.old }
        ensures spare { self.old.spare ≤ self.new.spare + 1 }
    {
        laws_of_histories();
        plans_of_entries();
        what_is_allowed();
        let t = self.stamp(now);
        let count = match self.waiting(t, plan) {
            Ok(count) => count,
            Err(fault) => return Err(fault),
        };
        if count == 0 {
            return Ok(0);
        }
        match self.start_wave(alloc, t, pass, plan) {
            Ok(()) => Ok(count),
            Err(_) => Err(CommitFault::OutOfMemory),
        }
    }

    // Begins the games of a wave, which may come, and adds its entry.
    fn start_wave(
        &mut self,
        alloc: Global,
        t: u64,
        pass: u32,
        plan: &Plan,
    ) -> Result<(), AllocError>
        requires not_before { last_stamp self.old.entries ≤ t }
        requires most { t ≤ max_stamp }
        requires plan { IsPlanOf self.old.setup self.old.entries plan.now }
        requires allowed { AllowsWave self.old.setup (past self.old) t plan.now.n }
        ensures setup { self.new.setup ≡ self.old.setup }
        ensures entries { OnOk result (self.new.entries ≡ self.old.entries ++ wave_entry t pass plan.now.n ∷ []) }
        ensures unchanged { OnErr result (self.new ≡ self.old) }
        ensures spare { self.old.spare ≤ self.new.spare + 1 }
    {
        laws_of_histories();
        let (headers, prepared) = prepare_wave(
            alloc,
            &self.book,
            &mut self.games,
            &mut self.people,
            plan,
            t,
        )?;
        self.book.reserve_wave(headers.len())?;
        begin_wave(
            &self.book,
            &mut self.games,
            &mut self.people,
            plan,
            t,
            headers.as_slice(),
            prepared,
        );
        self.book.add_wave(t, pass, plan.n, headers.as_slice());
        Ok(())
    }
}
