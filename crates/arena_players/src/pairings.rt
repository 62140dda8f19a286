ghost use Rattle.std.specs.Prelude.{◌≡◌, ◌≢◌, ◌+◌, ◌<◌, ◌≤◌, ◌++◌, ◌∷◌, [], ℕ, List, length, IfOk};
ghost use Rattle.std.specs.List.{All, AllPairs};
ghost use Rattle.entries.specs.declared.journal.Start.{Start};
ghost use Rattle.entries.specs.Limits.{max_entries, max_games};
ghost use Rattle.arena_history.specs.History.{History, LeftAlone};
ghost use Rattle.arena_players.specs.Facts.{facts_at, facts_of, AreLeft, StandsFor};
ghost use Rattle.arena_players.specs.declared.facts.PairingFacts.{PairingFacts as Facts};

use crate::facts::{PairingFacts, left_alone, with_black, with_white};
use std::alloc::{AllocError, Global};
use std::marker::Model;

/// What the next snapshot tells of the games of each player of an arena.
#[derive(Drop)]
pub struct Pairings {
    begun: u32,
    waves: u32,
    // by the numbers of the players
    facts: Vec<PairingFacts>,
}

impl Model for Pairings {
    ghost use Rattle.arena_players.specs.Facts.{KeptPairings};

    ghost Value = { KeptPairings };

    ghost use Rattle.arena_players.specs.Facts.{AreKept};

    ghost view = { λ p. record { begun = p.begun; waves = p.waves; facts = p.facts.items } };

    ghost invariant = { λ p. AreKept p.begun p.waves p.facts.items };
}

impl Pairings {
    /// So many players, of whom none has had a game or was left alone. It fails only for want of memory, which no other call
    /// takes.
    pub fn new(alloc: Global, players: u32) -> Result<Pairings, AllocError>
        ensures { IfOk result (λ pairings. StandsFor pairings players [] []) }
    {
        Ok(Pairings {
            begun: 0,
            waves: 0,
            facts: vec![in alloc; PairingFacts::none(); players as usize]?,
        })
    }

    /// A wave leaves these players alone, each named once, or nobody; it comes behind the entries of all games so far. There have
    /// been fewer than 8,000,000 waves. It finds each of them at once.
    pub fn leave_alone(&mut self, players: &[u32])
        requires few { self.old.waves < max_entries }
        requires players { All (λ p. p < length self.old.facts) players.now }
        requires once { AllPairs (λ p q. p ≢ q) players.now }
        ensures begun { self.new.begun ≡ self.old.begun }
        ensures waves { self.new.waves ≡ self.old.waves + 1 }
        ensures size { length self.new.facts ≡ length self.old.facts }
        ensures stands { (n : ℕ) (starts : List Start) (lefts : List LeftAlone) (x : LeftAlone)
            → x.players ≡ players.now → All (λ (y : Start). y.entry < x.entry) starts → StandsFor self.old n starts lefts
            → StandsFor self.new n starts (lefts ++ x ∷ []) }
    {
        self.waves += 1;
        leave(self.facts.as_mut_slice(), players);
    }

    /// A game of these two begins, by an entry behind which no wave so far comes. Fewer than 200,000 games have begun. It finds
    /// both at once.
    pub fn begin(&mut self, white: u32, black: u32)
        requires few { self.old.begun < max_games }
        requires white { white < length self.old.facts }
        requires black { black < length self.old.facts }
        ensures begun { self.new.begun ≡ self.old.begun + 1 }
        ensures waves { self.new.waves ≡ self.old.waves }
        ensures size { length self.new.facts ≡ length self.old.facts }
        ensures stands { (n : ℕ) (starts : List Start) (lefts : List LeftAlone) (x : Start)
            → x.white ≡ white → x.black ≡ black → All (λ (y : LeftAlone). y.entry ≤ x.entry) lefts → StandsFor self.old n starts lefts
            → StandsFor self.new n (starts ++ x ∷ []) lefts }
    {
        self.begun += 1;
        let facts = with_white(&self.facts[white as usize], black);
        self.facts[white as usize] = facts;
        let facts = with_black(&self.facts[black as usize], white);
        self.facts[black as usize] = facts;
    }

    /// The facts of player p, and nothing known of a number that is no player's.
    pub fn of(&self, p: u32) -> PairingFacts
        ensures kept { result ≡ facts_at self.now.facts p }
        ensures stands { (n : ℕ) (h : History) → p < n → StandsFor self.now n h.starts h.lefts → result ≡ facts_of h p }
    {
        match self.facts.get(p as usize) {
            Some(facts) => *facts,
            None => PairingFacts::none(),
        }
    }
}

// Each of these players, who differ, is left alone once more.
fn leave(facts: &mut [PairingFacts], players: &[u32])
    requires players { All (λ p. p < length facts.old) players.now }
    requires few { All (λ (f : Facts). f.alone < max_entries) facts.old }
    requires once { AllPairs (λ p q. p ≢ q) players.now }
    ensures { AreLeft players.now facts.old facts.new }
{
    'leaving: for p in players {
        let left = left_alone(&facts[*p as usize]);
        facts[*p as usize] = left;
    }
}
