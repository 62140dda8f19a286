ghost use Rattle.std.specs.Prelude.{◌≡◌, ◌≢◌, ◌<◌, ◌≤◌, ◌++◌, ◌∷◌, [], ℕ, List, length, map, slice_get, option_and_then, IfOk, OnOk, OnErr, IsTrue};
ghost use Rattle.std.specs.List.{All, AllPairs};
ghost use Rattle.entries.specs.declared.journal.Start.{Start};
ghost use Rattle.entries.specs.declared.setup.Setup.{Setup as ArenaSetup};
ghost use Rattle.entries.specs.Limits.{max_entries};
ghost use Rattle.entries.specs.Ranges.{IsGood};
ghost use Rattle.ranking.specs.Rows.{page, rank_of, rows};
ghost use Rattle.seats.specs.Places.{place_at, seat_at, idle_since, may_enter, may_pause, may_leave};
ghost use Rattle.arena_history.specs.Endings.{EndedGame};
ghost use Rattle.arena_history.specs.History.{History, LeftAlone};
ghost use Rattle.arena_history.specs.Snapshots.{candidates};
ghost use Rattle.arena_history.specs.Waves.{history};
ghost use Rattle.arena_core.specs.Starting.{MaySit};
ghost use Rattle.arena_core.specs.People.{MayEnd, Standing, StandsFor, standing, with_entrant, with_pause, with_leave, with_end, with_start, with_alone};

use crate::freeing::free_players;
use crate::laws::laws_of_histories;
use arena_players::{Pairings, Scores, candidates};
use entries::Setup;
use game_room::{Header, Outcome};
use pair_cost::Candidate;
use ranking::Row;
use seats::{PlayerSeat, Seats, Wish};
use std::alloc::{AllocError, Global};
use std::marker::Model;

/// What an arena keeps of its players, and of the games that count. Contracts see for which places, games, entrants and waves
/// it stands.
#[derive(Drop)]
pub struct People {
    seats: Seats,
    scores: Scores,
    pairings: Pairings,
    // the numbers of the games that count, in the order in which they ended
    counted: Vec<u32>,
}

impl Model for People {
    ghost use Rattle.arena_core.specs.People.{KeptPeople};

    ghost Value = { KeptPeople };

    ghost use Rattle.std.specs.Prelude.{vec_capacity};
    ghost use Rattle.arena_core.specs.People.{AreAlike};

    ghost view = { λ p. record { places = p.seats; scores = p.scores; pairings = p.pairings; counted = p.counted.items; room = vec_capacity p.counted } };

    ghost invariant = { λ p. AreAlike p.seats p.scores p.pairings };
}

impl People {
    /// The players of a good setup, of whom nothing is known. All that grows with their number is taken here.
    pub fn new(alloc: Global, setup: &Setup) -> Result<People, AllocError>
        requires { IsGood setup.now }
        ensures { IfOk result (λ people. StandsFor people setup.now (standing setup.now (history setup.now []))) }
    {
        laws_of_histories();
        let players = setup.players.items().len() as u32;
        let seats = Seats::new(alloc, players)?;
        let scores = Scores::new(alloc, setup)?;
        let pairings = Pairings::new(alloc, players)?;
        Ok(People {
            seats,
            scores,
            pairings,
            counted: Vec::new(alloc),
        })
    }

    /// Makes room for so many games that count, of which some are there.
    pub fn reserve(&mut self, games: u32) -> Result<(), AllocError>
        ensures stands { (s : ArenaSetup) (x : Standing) → StandsFor self.old s x → StandsFor self.new s x }
        ensures places { self.new.places ≡ self.old.places }
        ensures room { OnOk result (games ≤ self.new.room) }
        ensures no_less { self.old.room ≤ self.new.room }
    {
        let more = (games as usize).saturating_sub(self.counted.len());
        self.counted.reserve(more)
    }

    /// Player p, who has asked for nothing or pauses, enters with the entry that makes `n` of them.
    pub fn enter(&mut self, p: u32, n: u64)
        requires player { p < length self.old.places }
        requires may { IsTrue (may_enter (place_at self.old.places p).wish) }
        ensures stands { (s : ArenaSetup) (x : Standing) → StandsFor self.old s x → StandsFor self.new s (with_entrant n p x) }
        ensures room { self.new.room ≡ self.old.room }
    {
        self.seats.enter(p, n);
        self.scores.enter(p);
    }

    /// Player p, who is in, pauses.
    pub fn pause(&mut self, p: u32)
        requires player { p < length self.old.places }
        requires may { IsTrue (may_pause (place_at self.old.places p).wish) }
        ensures stands { (s : ArenaSetup) (x : Standing) → StandsFor self.old s x → StandsFor self.new s (with_pause p x) }
        ensures room { self.new.room ≡ self.old.room }
    {
        self.seats.pause(p);
    }

    /// Player p, who is in or pauses, leaves.
    pub fn leave(&mut self, p: u32)
        requires player { p < length self.old.places }
        requires may { IsTrue (may_leave (place_at self.old.places p).wish) }
        ensures stands { (s : ArenaSetup) (x : Standing) → StandsFor self.old s x → StandsFor self.new s (with_leave p x) }
        ensures room { self.new.room ≡ self.old.room }
    {
        self.seats.leave(p);
    }

    /// A game that two players play ended so, with the entry that makes `n` of them: it counts or does not, both are free, and
    /// one who did not appear pauses. It moves two rows of the table where it counts, and takes no memory.
    pub fn end(&mut self, header: &Header, outcome: &Outcome, n: u64, counts: bool)
        requires may { MayEnd self.old header.now }
        ensures stands { (s : ArenaSetup) (x : Standing) (g : EndedGame) → g.game.header ≡ header.now → g.outcome ≡ outcome.now
            → StandsFor self.old s x → StandsFor self.new s (with_end n counts x g) }
        ensures room { self.new.room ≡ self.old.room }
    {
        free_players(&mut self.seats, header, outcome, n);
        if counts {
            self.scores.count(header, outcome);
            self.counted.push_reserved(header.id);
        }
    }

    /// A wave leaves these players alone, each once.
    pub fn leave_alone(&mut self, players: &[u32])
        requires few { self.old.pairings.waves < max_entries }
        requires players { All (λ p. p < length self.old.places) players.now }
        requires once { AllPairs (λ p q. p ≢ q) players.now }
        ensures stands { (s : ArenaSetup) (x : Standing) (wave : LeftAlone) → wave.players ≡ players.now
            → All (λ (y : Start). y.entry < wave.entry) x.starts → StandsFor self.old s x → StandsFor self.new s (with_alone wave x) }
        ensures places { self.new.places ≡ self.old.places }
        ensures begun { self.new.pairings.begun ≡ self.old.pairings.begun }
        ensures room { self.new.room ≡ self.old.room }
    {
        self.pairings.leave_alone(players);
    }

    /// Two players, who are idle, sit down to the game with this number.
    pub fn begin(&mut self, game: u32, white: u32, black: u32)
        requires may { MaySit self.old white black }
        ensures stands { (s : ArenaSetup) (x : Standing) (g : Start) → g.white ≡ white → g.black ≡ black → game ≡ length x.starts
            → All (λ (y : LeftAlone). y.entry ≤ g.entry) x.lefts → StandsFor self.old s x → StandsFor self.new s (with_start x g) }
        ensures room { self.new.room ≡ self.old.room }
    {
        self.seats.sit(white, game);
        self.seats.sit(black, game);
        self.pairings.begin(white, black);
    }

    /// What player p wishes, of whom nothing is known where nobody has this number.
    pub fn wish(&self, p: u32) -> Wish
        ensures { result ≡ (place_at self.now.places p).wish }
    {
        self.seats.wish(p)
    }

    /// Where player p is.
    pub fn seat(&self, p: u32) -> PlayerSeat
        ensures { result ≡ seat_at (place_at self.now.places p) }
    {
        self.seats.seat(p)
    }

    /// Since how many entries player p is idle, or None where he is not.
    pub fn idle_since(&self, p: u32) -> Option<u64>
        ensures { result ≡ idle_since (place_at self.now.places p) }
    {
        self.seats.idle_since(p)
    }

    /// The row of player p, or None where he has not entered.
    pub fn row_of(&self, p: u32) -> Option<Row>
        ensures { result ≡ option_and_then (slice_get (rows self.now.scores.lines)) (rank_of self.now.scores.lines p) }
    {
        self.scores.row_of(p)
    }

    /// How many players entered.
    pub fn entered(&self) -> u32
        ensures { result ≡ length self.now.scores.lines }
    {
        self.scores.len()
    }

    /// The rows of at most `n` ranks, the first of them at rank `from`.
    pub fn page(&self, alloc: Global, from: u32, n: u32) -> Result<Vec<Row>, AllocError>
        ensures { IfOk result (λ page_rows. page_rows.items ≡ page from n self.now.scores.lines) }
    {
        self.scores.page(alloc, from, n)
    }

    /// All rows.
    pub fn rows(&self, alloc: Global) -> Result<Vec<Row>, AllocError>
        ensures { IfOk result (λ all. all.items ≡ rows self.now.scores.lines) }
    {
        self.scores.rows(alloc)
    }

    /// The rows of a snapshot.
    pub fn candidates(&self, alloc: Global, setup: &Setup) -> Result<Vec<Candidate>, AllocError>
        ensures { IfOk result (λ made. (h : History) → StandsFor self.now setup.now (standing setup.now h) → made.items ≡ candidates setup.now h) }
    {
        candidates(alloc, setup, &self.scores, &self.pairings, &self.seats)
    }

    /// The numbers of the games that count, in the order in which they ended.
    pub fn counted(&self) -> &[u32]
        ensures { result.now ≡ self.now.counted }
    {
        self.counted.as_slice()
    }
}
