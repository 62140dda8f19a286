ghost use Rattle.std.specs.Prelude.{◌≡◌, ◌+◌, ◌<◌, ◌≤◌, ◌^◌, ◌++◌, [], List, map, drop, length, slice_get, slice_set, Option, Some, None, IfSome, IfOk, OnOk, OnErr, IfNone, false};
ghost use Rattle.std.specs.List.{All, list_any, count_by};
ghost use Rattle.std.specs.Option.{option_map, option_and_then, option_copied};
ghost use Rattle.game_room.specs.Events.{act_of};
ghost use Rattle.game_room.specs.Games.{allowed, game_view, ticked};
ghost use Rattle.arena_games.specs.Answers.{act_answer, IsNextEnd};
ghost use Rattle.arena_games.specs.Beginnings.{ArePrepared, MayBegin};
ghost use Rattle.arena_games.specs.Courses.{Course, begun, goes_on, is_due, looked, looked_below, numbers_where, outcome_of, with_event};
ghost use Rattle.arena_games.specs.Keeps.{is_kept_due};
ghost use Rattle.arena_games.specs.KeptGames.{IsTimely, MayGoOn, StandsFor};
ghost use Rattle.arena_games.specs.Moments.{first_from, IsLookedAt};
ghost use Rattle.entries.specs.Limits.{max_stamp};

use crate::ended::GameEnd;
use crate::kept::{Kept, act_in, allowed_in, is_due, look_in, new_game, outcome_of, view_of};
use crate::laws::kept_games_stay;
use crate::numbers::{place_of, put_range, take_out};
use crate::prepared::Prepared;
use board::Colour;
use entries::Action;
use game_room::{ActRefusal, GameView, Header, Outcome};
use std::alloc::{AllocError, Global};
use std::marker::Model;

/// The games of an arena. A game's number is how many were begun before it.
#[derive(Drop)]
pub struct Games {
    // by number
    games: Vec<Kept>,
    // the numbers of those that go on, in order
    running: Vec<u32>,
}

impl Model for Games {
    ghost use Rattle.arena_games.specs.KeptGames.{KeptGames};

    ghost Value = { KeptGames };

    ghost use Rattle.std.specs.Prelude.{◌≡◌, ◌-◌, ◌<◌, ◌^◌, min, vec_len, vec_capacity};
    ghost use Rattle.arena_games.specs.Courses.{numbers_where};
    ghost use Rattle.arena_games.specs.Keeps.{runs};

    ghost view = { λ g. record { games = g.games.items; spare = min (vec_capacity g.games - vec_len g.games) (vec_capacity g.running - vec_len g.running) } };

    ghost invariant = { λ g. (g.running.items ≡ numbers_where runs 0 g.games.items) × (vec_len g.games < 2 ^ 32) };
}

impl Games {
    /// No games. It takes no memory.
    pub fn new(alloc: Global) -> Games
        ensures none { result.games ≡ [] }
        ensures stands { StandsFor result [] }
    {
        Games {
            games: Vec::new(alloc),
            running: Vec::new(alloc),
        }
    }

    /// How many games were begun, at once.
    #[tactic(auto, using(crate::proofs::Told::begun_so))]
    pub fn begun(&self) -> u32
        ensures kept { result ≡ length self.now.games }
        ensures begun { (games : List Course) → StandsFor self.now games → result ≡ length games }
    {
        self.games.len() as u32
    }

    /// The numbers of the games that go on, in order, at once: the list is kept.
    pub fn numbers(&self) -> &[u32]
        ensures { (games : List Course) → StandsFor self.now games → result.now ≡ numbers_where goes_on 0 games }
    {
        self.running.as_slice()
    }

    /// How many games go on, at once.
    pub fn running(&self) -> u32
        ensures { (games : List Course) → StandsFor self.now games → result ≡ count_by goes_on games }
    {
        self.running.len() as u32
    }

    /// What was settled when game `g` began, or None where it was not begun. It is found at once.
    pub fn header(&self, g: u32) -> Option<Header>
        ensures { (games : List Course) → StandsFor self.now games → result ≡ option_map (λ (c : Course). c.header) (slice_get games g) }
    {
        match self.game(g) {
            None => None,
            Some(game) => Some(game.header),
        }
    }

    /// How game `g` ended, or None where it goes on or was not begun. It is found at once.
    pub fn outcome(&self, g: u32) -> Option<Outcome>
        ensures { (games : List Course) → StandsFor self.now games → result ≡ option_and_then outcome_of (slice_get games g) }
    {
        match self.game(g) {
            None => None,
            Some(game) => outcome_of(game),
        }
    }

    /// What can be seen of game `g` at `t`, or None where it was not begun. Nothing in the games may be later than `t`. It is
    /// found at once, in an ended game without a room.
    pub fn view(&self, g: u32, t: u64) -> Option<GameView>
        requires { IsTimely self.now t }
        ensures { (games : List Course) → StandsFor self.now games
            → result ≡ option_map (λ (c : Course). game_view c.header c.events t) (slice_get games g) }
    {
        match self.game(g) {
            None => None,
            Some(game) => Some(view_of(game, t)),
        }
    }

    /// Whether `act` would accept the action in game `g`, which was begun, or its refusal. Nothing in the games may be later
    /// than `t`. It finds the room at once, and refuses every action in an ended game without one.
    pub fn allowed(&self, g: u32, side: Colour, action: Action, t: u64) -> Result<(), ActRefusal>
        requires begun { g < length self.now.games }
        requires timely { IsTimely self.now t }
        ensures { (games : List Course) (c : Course) → StandsFor self.now games → slice_get games g ≡ Some c
            → result ≡ allowed c.header c.events side action t }
    {
        allowed_in(&self.games[g as usize], side, action, t)
    }

    /// A side acts at `t` in game `g`, which was begun: its refusal, which changes nothing, or the outcome with which the act
    /// ends the game, if it does. Nothing in the games may be later than `t`. It finds the room at once and takes no memory; an
    /// act that ends the game lets its room go, and takes its number from those of the games that go on by moving those behind
    /// it.
    pub fn act(
        &mut self,
        g: u32,
        side: Colour,
        action: Action,
        t: u64,
    ) -> Result<Option<Outcome>, ActRefusal>
        requires begun { g < length self.old.games }
        requires stamped { t ≤ max_stamp }
        requires timely { MayGoOn self.old t }
        ensures answer { (games : List Course) (c : Course) → StandsFor self.old games → slice_get games g ≡ Some c
            → result ≡ act_answer c side action t }
        ensures accepted { OnOk result ((games : List Course) (c : Course) → StandsFor self.old games → slice_get games g ≡ Some c
            → StandsFor self.new (slice_set games g (with_event (act_of side action t) c))) }
        ensures refused { OnErr result (self.new ≡ self.old) }
        ensures spare { self.old.spare ≤ self.new.spare }
    {
        match act_in(&mut self.games[g as usize], side, action, t) {
            Err(refusal) => Err(refusal),
            Ok(None) => Ok(None),
            Ok(Some(outcome)) => {
                take_out(&mut self.running, g);
                Ok(Some(outcome))
            }
        }
    }

    /// Whether a game goes on and is due at `t`. Nothing in the games may be later than `t`. It looks at each game that goes
    /// on once, up to the first that is due.
    pub fn some_due(&self, t: u64) -> bool
        requires { IsTimely self.now t }
        ensures { (games : List Course) → StandsFor self.now games → result ≡ list_any (is_due t) games }
    {
        self.first_due(0, t).is_some()
    }

    /// Ends the due game of the lowest number that is at least `from`, and answers it, or None where none of these is due.
    /// Nothing in the games may be later than `t`. In a tick each call begins behind the game that the call before it ended:
    /// so far the games with lower numbers stand for their events with a look behind them, and at the end all do. The calls of a
    /// tick look once at each game that goes on and take no memory; each finds its place in steps that grow with the logarithm
    /// of how many go on, and moves the numbers behind that of the game that it ends.
    pub fn end_next_due(&mut self, from: u32, t: u64) -> Option<GameEnd>
        requires { IsTimely self.old t }
        ensures next { (games : List Course) → StandsFor self.old (looked_below from t games) → IsNextEnd from t games result }
        ensures some { IfSome result (λ end. (games : List Course) → StandsFor self.old (looked_below from t games)
            → StandsFor self.new (looked_below (end.game + 1) t games)) }
        ensures none { IfNone result ((games : List Course) → StandsFor self.old (looked_below from t games)
            → StandsFor self.new (map (looked t) games)) }
        ensures within { IfSome result (λ end. (from ≤ end.game) × (end.game < length self.old.games)) }
        ensures spare { self.old.spare ≤ self.new.spare }
    {
        kept_games_stay();
        let number = self.first_due(from, t)?;
        let outcome = self.look_at(number, t)?;
        Some(GameEnd {
            game: number,
            outcome,
        })
    }

    // Looks at game `g`, and answers its outcome where that ends it.
    fn look_at(&mut self, g: u32, t: u64) -> Option<Outcome>
        requires begun { g < length self.old.games }
        requires timely { IsTimely self.old t }
        ensures answer { (games : List Course) (c : Course) → StandsFor self.old games → slice_get games g ≡ Some c → result ≡ ticked c.header c.events t }
        ensures idle { IfNone result ((games : List Course) (c : Course) → StandsFor self.old games → slice_get games g ≡ Some c → is_due t c ≡ false) }
        ensures looked { IsLookedAt self.old.games self.new.games g t }
        ensures spare { self.old.spare ≤ self.new.spare }
    {
        match look_in(&mut self.games[g as usize], t) {
            None => None,
            Some(outcome) => {
                take_out(&mut self.running, g);
                Some(outcome)
            }
        }
    }

    // What is kept of game `g`, if it was begun.
    fn game(&self, g: u32) -> Option<&Kept>
        ensures { option_copied result ≡ slice_get self.now.games g }
    {
        self.games.get(g as usize)
    }

    // The number of the first due game from a number on.
    fn first_due(&self, from: u32, t: u64) -> Option<u32>
        requires { IsTimely self.now t }
        ensures { result ≡ first_from (is_kept_due t) from (drop from self.now.games) }
    {
        let start = place_of(self.running.as_slice(), from);
        let (_, numbers) = self.running.as_slice().split_at(start);
        'looking: for number in numbers {
            if is_due(&self.games[*number as usize], t) {
                return Some(*number);
            }
        }
        None
    }

    /// Takes all the memory that games with these headers need to begin, and to be acted in and looked at: their rooms, and
    /// their places among the games, or leaves the games as they are. Each header has a control and a start in their ranges. A
    /// room a header is made; where the places are used up, the games that were begun are moved to more of them.
    #[tactic(auto, using(crate::proofs::Told::prepared_count))]
    pub fn prepare(&mut self, alloc: Global, headers: &[Header]) -> Result<Prepared, AllocError>
        requires { All MayBegin headers.now }
        ensures prepared { IfOk result (λ prepared. ArePrepared prepared (map begun headers.now)) }
        ensures count { IfOk result (λ prepared. length prepared ≡ length headers.now) }
        ensures room { IfOk result (λ prepared. length prepared ≤ self.new.spare) }
        ensures kept { self.new.games ≡ self.old.games }
        ensures spare { self.old.spare ≤ self.new.spare }
    {
        let mut games = Vec::with_capacity(alloc, headers.len())?;
        'preparing: for header in headers {
            games.push_reserved(new_game(alloc, *header)?);
        }
        self.games.reserve(headers.len())?;
        self.running.reserve(headers.len())?;
        Ok(Prepared::new(games))
    }

    /// Begins prepared games: they stand behind the others, with the numbers from `begun()` on. It takes no memory,
    /// and each of them moves once.
    pub fn begin(&mut self, prepared: Prepared)
        requires room { length prepared ≤ self.old.spare }
        requires few { length self.old.games + length prepared < 2 ^ 32 }
        ensures kept { self.new.games ≡ self.old.games ++ prepared }
        ensures stands { (games more : List Course) → StandsFor self.old games → ArePrepared prepared more → StandsFor self.new (games ++ more) }
        ensures spare { self.old.spare ≤ self.new.spare + length prepared }
    {
        let mut games = prepared.into_games();
        let first = self.games.len() as u32;
        let end = first + games.len() as u32;
        let Ok(()) = self.games.append(&mut games) else {
            unreachable!();
        };
        put_range(&mut self.running, first, end);
    }
}
