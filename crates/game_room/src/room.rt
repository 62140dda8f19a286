ghost use Rattle.std.specs.Prelude.{◌≡◌, ◌↔◌, ◌<◌, ◌≤◌, ◌++◌, ◌∷◌, [], List, false, None, IsNone, OnOk, OnErr, if◌then◌else◌};
ghost use Rattle.entries.specs.Limits.{max_stamp, max_entries};
ghost use Rattle.entries.specs.Ranges.{IsControl};
ghost use Rattle.game_clock.specs.Clocks.{is_due, left};
ghost use Rattle.game_room.specs.declared.header.Header.{Header as GameHeader};
ghost use Rattle.game_room.specs.Events.{Event, act_of, tick_at};
ghost use Rattle.game_room.specs.Standing.{is_game_due};
ghost use Rattle.game_room.specs.Refusals.{refusal};
ghost use Rattle.game_room.specs.Games.{due, allowed, answer, ticked, game_view, view_of, reading_stamp, done_with, done_by};
ghost use Rattle.game_room.specs.Held.{standing_in, StandsFor, room_after_act, room_after_tick};

use crate::header::Header;
use crate::outcome::{Done, Outcome};
use crate::refusal::ActRefusal;
use crate::view::GameView;
use board::{Colour, Move, Position};
use changes::{end_due, perform};
use draw_rules::Past;
use entries::Action;
use game_clock::GameClock;
use game_line::repetitions_are_kept;
use move_rules::canonical;
use refusals::refusal;
use std::marker::Model;

mod changes;
mod refusals;

/// One live game. It stands for a header and a list of events.
#[derive(Drop)]
pub struct Room {
    header: Header,
    position: Position,
    past: Past,
    clock: GameClock,
    last: Option<Move>,
    offer: Option<Colour>,
    white_offered: bool,
    black_offered: bool,
    outcome: Option<Outcome>,
}

impl Model for Room {
    ghost use Rattle.game_room.specs.Held.{Held, HasRoom, EndedInTurn};

    ghost Value = { Held };

    ghost view = { λ r. record { header = r.header; position = r.position; past = r.past; clocks = r.clock; last = r.last; offer = r.offer; white_offered = r.white_offered; black_offered = r.black_offered; outcome = r.outcome } };

    ghost invariant = { λ r. HasRoom r.outcome r.position r.past × EndedInTurn r.outcome r.clock };
}

impl Room {
    /// The room of a game of which nothing has happened, with a control and a start in their ranges.
    pub fn new(h: Header) -> Room
        requires timed { IsControl h.control }
        requires stamped { h.start ≤ max_stamp }
        ensures { StandsFor result h [] }
    {
        repetitions_are_kept();
        let position = Position::start();
        let past = Past::new(&canonical(&position));
        let clock = GameClock::new(&h.control, h.start);
        Room {
            header: h,
            position,
            past,
            clock,
            last: None,
            offer: None,
            white_offered: false,
            black_offered: false,
            outcome: None,
        }
    }

    /// When the turn began: the stamp of the last move, or the start of the game.
    pub fn turn_start(&self) -> u64
        ensures { result ≡ self.now.clocks.since }
    {
        self.clock.since()
    }

    /// The position on the board.
    pub fn position(&self) -> &Position
        ensures { result.now ≡ self.now.position }
    {
        &self.position
    }

    /// How the game ended, or None while it goes on.
    pub fn outcome(&self) -> Option<Outcome>
        ensures { result ≡ self.now.outcome }
    {
        self.outcome
    }

    /// How many moves were made.
    pub fn plies(&self) -> u32
        ensures { result ≡ self.now.clocks.moves }
    {
        self.clock.moves()
    }

    /// A side acts at `t`, which is not before the turn began. In an ended game the action is refused; in a due game it is
    /// accepted, whatever it is and whoever acts, and the game ends by the fallen flag or the first move that was not made;
    /// otherwise its own refusals are tested in order.
    pub fn act(&mut self, who: Colour, a: Action, t: u64) -> Result<Done, ActRefusal>
        requires in_turn { self.old.clocks.since ≤ t }
        requires stamped { t ≤ max_stamp }
        requires room { self.old.clocks.moves < max_entries }
        ensures answer { (h : GameHeader) (events : List Event) → StandsFor self.old h events
            → result ≡ answer h events who a t }
        ensures accepted { OnOk result ((h : GameHeader) (events : List Event) → StandsFor self.old h events
            → StandsFor self.new h (events ++ act_of who a t ∷ [])) }
        ensures refused { OnErr result (self.new ≡ self.old) }
    {
        self.has_room();
        a.keeps();
        repetitions_are_kept();
        match refusal(self, who, &a, t) {
            Some(refusal) => Err(refusal),
            None => Ok(self.accept(who, &a, t)),
        }
    }

    // Does what an action does that is not refused.
    #[tactic(auto, unfolding(crate::specs::Held::room_after_act))]
    fn accept(&mut self, who: Colour, a: &Action, t: u64) -> Done
        requires accepted { refusal (standing_in self.old) who a.now t ≡ None }
        requires in_turn { self.old.clocks.since ≤ t }
        requires stamped { t ≤ max_stamp }
        requires room { self.old.clocks.moves < max_entries }
        ensures is { self.new ≡ room_after_act self.old who a.now t }
        ensures done { result ≡ done_with self.new.outcome a.now }
    {
        self.change(who, a, t);
        done_with(self.outcome, a)
    }

    #[tactic(auto, unfolding(crate::specs::Held::room_after_act), using(crate::proofs::Stands::goes_on_unless_refused, crate::proofs::Stands::own_unless_due))]
    fn change(&mut self, who: Colour, a: &Action, t: u64)
        requires accepted { refusal (standing_in self.old) who a.now t ≡ None }
        requires in_turn { self.old.clocks.since ≤ t }
        requires stamped { t ≤ max_stamp }
        requires room { self.old.clocks.moves < max_entries }
        ensures { self.new ≡ room_after_act self.old who a.now t }
    {
        if self.is_late(t) {
            end_due(self, t);
        } else {
            perform(self, who, a, t);
        }
    }

    /// Whether `act` would accept the action, or its refusal. It changes nothing.
    #[tactic(auto, using(crate::proofs::Stands::room_allows))]
    pub fn allowed(&self, who: Colour, a: Action, t: u64) -> Result<(), ActRefusal>
        requires in_turn { self.now.clocks.since ≤ t }
        ensures { (h : GameHeader) (events : List Event) → StandsFor self.now h events
            → result ≡ allowed h events who a t }
    {
        match refusal(self, who, &a, t) {
            Some(refusal) => Err(refusal),
            None => Ok(()),
        }
    }

    /// Ends a game that goes on and is due at `t`, which is not before the turn began, and answers its outcome. It changes no
    /// other game.
    pub fn tick(&mut self, t: u64) -> Option<Outcome>
        requires in_turn { self.old.clocks.since ≤ t }
        ensures none { (h : GameHeader) (events : List Event) → StandsFor self.old h events
            → IsNone result ↔ (due h events t ≡ false) }
        ensures answer { (h : GameHeader) (events : List Event) → StandsFor self.old h events
            → result ≡ ticked h events t }
        ensures stands { (h : GameHeader) (events : List Event) → StandsFor self.old h events
            → StandsFor self.new h (events ++ tick_at t ∷ []) }
    {
        self.look(t)
    }

    #[tactic(auto, unfolding(crate::specs::Held::room_after_tick))]
    fn look(&mut self, t: u64) -> Option<Outcome>
        requires in_turn { self.old.clocks.since ≤ t }
        ensures is { self.new ≡ room_after_tick self.old t }
        ensures answer { result ≡ (if is_game_due (standing_in self.old) t then self.new.outcome else None) }
    {
        if self.is_due(t) {
            end_due(self, t);
            self.outcome
        } else {
            None
        }
    }

    /// Whether the game goes on and is due at `t`, which is not before the turn began.
    #[tactic(auto, using(crate::proofs::Stands::room_is_due))]
    pub fn due(&self, t: u64) -> bool
        requires { self.now.clocks.since ≤ t }
        ensures { (h : GameHeader) (events : List Event) → StandsFor self.now h events → result ≡ due h events t }
    {
        self.is_due(t)
    }

    /// What can be seen of the game at `t`, which is not before the turn began.
    #[tactic(auto, using(crate::proofs::Stands::room_shows))]
    pub fn view(&self, t: u64) -> GameView
        requires { self.now.clocks.since ≤ t }
        ensures { (h : GameHeader) (events : List Event) → StandsFor self.now h events
            → result ≡ game_view h events t }
    {
        self.seen(t)
    }

    #[tactic(auto, unfolding(crate::specs::Games::view_of))]
    fn seen(&self, t: u64) -> GameView
        requires { self.now.clocks.since ≤ t }
        ensures { result ≡ view_of self.now.header (standing_in self.now) t }
    {
        let read = self.reading_stamp(t);
        GameView {
            id: self.header.id,
            white: self.header.white,
            black: self.header.black,
            position: self.position,
            plies: self.clock.moves(),
            last: self.last,
            offer: self.offer,
            white_ms: self.clock.left(Colour::White, read),
            black_ms: self.clock.left(Colour::Black, read),
            white_berserk: self.clock.has_berserked(Colour::White),
            black_berserk: self.clock.has_berserked(Colour::Black),
            outcome: self.outcome,
        }
    }

    // When the clocks are read: at `t`, or in an ended game at its end.
    fn reading_stamp(&self, t: u64) -> u64
        requires { self.now.clocks.since ≤ t }
        ensures is { result ≡ reading_stamp self.now.outcome t }
        ensures in_turn { self.now.clocks.since ≤ result }
    {
        match self.outcome {
            None => t,
            Some(outcome) => outcome.stamp,
        }
    }

    fn is_due(&self, t: u64) -> bool
        requires { self.now.clocks.since ≤ t }
        ensures { result ≡ is_game_due (standing_in self.now) t }
    {
        self.outcome.is_none() && self.is_late(t)
    }

    // Whether the side to move has let its time pass by.
    #[tactic(auto, unfolding(game_clock::specs::Clocks::is_due))]
    fn is_late(&self, t: u64) -> bool
        requires { self.now.clocks.since ≤ t }
        ensures { result ≡ is_due self.now.clocks t }
    {
        self.clock.no_show(t) || self.clock.fallen(t)
    }

    // Says to the proof that a game that goes on can take a further position, and does nothing.
    fn has_room(&self)
        ensures { self.now.outcome ≡ None → self.now.position.half < 150 }
    {
        // It is read so that the proof has what every position keeps.
        let _position = &self.position;
    }
}

// What an accepted action did, with the outcome that stands after it.
fn done_with(outcome: Option<Outcome>, action: &Action) -> Done
    ensures { result ≡ done_with outcome action.now }
{
    match outcome {
        Some(outcome) => Done::Ended(outcome),
        None => done_by(action),
    }
}

fn done_by(action: &Action) -> Done
    ensures { result ≡ done_by action.now }
{
    match action {
        Action::Move(_) => Done::Moved,
        Action::Resign
        | Action::Offer
        | Action::Accept
        | Action::Decline
        | Action::Claim
        | Action::Berserk => Done::Noted,
    }
}
