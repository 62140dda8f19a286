ghost use Rattle.std.specs.Prelude.{◌≡◌, ◌≢◌, ℕ, ◌+◌, ◌-◌, ◌<◌, ◌≤◌, ◌++◌, ◌∷◌, [], List, false, if◌then◌else◌, ◌&&◌};
ghost use Rattle.board.specs.Piece.{same_colour};
ghost use Rattle.entries.specs.Limits.{max_stamp, max_entries};
ghost use Rattle.entries.specs.Ranges.{IsControl};
ghost use Rattle.entries.specs.declared.setup.Control.{Control as TimeControl};
ghost use Rattle.game_clock.specs.ClockEvents.{ClockEvent, BerserkedBy, MovedAt, turn_of, has_moved};
ghost use Rattle.game_clock.specs.Clocks.{clocks, StandsFor, bank_of, berserk_of, runs, has_fallen, is_no_show, is_due, left, bank_after_move, after_move, after_berserk};

use crate::banks::{after_halving, first_bank, has_moved, increment, turn_of};
use board::Colour;
use entries::Control;
use std::marker::Model;

/// The two clocks of one game. They stand for its control, its start and the list of its berserks and moves.
#[derive(Debug, Drop)]
pub struct GameClock {
    control: Control,
    since: u64,
    moves: u32,
    white_bank: u64,
    black_bank: u64,
    white_berserk: bool,
    black_berserk: bool,
}

impl Model for GameClock {
    ghost use Rattle.std.specs.Prelude.{◌≤◌, ◌+◌, ◌*◌};
    ghost use Rattle.game_clock.specs.Clocks.{Clocks};

    ghost Value = { Clocks };

    ghost use Rattle.entries.specs.Limits.{max_stamp, max_entries};
    ghost use Rattle.entries.specs.Ranges.{IsControl};

    ghost view = { λ c. record { control = c.control; since = c.since; moves = c.moves; white_bank = c.white_bank; black_bank = c.black_bank; white_berserk = c.white_berserk; black_berserk = c.black_berserk } };

    ghost invariant = { λ c. IsControl c.control × (c.since ≤ max_stamp) × (c.moves ≤ max_entries) × (c.white_bank ≤ 10800000 + 180000 * c.moves) × (c.black_bank ≤ 10800000 + 180000 * c.moves) };
}

impl GameClock {
    /// The clocks of a game whose first turn begins at `start`, which is at most 1,000,000,000 ms.
    #[tactic(auto, using(crate::proofs::MoreEvents::clocks_new))]
    pub fn new(c: &Control, start: u64) -> GameClock
        requires timed { IsControl c.now }
        requires stamped { start ≤ max_stamp }
        ensures { StandsFor result c.now start [] }
    {
        let bank = first_bank(c);
        GameClock {
            control: *c,
            since: start,
            moves: 0,
            white_bank: bank,
            black_bank: bank,
            white_berserk: false,
            black_berserk: false,
        }
    }

    /// The control.
    pub fn control(&self) -> Control
        ensures is { result ≡ self.now.control }
        ensures keeps { IsControl result }
    {
        self.control
    }

    /// When the turn began: the stamp of the last move, or the start.
    pub fn since(&self) -> u64
        ensures is { result ≡ self.now.since }
        ensures most { result ≤ max_stamp }
    {
        self.since
    }

    /// How many moves were made.
    pub fn moves(&self) -> u32
        ensures is { result ≡ self.now.moves }
        ensures most { result ≤ max_entries }
    {
        self.moves
    }

    /// Who is to move.
    pub fn turn(&self) -> Colour
        ensures { result ≡ turn_of self.now.moves }
    {
        turn_of(self.moves)
    }

    /// Whether the side has made a move.
    pub fn has_moved(&self, side: Colour) -> bool
        ensures { result ≡ has_moved side self.now.moves }
    {
        has_moved(side, self.moves)
    }

    /// Whether the side has berserked.
    pub fn has_berserked(&self, side: Colour) -> bool
        ensures { result ≡ berserk_of self.now side }
    {
        match side {
            Colour::White => self.white_berserk,
            Colour::Black => self.black_berserk,
        }
    }

    fn bank(&self, side: Colour) -> u64
        ensures { result ≡ bank_of self.now side }
    {
        match side {
            Colour::White => self.white_bank,
            Colour::Black => self.black_bank,
        }
    }

    // Whether the side's clock runs: it is to move, and it has made a move.
    #[tactic(auto, unfolding(crate::specs::ClockEvents::is_later_move))]
    fn runs(&self, side: Colour) -> bool
        ensures { result ≡ runs self.now side }
    {
        self.turn() == side && self.has_moved(side)
    }

    /// Whether the clock of the side to move runs and its bank is used up at `t`, which is not before the turn began.
    #[tactic(auto, unfolding(crate::specs::Clocks::has_fallen))]
    pub fn fallen(&self, t: u64) -> bool
        requires { self.now.since ≤ t }
        ensures is { result ≡ has_fallen self.now t }
        ensures sums { (c : TimeControl) (start : ℕ) (events : List ClockEvent) → StandsFor self.now c start events
            → result ≡ has_fallen (clocks c start events) t }
    {
        let turn = self.turn();
        self.runs(turn) && self.bank(turn) <= t - self.since
    }

    /// Whether the side to move has not moved yet and its time for a first move is over at `t`, which is not before the turn
    /// began.
    #[tactic(auto, unfolding(crate::specs::Clocks::is_no_show))]
    pub fn no_show(&self, t: u64) -> bool
        requires { self.now.since ≤ t }
        ensures is { result ≡ is_no_show self.now t }
        ensures sums { (c : TimeControl) (start : ℕ) (events : List ClockEvent) → StandsFor self.now c start events
            → result ≡ is_no_show (clocks c start events) t }
    {
        !self.runs(self.turn()) && self.control.first_ms <= t - self.since
    }

    /// What the side's clock shows at `t`, which is not before the turn began: its bank, from which the time since then is
    /// taken if its clock runs. It stops at 0.
    #[tactic(auto, unfolding(crate::specs::Clocks::left))]
    pub fn left(&self, side: Colour, t: u64) -> u64
        requires { self.now.since ≤ t }
        ensures is { result ≡ left self.now side t }
        ensures sums { (c : TimeControl) (start : ℕ) (events : List ClockEvent) → StandsFor self.now c start events
            → result ≡ left (clocks c start events) side t }
    {
        if self.runs(side) {
            self.bank(side).saturating_sub(t - self.since)
        } else {
            self.bank(side)
        }
    }

    // The side's bank after a move at `t`, which is not before the turn began.
    fn bank_after_move(&self, side: Colour, t: u64) -> u64
        requires { self.now.since ≤ t }
        ensures is { result ≡ bank_after_move self.now side t }
        ensures most { result ≤ bank_of self.now side + 180000 }
    {
        if self.runs(side) {
            let gained = increment(&self.control, self.has_berserked(side));
            self.bank(side).saturating_sub(t - self.since) + gained
        } else {
            self.bank(side)
        }
    }

    /// Notes a move of the side to move at `t`.
    #[tactic(auto, unfolding(crate::specs::Clocks::after_move), using(crate::proofs::MoreEvents::clocks_move))]
    pub fn moved(&mut self, t: u64)
        requires in_turn { self.old.since ≤ t }
        requires stamped { t ≤ max_stamp }
        requires in_time { is_due self.old t ≡ false }
        requires room { self.old.moves < max_entries }
        ensures is { self.new ≡ after_move self.old t }
        ensures stands { (c : TimeControl) (start : ℕ) (events : List ClockEvent) → StandsFor self.old c start events
            → StandsFor self.new c start (events ++ MovedAt t ∷ []) }
    {
        let white_bank = self.bank_after_move(Colour::White, t);
        let black_bank = self.bank_after_move(Colour::Black, t);
        self.since = t;
        self.moves += 1;
        self.white_bank = white_bank;
        self.black_bank = black_bank;
    }

    #[tactic(auto, unfolding(crate::specs::Clocks::after_berserk))]
    fn halve(&mut self, side: Colour)
        ensures { self.new ≡ after_berserk self.old side }
    {
        match side {
            Colour::White => {
                self.white_bank = after_halving(&self.control, self.white_bank);
                self.white_berserk = true;
            }
            Colour::Black => {
                self.black_bank = after_halving(&self.control, self.black_bank);
                self.black_berserk = true;
            }
        }
    }

    /// Notes that the side berserks: it has made no move and has not berserked before. Its bank is halved, rounding
    /// down, unless the initial time is below 40 increments, and its increment is 0 from here on.
    #[tactic(auto, using(crate::proofs::MoreEvents::clocks_berserk))]
    pub fn berserk(&mut self, side: Colour)
        requires early { has_moved side self.old.moves ≡ false }
        requires once { berserk_of self.old side ≡ false }
        ensures is { self.new ≡ after_berserk self.old side }
        ensures stands { (c : TimeControl) (start : ℕ) (events : List ClockEvent) → StandsFor self.old c start events
            → StandsFor self.new c start (events ++ BerserkedBy side ∷ []) }
    {
        self.halve(side);
    }
}
