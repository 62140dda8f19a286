ghost use Rattle.std.specs.Prelude.{◌≡◌, IsTrue};
ghost use Rattle.seats.specs.Places.{unknown, seat_at, idle_since, entered, paused, gone, seated, freed};
ghost use Rattle.seats.specs.Places.{is_playing, wish_set};

use crate::{PlayerSeat, Wish};
use std::marker::Model;

/// A player's place, in 16 bytes: the game counts only where he plays.
#[derive(Clone, Drop)]
pub struct Place {
    since: u64,
    game: u32,
    wish: Wish,
    plays: bool,
}

impl Model for Place {
    ghost use Rattle.seats.specs.Places.{Place as PlacePart, game_where};

    ghost Value = { PlacePart };

    ghost view = { λ a. record { wish = a.wish; game = game_where a.plays a.game; since = a.since } };
}

impl Place {
    /// The place of somebody of whom nothing is known.
    pub fn unknown() -> Place
        ensures { result ≡ unknown }
    {
        Place {
            since: 0,
            game: 0,
            wish: Wish::Absent,
            plays: false,
        }
    }

    /// What he last asked for.
    pub fn wish(&self) -> Wish
        ensures { result ≡ self.now.wish }
    {
        self.wish
    }

    /// His seat.
    pub fn seat(&self) -> PlayerSeat
        ensures { result ≡ seat_at self.now }
    {
        if self.plays {
            return PlayerSeat::Playing(self.game);
        }
        match self.wish {
            Wish::Absent => PlayerSeat::Absent,
            Wish::In => PlayerSeat::Idle,
            Wish::Paused => PlayerSeat::Paused,
            Wish::Left => PlayerSeat::Left,
        }
    }

    /// Since when he is idle, or None where he is not.
    pub fn idle_since(&self) -> Option<u64>
        ensures { result ≡ idle_since self.now }
    {
        if self.plays {
            return None;
        }
        match self.wish {
            Wish::In => Some(self.since),
            Wish::Absent | Wish::Paused | Wish::Left => None,
        }
    }

    /// He enters, at the number n.
    pub fn enter(&mut self, n: u64)
        ensures { self.new ≡ entered n self.old }
    {
        match self.wish {
            Wish::Absent | Wish::Paused => {
                self.wish = Wish::In;
                if !self.plays {
                    self.since = n;
                }
            }
            Wish::In | Wish::Left => {}
        }
    }

    /// He pauses.
    pub fn pause(&mut self)
        ensures { self.new ≡ paused self.old }
    {
        self.wish = pause_set(self.wish);
    }

    /// He leaves.
    pub fn leave(&mut self)
        ensures { self.new ≡ gone self.old }
    {
        self.wish = Wish::Left;
    }

    /// He sits down to game g.
    pub fn sit(&mut self, g: u32)
        ensures { self.new ≡ seated g self.old }
    {
        self.game = g;
        self.plays = true;
    }

    /// The game that he plays has ended, at the number n.
    pub fn free(&mut self, n: u64, no_show: bool)
        requires { IsTrue (is_playing (seat_at self.old)) }
        ensures { self.new ≡ freed n no_show self.old }
    {
        if no_show {
            self.pause();
        }
        self.plays = false;
        if self.wish == Wish::In {
            self.since = n;
        }
    }
}

fn pause_set(wish: Wish) -> Wish
    ensures { result ≡ wish_set Wish.Paused wish }
{
    match wish {
        Wish::Absent | Wish::In | Wish::Paused => Wish::Paused,
        Wish::Left => Wish::Left,
    }
}

const _: () = prove!(size_of::<Place>() == 16);
