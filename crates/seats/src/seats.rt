ghost use Rattle.std.specs.Prelude.{◌≡◌, ◌<◌, length, replicate, IfOk, IsTrue};
ghost use Rattle.seats.specs.Places.{unknown, place_at, with_place, seat_at, idle_since, entered, paused, gone, seated, freed};
ghost use Rattle.seats.specs.Places.{may_enter, may_pause, may_leave, is_waiting, is_playing};

use crate::place::Place;
use crate::{PlayerSeat, Wish};
use std::alloc::{AllocError, Global};
use std::marker::Model;

/// The place of each player of an arena, numbered from 0. Contracts see the list of places.
#[derive(Drop)]
pub struct Seats {
    places: Vec<Place>,
}

impl Model for Seats {
    ghost use Rattle.std.specs.Prelude.{List};
    ghost use Rattle.seats.specs.Places.{Place as PlayerPlace};

    ghost Value = { List PlayerPlace };

    ghost view = { λ s. s.places.items };
}

impl Seats {
    /// So many players, of whom nothing is known. No other call takes memory.
    pub fn new(alloc: Global, players: u32) -> Result<Seats, AllocError>
        ensures { IfOk result (λ seats. seats ≡ replicate players unknown) }
    {
        Ok(Seats {
            places: vec![in alloc; Place::unknown(); players as usize]?,
        })
    }

    /// The number of players.
    pub fn len(&self) -> usize
        ensures { result ≡ length self.now }
    {
        self.places.len()
    }

    /// What player p last asked for. A number that is no player's has asked for nothing.
    pub fn wish(&self, p: u32) -> Wish
        ensures { result ≡ (place_at self.now p).wish }
    {
        match self.places.get(p as usize) {
            Some(place) => place.wish(),
            None => Wish::Absent,
        }
    }

    /// The seat of player p. A number that is no player's is absent.
    pub fn seat(&self, p: u32) -> PlayerSeat
        ensures { result ≡ seat_at (place_at self.now p) }
    {
        match self.places.get(p as usize) {
            Some(place) => place.seat(),
            None => PlayerSeat::Absent,
        }
    }

    /// The number that was given at the call that last made player p idle, or None exactly where he is not idle.
    pub fn idle_since(&self, p: u32) -> Option<u64>
        ensures { result ≡ idle_since (place_at self.now p) }
    {
        self.places.get(p as usize)?.idle_since()
    }

    /// Player p, who has asked for nothing or pauses, enters; n is the number since when he waits, unless he plays.
    pub fn enter(&mut self, p: u32, n: u64)
        requires listed { p < length self.old }
        requires may { IsTrue (may_enter (place_at self.old p).wish) }
        ensures { self.new ≡ with_place p (entered n (place_at self.old p)) self.old }
    {
        self.places[p as usize].enter(n)
    }

    /// Player p, who is in, pauses.
    pub fn pause(&mut self, p: u32)
        requires listed { p < length self.old }
        requires may { IsTrue (may_pause (place_at self.old p).wish) }
        ensures { self.new ≡ with_place p (paused (place_at self.old p)) self.old }
    {
        self.places[p as usize].pause()
    }

    /// Player p, who is in or pauses, leaves for good.
    pub fn leave(&mut self, p: u32)
        requires listed { p < length self.old }
        requires may { IsTrue (may_leave (place_at self.old p).wish) }
        ensures { self.new ≡ with_place p (gone (place_at self.old p)) self.old }
    {
        self.places[p as usize].leave()
    }

    /// Player p, who is idle, sits down to game g.
    pub fn sit(&mut self, p: u32, g: u32)
        requires listed { p < length self.old }
        requires idle { IsTrue (is_waiting (seat_at (place_at self.old p))) }
        ensures { self.new ≡ with_place p (seated g (place_at self.old p)) self.old }
    {
        self.places[p as usize].sit(g)
    }

    /// The game that player p plays has ended. He waits from the number n on if he is in; one who did not appear pauses, unless
    /// he left.
    pub fn free(&mut self, p: u32, n: u64, no_show: bool)
        requires listed { p < length self.old }
        requires playing { IsTrue (is_playing (seat_at (place_at self.old p))) }
        ensures { self.new ≡ with_place p (freed n no_show (place_at self.old p)) self.old }
    {
        self.places[p as usize].free(n, no_show)
    }
}
