ghost use Rattle.std.specs.Prelude.{◌≡◌, ◌↔◌, ◌<◌, ◌≤◌, ◌++◌, ◌∷◌, [], List, false, IsNone, IfOk, OnOk, OnErr};
ghost use Rattle.entries.specs.Limits.{max_stamp, max_entries};
ghost use Rattle.entries.specs.Ranges.{IsControl};
ghost use Rattle.game_room.specs.declared.header.Header.{Header as GameHeader};
ghost use Rattle.game_room.specs.Events.{Event, act_of, tick_at};
ghost use Rattle.game_room.specs.Games.{answer, due, ticked};
ghost use Rattle.game_room.specs.Held.{StandsFor};

use board::Colour;
use entries::Action;
use game_room::{ActRefusal, Done, Header, Outcome, Room};
use std::alloc::{AllocError, Global};
use std::marker::Model;

/// A room on the heap: contracts see the room alone.
#[derive(Drop)]
pub struct Live {
    room: Box<Room>,
}

impl Model for Live {
    ghost use Rattle.game_room.specs.Held.{Held};

    ghost Value = { Held };

    ghost view = { λ l. l.room.value };
}

impl Live {
    /// The room of a game of which nothing has happened.
    pub fn new(alloc: Global, h: Header) -> Result<Live, AllocError>
        requires timed { IsControl h.control }
        requires stamped { h.start ≤ max_stamp }
        ensures { IfOk result (λ live. StandsFor live h []) }
    {
        Ok(Live {
            room: Box::new(alloc, Room::new(h))?,
        })
    }

    /// The room.
    pub fn room(&self) -> &Room
        ensures { result.now ≡ self.now }
    {
        &self.room
    }

    /// `Room::act` in it.
    pub fn act(&mut self, who: Colour, a: Action, t: u64) -> Result<Done, ActRefusal>
        requires in_turn { self.old.clocks.since ≤ t }
        requires stamped { t ≤ max_stamp }
        requires room { self.old.clocks.moves < max_entries }
        ensures answer { (h : GameHeader) (events : List Event) → StandsFor self.old h events
            → result ≡ answer h events who a t }
        ensures accepted { OnOk result ((h : GameHeader) (events : List Event) → StandsFor self.old h events
            → StandsFor self.new h (events ++ act_of who a t ∷ [])) }
        ensures refused { OnErr result (self.new ≡ self.old) }
    {
        self.room.act(who, a, t)
    }

    /// `Room::tick` in it.
    pub fn tick(&mut self, t: u64) -> Option<Outcome>
        requires in_turn { self.old.clocks.since ≤ t }
        ensures none { (h : GameHeader) (events : List Event) → StandsFor self.old h events
            → IsNone result ↔ (due h events t ≡ false) }
        ensures answer { (h : GameHeader) (events : List Event) → StandsFor self.old h events
            → result ≡ ticked h events t }
        ensures stands { (h : GameHeader) (events : List Event) → StandsFor self.old h events
            → StandsFor self.new h (events ++ tick_at t ∷ []) }
    {
        self.room.tick(t)
    }
}
