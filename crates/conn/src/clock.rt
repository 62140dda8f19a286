ghost use Rattle.std.specs.Prelude.{◌≡◌, ℕ, List, Option, Some};
ghost use Rattle.conn.specs.Moments.{Ticks, first_moment, moments_after};

use std::marker::Model;

/// What tells the time, in milliseconds. It may tell the moments that it still gives.
pub trait Clock {
    ghost moments: { Self → Option (List ℕ) };

    /// The moment. It cannot fail. Where the moments are told it is the first of them, which is then dropped unless it is
    /// the last, and 0 where there are none. Otherwise nothing is promised of the number, not even that it does not fall.
    fn now(&mut self) -> u64
        ensures { Ticks (moments self.old) (moments self.new) result };
}

/// A clock that gives moments from memory in their order, and then the last of them again. It tells them.
#[derive(Debug, Drop)]
pub struct MemClock {
    moments: Vec<u64>,
    at: usize,
}

impl Model for MemClock {
    ghost use Rattle.std.specs.Prelude.{ℕ, List, drop};

    ghost Value = { List ℕ };

    ghost view = { λ clock. drop clock.at clock.moments.items };
}

impl MemClock {
    /// A clock that gives these moments. Takes no memory.
    pub fn new(moments: Vec<u64>) -> MemClock
        ensures { result ≡ moments.items }
    {
        MemClock { moments, at: 0 }
    }
}

impl Clock for MemClock {
    ghost moments = { λ clock. Some clock };

    fn now(&mut self) -> u64
        ensures moment { result ≡ first_moment self.old }
        ensures after { self.new ≡ moments_after self.old }
        ensures told { Ticks (Some self.old) (Some self.new) result }
    {
        let Some(moment) = self.moments.get(self.at).copied() else {
            return 0;
        };
        if self.at + 1 < self.moments.len() {
            self.at += 1;
        }
        moment
    }
}
