ghost use Rattle.std.specs.Prelude.{◌≡◌};
ghost use Rattle.std.specs.List.{AllPass};
ghost use Rattle.arena_games.specs.Keeps.{runs};

use crate::kept::Kept;
use std::marker::Model;

/// Games that can begin without taking memory. Contracts see what is kept of them then.
#[derive(Drop)]
pub struct Prepared {
    games: Vec<Kept>,
}

impl Model for Prepared {
    ghost use Rattle.std.specs.Prelude.{List};
    ghost use Rattle.arena_games.specs.declared.kept.Kept.{Kept as KeptGame};

    ghost Value = { List KeptGame };

    ghost use Rattle.std.specs.List.{AllPass};
    ghost use Rattle.arena_games.specs.Keeps.{runs};

    ghost view = { λ p. p.games.items };

    ghost invariant = { λ p. AllPass runs p.games.items };
}

impl Prepared {
    /// Games of each of which a room is kept.
    pub fn new(games: Vec<Kept>) -> Prepared
        requires { AllPass runs games.items }
        ensures { result ≡ games.items }
    {
        Prepared { games }
    }

    /// What is kept of them.
    pub fn into_games(self) -> Vec<Kept>
        ensures games { result.items ≡ self }
        ensures run { AllPass runs result.items }
    {
        let Prepared { games } = self;
        games
    }
}
