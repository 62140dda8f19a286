ghost use Rattle.std.specs.Prelude.{◌≡◌, ◌<◌, ◌≤ℤ◌, pos, negsuc};
ghost use Rattle.entries.specs.Limits.{max_entries, max_games};
ghost use Rattle.arena_players.specs.Facts.{faced, left, no_facts};

/// What the next snapshot tells of a player's games.
#[derive(Debug, Clone, Copy, PartialEq, Eq)]
pub struct PairingFacts {
    /// The opponent of his last game, if he has had one.
    pub last: Option<u32>,
    /// His games with White less those with Black.
    pub balance: i32,
    /// How many waves have left him alone since his last game began.
    pub alone: u32,
}

impl PairingFacts {
    /// A player of whom nothing is known.
    pub fn none() -> PairingFacts
        ensures { result ≡ no_facts }
    {
        PairingFacts {
            last: None,
            balance: 0,
            alone: 0,
        }
    }
}

/// The facts once a game with White against this opponent begins.
pub fn with_white(facts: &PairingFacts, opponent: u32) -> PairingFacts
    requires { facts.now.balance ≤ℤ pos max_games }
    ensures { result ≡ faced opponent (pos 1) facts.now }
{
    PairingFacts {
        last: Some(opponent),
        balance: facts.balance + 1,
        alone: 0,
    }
}

/// The facts once a game with Black against this opponent begins.
pub fn with_black(facts: &PairingFacts, opponent: u32) -> PairingFacts
    requires { negsuc max_games ≤ℤ facts.now.balance }
    ensures { result ≡ faced opponent (negsuc 0) facts.now }
{
    PairingFacts {
        last: Some(opponent),
        balance: facts.balance - 1,
        alone: 0,
    }
}

/// The facts once a wave leaves the player alone.
pub fn left_alone(facts: &PairingFacts) -> PairingFacts
    requires { facts.now.alone < max_entries }
    ensures { result ≡ left facts.now }
{
    PairingFacts {
        last: facts.last,
        balance: facts.balance,
        alone: facts.alone + 1,
    }
}
