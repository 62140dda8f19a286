ghost use Rattle.std.specs.Prelude.{◌≡◌, IfOk};

use crate::setup::{Player, Setup};
use conn::{List, Text};
use std::alloc::{AllocError, Global};

impl Setup {
    /// An equal setup. Its cost is that of the names.
    pub fn copy(&self, alloc: Global) -> Result<Setup, AllocError>
        ensures { IfOk result (λ copied. copied ≡ self.now) }
    {
        Ok(Setup {
            control: self.control,
            starts: self.starts,
            ends: self.ends,
            wave_ms: self.wave_ms,
            leaders: self.leaders,
            rule: self.rule,
            teams: copy_names(alloc, self.teams.items())?,
            players: copy_players(alloc, self.players.items())?,
        })
    }
}

fn copy_names(alloc: Global, names: &[Text]) -> Result<List<Text>, AllocError>
    ensures { IfOk result (λ copied. copied ≡ names.now) }
{
    let mut copied = Vec::with_capacity(alloc, names.len())?;
    for name in names {
        copied.push(name.copy(alloc)?)?;
    }
    Ok(List::of(copied))
}

fn copy_players(alloc: Global, players: &[Player]) -> Result<List<Player>, AllocError>
    ensures { IfOk result (λ copied. copied ≡ players.now) }
{
    let mut copied = Vec::with_capacity(alloc, players.len())?;
    for player in players {
        copied.push(copy_player(alloc, player)?)?;
    }
    Ok(List::of(copied))
}

fn copy_player(alloc: Global, player: &Player) -> Result<Player, AllocError>
    ensures { IfOk result (λ copied. copied ≡ player.now) }
{
    Ok(Player {
        name: player.name.copy(alloc)?,
        rating: player.rating,
        team: player.team,
    })
}
