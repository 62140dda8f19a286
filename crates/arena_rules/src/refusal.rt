ghost use Rattle.std.specs.Prelude.{◌≡◌};
ghost use Rattle.arena_rules.specs.Numbers.{number_of};

use game_room::ActRefusal;

/// Why a command is refused. Where several hold, `Closed` comes first, then what the player's wish or the game refuses, and
/// `Full` last. A refused command changes nothing.
#[derive(Debug, Clone, Copy, PartialEq, Eq)]
pub enum Refusal {
    /// A player pauses or leaves who never entered.
    NotEntered,
    /// A player enters who is in.
    AlreadyIn,
    /// A player pauses who pauses already.
    AlreadyPaused,
    /// The player left, and a leave is for good.
    Left,
    /// The command's stamp is at the arena's end or past it.
    Closed,
    /// No game with this number was begun.
    NoGame,
    /// The player does not play this game.
    NotYours,
    /// The game refuses the action.
    Act(ActRefusal),
    /// No running game is due.
    NothingDue,
    /// The journal has 8,000,000 entries.
    Full,
}

impl Refusal {
    /// The refusal's number, from 1 to 10 in the order of the variants.
    pub fn number(self) -> u8
        ensures { result ≡ number_of self }
    {
        match self {
            Refusal::NotEntered => 1,
            Refusal::AlreadyIn => 2,
            Refusal::AlreadyPaused => 3,
            Refusal::Left => 4,
            Refusal::Closed => 5,
            Refusal::NoGame => 6,
            Refusal::NotYours => 7,
            Refusal::Act(_) => 8,
            Refusal::NothingDue => 9,
            Refusal::Full => 10,
        }
    }
}
