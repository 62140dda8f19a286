ghost use Rattle.entries.specs.Ranges.{IsAction};

use board::Move;

/// What a player may do in a game of his.
#[derive(Debug, Clone, Copy, PartialEq, Eq)]
pub enum Action {
    /// He makes a move.
    Move(Move),
    /// He gives the game up.
    Resign,
    /// He offers a draw.
    Offer,
    /// He accepts the draw that the other player offers.
    Accept,
    /// He declines the draw that the other player offers.
    Decline,
    /// He claims a draw, by threefold repetition or by the fifty-move rule.
    Claim,
    /// He plays on without increment, and with half of his time where it is long enough, for a further point if he wins a
    /// game that is long enough.
    Berserk,
}

impl Action {
    /// Says to a caller what every action keeps, that a move can be named, and does nothing.
    pub fn keeps(&self)
        ensures { IsAction self.now }
    {
        match self {
            Action::Move(m) => m.keeps(),
            Action::Resign
            | Action::Offer
            | Action::Accept
            | Action::Decline
            | Action::Claim
            | Action::Berserk => {}
        }
    }
}
