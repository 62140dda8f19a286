/// Why an action is refused. A refused action changes nothing.
#[derive(Debug, Clone, Copy, PartialEq, Eq)]
pub enum ActRefusal {
    /// The game has ended.
    Over = 1,
    /// The other side is to move.
    NotYourTurn = 2,
    /// The move is not legal.
    Illegal = 3,
    /// Some offer stands, or this side has offered since the last move.
    OfferStands = 4,
    /// No offer of the other side stands.
    NoOffer = 5,
    /// The position has occurred less than three times, and less than 100 plies passed without a pawn move or a capture.
    NoClaim = 6,
    /// This side has made a move.
    BerserkLate = 7,
    /// This side has berserked.
    BerserkTwice = 8,
    /// The initial time is 0.
    BerserkZero = 9,
}
