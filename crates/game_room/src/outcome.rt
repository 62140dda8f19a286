use board::Colour;

/// Why a game ended.
#[derive(Debug, Clone, Copy, PartialEq, Eq)]
pub enum Cause {
    /// Checkmate (FIDE Laws of Chess, Article 5.1.1).
    Mate,
    /// No legal move is left, and the king of the side to move is not attacked (FIDE Laws of Chess, Article 5.2.1).
    Stalemate,
    /// A player gave up (FIDE Laws of Chess, Article 5.1.2).
    Resign,
    /// A player accepted the other's offer (FIDE Laws of Chess, Article 5.2.3).
    Agreed,
    /// A player claimed that the position occurred for at least the third time (FIDE Laws of Chess, Article 9.2).
    Threefold,
    /// A player claimed that 100 plies passed without a pawn move or a capture (FIDE Laws of Chess, Article 9.3).
    Fifty,
    /// The position occurred for the fifth time (FIDE Laws of Chess, Article 9.6.1).
    Fivefold,
    /// 150 plies passed without a pawn move or a capture (FIDE Laws of Chess, Article 9.6.2).
    SeventyFive,
    /// Nothing is left beside the kings, or one knight or bishop, or bishops that share the colour of their squares (FIDE
    /// Laws of Chess, Article 5.2.2).
    Dead,
    /// The bank of the side to move was used up (FIDE Laws of Chess, Article 6.9). The game is drawn where the other side has
    /// its king alone.
    Flag,
    /// The side to move did not make its first move in time.
    NoShow,
}

/// How a game ended.
#[derive(Debug, Clone, Copy, PartialEq, Eq)]
pub struct Outcome {
    /// None where it is drawn.
    pub winner: Option<Colour>,
    pub cause: Cause,
    /// How many moves were made.
    pub plies: u32,
    pub white_berserk: bool,
    pub black_berserk: bool,
    /// When it ended, in milliseconds.
    pub stamp: u64,
}

/// What an accepted action did.
#[derive(Debug, Clone, Copy, PartialEq, Eq)]
pub enum Done {
    /// It is noted, and the game goes on.
    Noted,
    /// A move was made, and the game goes on.
    Moved,
    /// The game ended.
    Ended(Outcome),
}
