/// How a game stands by its position alone.
#[derive(Clone, Copy, Debug, PartialEq, Eq)]
pub enum State {
    /// The side to move has a legal move.
    Going,
    /// It has none and is in check: the other side has won (FIDE Laws of Chess, Article 5.1.1).
    Mate,
    /// It has none and is not in check: the game is drawn (FIDE Laws of Chess, Article 5.2.1).
    Stalemate,
}
