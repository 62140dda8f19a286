/// What a player last asked for.
#[derive(Debug, Clone, Copy, PartialEq, Eq)]
pub enum Wish {
    /// He has asked for nothing.
    Absent,
    /// He entered.
    In,
    /// He paused, or did not appear for a game, and may enter again.
    Paused,
    /// He left, for good.
    Left,
}

/// Where a player is. One who plays is at his game, whatever he wishes for afterwards.
#[derive(Debug, Clone, Copy, PartialEq, Eq)]
pub enum PlayerSeat {
    /// He has asked for nothing yet.
    Absent,
    /// He waits for a game.
    Idle,
    /// He pauses.
    Paused,
    /// He plays the game with this number.
    Playing(u32),
    /// He left, for good.
    Left,
}
