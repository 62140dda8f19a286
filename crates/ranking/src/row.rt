/// One row of the table.
#[derive(Debug, Clone, Copy, PartialEq, Eq)]
pub struct Row {
    /// The place in the table, from 0.
    pub rank: u32,
    /// The player's number.
    pub player: u32,
    /// The points of his counted games.
    pub points: u32,
    /// His performance in rating points, which may be negative, or 0 without games.
    pub performance: i64,
    /// How many of his games count.
    pub games: u32,
    /// Whether his last two counted games are wins.
    pub fire: bool,
}
