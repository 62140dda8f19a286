use seats::PlayerSeat;

/// Where an arena stands in its time.
#[derive(Debug, Clone, Copy, PartialEq, Eq)]
pub enum Phase {
    /// No wave may start games yet.
    Before,
    /// Waves may start games.
    Running,
    /// The end has come.
    Over,
}

/// An arena at a stamp.
#[derive(Debug, Clone, Copy, PartialEq, Eq)]
pub struct ArenaView {
    /// Milliseconds since the arena's clock began.
    pub stamp: u64,
    pub phase: Phase,
    /// How many players ever entered.
    pub entered: u32,
    /// How many games were begun.
    pub begun: u32,
    /// How many games are running.
    pub running: u32,
}

/// A player of an arena. Without a rank he has no points, performance 0 and is not on fire.
#[derive(Debug, Clone, Copy, PartialEq, Eq)]
pub struct MeView {
    /// The player's number.
    pub player: u32,
    pub seat: PlayerSeat,
    /// His place in the table, from 0, or None where he never entered.
    pub rank: Option<u32>,
    /// The points of his counted games.
    pub points: u32,
    /// His performance in rating points, which may be negative.
    pub performance: i64,
    /// Whether his last two counted games are wins.
    pub fire: bool,
}
