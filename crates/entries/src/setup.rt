use conn::{List, Text};

/// The time control of every game of an arena.
#[derive(Debug, Clone, Copy, PartialEq, Eq)]
pub struct Control {
    /// What each side starts with, in milliseconds: 0 to 10,800,000, whole seconds. Where it is 0, each side starts with
    /// `inc_ms`.
    pub initial_ms: u64,
    /// What each move adds from a side's second on, in milliseconds: 0 to 180,000, whole seconds. Not 0 where `initial_ms`
    /// is.
    pub inc_ms: u64,
    /// How long a side has for its first move, in milliseconds: 1,000 to 300,000.
    pub first_ms: u64,
}

/// A player of an arena.
#[derive(Debug, Drop)]
pub struct Player {
    /// 1 to 20 bytes, each a letter, a digit, `_` or `-`. No other player has it.
    pub name: Text,
    /// 400 to 4,000 rating points.
    pub rating: u32,
    /// The place of the player's team among the teams, from 0.
    pub team: Option<u32>,
}

/// What is settled before an arena starts. No call changes it.
#[derive(Debug, Drop)]
pub struct Setup {
    pub control: Control,
    /// The first millisecond at which a wave may start games.
    pub starts: u64,
    /// The millisecond from which no player enters or leaves, no wave starts games and no game that ends counts: above
    /// `starts`, at most 900,000,000.
    pub ends: u64,
    /// How many milliseconds after a wave the next one is due: 100 to 600,000.
    pub wave_ms: u64,
    /// How many players of a team count for it: 1 to 20.
    pub leaders: u32,
    /// By which of the two pairing rules a wave is planned: 1 or 2.
    pub rule: u32,
    /// Up to 100 names of teams, no two the same.
    pub teams: List<Text>,
    /// 1 to 1,000 players. A player's number is his place here, from 0.
    pub players: List<Player>,
}
