use crate::action::Action;
use crate::setup::Setup;
use conn::List;

/// What an entry of a journal did. A number names a player by his place in the setup, from 0, and a game by how many games were
/// begun before it.
#[derive(Debug, Clone, Copy, PartialEq, Eq)]
pub enum What {
    /// The player entered.
    Enter(u32),
    /// The player paused, and may enter again.
    Pause(u32),
    /// The player left for good.
    Leave(u32),
    /// The player acted in the game, which is named behind him.
    Act(u32, u32, Action),
    /// The clocks were looked at, and every game that was due ended.
    Tick,
    /// A wave was started, of the plan of so many first entries.
    Wave(u64),
}

/// One event of an arena.
#[derive(Debug, Clone, Copy, PartialEq, Eq)]
pub struct Entry {
    /// Milliseconds since the arena's clock began, at most 1,000,000,000 in a journal's text. In a legal journal it is not
    /// below that of the entry before.
    pub stamp: u64,
    /// The number of the pass that made the entry, at most 255 in a journal's text.
    pub pass: u32,
    pub what: What,
}

/// A game that was started: the number of the wave's entry, from 0, and the two players.
#[derive(Debug, Clone, Copy, PartialEq, Eq)]
pub struct Start {
    pub entry: u64,
    pub white: u32,
    pub black: u32,
}

/// An arena's setup and all that happened in it, in order.
#[derive(Debug, Drop)]
pub struct Journal {
    pub setup: Setup,
    /// Of which version its text is: 1, which is under the first pairing rule and lists no games, or 2, which lists the games of
    /// each wave.
    pub version: u32,
    pub entries: List<Entry>,
    /// In version 2 the games that the waves started, in order; in version 1 none.
    pub starts: List<Start>,
}
