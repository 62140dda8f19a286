use crate::view::{ArenaView, MeView};
use conn::List;
use entries::Entry;
use game_room::GameView;
use ranking::Row;
use team_battle::TeamRow;

/// A question about an arena. It adds no entry.
#[derive(Debug, Clone, Copy, PartialEq, Eq)]
pub enum Query {
    /// The arena as a whole.
    Arena,
    /// The ten rows of the table from rank ten times this number on.
    Standing(u32),
    /// The table of the teams.
    Teams,
    /// The player with this number.
    Me(u32),
    /// The game with this number.
    Game(u32),
    /// The entries from this number on.
    Journal(u64),
}

/// What a command is answered that is not refused. All is told as it stands with the command's entry behind it.
#[derive(Debug, Clone, Copy, PartialEq, Eq)]
pub enum Reply {
    /// The player who entered, paused or left.
    Me(MeView),
    /// The game in which a player acted.
    Game(GameView),
    /// How many games were ended.
    Ticked(u32),
}

/// What a question is answered.
#[derive(Debug, Drop)]
pub enum Answer {
    Arena(ArenaView),
    /// At most ten rows of the table, in its order. None are past its end.
    Standing {
        /// How many rows the whole table has.
        total: u32,
        rows: List<Row>,
    },
    /// A row for each team, in their order.
    Teams(List<TeamRow>),
    Me(MeView),
    Game(GameView),
    /// At most 1,000 entries, in order. None are past the journal's end.
    Journal {
        /// How many entries the whole journal has.
        total: u64,
        entries: List<Entry>,
    },
}
