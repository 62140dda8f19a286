use entries::Action;

/// What may be asked of an arena. A number names a player by his place in the setup, from 0, and a game by how many games were
/// begun before it.
#[derive(Debug, Clone, Copy, PartialEq, Eq)]
pub enum Command {
    /// The player enters, for the first time or after a pause.
    Enter(u32),
    /// The player pauses.
    Pause(u32),
    /// The player leaves for good.
    Leave(u32),
    /// The player acts in the game, which is named behind him.
    Act(u32, u32, Action),
    /// Every game that is due is ended.
    Tick,
}
