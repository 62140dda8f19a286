use entries::Control;

/// What is settled when a game begins.
#[derive(Debug, Clone, Copy, PartialEq, Eq)]
pub struct Header {
    /// The game's number.
    pub id: u32,
    /// The number of the player with White.
    pub white: u32,
    /// The number of the player with Black.
    pub black: u32,
    pub control: Control,
    /// When White's first turn begins, in milliseconds: at most 1,000,000,000.
    pub start: u64,
}
