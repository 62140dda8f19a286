/// Why the plan of a wave is not committed. Where several hold, the earlier comes first.
#[derive(Debug, Clone, Copy, PartialEq, Eq)]
pub enum CommitFault {
    /// The stamp is below the first moment for games.
    Early,
    /// The stamp is at the arena's end or past it.
    Closed,
    /// There is a pair to start, and the journal has 8,000,000 entries or there would be more than 200,000 games.
    Full,
    /// There was no memory for what the wave begins.
    OutOfMemory,
}
