/// What one turn of a director did.
#[derive(Debug, Clone, Copy, PartialEq, Eq)]
pub struct Turn {
    /// How many games were ended since they were due.
    pub ended: u32,
    /// How many entries the arena had at the snapshot.
    pub n: u64,
    /// How many players were idle at the snapshot.
    pub idle: u32,
    /// Whether at the snapshot the arena's end had come and no game ran.
    pub over: bool,
    /// What became of a wave.
    pub wave: WaveEnd,
}

/// What became of a wave in a director's turn.
#[derive(Debug, Clone, Copy, PartialEq, Eq)]
pub enum WaveEnd {
    /// At the snapshot no wave was due: fewer than two players were idle, it was not the time for games, or the last wave was
    /// too short before.
    NotDue,
    /// One was due, and so many games were started. Where it is 0 nobody of the plan's pairs could play any more, or the plan
    /// had no pair; then no entry was added, so it puts off no later wave.
    Started(u32),
    /// One was due, and its commit came before the first moment for games: the clock went back.
    Early,
    /// One was due, and its commit came at the arena's end or past it.
    Closed,
}

/// Why a director's turn ended before it was done.
#[derive(Debug, Clone, Copy, PartialEq, Eq)]
pub enum TurnFault {
    /// The journal has no room for a look that would end games or for a wave that would start some.
    Full,
    /// There was no memory for one of the steps.
    OutOfMemory,
}
