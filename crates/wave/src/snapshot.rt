use conn::List;
use pair_cost::{Candidate, Pair};

/// What a wave is planned from: the idle players after the first entries of a journal.
#[derive(Debug, Drop)]
pub struct Snapshot {
    /// How many entries it is of.
    pub n: u64,
    /// When it was taken, in milliseconds.
    pub stamp: u64,
    /// When the last wave before it was, if there was one.
    pub last_wave: Option<u64>,
    /// How many games run.
    pub running: u32,
    /// The rule of pairing, 1 or 2.
    pub rule: u32,
    /// The idle players in rank order.
    pub rows: List<Candidate>,
}

/// The pairs that a wave is to start, and whom it leaves alone.
#[derive(Debug, Drop)]
pub struct Plan {
    /// How many entries its snapshot is of.
    pub n: u64,
    /// The pairs of one group after another, and those of a group by their better ranked players.
    pub pairs: List<Pair>,
    /// The numbers of the players who have nobody, in rank order.
    pub alone: List<u32>,
}
