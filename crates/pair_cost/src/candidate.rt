/// An idle player, as a pairing sees him.
#[derive(Debug, Clone, Copy, PartialEq, Eq)]
pub struct Candidate {
    /// The player's number.
    pub player: u32,
    /// His place in the table, counted from 0. A smaller rank is better.
    pub rank: u32,
    pub rating: u32,
    /// The opponent of his last game, if he has had one.
    pub last: Option<u32>,
    /// His games with White less those with Black.
    pub balance: i32,
    /// His team, if he plays for one.
    pub team: Option<u32>,
    /// How many committed waves have left him alone since his last game began.
    pub alone: u32,
}

/// What holds for a whole snapshot, whose players are paired group by group.
#[derive(Debug, Clone, Copy, PartialEq, Eq)]
pub struct Frame {
    /// The greatest rank of all who are idle, or 0 where nobody is.
    pub max: u32,
    /// How many are idle.
    pub idle: u32,
    /// The rule of pairing, 1 or 2. Under rule 2 it costs more to leave a player alone again, and no two who met each
    /// other in their last games meet again while more than two are idle.
    pub rule: u32,
}

/// Two players who are to meet, by their numbers.
#[derive(Debug, Clone, Copy, PartialEq, Eq)]
pub struct Pair {
    pub white: u32,
    pub black: u32,
}
