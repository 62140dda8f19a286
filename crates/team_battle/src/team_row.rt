/// One row of the table of teams.
#[derive(Debug, Clone, Copy, PartialEq, Eq)]
pub struct TeamRow {
    /// The place in the table, from 0.
    pub rank: u32,
    /// The team's number: its place among the teams of the setup, from 0.
    pub team: u32,
    /// The points of its leaders, summed.
    pub points: u32,
    /// The performances of its leaders, summed.
    pub performance: i64,
}
