/// What a table keeps of a player.
#[derive(Debug, Clone, Copy)]
pub struct Line {
    pub player: u32,
    pub rating: u32,
    pub points: u32,
    pub performance: i64,
    pub games: u32,
    pub fire: bool,
}
