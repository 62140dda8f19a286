/// Who of a group meets whom: for each of the first `len` places the place of its partner, or 14 for nobody. The other
/// places have 14.
#[derive(Debug, Clone, Copy, PartialEq, Eq)]
pub struct Partners {
    pub len: u8,
    pub to: [u8; 14],
}
