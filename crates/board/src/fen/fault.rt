/// Why a text is no FEN: the first field that is missing or refused.
#[derive(Clone, Copy, Debug, PartialEq, Eq)]
pub struct FenFault {
    /// The number of the field, from 1 to 6, or 7 where bytes follow the sixth field.
    pub field: u8,
    /// Where that field begins in the text, or the text's length where the field is missing. For 7, the place of the first
    /// byte after the sixth field.
    pub at: usize,
}
