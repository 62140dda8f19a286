//! How the serving of an evening ends.

/// How the serving of an evening ended.
#[derive(Debug, Clone, Copy, PartialEq, Eq)]
pub enum ServeEnd {
    /// The journal and the table were written.
    Done,
    /// A write failed. Of the journal and of the table a beginning was written, perhaps nothing.
    WriteFault,
    /// There was not memory enough: for the evening, and nothing was written, or for the text of the journal or of the table, which
    /// was then left out.
    OutOfMemory,
}
