use arena_rules::{Command, Query};

/// What a request asks of an arena.
#[derive(Debug, Clone, Copy, PartialEq, Eq)]
pub enum Call {
    /// It adds an entry, unless it is refused.
    Command(Command),
    /// It adds none.
    Query(Query),
}
