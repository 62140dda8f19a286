/// The greatest stamp of an entry, in milliseconds.
pub const MAX_STAMP: u64 = 1_000_000_000;

/// How many entries a journal has at most.
pub const MAX_ENTRIES: u64 = 8_000_000;

/// How many games an arena begins at most.
pub const MAX_GAMES: u32 = 200_000;
