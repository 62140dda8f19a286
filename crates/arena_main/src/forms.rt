/// A form of the words behind the program's name: what the program is asked for.
#[derive(Debug, Clone, Copy, PartialEq, Eq)]
pub enum Form {
    /// `replay`: the table of a journal.
    Replay,
    /// `upgrade`: a journal in version 2.
    Upgrade,
    /// `pgn`: the games of a journal that count, in PGN.
    Pgn,
    /// `gen SEED PLAYERS`: the table's beginning and end of a large journal from a number.
    Gen {
        /// 0 to 2,147,483,647.
        seed: u32,
        /// 2 to 1,000.
        players: u32,
    },
    /// `serve SETUP PORT WORKERS JOURNAL`: an evening hosted, from the file of its setup to the file of its journal.
    Serve {
        /// 1 to 65,535.
        port: u16,
        /// 1 to 256.
        workers: u32,
    },
}
