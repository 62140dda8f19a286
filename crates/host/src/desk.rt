//! What the requests of a connection are answered from.

use api::Routes;
use arena_lock::Lobby;
use setup_file::Keys;

/// The arena behind its lock, the keys of its players, and the route table.
#[derive(Drop)]
pub struct Desk<'a> {
    pub lobby: &'a Lobby,
    pub keys: &'a Keys,
    pub routes: &'a Routes,
}
