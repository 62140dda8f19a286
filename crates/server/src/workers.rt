//! What a worker works with, and how it ends.

/// What a worker works with: where its connections come in, its clock, and the solvers that plan its waves, of which there is
/// at least one.
#[derive(Debug, Drop)]
pub struct Worker<D, C, V> {
    pub door: D,
    pub clock: C,
    pub solvers: Vec<V>,
}

/// Why a worker ended.
#[derive(Debug, Clone, Copy, PartialEq, Eq)]
pub enum WorkerEnd {
    /// The arena's end has come, and no game runs.
    Over,
    /// There is no room for another entry, or for the games of a wave.
    Full,
}
