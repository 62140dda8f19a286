//! What each seat of the lock's table knows. No value of these types is ever made: they are the words of the proofs.
use std::collections::LinkedList;
use std::snapshot::Snapshot;

/// What a seat is for.
pub enum Role<E> {
    /// It made so many passes, and took these back: the number of each, with the history that it had seen.
    Maker(u64, LinkedList<(u64, LinkedList<E>)>),
    /// It is the pass of this number.
    Holder(u64),
    /// It was taken back.
    Spent,
}

/// Where a seat stands in the queue. Tickets are counted without end here.
pub enum Stage {
    Idle,
    /// It waits with this ticket.
    Waiting(u64),
    /// This ticket of its is served: it has the turn.
    Turn(u64),
}

/// What a seat knows.
pub struct View<E, F> {
    /// What never changes, unless the seat is spent: the fixed part, and how many passes there are.
    pub lock: Option<(F, u64)>,
    pub role: Role<E>,
    pub stage: Stage,
    /// The history that it has seen.
    pub seen: LinkedList<E>,
    /// For each turn that it ended, how many entries it had seen by then.
    pub turns: LinkedList<u64>,
}

/// What the table is told when it is made: the first value, and how many passes there will be.
pub struct Start<V> {
    pub value: Snapshot<V>,
    pub passes: u64,
}

impl<V> Drop for Start<V> {
    fn drop(self) {
        let Start {
            value: _,
            passes: _,
        } = self;
    }
}
