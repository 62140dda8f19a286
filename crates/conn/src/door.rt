use crate::source::{Sink, Source};

/// Where connections come in. Each has a source, of what the other side sends, and a sink, for what it is sent. Both can
/// be handed to another thread, and are let go when the connection is over.
pub trait Door {
    /// What the other side sends.
    type In: Source + Send + Drop;

    /// What the other side is sent.
    type Out: Sink + Send + Drop;

    /// A connection that waits, or `None`. Nothing is promised: a door may have no connection now and one at the next call,
    /// and it may take a moment before it says so.
    fn next(&mut self) -> Option<(Self::In, Self::Out)>;
}
