//! What a value under the lock has to say of itself.
ghost use Rattle.std.specs.Prelude.{◌≡◌, ℕ, List, length};

/// A value that stands for a list of entries, its history, and for a part that no turn changes.
pub trait Historied {
    type Entry: Send + Sync;

    type Fixed: Send + Sync;

    // The history.
    ghost entries: { Self → List Self.Entry };

    // The number of the pass that added an entry.
    ghost by: { Self.Entry → ℕ };

    // The part that no turn changes.
    ghost fixed: { Self → Self.Fixed };

    /// How many entries the history has.
    fn len(&self) -> u64
        ensures { result ≡ length (entries self.now) };
}
