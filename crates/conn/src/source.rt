ghost use Rattle.std.specs.Prelude.{◌≡◌, ℕ, List, Option};
ghost use Rattle.std.specs.Io.{ReadsAtMost};
ghost use Rattle.std.specs.Io.KnownBytes.{ReadConsumes};
ghost use Rattle.conn.specs.Faults.{FailsOnlyByFault};
ghost use Rattle.conn.specs.Told.{Appends};

/// A read or a write that did not work.
#[derive(Debug, Clone, Copy, PartialEq, Eq)]
pub struct Failed;

/// Where bytes come from. It counts its faults, and may tell the bytes that it has left.
pub trait Source {
    ghost left: { Self → Option (List ℕ) };

    ghost faults: { Self → ℕ };

    /// Puts the next bytes at the start of `buf` and says how many they are. Where the bytes are told, a buffer with room
    /// gets none only where none is left. A read that failed took none, and fails only where the count of faults rose in
    /// this call or stands at its last value.
    fn read(&mut self, buf: &mut [u8]) -> Result<usize, Failed>
        ensures bound { ReadsAtMost result buf.new }
        ensures bytes { ReadConsumes (left self.old) (left self.new) result buf.new }
        ensures cause { FailsOnlyByFault (faults self.old) (faults self.new) result };
}

/// Where bytes go. It counts its faults, and may tell the bytes that it holds.
pub trait Sink {
    ghost held: { Self → Option (List ℕ) };

    ghost faults: { Self → ℕ };

    /// Appends the first bytes of the piece and says how many they are: of a piece with bytes, at least one. A write that
    /// failed left none, and fails only where the count of faults rose in this call or stands at its last value.
    fn write(&mut self, bytes: &[u8]) -> Result<usize, Failed>
        ensures bytes { Appends (held self.old) (held self.new) bytes.now result }
        ensures cause { FailsOnlyByFault (faults self.old) (faults self.new) result };
}
