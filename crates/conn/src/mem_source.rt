ghost use Rattle.std.specs.Prelude.{◌≡◌, ◌≤◌, ◌↔◌, Some, [], IsErr, IsOk, IfOk};
ghost use Rattle.std.specs.Io.{ReadsAtMost};
ghost use Rattle.std.specs.Io.KnownBytes.{ReadConsumes};
ghost use Rattle.conn.specs.Faults.{FailsOnlyByFault};
ghost use Rattle.conn.specs.Memory.{supply_of, WillFail, given_count, after_read};

use crate::source::{Failed, Source};
use std::marker::Model;

/// A source over bytes in memory. It tells them.
#[derive(Debug, Drop)]
pub struct MemSource {
    bytes: Vec<u8>,
    at: usize,
    piece: usize,
    calls: u64,
    fail: Vec<u64>,
    faults: u64,
}

impl Model for MemSource {
    ghost use Rattle.std.specs.Prelude.{◌≤◌, length, drop};
    ghost use Rattle.conn.specs.Memory.{Supply};

    ghost Value = { Supply };

    ghost view = { λ s. record {
      left = drop s.at s.bytes.items;
      piece = s.piece;
      calls = s.calls;
      fail = s.fail.items;
      faults = s.faults;
    } };

    ghost invariant = { λ s. (s.at ≤ length s.bytes.items) × (1 ≤ s.piece) };
}

impl MemSource {
    /// A source that gives these bytes, at most `piece` of them per call. `fail` has the numbers of the calls that are to
    /// fail, the first call being 0. Takes no memory.
    pub fn new(bytes: Vec<u8>, piece: usize, fail: Vec<u64>) -> MemSource
        requires { 1 ≤ piece }
        ensures { result ≡ supply_of bytes.items piece fail.items }
    {
        MemSource {
            bytes,
            at: 0,
            piece,
            calls: 0,
            fail,
            faults: 0,
        }
    }

    /// The bytes that it still gives.
    pub fn rest(&self) -> &[u8]
        ensures { result.now ≡ self.now.left }
    {
        &self.bytes[self.at..]
    }
}

impl Source for MemSource {
    ghost left = { λ s. Some s.left };

    ghost faults = { λ s. s.faults };

    fn read(&mut self, buf: &mut [u8]) -> Result<usize, Failed>
        ensures bound { ReadsAtMost result buf.new }
        ensures bytes { ReadConsumes (Some self.old.left) (Some self.new.left) result buf.new }
        ensures cause { FailsOnlyByFault self.old.faults self.new.faults result }

        // Which calls fail, how much the others give, and what is left of it all.
        ensures fails { IsErr result ↔ WillFail self.old }
        ensures count { IfOk result (λ k. k ≡ given_count self.old buf.old) }
        ensures after { self.new ≡ after_read self.old result }

        // Where no call is to fail, none does.
        ensures faultless { self.old.fail ≡ []
            → IsOk result × (self.new.faults ≡ self.old.faults) }
    {
        let call = self.calls;
        self.calls = self.calls.saturating_add(1);
        if self.fail.contains(&call) {
            self.faults = self.faults.saturating_add(1);
            return Err(Failed);
        }
        let left = self.bytes.len() - self.at;
        let count = left.min(buf.len()).min(self.piece);
        let next = self.at + count;
        buf[..count].copy_from_slice(&self.bytes[self.at..next]);
        self.at = next;
        Ok(count)
    }
}
