ghost use Rattle.std.specs.Prelude.{◌≡◌, ◌≤◌, ◌↔◌, length, Some, [], IsErr, IsOk, IfOk};
ghost use Rattle.conn.specs.Faults.{FailsOnlyByFault};
ghost use Rattle.conn.specs.Memory.{store_of, Refuses, taken_count, after_write};
ghost use Rattle.conn.specs.Told.{Appends};

use crate::source::{Failed, Sink};
use std::alloc::{AllocError, Global};
use std::marker::Model;

/// A sink that keeps what is written, as far as its room goes. It tells what it holds.
#[derive(Debug, Drop)]
pub struct MemSink {
    bytes: Vec<u8>,
    room: usize,
    piece: usize,
    calls: u64,
    fail: Vec<u64>,
    faults: u64,
}

impl Model for MemSink {
    ghost use Rattle.std.specs.Prelude.{◌≤◌, ◌+◌, vec_len, vec_capacity};
    ghost use Rattle.conn.specs.Memory.{Store};

    ghost Value = { Store };

    ghost view = { λ s. record {
      held = s.bytes.items;
      room = s.room;
      piece = s.piece;
      calls = s.calls;
      fail = s.fail.items;
      faults = s.faults;
    } };

    ghost invariant = { λ s.
        (vec_len s.bytes + s.room ≤ vec_capacity s.bytes) × (1 ≤ s.piece) };
}

impl MemSink {
    /// An empty sink with room for so many bytes, of which a call takes at most `piece`. `fail` has the numbers of the calls
    /// that are to fail, the first call being 0. A write that has a byte and finds no room fails too. All its memory is
    /// taken here.
    pub fn new(
        alloc: Global,
        room: usize,
        piece: usize,
        fail: Vec<u64>,
    ) -> Result<MemSink, AllocError>
        requires { 1 ≤ piece }
        ensures { IfOk result (λ sink. sink ≡ store_of room piece fail.items) }
    {
        let bytes = Vec::with_capacity(alloc, room)?;
        Ok(MemSink {
            bytes,
            room,
            piece,
            calls: 0,
            fail,
            faults: 0,
        })
    }

    /// The bytes that it holds.
    pub fn bytes(&self) -> &[u8]
        ensures { result.now ≡ self.now.held }
    {
        self.bytes.as_slice()
    }
}

impl Sink for MemSink {
    ghost held = { λ s. Some s.held };

    ghost faults = { λ s. s.faults };

    fn write(&mut self, bytes: &[u8]) -> Result<usize, Failed>
        ensures bytes { Appends (Some self.old.held) (Some self.new.held) bytes.now result }
        ensures cause { FailsOnlyByFault self.old.faults self.new.faults result }

        // Which calls fail, how much the others take, and what is held after it all.
        ensures fails { IsErr result ↔ Refuses self.old bytes.now }
        ensures count { IfOk result (λ k. k ≡ taken_count self.old bytes.now) }
        ensures after { self.new ≡ after_write self.old bytes.now result }

        // Where no call is to fail and there is room enough, none does.
        ensures faultless { self.old.fail ≡ [] → length bytes.now ≤ self.old.room
            → IsOk result × (self.new.faults ≡ self.old.faults) }
    {
        let call = self.calls;
        self.calls = self.calls.saturating_add(1);
        if self.fail.contains(&call) || (self.room == 0 && !bytes.is_empty()) {
            self.faults = self.faults.saturating_add(1);
            return Err(Failed);
        }
        let count = bytes.len().min(self.room).min(self.piece);
        if self.bytes.extend_from_slice(&bytes[..count]).is_err() {
            unreachable!()
        }
        self.room -= count;
        Ok(count)
    }
}
