//! The bytes that were read and are still to be looked at.

ghost use Rattle.std.specs.Prelude.{◌≡◌, ◌+◌, ◌-◌, ◌<◌, ◌≤◌, ℕ, List, [], length, take, drop, slice_range, vec_len, IfOk, OnErr};
ghost use Rattle.std.specs.Io.KnownBytes.{IsAtEnd, Keeps};
ghost use Rattle.conn.specs.Faults.{FailsOnlyByFault};
ghost use Rattle.http_lines.specs.Steps.{GrewBy};

use crate::request::HEAD_LIMIT;
use conn::{Failed, Source};
use std::alloc::{AllocError, Global};
use std::marker::Model;

/// Bytes that a source gave and that are held, at most as many as a head may have. They lie in one buffer, which is taken once.
#[derive(Debug, Drop)]
pub(crate) struct ReadAhead {
    buffer: Vec<u8>,
    start: usize,
    end: usize,
}

impl Model for ReadAhead {
    ghost use Rattle.std.specs.Prelude.{◌≡◌, ◌≤◌, ℕ, List, vec_len, slice_range};
    ghost use Rattle.http_lines.specs.declared.request.TheConstants.{HEAD_LIMIT};

    ghost Value = { List ℕ };

    ghost view = { λ a. slice_range a.buffer.items a.start a.end };

    ghost invariant = { λ a. (a.start ≤ a.end) × (a.end ≤ vec_len a.buffer) × (vec_len a.buffer ≡ HEAD_LIMIT) };
}

// The buffer.
fn new_buffer(alloc: Global) -> Result<Vec<u8>, AllocError>
    ensures { IfOk result (λ buffer. vec_len buffer ≡ HEAD_LIMIT) }
{
    Vec::from_elem(alloc, 0, HEAD_LIMIT)
}

// Moves a part of the buffer to its front.
fn move_to_front(buffer: &mut [u8], start: usize, end: usize)
    requires ordered { start ≤ end }
    requires within { end ≤ length buffer.old }
    ensures { take (end - start) buffer.new ≡ slice_range buffer.old start end }
{
    if start > 0 {
        buffer.copy_within(start..end, 0);
    }
}

// Reads once into the buffer behind the part from `start` to `end`, which is moved to its front, and says how many bytes came.
fn read_behind<S: Source>(
    source: &mut S,
    buffer: &mut [u8],
    start: usize,
    end: usize,
) -> Result<usize, Failed>
    requires ordered { start ≤ end }
    requires within { end ≤ length buffer.old }
    requires room { end - start < length buffer.old }
    ensures grew { IfOk result (λ count. GrewBy count (slice_range buffer.old start end)
        (take (end - start + count) buffer.new) (S.left source.old) (S.left source.new)) }
    ensures fits { IfOk result (λ count. end - start + count ≤ length buffer.old) }
    ensures end { IfOk result (λ count. count ≡ 0 → IsAtEnd (S.left source.new)) }
    ensures same { take (end - start) buffer.new ≡ slice_range buffer.old start end }
    ensures failed { OnErr result (Keeps (S.left source.old) (S.left source.new)) }
    ensures cause { FailsOnlyByFault (S.faults source.old) (S.faults source.new) result }
{
    move_to_front(buffer, start, end);
    source.read(&mut buffer[end - start..])
}

impl ReadAhead {
    /// Nothing read so far. Takes the buffer.
    pub(crate) fn new(alloc: Global) -> Result<ReadAhead, AllocError>
        ensures { IfOk result (λ ahead. ahead ≡ []) }
    {
        let buffer = new_buffer(alloc)?;
        Ok(ReadAhead {
            buffer,
            start: 0,
            end: 0,
        })
    }

    /// The bytes that are held.
    pub(crate) fn held(&self) -> &[u8]
        ensures bytes { result.now ≡ self.now }
        ensures few { length self.now ≤ HEAD_LIMIT }
    {
        &self.buffer[self.start..self.end]
    }

    /// Lets go of the first `count` bytes that are held.
    pub(crate) fn let_go(&mut self, count: usize)
        requires { count ≤ length self.old }
        ensures { self.new ≡ drop count self.old }
    {
        self.start += count;
    }

    /// Reads once behind the bytes that are held, and says how many bytes came.
    pub(crate) fn read_more<S: Source>(&mut self, source: &mut S) -> Result<usize, Failed>
        requires { length self.old < HEAD_LIMIT }
        ensures grew { IfOk result (λ count. GrewBy count self.old self.new (S.left source.old) (S.left source.new)) }
        ensures few { length self.new ≤ HEAD_LIMIT }
        ensures end { IfOk result (λ count. count ≡ 0 → IsAtEnd (S.left source.new)) }
        ensures failed { OnErr result ((self.new ≡ self.old) × Keeps (S.left source.old) (S.left source.new)) }
        ensures cause { FailsOnlyByFault (S.faults source.old) (S.faults source.new) result }
    {
        let read = read_behind(source, &mut self.buffer, self.start, self.end);
        self.end -= self.start;
        self.start = 0;
        match read {
            Ok(count) => {
                self.end += count;
                Ok(count)
            }
            Err(failed) => Err(failed),
        }
    }
}
