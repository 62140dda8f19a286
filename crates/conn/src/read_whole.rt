ghost use Rattle.std.specs.Prelude.{◌≡◌, ◌≤◌, ◌<◌, ◌+◌, ◌++◌, length, take, vec_len, IfOk, Err};
ghost use Rattle.std.specs.Io.KnownBytes.{Consumes, IsAtEnd};
ghost use Rattle.conn.specs.Faults.{Rose};
ghost use Rattle.conn.specs.Told.{GaveAll, GaveAtMost, HadMore};

use crate::source::Source;
use std::alloc::{AllocError, Global};

/// How many bytes a read asks for at most.
const PIECE: usize = 65536;

/// Why the bytes of a source were not read to their end.
#[derive(Debug, Clone, Copy, PartialEq, Eq)]
pub enum ReadAllFault {
    /// They are more than the limit.
    TooLong,
    /// A read failed.
    ReadFault,
    /// There was not memory enough.
    OutOfMemory,
}

// What each read is put into first.
fn new_piece(alloc: Global) -> Result<Vec<u8>, AllocError>
    ensures { IfOk result (λ piece. vec_len piece ≡ PIECE) }
{
    Vec::from_elem(alloc, 0, PIECE)
}

// Reads once into the piece, puts what came behind the bytes, and says how much it was.
fn read_piece<S: Source>(
    source: &mut S,
    piece: &mut [u8],
    bytes: &mut Vec<u8>,
) -> Result<usize, ReadAllFault>
    ensures few { IfOk result (λ count. count ≤ length piece.new) }
    ensures came { IfOk result (λ count.
        Consumes (S.left source.old) (S.left source.new) (take count piece.new)) }
    ensures put { IfOk result (λ count.
        bytes.new.items ≡ bytes.old.items ++ take count piece.new) }
    ensures end { IfOk result (λ count.
        count ≡ 0 → 0 < length piece.new → IsAtEnd (S.left source.new)) }

    ensures not_too_long { result ≡ Err ReadAllFault.TooLong → ⊥ }
    ensures fault { result ≡ Err ReadAllFault.ReadFault
        → Rose (S.faults source.old) (S.faults source.new) }

    ensures kept { S.faults source.old ≤ S.faults source.new }
    ensures taken { GaveAtMost (S.left source.old) (S.left source.new) (length piece.old) }
{
    let Ok(count) = source.read(piece) else {
        return Err(ReadAllFault::ReadFault);
    };
    match bytes.extend_from_slice(&piece[..count]) {
        Ok(()) => Ok(count),
        Err(_) => Err(ReadAllFault::OutOfMemory),
    }
}

/// Reads to the end and gives all the bytes that came, if they are at most `limit`. At most one byte past the limit is
/// taken.
pub fn read_all<S: Source>(
    alloc: Global,
    source: &mut S,
    limit: usize,
) -> Result<Vec<u8>, ReadAllFault>
    ensures all { IfOk result (λ bytes.
        GaveAll (S.left source.old) (S.left source.new) bytes.items) }
    ensures within { IfOk result (λ bytes. length bytes.items ≤ limit) }

    // The causes of what is no `Ok`.
    ensures too_long { result ≡ Err ReadAllFault.TooLong → HadMore (S.left source.old) limit }
    ensures fault { result ≡ Err ReadAllFault.ReadFault
        → Rose (S.faults source.old) (S.faults source.new) }

    // Whatever it answers.
    ensures kept { S.faults source.old ≤ S.faults source.new }
    ensures taken { GaveAtMost (S.left source.old) (S.left source.new) (limit + 1) }
{
    let Ok(mut piece) = new_piece(alloc) else {
        return Err(ReadAllFault::OutOfMemory);
    };
    let mut bytes = Vec::new(alloc);
    loop {
        let want = (limit - bytes.len()).min(PIECE - 1) + 1;
        let count = read_piece(source, &mut piece[..want], &mut bytes)?;
        if count == 0 {
            return Ok(bytes);
        }
        if limit < bytes.len() {
            return Err(ReadAllFault::TooLong);
        }
    }
}
