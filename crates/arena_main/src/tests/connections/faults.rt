//! One request, with a fault at every place.

use super::wires::{WHOLE, Wanted, Wires, in_game_comes_to};
use host::Ended;
use std::alloc::{AllocError, Global};
use std::process::Abort;
use std::sync::Wait;
use std::test::Fail;
use std::thread::Threads;

const MOVE: &[u8] =
    b"POST /api/game/0/move/e2e4 HTTP/1.1\r\nHost: arena.example\r\nUser-Agent: curl/8.5.0\r\nAccept: */*\r\nAuthorization: Bearer alicekey00000001\r\nContent-Length: 0\r\n\r\n";

const MOVED: &[u8] =
    b"HTTP/1.1 200 OK\r\nContent-Type: application/json\r\nContent-Length: 246\r\nX-Arena-Seen: 4\r\n\r\n{\"black\":\"bob\",\"blackBerserk\":false,\"blackMs\":180000,\"fen\":\"rnbqkbnr/pppppppp/8/8/4P3/8/PPPP1PPP/RNBQKBNR b KQkq - 0 1\",\"id\":0,\"last\":\"e2e4\",\"offer\":null,\"outcome\":null,\"ply\":1,\"turn\":\"black\",\"white\":\"alice\",\"whiteBerserk\":false,\"whiteMs\":180000}";

/// The connection ends like this, with nothing written and no entry.
const fn nothing(ended: Ended) -> Wanted<'static> {
    Wanted {
        ended,
        text: b"",
        entries: 3,
    }
}

/// The move is made, and this was written.
const fn moved(ended: Ended, text: &[u8]) -> Wanted<'_> {
    Wanted {
        ended,
        text,
        entries: 4,
    }
}

/// In pieces of any size the answer is the same.
fn in_pieces<R: Threads + Wait + Abort + Sync>(rt: &R, alloc: Global) -> Result<(), AllocError> {
    let wanted = moved(Ended::Served, MOVED);
    for read_piece in 1..9 {
        let wires = Wires {
            read_piece,
            ..WHOLE
        };
        in_game_comes_to(rt, alloc, MOVE, &wires, &wanted)?;
    }
    in_game_comes_to(rt, alloc, MOVE, &WHOLE, &wanted)
}

/// Each byte is a read, of which one fails: while the request is not whole, nothing is written, and behind it all stands.
fn failing_reads<R: Threads + Wait + Abort + Sync>(
    rt: &R,
    alloc: Global,
) -> Result<(), AllocError> {
    for read in 0..=MOVE.len() as u64 {
        let wires = Wires {
            read_piece: 1,
            read_fails: Some(read),
            ..WHOLE
        };
        let wanted = if read < MOVE.len() as u64 {
            nothing(Ended::ReadFault)
        } else {
            moved(Ended::ReadFault, MOVED)
        };
        in_game_comes_to(rt, alloc, MOVE, &wires, &wanted)?;
    }
    Ok(())
}

/// A write takes seven bytes, and one fails: those before it stand, and the move is made.
fn failing_writes<R: Threads + Wait + Abort + Sync>(
    rt: &R,
    alloc: Global,
) -> Result<(), AllocError> {
    for write in 0..MOVED.len().div_ceil(7) {
        let wires = Wires {
            write_piece: 7,
            write_fails: Some(write as u64),
            ..WHOLE
        };
        let wanted = moved(Ended::WriteFault, &MOVED[..7 * write]);
        in_game_comes_to(rt, alloc, MOVE, &wires, &wanted)?;
    }
    Ok(())
}

/// The source ends within the request.
fn cut<R: Threads + Wait + Abort + Sync>(rt: &R, alloc: Global) -> Result<(), AllocError> {
    for count in 1..MOVE.len() {
        in_game_comes_to(rt, alloc, &MOVE[..count], &WHOLE, &nothing(Ended::CutOff))?;
    }
    let served = nothing(Ended::Served);
    in_game_comes_to(rt, alloc, b"", &WHOLE, &served)?;
    in_game_comes_to(rt, alloc, b"\r\n", &WHOLE, &served)
}

/// In pieces, with a fault at each place and cut at each place.
fn in_all_ways<R: Threads + Wait + Abort + Sync>(rt: &R, alloc: Global) -> Result<(), AllocError> {
    in_pieces(rt, alloc)?;
    failing_reads(rt, alloc)?;
    failing_writes(rt, alloc)?;
    cut(rt, alloc)
}

#[test]
fn a_request_is_answered_whole_or_by_a_beginning(rt: HostRuntime) -> Result<(), Fail> {
    Ok(in_all_ways(&rt, rt.alloc())?)
}
