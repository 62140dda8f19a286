//! Connections in memory.

ghost use Rattle.std.specs.Prelude.{◌≡◌, ◌≤◌, IfOk, length};
ghost use Rattle.entries.specs.Ranges.{IsGood};
ghost use Rattle.arena_lock.specs.Turns.{IsReady};
ghost use Rattle.host.specs.Asked.{AreKeysOfPlayers};

use super::super::lobbies::opened_for_one;
use super::{begin_game, evening};
use arena_core::{Answer, Query};
use arena_lock::{Lobby, Pass};
use conn::{MemClock, MemSink, MemSource};
use host::{Ended, serve_connection};
use setup_file::Keys;
use std::alloc::{AllocError, Global};
use std::process::Abort;
use std::sync::Wait;
use std::thread::Threads;

/// How many bytes a read gives and a write takes at most, and which read and which write fails, if one does.
#[derive(Clone, Copy)]
pub struct Wires {
    pub read_piece: usize,
    pub read_fails: Option<u64>,
    pub write_piece: usize,
    pub write_fails: Option<u64>,
}

/// All at once, and without a fault.
pub const WHOLE: Wires = Wires {
    read_piece: 65536,
    read_fails: None,
    write_piece: 65536,
    write_fails: None,
};

/// How a connection has to end, what has to be written, and how many entries the journal then has.
#[derive(Clone, Copy)]
pub struct Wanted<'a> {
    pub ended: Ended,
    pub text: &'a [u8],
    pub entries: u64,
}

/// A connection in memory.
#[derive(Drop)]
pub struct Line {
    pub source: MemSource,
    pub sink: MemSink,
    pub clock: MemClock,
}

/// The number of the call that fails, if one does.
fn failing(alloc: Global, call: Option<u64>) -> Result<Vec<u64>, AllocError> {
    match call {
        Some(call) => Ok(vec![in alloc; call]?),
        None => Ok(Vec::new(alloc)),
    }
}

fn source(alloc: Global, bytes: &[u8], wires: &Wires) -> Result<MemSource, AllocError>
    requires piece { 1 ≤ wires.now.read_piece }
{
    let fails = failing(alloc, wires.read_fails)?;
    let sent = Vec::from_slice(alloc, bytes)?;
    Ok(MemSource::new(sent, wires.read_piece, fails))
}

fn sink(alloc: Global, wires: &Wires) -> Result<MemSink, AllocError>
    requires piece { 1 ≤ wires.now.write_piece }
{
    let fails = failing(alloc, wires.write_fails)?;
    MemSink::new(alloc, 65536, wires.write_piece, fails)
}

/// A connection that sends these bytes, where the time is `now`.
pub fn connection(alloc: Global, bytes: &[u8], wires: &Wires, now: u64) -> Result<Line, AllocError>
    requires pieces { (1 ≤ wires.now.read_piece) × (1 ≤ wires.now.write_piece) }
{
    let moments = vec![in alloc; now]?;
    let source = source(alloc, bytes, wires)?;
    let sink = sink(alloc, wires)?;
    Ok(Line {
        source,
        sink,
        clock: MemClock::new(moments),
    })
}

/// Serves a connection.
pub fn serve<R: Wait>(
    rt: &R,
    alloc: Global,
    lobby: &Lobby,
    keys: &Keys,
    pass: &mut Pass,
    line: &mut Line,
) -> Ended
    requires ready { IsReady lobby.now pass.old }
    requires four { length lobby.now.fixed.players ≡ 4 }
    requires keys { AreKeysOfPlayers 4 keys.now }
    ensures ready { IsReady lobby.now pass.new }
{
    serve_connection(
        rt,
        alloc,
        lobby,
        keys,
        pass,
        &mut line.source,
        &mut line.sink,
        &mut line.clock,
    )
}

/// How many entries the journal has.
fn entries<R: Wait>(rt: &R, alloc: Global, lobby: &Lobby, pass: &mut Pass) -> Option<u64>
    requires ready { IsReady lobby.now pass.old }
{
    match lobby.query(rt, alloc, pass, 0, Query::Journal(0)) {
        Ok(Answer::Journal { total, .. }) => Some(total),
        _ => None,
    }
}

/// The connection comes to what is wanted.
fn comes_to<R: Wait + Abort>(
    rt: &R,
    alloc: Global,
    lobby: &Lobby,
    keys: &Keys,
    pass: &mut Pass,
    line: &mut Line,
    wanted: &Wanted,
)
    requires ready { IsReady lobby.now pass.old }
    requires four { length lobby.now.fixed.players ≡ 4 }
    requires keys { AreKeysOfPlayers 4 keys.now }
{
    let ended = serve(rt, alloc, lobby, keys, pass, line);
    assert_eq!(rt; ended, wanted.ended);
    assert_eq!(rt; line.sink.bytes(), wanted.text);
    assert_eq!(rt; entries(rt, alloc, lobby, pass), Some(wanted.entries));
}

/// A connection at 0, before which nothing happened, comes to what is wanted.
pub fn first_comes_to<R: Wait + Abort>(
    rt: &R,
    alloc: Global,
    bytes: &[u8],
    wanted: &Wanted,
) -> Result<(), AllocError> {
    let mut line = connection(alloc, bytes, &WHOLE, 0)?;
    let (setup, keys) = evening(alloc)?;
    let (lobby, mut pass) = opened_for_one(alloc, setup)?;
    comes_to(rt, alloc, &lobby, &keys, &mut pass, &mut line, wanted);
    Ok(())
}

/// The game of alice and bob begins, and then the connection comes to what is wanted.
fn begun_comes_to<R: Threads + Wait + Abort + Sync>(
    rt: &R,
    alloc: Global,
    lobby: &Lobby,
    keys: &Keys,
    pass: &mut Pass,
    line: &mut Line,
    wanted: &Wanted,
) -> Result<(), AllocError>
    requires good { IsGood lobby.now.fixed }
    requires four { length lobby.now.fixed.players ≡ 4 }
    requires ready { IsReady lobby.now pass.old }
    requires keys { AreKeysOfPlayers 4 keys.now }
{
    let began = begin_game(rt, alloc, lobby, pass)?;
    assert!(rt; began);
    comes_to(rt, alloc, lobby, keys, pass, line, wanted);
    Ok(())
}

/// A connection at 2000, before which the game of alice and bob has begun by three entries, comes to what is wanted.
pub fn in_game_comes_to<R: Threads + Wait + Abort + Sync>(
    rt: &R,
    alloc: Global,
    bytes: &[u8],
    wires: &Wires,
    wanted: &Wanted,
) -> Result<(), AllocError>
    requires pieces { (1 ≤ wires.now.read_piece) × (1 ≤ wires.now.write_piece) }
{
    let mut line = connection(alloc, bytes, wires, 2_000)?;
    let (setup, keys) = evening(alloc)?;
    let (lobby, mut pass) = opened_for_one(alloc, setup)?;
    begun_comes_to(rt, alloc, &lobby, &keys, &mut pass, &mut line, wanted)
}

/// A response with these words, at so many entries seen, with further lines of its head, and a body.
pub fn response(
    alloc: Global,
    words: &str,
    seen: u64,
    lines: &str,
    body: &str,
) -> Result<String, AllocError> {
    let len = body.len();
    format!(in alloc;
        "HTTP/1.1 {words}\r\nContent-Type: application/json\r\nContent-Length: {len}\r\nX-Arena-Seen: {seen}\r\n{lines}\r\n{body}"
    )
}

/// So many times the same bytes, and then others.
pub fn times(alloc: Global, count: u32, bytes: &[u8], last: &[u8]) -> Result<Vec<u8>, AllocError> {
    let mut all = Vec::new(alloc);
    for _ in 0..count {
        all.extend_from_slice(bytes)?;
    }
    all.extend_from_slice(last)?;
    Ok(all)
}
