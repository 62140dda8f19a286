//! Connections side by side.

ghost use Rattle.std.specs.Prelude.{◌≡◌, ◌<◌, All, IfOk, IfSome, length};
ghost use Rattle.entries.specs.Ranges.{IsGood};
ghost use Rattle.arena_lock.specs.Turns.{IsReady};
ghost use Rattle.host.specs.Asked.{AreKeysOfPlayers};

use super::super::lobbies::{enter, opened};
use super::wires::{Line, WHOLE, connection, response, serve, times};
use super::{begin_game, evening};
use arena_core::Arena;
use arena_lock::{Lobby, Pass};
use entries::{Action, Entry, Setup, What};
use host::Ended;
use setup_file::Keys;
use std::alloc::{AllocError, Global};
use std::process::Abort;
use std::sync::Wait;
use std::test::Fail;
use std::thread;
use std::thread::Threads;

/// What a thread gives back of its connection.
#[derive(Drop)]
struct Worked {
    pass: Pass,
    line: Line,
    ended: Ended,
}

/// The keys of the four players.
fn keys(alloc: Global) -> Result<Keys, AllocError>
    ensures keys { IfOk result (AreKeysOfPlayers 4) }
{
    let (_setup, keys) = evening(alloc)?;
    Ok(keys)
}

/// Serves a connection on a pass of a lobby over the four players, whose keys it reads for itself.
fn served_by_own_keys<R: Wait>(
    rt: &R,
    alloc: Global,
    lobby: &Lobby,
    pass: &mut Pass,
    line: &mut Line,
) -> Ended
    requires ready { IsReady lobby.now pass.old }
    requires four { length lobby.now.fixed.players ≡ 4 }
    ensures ready { IsReady lobby.now pass.new }
{
    match keys(alloc) {
        Ok(keys) => serve(rt, alloc, lobby, &keys, pass, line),
        Err(_) => Ended::OutOfMemory,
    }
}

/// What a thread does.
fn served<R: Wait>(rt: &R, alloc: Global, lobby: &Lobby, mut pass: Pass, mut line: Line) -> Worked
    requires ready { IsReady lobby.now pass }
    requires four { length lobby.now.fixed.players ≡ 4 }
    ensures ready { IsReady lobby.now result.pass }
{
    let ended = served_by_own_keys(rt, alloc, lobby, &mut pass, &mut line);
    Worked { pass, line, ended }
}

/// Serves two connections side by side.
fn both_served<R: Threads + Wait + Sync>(
    rt: &R,
    alloc: Global,
    lobby: &Lobby,
    passes: (Pass, Pass),
    lines: (Line, Line),
) -> (Worked, Worked)
    requires four { length lobby.now.fixed.players ≡ 4 }
    requires first { IsReady lobby.now passes.0 }
    requires second { IsReady lobby.now passes.1 }
    ensures first { IsReady lobby.now result.0.pass }
    ensures second { IsReady lobby.now result.1.pass }
{
    let (pass, other_pass) = passes;
    let (line, other_line) = lines;
    thread::join(
        rt,
        || served(rt, alloc, lobby, pass, line),
        || served(rt, alloc, lobby, other_pass, other_line),
    )
}

const CAROL_PAUSED: &str =
    r#"{"fire":false,"game":null,"name":"carol","performance":0,"points":0,"rank":2,"rating":1500,"seat":"paused"}"#;

const CAROL_IDLE: &str =
    r#"{"fire":false,"game":null,"name":"carol","performance":0,"points":0,"rank":2,"rating":1500,"seat":"idle"}"#;

const DAVE_PAUSED: &str =
    r#"{"fire":false,"game":null,"name":"dave","performance":0,"points":0,"rank":3,"rating":1400,"seat":"paused"}"#;

const DAVE_IDLE: &str =
    r#"{"fire":false,"game":null,"name":"dave","performance":0,"points":0,"rank":3,"rating":1400,"seat":"idle"}"#;

const RESIGNED: &str =
    r#"{"black":"bob","blackBerserk":false,"blackMs":180000,"fen":"rnbqkbnr/pppppppp/8/8/8/8/PPPPPPPP/RNBQKBNR w KQkq - 0 1","id":0,"last":null,"offer":null,"outcome":{"cause":"resign","winner":"black"},"ply":0,"turn":"white","white":"alice","whiteBerserk":false,"whiteMs":180000}"#;

const STANDING: &str =
    r#"{"page":0,"players":[{"fire":false,"games":1,"name":"bob","performance":2500,"points":2,"rank":0,"rating":1900},{"fire":false,"games":1,"name":"alice","performance":1400,"points":0,"rank":1,"rating":2000},{"fire":false,"games":0,"name":"carol","performance":0,"points":0,"rank":2,"rating":1500},{"fire":false,"games":0,"name":"dave","performance":0,"points":0,"rank":3,"rating":1400}],"total":4}"#;

/// The body of the response to the command that an entry came from.
fn body(what: What) -> &'static str {
    match what {
        What::Pause(2) => CAROL_PAUSED,
        What::Enter(2) => CAROL_IDLE,
        What::Pause(3) => DAVE_PAUSED,
        What::Enter(3) => DAVE_IDLE,
        What::Act(0, 0, Action::Resign) => RESIGNED,
        _ => "",
    }
}

/// Puts the response to the command that an entry came from behind others, if it is the pass's. So many entries were seen.
fn put_response(
    alloc: Global,
    text: &mut String,
    seen: u64,
    entry: Entry,
    pass: u32,
) -> Result<(), AllocError> {
    if entry.pass != pass {
        return Ok(());
    }
    let one = response(alloc, "200 OK", seen, "", body(entry.what))?;
    text.push_str(one.as_str())
}

/// What the responses to a pass's accepted commands are by the journal: each was seen with the entry that it made as the last.
fn responses(alloc: Global, journal: &Arena, pass: u32) -> Result<String, AllocError> {
    let mut text = String::new(alloc);
    for i in 5..journal.len() {
        if let Some(entry) = journal.entry(i) {
            put_response(alloc, &mut text, i + 1, entry, pass)?;
        }
    }
    Ok(text)
}

/// How many entries the journal has up to the first act.
fn up_to_an_act(journal: &Arena) -> Option<u64> {
    for i in 0..journal.len() {
        if let Some(entry) = journal.entry(i) {
            if let What::Act(..) = entry.what {
                return Some(i + 1);
            }
        }
    }
    None
}

/// The bytes are the response with the standing behind the game, seen at this length of the journal.
fn is_standing(alloc: Global, seen: u64, bytes: &[u8]) -> Result<bool, AllocError> {
    let one = response(alloc, "200 OK", seen, "", STANDING)?;
    Ok(one.as_bytes() == bytes)
}

/// The bytes are the response with the standing behind the game, at some length of the journal that has the game's end.
fn show_standing(alloc: Global, journal: &Arena, bytes: &[u8]) -> Result<bool, AllocError> {
    let Some(least) = up_to_an_act(journal) else {
        return Ok(false);
    };
    for seen in least..=journal.len() {
        if is_standing(alloc, seen, bytes)? {
            return Ok(true);
        }
    }
    Ok(false)
}

/// Pass 0 was answered for its commands, and nothing else.
fn first_is_right<R: Abort>(
    rt: &R,
    alloc: Global,
    journal: &Arena,
    bytes: &[u8],
) -> Result<(), AllocError> {
    let text = responses(alloc, journal, 0)?;
    assert_eq!(rt; bytes, text.as_bytes());
    Ok(())
}

/// How many of the bytes are the responses to the pass's commands, if they begin with these.
fn answered(
    alloc: Global,
    journal: &Arena,
    pass: u32,
    bytes: &[u8],
) -> Result<Option<usize>, AllocError> {
    let text = responses(alloc, journal, pass)?;
    if bytes.starts_with(text.as_bytes()) {
        Ok(Some(text.len()))
    } else {
        Ok(None)
    }
}

/// Pass 1 was answered for its commands, and then with the standing.
fn second_is_right<R: Abort>(
    rt: &R,
    alloc: Global,
    journal: &Arena,
    bytes: &[u8],
) -> Result<(), AllocError> {
    let Some(count) = answered(alloc, journal, 1, bytes)? else {
        return Err(AllocError);
    };
    let Some(rest) = bytes.get(count..) else {
        return Err(AllocError);
    };
    let shown = show_standing(alloc, journal, rest)?;
    assert!(rt; shown);
    Ok(())
}

/// The two passes of a lobby.
fn both(lobby: &Lobby, mut passes: Vec<Pass>) -> Option<(Pass, Pass)>
    requires ready { All (IsReady lobby.now) passes.items }
    ensures ready { IfSome result (λ r. IsReady lobby.now r.0 × IsReady lobby.now r.1) }
{
    let second = passes.pop()?;
    let first = passes.pop()?;
    Some((first, second))
}

/// The game of alice and bob begins, and carol and dave enter.
fn begin<R: Threads + Wait + Sync>(rt: &R, alloc: Global, lobby: &Lobby, pass: &mut Pass) -> bool
    requires good { IsGood lobby.now.fixed }
    requires four { length lobby.now.fixed.players ≡ 4 }
    requires ready { IsReady lobby.now pass.old }
    ensures ready { IsReady lobby.now pass.new }
{
    let began = begin_game(rt, alloc, lobby, pass);
    let carol = enter(rt, lobby, pass, 1_000, 2);
    let dave = enter(rt, lobby, pass, 1_000, 3);
    began == Ok(true) && carol && dave
}

/// The two passes of a lobby in which all is begun.
fn begun<R: Threads + Wait + Sync>(
    rt: &R,
    alloc: Global,
    lobby: &Lobby,
    passes: Vec<Pass>,
) -> Option<(Pass, Pass)>
    requires good { IsGood lobby.now.fixed }
    requires four { length lobby.now.fixed.players ≡ 4 }
    requires ready { All (IsReady lobby.now) passes.items }
    ensures ready { IfSome result (λ r. IsReady lobby.now r.0 × IsReady lobby.now r.1) }
{
    let (mut first, second) = both(lobby, passes)?;
    if begin(rt, alloc, lobby, &mut first) {
        Some((first, second))
    } else {
        None
    }
}

const CAROL: &[u8] =
    b"POST /api/pause HTTP/1.1\r\nAuthorization: Bearer carolkey00000003\r\n\r\nPOST /api/enter HTTP/1.1\r\nAuthorization: Bearer carolkey00000003\r\n\r\n";

const DAVE: &[u8] =
    b"POST /api/pause HTTP/1.1\r\nAuthorization: Bearer daveskey00000004\r\n\r\nPOST /api/enter HTTP/1.1\r\nAuthorization: Bearer daveskey00000004\r\n\r\n";

const ALICE: &[u8] =
    b"POST /api/game/0/resign HTTP/1.1\r\nAuthorization: Bearer alicekey00000001\r\n\r\nGET /api/standing/0 HTTP/1.1\r\n\r\n";

/// Carol comes and goes on a connection, and dave on another, on which alice then gives her game up and looks at the standing.
fn connections(alloc: Global) -> Result<(Line, Line), AllocError> {
    let carol = times(alloc, 49, CAROL, b"")?;
    let dave = times(alloc, 48, DAVE, ALICE)?;
    let first = connection(alloc, carol.as_slice(), &WHOLE, 2_000)?;
    let second = connection(alloc, dave.as_slice(), &WHOLE, 2_000)?;
    Ok((first, second))
}

/// What two connections side by side have left.
#[derive(Drop)]
struct Transcript {
    journal: Arena,
    first: Line,
    second: Line,
    ended: (Ended, Ended),
}

/// The game begins, carol and dave enter, and both connections are served.
fn talked<R: Threads + Wait + Sync>(
    rt: &R,
    alloc: Global,
    lobby: &Lobby,
    passes: Vec<Pass>,
) -> Result<(Worked, Worked), AllocError>
    requires good { IsGood lobby.now.fixed }
    requires four { length lobby.now.fixed.players ≡ 4 }
    requires ready { All (IsReady lobby.now) passes.items }
    ensures first { IfOk result (λ r. IsReady lobby.now r.0.pass) }
    ensures second { IfOk result (λ r. IsReady lobby.now r.1.pass) }
{
    let Some(passes) = begun(rt, alloc, lobby, passes) else {
        return Err(AllocError);
    };
    let lines = connections(alloc)?;
    Ok(both_served(rt, alloc, lobby, passes, lines))
}

/// The lobby is closed, once both connections are served.
fn closed(
    alloc: Global,
    lobby: Lobby,
    first: Worked,
    second: Worked,
) -> Result<Transcript, AllocError>
    requires number { lobby.passes ≡ 2 }
    requires first { IsReady lobby first.pass }
    requires second { IsReady lobby second.pass }
{
    let ended = (first.ended, second.ended);
    let passes = vec![in alloc; first.pass, second.pass]?;
    Ok(Transcript {
        journal: lobby.close(passes),
        first: first.line,
        second: second.line,
        ended,
    })
}

/// The setup of the four players.
fn setup(alloc: Global) -> Result<Setup, AllocError>
    ensures good { IfOk result IsGood }
    ensures four { IfOk result (λ setup. length setup.players ≡ 4) }
{
    let (setup, _keys) = evening(alloc)?;
    Ok(setup)
}

/// Two connections side by side, from the first entry to the journal that is left.
fn two_connections<R: Threads + Wait + Sync>(
    rt: &R,
    alloc: Global,
) -> Result<Transcript, AllocError> {
    let (lobby, passes) = opened(alloc, setup(alloc)?, 2)?;
    let (first, second) = talked(rt, alloc, &lobby, passes)?;
    closed(alloc, lobby, first, second)
}

/// Both connections were served, and each response is that of its place in the journal.
fn is_right<R: Abort>(rt: &R, alloc: Global, left: &Transcript) -> Result<(), AllocError> {
    assert_eq!(rt; left.ended, (Ended::Served, Ended::Served));
    assert_eq!(rt; left.journal.len(), 5 + 98 + 97);
    first_is_right(rt, alloc, &left.journal, left.first.sink.bytes())?;
    second_is_right(rt, alloc, &left.journal, left.second.sink.bytes())
}

/// Each response of two connections side by side is that of its place in the one journal.
fn one_journal<R: Threads + Wait + Abort + Sync>(rt: &R, alloc: Global) -> Result<(), AllocError> {
    let left = two_connections(rt, alloc)?;
    is_right(rt, alloc, &left)
}

#[test]
fn two_connections_are_answered_by_one_journal(rt: HostRuntime) -> Result<(), Fail> {
    Ok(one_journal(&rt, rt.alloc())?)
}
