//! Requests one after another on a connection, each with its response.

use super::wires::{WHOLE, Wanted, first_comes_to, in_game_comes_to, response};
use host::Ended;
use std::alloc::{AllocError, Global};
use std::process::Abort;
use std::sync::Wait;
use std::test::Fail;
use std::thread::Threads;

/// The method and path of a request, its key, if not empty, the words of its response, how many entries are seen, further lines of
/// the response's head, and its body.
type Case = (
    &'static str,
    &'static str,
    &'static str,
    u64,
    &'static str,
    &'static str,
);

const ALICE: &str = "alicekey00000001";

const BOB: &str = "bobskey000000002";

const CAROL: &str = "carolkey00000003";

const CHALLENGE: &str = "WWW-Authenticate: Bearer\r\n";

/// Before anything happened, at 0.
const FIRST: [Case; 4] = [
    (
        "POST /api/pause",
        ALICE,
        "409 Conflict",
        0,
        "",
        r#"{"error":"NotEntered"}"#,
    ),
    (
        "POST /api/enter",
        ALICE,
        "200 OK",
        1,
        "",
        r#"{"fire":false,"game":null,"name":"alice","performance":0,"points":0,"rank":0,"rating":2000,"seat":"idle"}"#,
    ),
    (
        "POST /api/enter",
        ALICE,
        "409 Conflict",
        1,
        "",
        r#"{"error":"AlreadyIn"}"#,
    ),
    (
        "GET /api/journal/0",
        "",
        "200 OK",
        1,
        "",
        r#"{"entries":["0 0 enter 0"],"from":0,"total":1}"#,
    ),
];

/// At 2000, in the game of alice and bob.
const IN_GAME: [Case; 25] = [
    (
        "GET /api/arena",
        "",
        "200 OK",
        3,
        "",
        r#"{"begun":1,"ends":3600000,"entered":2,"running":1,"starts":0,"state":"running","time":2000}"#,
    ),
    (
        "GET /api/standing/0",
        "",
        "200 OK",
        3,
        "",
        r#"{"page":0,"players":[{"fire":false,"games":0,"name":"alice","performance":0,"points":0,"rank":0,"rating":2000},{"fire":false,"games":0,"name":"bob","performance":0,"points":0,"rank":1,"rating":1900}],"total":2}"#,
    ),
    (
        "GET /api/standing/1",
        "",
        "200 OK",
        3,
        "",
        r#"{"page":1,"players":[],"total":2}"#,
    ),
    (
        "GET /api/standing/1000",
        "",
        "400 Bad Request",
        3,
        "",
        r#"{"error":"BadParam"}"#,
    ),
    ("GET /api/teams", "", "200 OK", 3, "", r#"{"teams":[]}"#),
    (
        "GET /api/me",
        ALICE,
        "200 OK",
        3,
        "",
        r#"{"fire":false,"game":0,"name":"alice","performance":0,"points":0,"rank":0,"rating":2000,"seat":"playing"}"#,
    ),
    (
        "GET /api/me",
        CAROL,
        "200 OK",
        3,
        "",
        r#"{"fire":false,"game":null,"name":"carol","performance":0,"points":0,"rank":null,"rating":1500,"seat":"absent"}"#,
    ),
    (
        "GET /api/me",
        "",
        "401 Unauthorized",
        3,
        CHALLENGE,
        r#"{"error":"NoKey"}"#,
    ),
    (
        "GET /api/me",
        "nobodyskey000000",
        "401 Unauthorized",
        3,
        CHALLENGE,
        r#"{"error":"UnknownKey"}"#,
    ),
    (
        "POST /api/arena",
        "",
        "405 Method Not Allowed",
        3,
        "Allow: GET\r\n",
        r#"{"error":"BadMethod"}"#,
    ),
    (
        "GET /api/enter",
        ALICE,
        "405 Method Not Allowed",
        3,
        "Allow: POST\r\n",
        r#"{"error":"BadMethod"}"#,
    ),
    (
        "GET /api",
        "",
        "404 Not Found",
        3,
        "",
        r#"{"error":"NoRoute"}"#,
    ),
    (
        "GET /api/game/7",
        "",
        "404 Not Found",
        3,
        "",
        r#"{"error":"NoGame"}"#,
    ),
    (
        "POST /api/game/0/move/e7e5",
        BOB,
        "409 Conflict",
        3,
        "",
        r#"{"error":"NotYourTurn"}"#,
    ),
    (
        "POST /api/game/0/move/e2e5",
        ALICE,
        "400 Bad Request",
        3,
        "",
        r#"{"error":"Illegal"}"#,
    ),
    (
        "POST /api/game/0/resign",
        CAROL,
        "403 Forbidden",
        3,
        "",
        r#"{"error":"NotYours"}"#,
    ),
    (
        "POST /api/game/0/move/e2e4",
        ALICE,
        "200 OK",
        4,
        "",
        r#"{"black":"bob","blackBerserk":false,"blackMs":180000,"fen":"rnbqkbnr/pppppppp/8/8/4P3/8/PPPP1PPP/RNBQKBNR b KQkq - 0 1","id":0,"last":"e2e4","offer":null,"outcome":null,"ply":1,"turn":"black","white":"alice","whiteBerserk":false,"whiteMs":180000}"#,
    ),
    (
        "GET /api/game/0",
        "",
        "200 OK",
        4,
        "",
        r#"{"black":"bob","blackBerserk":false,"blackMs":180000,"fen":"rnbqkbnr/pppppppp/8/8/4P3/8/PPPP1PPP/RNBQKBNR b KQkq - 0 1","id":0,"last":"e2e4","offer":null,"outcome":null,"ply":1,"turn":"black","white":"alice","whiteBerserk":false,"whiteMs":180000}"#,
    ),
    (
        "POST /api/game/0/draw/offer",
        BOB,
        "200 OK",
        5,
        "",
        r#"{"black":"bob","blackBerserk":false,"blackMs":180000,"fen":"rnbqkbnr/pppppppp/8/8/4P3/8/PPPP1PPP/RNBQKBNR b KQkq - 0 1","id":0,"last":"e2e4","offer":"black","outcome":null,"ply":1,"turn":"black","white":"alice","whiteBerserk":false,"whiteMs":180000}"#,
    ),
    (
        "POST /api/game/0/draw/decline",
        ALICE,
        "200 OK",
        6,
        "",
        r#"{"black":"bob","blackBerserk":false,"blackMs":180000,"fen":"rnbqkbnr/pppppppp/8/8/4P3/8/PPPP1PPP/RNBQKBNR b KQkq - 0 1","id":0,"last":"e2e4","offer":null,"outcome":null,"ply":1,"turn":"black","white":"alice","whiteBerserk":false,"whiteMs":180000}"#,
    ),
    (
        "POST /api/game/0/resign",
        BOB,
        "200 OK",
        7,
        "",
        r#"{"black":"bob","blackBerserk":false,"blackMs":180000,"fen":"rnbqkbnr/pppppppp/8/8/4P3/8/PPPP1PPP/RNBQKBNR b KQkq - 0 1","id":0,"last":"e2e4","offer":null,"outcome":{"cause":"resign","winner":"white"},"ply":1,"turn":"black","white":"alice","whiteBerserk":false,"whiteMs":180000}"#,
    ),
    (
        "POST /api/game/0/resign",
        ALICE,
        "409 Conflict",
        7,
        "",
        r#"{"error":"Over"}"#,
    ),
    (
        "GET /api/me",
        ALICE,
        "200 OK",
        7,
        "",
        r#"{"fire":false,"game":null,"name":"alice","performance":2400,"points":2,"rank":0,"rating":2000,"seat":"idle"}"#,
    ),
    (
        "GET /api/standing/0",
        "",
        "200 OK",
        7,
        "",
        r#"{"page":0,"players":[{"fire":false,"games":1,"name":"alice","performance":2400,"points":2,"rank":0,"rating":2000},{"fire":false,"games":1,"name":"bob","performance":1500,"points":0,"rank":1,"rating":1900}],"total":2}"#,
    ),
    (
        "GET /api/journal/3",
        "",
        "200 OK",
        7,
        "",
        r#"{"entries":["2000 0 act 0 0 move e2e4","2000 0 act 1 0 offer","2000 0 act 0 0 decline","2000 0 act 1 0 resign"],"from":3,"total":7}"#,
    ),
];

/// Puts the bytes of a request behind others.
fn put_request(text: &mut String, request: &str, key: &str) -> Result<(), AllocError> {
    text.push_str(request)?;
    text.push_str(" HTTP/1.1\r\n")?;
    if !key.is_empty() {
        text.push_str("Authorization: Bearer ")?;
        text.push_str(key)?;
        text.push_str("\r\n")?;
    }
    text.push_str("\r\n")
}

/// The bytes of all requests.
fn requests(alloc: Global, cases: &[Case]) -> Result<String, AllocError> {
    let mut text = String::new(alloc);
    for (request, key, ..) in cases {
        put_request(&mut text, request, key)?;
    }
    Ok(text)
}

/// Puts the bytes of a case's response behind others.
fn put_response(alloc: Global, text: &mut String, case: &Case) -> Result<(), AllocError> {
    let (_, _, words, seen, lines, body) = *case;
    let one = response(alloc, words, seen, lines, body)?;
    text.push_str(one.as_str())
}

/// The bytes of all responses.
fn responses(alloc: Global, cases: &[Case]) -> Result<String, AllocError> {
    let mut text = String::new(alloc);
    for case in cases {
        put_response(alloc, &mut text, case)?;
    }
    Ok(text)
}

/// Before anything happened, the requests are answered like this.
fn at_first<R: Wait + Abort>(rt: &R, alloc: Global) -> Result<(), AllocError> {
    let text = responses(alloc, &FIRST)?;
    let wanted = Wanted {
        ended: Ended::Served,
        text: text.as_bytes(),
        entries: 1,
    };
    let bytes = requests(alloc, &FIRST)?;
    first_comes_to(rt, alloc, bytes.as_bytes(), &wanted)
}

/// In the game, the requests are answered like this.
fn in_game<R: Threads + Wait + Abort + Sync>(rt: &R, alloc: Global) -> Result<(), AllocError> {
    let text = responses(alloc, &IN_GAME)?;
    let wanted = Wanted {
        ended: Ended::Served,
        text: text.as_bytes(),
        entries: 7,
    };
    let bytes = requests(alloc, &IN_GAME)?;
    in_game_comes_to(rt, alloc, bytes.as_bytes(), &WHOLE, &wanted)
}

fn both<R: Threads + Wait + Abort + Sync>(rt: &R, alloc: Global) -> Result<(), AllocError> {
    at_first(rt, alloc)?;
    in_game(rt, alloc)
}

#[test]
fn requests_are_answered_one_after_another(rt: HostRuntime) -> Result<(), Fail> {
    Ok(both(&rt, rt.alloc())?)
}
