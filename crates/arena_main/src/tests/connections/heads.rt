//! Requests behind which nothing is read, and the most of fields and of requests.

use super::wires::{WHOLE, Wanted, in_game_comes_to, response, times};
use host::Ended;
use std::alloc::{AllocError, Global};
use std::process::Abort;
use std::sync::Wait;
use std::test::Fail;
use std::thread::Threads;

/// These bytes, the words of the one response, the name of its error, and how the connection ends.
type Case = (&'static [u8], &'static str, &'static str, Ended);

const CASES: [Case; 6] = [
    (
        b"GET /api HTTP/1.1\r\nConnection: keep-alive, Close\r\n\r\nGET /api/arena HTTP/1.1\r\n\r\n",
        "404 Not Found",
        "NoRoute",
        Ended::Served,
    ),
    (
        b"GET /api/arena HTTP/1.1\r\nTransfer-Encoding: chunked\r\n\r\n",
        "501 Not Implemented",
        "NotSupported",
        Ended::NotSupported,
    ),
    (
        b"GET /api/arena HTTP/1.1\r\nContent-Length: x\r\n\r\n",
        "400 Bad Request",
        "BadLength",
        Ended::NotSupported,
    ),
    (
        b"GET /api/arena HTTP/1.1\r\nContent-Length: 4097\r\n\r\n",
        "413 Payload Too Large",
        "BodyTooLong",
        Ended::TooLong,
    ),
    (b"GET\r\n\r\n", "400 Bad Request", "BadHead", Ended::BadHead),
    (
        b"GET /api/arena HTTP/2.0\r\n\r\n",
        "400 Bad Request",
        "BadHead",
        Ended::BadHead,
    ),
];

/// The response with an error, behind which the connection is closed.
fn refusal(alloc: Global, words: &str, name: &str) -> Result<String, AllocError> {
    let body = format!(in alloc; "{{\"error\":\"{name}\"}}")?;
    response(alloc, words, 3, "Connection: close\r\n", body.as_str())
}

/// The error is answered, nothing is read behind it, and no entry is made.
fn is_refused<R: Threads + Wait + Abort + Sync>(
    rt: &R,
    alloc: Global,
    bytes: &[u8],
    words: &str,
    name: &str,
    ended: Ended,
) -> Result<(), AllocError> {
    let text = refusal(alloc, words, name)?;
    let wanted = Wanted {
        ended,
        text: text.as_bytes(),
        entries: 3,
    };
    in_game_comes_to(rt, alloc, bytes, &WHOLE, &wanted)
}

const ARENA: &str =
    r#"{"begun":1,"ends":3600000,"entered":2,"running":1,"starts":0,"state":"running","time":2000}"#;

/// A request with so many fields.
fn with_fields(alloc: Global, fields: u32) -> Result<Vec<u8>, AllocError> {
    let mut bytes = Vec::from_slice(alloc, b"GET /api/arena HTTP/1.1\r\n")?;
    for _ in 0..fields {
        bytes.extend_from_slice(b"a: b\r\n")?;
    }
    bytes.extend_from_slice(b"\r\n")?;
    Ok(bytes)
}

/// 64 fields are answered.
fn most_fields<R: Threads + Wait + Abort + Sync>(rt: &R, alloc: Global) -> Result<(), AllocError> {
    let text = response(alloc, "200 OK", 3, "", ARENA)?;
    let wanted = Wanted {
        ended: Ended::Served,
        text: text.as_bytes(),
        entries: 3,
    };
    let bytes = with_fields(alloc, 64)?;
    in_game_comes_to(rt, alloc, bytes.as_slice(), &WHOLE, &wanted)
}

/// 65 fields are no head.
fn more_fields<R: Threads + Wait + Abort + Sync>(rt: &R, alloc: Global) -> Result<(), AllocError> {
    let bytes = with_fields(alloc, 65)?;
    is_refused(
        rt,
        alloc,
        bytes.as_slice(),
        "400 Bad Request",
        "BadHead",
        Ended::BadHead,
    )
}

/// A head of 8192 bytes without an end is too long.
fn long_head<R: Threads + Wait + Abort + Sync>(rt: &R, alloc: Global) -> Result<(), AllocError> {
    let bytes = Vec::from_elem(alloc, b'a', 8192)?;
    is_refused(
        rt,
        alloc,
        bytes.as_slice(),
        "431 Request Header Fields Too Large",
        "HeadTooLong",
        Ended::TooLong,
    )
}

/// A hundred responses, the last of them with its Connection field.
fn hundred_responses(alloc: Global) -> Result<Vec<u8>, AllocError> {
    let plain = response(alloc, "200 OK", 3, "", ARENA)?;
    let last = response(alloc, "200 OK", 3, "Connection: close\r\n", ARENA)?;
    times(alloc, 99, plain.as_bytes(), last.as_bytes())
}

/// Of more requests than a hundred, a hundred are answered.
fn hundred<R: Threads + Wait + Abort + Sync>(rt: &R, alloc: Global) -> Result<(), AllocError> {
    let text = hundred_responses(alloc)?;
    let wanted = Wanted {
        ended: Ended::Limit,
        text: text.as_slice(),
        entries: 3,
    };
    let request = b"GET /api/arena HTTP/1.1\r\n\r\n";
    let bytes = times(alloc, 100, request, request)?;
    in_game_comes_to(rt, alloc, bytes.as_slice(), &WHOLE, &wanted)
}

/// Each of the cases is refused.
fn cases<R: Threads + Wait + Abort + Sync>(rt: &R, alloc: Global) -> Result<(), AllocError> {
    for (bytes, words, name, ended) in CASES {
        is_refused(rt, alloc, bytes, words, name, ended)?;
    }
    Ok(())
}

fn all<R: Threads + Wait + Abort + Sync>(rt: &R, alloc: Global) -> Result<(), AllocError> {
    cases(rt, alloc)?;
    long_head(rt, alloc)?;
    most_fields(rt, alloc)?;
    more_fields(rt, alloc)?;
    hundred(rt, alloc)
}

#[test]
fn heads_are_refused_and_a_hundred_requests_are_answered(rt: HostRuntime) -> Result<(), Fail> {
    Ok(all(&rt, rt.alloc())?)
}
