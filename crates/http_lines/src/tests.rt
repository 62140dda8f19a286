ghost use Rattle.std.specs.Prelude.{◌≤◌};
ghost use Rattle.http.specs.StatusCode.{IsStatusCode};

use crate::{Extra, Next, NextFault, Requests, Response, SendFault, write_response};
use conn::{MemSink, MemSource, Text};
use std::alloc::Global;
use std::process::Abort;
use std::test::Fail;

// What the first request of some bytes is to be.
#[derive(Clone, Copy)]
enum Want {
    // The path, the bearer or nothing, and whether it closes.
    Path(&'static str, &'static str, bool),
    End,
    Fault(NextFault),
}

// A head of so many fields.
fn with_fields(alloc: Global, count: usize) -> Result<Vec<u8>, Fail> {
    let mut bytes = Vec::from_slice(alloc, b"GET / HTTP/1.1\r\n")?;
    for _ in 0..count {
        bytes.extend_from_slice(b"a: b\r\n")?;
    }
    bytes.extend_from_slice(b"\r\n")?;
    Ok(bytes)
}

// Reads the first request, and compares.
fn expect_first<R: Abort>(
    rt: &R,
    alloc: Global,
    bytes: &[u8],
    piece: usize,
    want: &Want,
) -> Result<(), Fail>
    requires { 1 ≤ piece }
{
    let mut requests = Requests::new(alloc)?;
    let mut source = MemSource::new(Vec::from_slice(alloc, bytes)?, piece, Vec::new(alloc));
    match (requests.next(alloc, &mut source), want) {
        (Ok(Next::Request(head)), Want::Path(path, bearer, closes)) => {
            assert_eq!(rt; head.path.bytes(), path.as_bytes());
            match &head.bearer {
                Some(text) => assert_eq!(rt; text.bytes(), bearer.as_bytes()),
                None => assert_eq!(rt; bearer.len(), 0),
            }
            assert_eq!(rt; head.closes, *closes);
        }
        (Ok(Next::End), Want::End) => {}
        (Err(fault), Want::Fault(wanted)) => assert_eq!(rt; fault, *wanted),
        _ => return Err("another answer")?,
    }
    Ok(())
}

const MOVE: &[u8] =
    b"POST /api/game/0/move/e2e4 HTTP/1.1\r\nHost: arena.example\r\nUser-Agent: curl/8.5.0\r\nAccept: */*\r\nAuthorization: Bearer alicekey00000001\r\nContent-Length: 0\r\n\r\n";

#[test]
fn each_request_comes_whole_and_byte_by_byte(rt: HostRuntime) -> Result<(), Fail> {
    let alloc = rt.alloc();
    let cases = [
        (
            MOVE,
            Want::Path("/api/game/0/move/e2e4", "alicekey00000001", false),
        ),
        (&MOVE[..MOVE.len() - 2], Want::Fault(NextFault::CutOff)),
        (b"\r\n\n", Want::End),
        (b"\r", Want::Fault(NextFault::CutOff)),
        (b"\nGET /a?b HTTP/1.0\n\n", Want::Path("/a", "", true)),
        (
            b"GET / HTTP/1.1\r\nConnection: a , CLOSE\r\n\r\n",
            Want::Path("/", "", true),
        ),
        (
            b"PUT / HTTP/1.1\r\nContent-Length: 3\r\n\r\nabc",
            Want::Path("/", "", false),
        ),
        (
            b"PUT / HTTP/1.1\r\nContent-Length: 3\r\n\r\nab",
            Want::Fault(NextFault::CutOff),
        ),
        (
            b"GET / HTTP/1.1\r\nTransfer-Encoding: chunked\r\n\r\n",
            Want::Fault(NextFault::NotSupported),
        ),
        (
            b"GET / HTTP/1.1\r\nContent-Length: x\r\n\r\n",
            Want::Fault(NextFault::BadLength),
        ),
        (
            b"GET / HTTP/1.1\r\nContent-Length: 4097\r\n\r\n",
            Want::Fault(NextFault::BodyTooLong),
        ),
        (b"GET\r\n\r\n", Want::Fault(NextFault::BadHead)),
    ];
    for (bytes, want) in cases {
        expect_first(&rt, alloc, bytes, 1, &want)?;
        expect_first(&rt, alloc, bytes, 100_000, &want)?;
    }
    Ok(())
}

#[test]
fn a_head_has_64_fields_and_8192_bytes_at_most(rt: HostRuntime) -> Result<(), Fail> {
    let alloc = rt.alloc();
    let cases = [
        (with_fields(alloc, 64)?, Want::Path("/", "", false)),
        (with_fields(alloc, 65)?, Want::Fault(NextFault::BadHead)),
        (
            Vec::from_elem(alloc, b'a', 8191)?,
            Want::Fault(NextFault::CutOff),
        ),
        (
            Vec::from_elem(alloc, b'a', 8192)?,
            Want::Fault(NextFault::HeadTooLong),
        ),
        (
            Vec::from_elem(alloc, b'\n', 8192)?,
            Want::Fault(NextFault::HeadTooLong),
        ),
    ];
    for (bytes, want) in &cases {
        expect_first(&rt, alloc, bytes, 1, want)?;
        expect_first(&rt, alloc, bytes, 100_000, want)?;
    }
    Ok(())
}

#[test]
fn what_follows_a_body_is_the_next_request(rt: HostRuntime) -> Result<(), Fail> {
    let alloc = rt.alloc();
    let mut requests = Requests::new(alloc)?;
    let bytes = b"PUT /1 HTTP/1.1\nContent-Length: 2\n\nxxGET /2 HTTP/1.1\n\n\r\n";
    let mut source = MemSource::new(Vec::from_slice(alloc, bytes)?, 100, Vec::new(alloc));
    for path in [b"/1", b"/2"] {
        let Ok(Next::Request(head)) = requests.next(alloc, &mut source) else {
            return Err("no request")?;
        };
        assert_eq!(rt; head.path.bytes(), path.as_slice());
    }
    assert!(rt; matches!(requests.next(alloc, &mut source), Ok(Next::End)));
    Ok(())
}

#[test]
fn a_read_that_fails_is_told_and_nothing_is_lost(rt: HostRuntime) -> Result<(), Fail> {
    let alloc = rt.alloc();
    for call in [0, 1, 2] {
        let mut requests = Requests::new(alloc)?;
        let fail = Vec::from_slice(alloc, [call].as_slice())?;
        let mut source = MemSource::new(Vec::from_slice(alloc, MOVE)?, 60, fail);
        assert!(rt; matches!(requests.next(alloc, &mut source), Err(NextFault::ReadFault)));
        assert!(rt; matches!(requests.next(alloc, &mut source), Ok(Next::Request(_))));
    }
    Ok(())
}

// Writes a response into so much room, and gives what came of it and what the sink holds.
fn written(
    alloc: Global,
    response: &Response,
    room: usize,
    piece: usize,
) -> Result<(Result<(), SendFault>, MemSink), Fail>
    requires status { IsStatusCode response.now.status }
    requires piece { 1 ≤ piece }
{
    let mut sink = MemSink::new(alloc, room, piece, Vec::new(alloc))?;
    let end = write_response(alloc, &mut sink, response);
    Ok((end, sink))
}

#[test]
fn each_status_is_written_with_its_words(rt: HostRuntime) -> Result<(), Fail> {
    let alloc = rt.alloc();
    let cases = [
        (200, "OK"),
        (400, "Bad Request"),
        (401, "Unauthorized"),
        (403, "Forbidden"),
        (404, "Not Found"),
        (405, "Method Not Allowed"),
        (409, "Conflict"),
        (413, "Payload Too Large"),
        (431, "Request Header Fields Too Large"),
        (501, "Not Implemented"),
        (503, "Service Unavailable"),
    ];
    for (status, words) in cases {
        let body = Text::of(Vec::from_slice(alloc, b"{}")?);
        let response = Response {
            status,
            extra: Extra::Plain,
            seen: 7,
            close: false,
            body,
        };
        let want = format!(in alloc;
            "HTTP/1.1 {status} {words}\r\nContent-Type: application/json\r\nContent-Length: 2\r\nX-Arena-Seen: 7\r\n\r\n{{}}"
        )?;
        for piece in [1usize, 1000] {
            let (end, sink) = written(alloc, &response, 1000, piece)?;
            assert_eq!(rt; end, Ok(()));
            assert_eq!(rt; sink.bytes(), want.as_bytes());
        }
    }
    Ok(())
}

#[test]
fn each_extra_line_stands_before_that_of_the_close(rt: HostRuntime) -> Result<(), Fail> {
    let alloc = rt.alloc();
    let cases = [
        (Extra::Plain, ""),
        (Extra::AllowGet, "Allow: GET\r\n"),
        (Extra::AllowPost, "Allow: POST\r\n"),
        (Extra::Challenge, "WWW-Authenticate: Bearer\r\n"),
    ];
    for (extra, line) in cases {
        let response = Response {
            status: 404,
            extra,
            seen: 0,
            close: true,
            body: Text::of(Vec::new(alloc)),
        };
        let want = format!(in alloc;
            "HTTP/1.1 404 Not Found\r\nContent-Type: application/json\r\nContent-Length: 0\r\nX-Arena-Seen: 0\r\n{line}Connection: close\r\n\r\n"
        )?;
        let (end, sink) = written(alloc, &response, 1000, 1000)?;
        assert_eq!(rt; end, Ok(()));
        assert_eq!(rt; sink.bytes(), want.as_bytes());
        let (end, sink) = written(alloc, &response, 10, 4)?;
        assert_eq!(rt; end, Err(SendFault::WriteFault));
        assert_eq!(rt; sink.bytes(), b"HTTP/1.1 4".as_slice());
    }
    Ok(())
}
