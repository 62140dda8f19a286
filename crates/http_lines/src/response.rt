//! Responses, written to the byte.

ghost use Rattle.std.specs.Prelude.{◌≡◌, ◌≤◌, IfOk, OnOk, Err, string_bytes};
ghost use Rattle.http.specs.StatusCode.{IsStatusCode};
ghost use Rattle.conn.specs.Faults.{Rose};
ghost use Rattle.conn.specs.Told.{Gained, GainedPart};
ghost use Rattle.http_lines.specs.declared.response.SendFault.TheVariants.{OutOfMemory};
ghost use Rattle.http_lines.specs.Response.{words, extra_line, close_line, head_text, response_bytes};

use conn::{Sink, Text, write_all};
use http::StatusCode;
use std::alloc::{AllocError, Global};

/// The field of a response beside those that each has.
#[derive(Clone, Copy, Debug, PartialEq, Eq)]
pub enum Extra {
    /// None.
    Plain,
    /// `Allow: GET` (RFC 9110, section 10.2.1).
    AllowGet,
    /// `Allow: POST`.
    AllowPost,
    /// `WWW-Authenticate: Bearer` (RFC 9110, section 11.6.1; RFC 6750, section 3).
    Challenge,
}

/// A response with a body of JSON.
#[derive(Debug, Drop)]
pub struct Response {
    /// The status, a number of three digits (RFC 9110, section 15).
    pub status: u16,
    pub extra: Extra,
    /// How many entries of the arena's journal the answer has seen.
    pub seen: u64,
    /// Whether nothing is read from the connection any more.
    pub close: bool,
    pub body: Text,
}

/// Why a response was not written whole.
#[derive(Clone, Copy, Debug, PartialEq, Eq)]
pub enum SendFault {
    /// A write failed. A beginning of the response was written.
    WriteFault,
    /// There was not memory enough. Nothing was written.
    OutOfMemory,
}

impl From<AllocError> for SendFault {
    ghost from_gives = { λ _ e. e ≡ OutOfMemory };

    fn from(_e: AllocError) -> SendFault {
        SendFault::OutOfMemory
    }
}

// The words of a status.
fn words(status: u16) -> &'static str
    requires { IsStatusCode status }
    ensures { result.now ≡ words status }
{
    match StatusCode::from_u16(status) {
        Ok(code) => code.canonical_reason().unwrap_or(""),
        Err(_) => "",
    }
}

// The extra field's line, or no line.
fn extra_line(extra: Extra) -> &'static str
    ensures { result.now ≡ extra_line extra }
{
    match extra {
        Extra::Plain => "",
        Extra::AllowGet => "Allow: GET\r\n",
        Extra::AllowPost => "Allow: POST\r\n",
        Extra::Challenge => "WWW-Authenticate: Bearer\r\n",
    }
}

// The line of a response behind which nothing is read, or no line.
fn close_line(close: bool) -> &'static str
    ensures { result.now ≡ close_line close }
{
    if close { "Connection: close\r\n" } else { "" }
}

// A head with these words and lines, for a body of this length.
fn head_text(
    alloc: Global,
    status: u16,
    words: &str,
    len: usize,
    seen: u64,
    extra: &str,
    close: &str,
) -> Result<String, AllocError>
    ensures { IfOk result (λ s. string_bytes s ≡ head_text status words.now len seen extra.now close.now) }
{
    format!(in alloc;
        "HTTP/1.1 {status} {words}\r\nContent-Type: application/json\r\nContent-Length: {len}\r\nX-Arena-Seen: {seen}\r\n{extra}{close}\r\n"
    )
}

// All the bytes of a response.
fn response_bytes(alloc: Global, response: &Response) -> Result<Vec<u8>, AllocError>
    requires { IsStatusCode response.now.status }
    ensures { IfOk result (λ bytes. bytes.items ≡ response_bytes response.now) }
{
    let body = response.body.bytes();
    let head = head_text(
        alloc,
        response.status,
        words(response.status),
        body.len(),
        response.seen,
        extra_line(response.extra),
        close_line(response.close),
    )?;
    let mut bytes = head.into_bytes();
    bytes.extend_from_slice(body)?;
    Ok(bytes)
}

/// Writes a response. Each write is offered all the bytes that are left, which no clause says.
pub fn write_response<K: Sink>(
    alloc: Global,
    sink: &mut K,
    response: &Response,
) -> Result<(), SendFault>
    requires { IsStatusCode response.now.status }
    ensures written { OnOk result
        (Gained (K.held sink.old) (K.held sink.new) (response_bytes response.now)) }

    // A fault of the sink, and what it gained then.
    ensures fault { result ≡ Err SendFault.WriteFault
        → Rose (K.faults sink.old) (K.faults sink.new) }
    ensures beginning { result ≡ Err SendFault.WriteFault
        → GainedPart (K.held sink.old) (K.held sink.new) (response_bytes response.now) }

    // Want of memory leaves the sink alone, and no call takes faults back.
    ensures nothing { result ≡ Err SendFault.OutOfMemory → sink.new ≡ sink.old }
    ensures kept { K.faults sink.old ≤ K.faults sink.new }
{
    let bytes = response_bytes(alloc, response)?;
    match write_all(sink, &bytes) {
        Ok(()) => Ok(()),
        Err(_) => Err(SendFault::WriteFault),
    }
}
