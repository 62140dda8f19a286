//! The fields of a head, by their names.

ghost use Rattle.std.specs.Prelude.{◌≡◌, ◌<◌, ◌≤◌, length, map, option_map, IfSome, IfOk, All};
ghost use Rattle.httparse.specs.Spans.{IsHeaderWithin, header_bytes};
ghost use Rattle.http_lines.specs.Fields.{is_named, first_named, body_len, closes_by};

use crate::request::{BODY_LIMIT, NextFault};
use crate::values::{decimal, has_close, same_letters};
use httparse::spans::HeaderSpan;

// Whether the field has this name, in any case of its letters (RFC 9110, section 5.1).
fn is_named(piece: &[u8], field: HeaderSpan, name: &[u8]) -> bool
    requires { IsHeaderWithin (length piece.now) field }
    ensures { result ≡ is_named name.now (header_bytes piece.now field) }
{
    same_letters(field.name.of(piece), name)
}

/// The first field of this name, and the fields after it.
pub(crate) fn first_named<'a>(
    piece: &[u8],
    fields: &'a [HeaderSpan],
    name: &[u8],
) -> Option<(HeaderSpan, &'a [HeaderSpan])>
    requires { All (IsHeaderWithin (length piece.now)) fields.now }
    ensures first { option_map
        (λ found. (header_bytes piece.now found.0, map (header_bytes piece.now) found.1.now)) result
        ≡ first_named name.now (map (header_bytes piece.now) fields.now) }
    ensures field { IfSome result (λ found. IsHeaderWithin (length piece.now) found.0) }
    ensures rest { IfSome result (λ found. All (IsHeaderWithin (length piece.now)) found.1.now) }
    ensures shorter { IfSome result (λ found. length found.1.now < length fields.now) }
{
    let [first, rest @ ..] = fields else {
        return None;
    };
    if is_named(piece, *first, name) {
        Some((*first, rest))
    } else {
        first_named(piece, rest, name)
    }
}

/// How many bytes the body has.
pub(crate) fn body_len(piece: &[u8], fields: &[HeaderSpan]) -> Result<usize, NextFault>
    requires { All (IsHeaderWithin (length piece.now)) fields.now }
    ensures len { result ≡ body_len (map (header_bytes piece.now) fields.now) }
    ensures few { IfOk result (λ n. n ≤ BODY_LIMIT) }
{
    let Some((field, rest)) = first_named(piece, fields, b"content-length") else {
        return Ok(0);
    };
    if first_named(piece, rest, b"content-length").is_some() {
        return Err(NextFault::BadLength);
    }
    match decimal(field.value.of(piece)) {
        Some(len) if len <= BODY_LIMIT => Ok(len),
        Some(_) => Err(NextFault::BodyTooLong),
        None => Err(NextFault::BadLength),
    }
}

/// Whether a Connection field has the word `close`.
pub(crate) fn closes(piece: &[u8], fields: &[HeaderSpan]) -> bool
    requires { All (IsHeaderWithin (length piece.now)) fields.now }
    ensures { result ≡ closes_by (map (header_bytes piece.now) fields.now) }
{
    match first_named(piece, fields, b"connection") {
        Some((field, rest)) => has_close(field.value.of(piece)) || closes(piece, rest),
        None => false,
    }
}
