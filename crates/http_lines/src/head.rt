//! A whole head: what it asks for, and how many bytes its body has.

ghost use Rattle.std.specs.Prelude.{◌≡◌, ◌≤◌, ◌⊎◌, ℕ, List, length, take, map, All, IfOk, IfSome, IfNone, option_copied, Err, true, false};
ghost use Rattle.httparse.specs.Grammar.{RequestHead as Head};
ghost use Rattle.httparse.specs.Spans.{AreFieldsAt, IsHeaderWithin, IsRequestWithin, IsWithin, header_bytes, span_bytes};
ghost use Rattle.http_lines.specs.Fields.{bearer_of};
ghost use Rattle.http_lines.specs.Heads.{Spells, Says, path_of, request_of, request_or_fault};

use crate::fields::{body_len, closes, first_named};
use crate::request::{BODY_LIMIT, NextFault, RequestHead};
use crate::values::{bearer_in, first_of};
use conn::Text;
use httparse::Status;
use httparse::spans::{EMPTY_HEADER_SPAN, HeaderSpan, RequestSpans, parse_request};
use std::alloc::{AllocError, Global};

// The head that a whole piece spells, or `None` where the piece is no head of at most 64 fields.
fn whole_head(piece: &[u8], headers: &mut [HeaderSpan]) -> Option<RequestSpans>
    requires { length headers.old ≡ 64 }
    ensures head { IfSome result (λ r. (h : Head) × Spells piece.now h
        × (span_bytes piece.now r.method ≡ h.method) × (span_bytes piece.now r.path ≡ h.target)
        × (r.version ≡ h.minor) × AreFieldsAt piece.now headers.new r.headers h.fields) }
    ensures within { IfSome result (IsRequestWithin piece.now headers.new) }
    ensures bad { IfNone result ((h : Head) → ¬ (Spells piece.now h)) }
{
    match parse_request(piece, headers) {
        Ok(Status::Complete(head)) => {
            if head.len == piece.len() {
                Some(head)
            } else {
                None
            }
        }
        _ => None,
    }
}

/// Whether a whole piece is a head of at most 64 fields.
pub(crate) fn is_head(piece: &[u8]) -> bool
    ensures head { result ≡ true → (h : Head) × Spells piece.now h }
    ensures bad { result ≡ false → (h : Head) → ¬ (Spells piece.now h) }
{
    let mut headers = [EMPTY_HEADER_SPAN; 64];
    match whole_head(piece, &mut headers) {
        Some(_) => true,
        None => false,
    }
}

// The target up to its first question mark.
fn path_of(target: &[u8]) -> &[u8]
    ensures { result.now ≡ path_of target.now }
{
    match first_of(target, b'?') {
        Some(at) => &target[..at],
        None => target,
    }
}

// The bearer of the first Authorization.
fn bearer<'a>(piece: &'a [u8], fields: &[HeaderSpan]) -> Option<&'a [u8]>
    requires { All (IsHeaderWithin (length piece.now)) fields.now }
    ensures { option_copied result ≡ bearer_of (map (header_bytes piece.now) fields.now) }
{
    let (field, _) = first_named(piece, fields, b"authorization")?;
    bearer_in(field.value.of(piece))
}

// The bytes as a text of their own.
fn text(alloc: Global, bytes: &[u8]) -> Result<Text, AllocError>
    ensures { IfOk result (λ text. text ≡ bytes.now) }
{
    Ok(Text::of(Vec::from_slice(alloc, bytes)?))
}

// The bytes as a text of their own, if there are any to keep.
fn text_if(alloc: Global, bytes: Option<&[u8]>) -> Result<Option<Text>, AllocError>
    ensures { IfOk result (λ kept. kept ≡ option_copied bytes.entry) }
{
    match bytes {
        Some(bytes) => Ok(Some(text(alloc, bytes)?)),
        None => Ok(None),
    }
}

// The request of these parts.
fn request_of(
    alloc: Global,
    piece: &[u8],
    spans: &RequestSpans,
    fields: &[HeaderSpan],
) -> Result<RequestHead, AllocError>
    requires method { IsWithin (length piece.now) spans.now.method }
    requires path { IsWithin (length piece.now) spans.now.path }
    requires fields { All (IsHeaderWithin (length piece.now)) fields.now }
    ensures { IfOk result (λ request. request ≡ request_of (span_bytes piece.now spans.now.method)
        (span_bytes piece.now spans.now.path) spans.now.version (map (header_bytes piece.now) fields.now)) }
{
    Ok(RequestHead {
        method: text(alloc, spans.method.of(piece))?,
        path: text(alloc, path_of(spans.path.of(piece)))?,
        bearer: text_if(alloc, bearer(piece, fields))?,
        closes: spans.version == 0 || closes(piece, fields),
    })
}

// The request of these parts and how many bytes its body has, or the first fault of the fields.
fn request_or_fault(
    alloc: Global,
    piece: &[u8],
    spans: &RequestSpans,
    fields: &[HeaderSpan],
) -> Result<(RequestHead, usize), NextFault>
    requires method { IsWithin (length piece.now) spans.now.method }
    requires path { IsWithin (length piece.now) spans.now.path }
    requires fields { All (IsHeaderWithin (length piece.now)) fields.now }
    ensures is { (result ≡ Err NextFault.OutOfMemory) ⊎ (result ≡ request_or_fault (span_bytes piece.now spans.now.method)
        (span_bytes piece.now spans.now.path) spans.now.version (map (header_bytes piece.now) fields.now)) }
    ensures few { IfOk result (λ head. head.1 ≤ BODY_LIMIT) }
{
    if first_named(piece, fields, b"transfer-encoding").is_some() {
        return Err(NextFault::NotSupported);
    }
    let len = body_len(piece, fields)?;
    match request_of(alloc, piece, spans, fields) {
        Ok(request) => Ok((request, len)),
        Err(_) => Err(NextFault::OutOfMemory),
    }
}

/// The request of a whole head and how many bytes its body has.
pub(crate) fn read_head(alloc: Global, piece: &[u8]) -> Result<(RequestHead, usize), NextFault>
    ensures says { (result ≡ Err NextFault.OutOfMemory) ⊎ Says piece.now result }
    ensures few { IfOk result (λ head. head.1 ≤ BODY_LIMIT) }
{
    let mut headers = [EMPTY_HEADER_SPAN; 64];
    match whole_head(piece, &mut headers) {
        Some(spans) => request_or_fault(alloc, piece, &spans, &headers[..spans.headers]),
        None => Err(NextFault::BadHead),
    }
}
