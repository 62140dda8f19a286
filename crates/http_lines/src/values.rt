//! What the values of fields say.

ghost use Rattle.std.specs.Prelude.{◌≡◌, ◌+◌, ◌==◌, ◌<◌, [], ◌∷◌, length, min, position, IfSome, MatchOption, option_copied, option_map};
ghost use Rattle.httparse.specs.Grammar.{is_ows, skip_ows, trim_ows};
ghost use Rattle.http_lines.specs.Fields.{same_letters, bearer_in, is_close, parts_of, has_close, number_in};

use crate::request::BODY_LIMIT;

/// Whether these are the same bytes but for the case of letters.
pub(crate) fn same_letters(a: &[u8], b: &[u8]) -> bool
    ensures { result ≡ same_letters a.now b.now }
{
    a.eq_ignore_ascii_case(b)
}

/// The number that one or more digits write, or one more than a body may have where that is less; `None` for other bytes.
pub(crate) fn decimal(text: &[u8]) -> Option<usize>
    ensures { result ≡ option_map (λ n. min n (BODY_LIMIT + 1)) (number_in text.now) }
{
    if text.is_empty() {
        return None;
    }
    let mut value = 0;
    for digit in text {
        if !digit.is_ascii_digit() {
            return None;
        }
        value = (value * 10 + (*digit - b'0') as usize).min(BODY_LIMIT + 1);
    }
    Some(value)
}

/// What follows `Bearer ` where a value begins with it, in any case of the letters.
pub(crate) fn bearer_in(value: &[u8]) -> Option<&[u8]>
    ensures { option_copied result ≡ bearer_in value.now }
{
    let (scheme, token) = value.split_at(value.len().min(7));
    if same_letters(scheme, b"bearer ") {
        Some(token)
    } else {
        None
    }
}

// Space or tab.
fn is_blank(byte: u8) -> bool
    ensures { result ≡ is_ows byte }
{
    byte == b' ' || byte == b'\t'
}

// The bytes from the first that is no blank.
fn trim_start(bytes: &[u8]) -> &[u8]
    ensures { result.now ≡ skip_ows bytes.now }
{
    let mut left = bytes;
    while let [first, rest @ ..] = left {
        if !is_blank(*first) {
            return left;
        }
        left = rest;
    }
    left
}

// The bytes without the blanks at both ends.
fn trim(bytes: &[u8]) -> &[u8]
    ensures { result.now ≡ trim_ows bytes.now }
{
    let mut left = trim_start(bytes);
    while let [rest @ .., last] = left {
        if !is_blank(*last) {
            return left;
        }
        left = rest;
    }
    left
}

// Whether a part between commas is the word `close`.
fn is_close(part: &[u8]) -> bool
    ensures { result ≡ is_close part.now }
{
    same_letters(trim(part), b"close")
}

/// Where the first such byte stands.
pub(crate) fn first_of(bytes: &[u8], wanted: u8) -> Option<usize>
    ensures first { result ≡ position (λ b. b == wanted) bytes.now }
    ensures within { IfSome result (λ at. at < length bytes.now) }
{
    bytes.iter().position(|byte| *byte == wanted)
}

// The part before the first comma, and what stands after it.
fn first_part(value: &[u8]) -> Option<(&[u8], &[u8])>
    ensures parts { MatchOption result (parts_of value.now ≡ value.now ∷ [])
        (λ found. parts_of value.now ≡ found.0.now ∷ parts_of found.1.now) }
    ensures shorter { IfSome result (λ found. length found.1.now < length value.now) }
{
    match first_of(value, b',') {
        Some(at) => Some((&value[..at], &value[at + 1..])),
        None => None,
    }
}

/// Whether one of the parts between commas is the word `close`, in any case of the letters.
pub(crate) fn has_close(value: &[u8]) -> bool
    ensures { result ≡ has_close value.now }
{
    let mut left = value;
    while let Some((part, rest)) = first_part(left) {
        if is_close(part) {
            return true;
        }
        left = rest;
    }
    is_close(left)
}
