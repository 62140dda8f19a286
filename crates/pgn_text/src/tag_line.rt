//! A tag's line, read.

ghost use Rattle.std.specs.Prelude.{◌≡◌, ◌<◌, ◌≤◌, option_map, IfSome, IsTrue, length};
ghost use Rattle.std.specs.List.{list_all};
ghost use Rattle.pgn_text.specs.Games.{is_name, is_value_byte, is_tag};
ghost use Rattle.pgn_text.specs.Tokens.{past, past_return, name_in, value_in, tag_in};

use crate::runs::{Run, run_len};

/// The line of a tag.
#[derive(Clone, Copy, Debug)]
pub(crate) struct Line<'a> {
    pub(crate) name: &'a [u8],
    pub(crate) value: &'a [u8],
    /// What stands behind the line.
    pub(crate) behind: &'a [u8],
}

/// The bytes behind this one, where it stands in front.
fn past(byte: u8, text: &[u8]) -> Option<&[u8]>
    ensures is { option_map (λ rest. rest.now) result ≡ past byte text.now }
    ensures shorter { IfSome result (λ rest. length rest.now < length text.now) }
{
    match text {
        [first, rest @ ..] if *first == byte => Some(rest),
        _ => None,
    }
}

/// The bytes behind a CR, or all where none stands in front.
fn past_return(text: &[u8]) -> &[u8]
    ensures is { result.now ≡ past_return text.now }
    ensures no_longer { length result.now ≤ length text.now }
{
    match text {
        [b'\r', rest @ ..] => rest,
        _ => text,
    }
}

/// The name in front and the bytes behind it, or None where no byte of a name stands in front.
#[tactic(auto, using(crate::proofs::Places::name_run), unfolding(crate::specs::Tokens::name_in))]
fn name_in(text: &[u8]) -> Option<(&[u8], &[u8])>
    ensures is { option_map (λ x. (x.0.now, x.1.now)) result ≡ name_in text.now }
    ensures no_longer { IfSome result (λ x. length x.1.now ≤ length text.now) }
    ensures named { IfSome result (λ x. IsTrue (is_name x.0.now)) }
{
    let n = run_len(Run::Name, text);
    if n == 0 {
        None
    } else {
        Some((&text[..n], &text[n..]))
    }
}

/// The value in front and the bytes behind it.
#[tactic(auto, using(crate::proofs::Places::value_run), unfolding(crate::specs::Tokens::value_in))]
fn value_in(text: &[u8]) -> (&[u8], &[u8])
    ensures is { (result.0.now, result.1.now) ≡ value_in text.now }
    ensures no_longer { length result.1.now ≤ length text.now }
    ensures good { IsTrue (list_all is_value_byte result.0.now) }
{
    let n = run_len(Run::Value, text);
    (&text[..n], &text[n..])
}

/// The name and the value of the line `[NAME "VALUE"]` in front, and the bytes behind its line feed. None where the line has
/// another form.
#[tactic(auto, unfolding(crate::specs::Tokens::tag_in))]
pub(crate) fn tag_in(text: &[u8]) -> Option<Line<'_>>
    ensures is { option_map (λ line. (record { name = line.name.now; value = line.value.now }, line.behind.now)) result ≡ tag_in text.now }
    ensures shorter { IfSome result (λ line. length line.behind.now < length text.now) }
    ensures form { IfSome result (λ line. IsTrue (is_tag (record { name = line.name.now; value = line.value.now }))) }
{
    let inside = past(b'[', text)?;
    let (name, behind) = name_in(inside)?;
    let blank = past(b' ', behind)?;
    let quoted = past(b'"', blank)?;
    let (value, behind) = value_in(quoted);
    let quote = past(b'"', behind)?;
    let bracket = past(b']', quote)?;
    let behind = past(b'\n', past_return(bracket))?;
    Some(Line {
        name,
        value,
        behind,
    })
}
