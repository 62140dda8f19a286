//! What a token of the moves says.

ghost use Rattle.std.specs.Prelude.{◌≡◌, ◌≤◌, length};
ghost use Rattle.pgn_text.specs.Tokens.{IsPlayable, is_glyph, number_len, unmark, result_in, word_said, said_of};

use crate::fault::PgnCause;
use crate::game::PgnResult;
use crate::named::read_san;
use crate::runs::{Run, run_len};
use board::{Move, Position};

/// What a token says.
#[derive(Clone, Copy, Debug)]
pub(crate) enum Said {
    /// Nothing of the game.
    Passed,
    /// That this move was made.
    Played(Move),
    /// That the game is over, with this result.
    Over(PgnResult),
    /// Nothing that may stand there.
    Wrong(PgnCause),
}

/// How many bytes the number of a move in front has: digits, and one or more dots. 0 where none stands there.
#[tactic(auto, unfolding(crate::specs::Tokens::number_len))]
pub(crate) fn number_len(text: &[u8]) -> usize
    ensures is { result ≡ number_len text.now }
    ensures within { result ≤ length text.now }
{
    let digits = run_len(Run::Digits, text);
    let dots = run_len(Run::Dots, &text[digits..]);
    if digits == 0 || dots == 0 {
        0
    } else {
        digits + dots
    }
}

/// Whether `$` and digits.
fn is_glyph(word: &[u8]) -> bool
    ensures { result ≡ is_glyph word.now }
{
    match word {
        [b'$', digits @ ..] => !digits.is_empty() && run_len(Run::Digits, digits) == digits.len(),
        _ => false,
    }
}

/// The word without one `!` or `?` at its end.
#[tactic(auto, unfolding(crate::specs::Tokens::unmark))]
fn unmark(word: &[u8]) -> &[u8]
    ensures { result.now ≡ unmark word.now }
{
    match word.split_last() {
        Some((b'!' | b'?', front)) => front,
        _ => word,
    }
}

/// The result of this word.
#[tactic(auto, unfolding(crate::specs::Tokens::result_in))]
fn result_in(word: &[u8]) -> Option<PgnResult>
    ensures { result ≡ result_in word.now }
{
    if word == b"1-0".as_slice() {
        return Some(PgnResult::White);
    }
    if word == b"0-1".as_slice() {
        return Some(PgnResult::Black);
    }
    if word == b"1/2-1/2".as_slice() {
        return Some(PgnResult::Draw);
    }
    if word == b"*".as_slice() {
        return Some(PgnResult::Unknown);
    }
    None
}

#[tactic(auto, unfolding(crate::specs::Tokens::said_of))]
fn said_of(p: &Position, word: &[u8]) -> Said
    ensures is { result ≡ said_of p.now word.now }
    ensures legal { IsPlayable p.now result }
{
    if word.first() == Some(&b'(') {
        return Said::Wrong(PgnCause::Variation);
    }
    if let Some(ending) = result_in(word) {
        return Said::Over(ending);
    }
    match read_san(p, word) {
        Some(m) => Said::Played(m),
        None => Said::Wrong(PgnCause::San),
    }
}

/// What the token says in the position.
#[tactic(auto, unfolding(crate::specs::Tokens::word_said))]
pub(crate) fn word_said(p: &Position, word: &[u8]) -> Said
    ensures is { result ≡ word_said p.now word.now }
    ensures legal { IsPlayable p.now result }
{
    if is_glyph(word) {
        Said::Passed
    } else {
        said_of(p, unmark(unmark(word)))
    }
}
