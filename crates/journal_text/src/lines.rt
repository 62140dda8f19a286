//! A text cut into lines, and a line into words.

ghost use Rattle.std.specs.Prelude.{◌≡◌, ◌<◌, ◌==◌, ◌∷◌, [], length, position, IfOk, IfSome, MatchOption, option_map};
ghost use Rattle.journal_text.specs.Lines.{parts_of, lines_of, words_of, first, one, is_word, two, three, four};
ghost use Rattle.journal_text.specs.Reading.{Shows, next};

use crate::fault::{JournalCause, JournalFault, fault_at};

/// Where the byte stands first.
fn place_of(bytes: &[u8], byte: u8) -> Option<usize>
    ensures { result ≡ position (λ b. b == byte) bytes.now }
{
    bytes.iter().position(|b| *b == byte)
}

/// What stands before the first such byte, and what stands behind it. `None` where there is none.
pub(crate) fn cut(bytes: &[u8], byte: u8) -> Option<(&[u8], &[u8])>
    ensures parts { MatchOption result (parts_of byte bytes.now ≡ bytes.now ∷ [])
        (λ cut. parts_of byte bytes.now ≡ cut.0.now ∷ parts_of byte cut.1.now) }
    // The same in one equation: the first part, and those behind it.
    ensures first { option_map (λ cut. (cut.0.now, parts_of byte cut.1.now)) result ≡ first (parts_of byte bytes.now) }
    ensures shorter { IfSome result (λ cut. length cut.1.now < length bytes.now) }
{
    let at = place_of(bytes, byte)?;
    Some((&bytes[..at], &bytes[at + 1..]))
}

/// The part of bytes that have just one.
fn one_part(bytes: &[u8], byte: u8) -> Option<&[u8]>
    ensures { option_map (λ w. w.now) result ≡ one (parts_of byte bytes.now) }
{
    match cut(bytes, byte) {
        None => Some(bytes),
        Some(_) => None,
    }
}

/// The parts of bytes that have two.
pub(crate) fn two_parts(bytes: &[u8], byte: u8) -> Option<(&[u8], &[u8])>
    ensures { option_map (λ w. (w.0.now, w.1.now)) result ≡ two (parts_of byte bytes.now) }
{
    let (first, rest) = cut(bytes, byte)?;
    let second = one_part(rest, byte)?;
    Some((first, second))
}

/// The words of a line that has two.
pub(crate) fn two_words(line: &[u8]) -> Option<(&[u8], &[u8])>
    ensures { option_map (λ w. (w.0.now, w.1.now)) result ≡ two (words_of line.now) }
{
    two_parts(line, b' ')
}

/// The words of a line that has three.
pub(crate) fn three_words(line: &[u8]) -> Option<(&[u8], &[u8], &[u8])>
    ensures { option_map (λ w. (w.0.now, w.1.now, w.2.now)) result ≡ three (words_of line.now) }
{
    let (first, rest) = cut(line, b' ')?;
    let (second, third) = two_words(rest)?;
    Some((first, second, third))
}

/// The words of a line that has four.
pub(crate) fn four_words(line: &[u8]) -> Option<(&[u8], &[u8], &[u8], &[u8])>
    ensures { option_map (λ w. (w.0.now, w.1.now, w.2.now, w.3.now)) result ≡ four (words_of line.now) }
{
    let (first, rest) = cut(line, b' ')?;
    let (second, third, fourth) = three_words(rest)?;
    Some((first, second, third, fourth))
}

/// Whether the line has just one word, and it is this one.
pub(crate) fn is_word(line: &[u8], key: &[u8]) -> bool
    ensures { result ≡ is_word key.now (words_of line.now) }
{
    match cut(line, b' ') {
        None => line == key,
        Some(_) => false,
    }
}

/// The next line, which has this number, and the text behind it.
pub(crate) fn next_line(text: &[u8], number: u64) -> Result<(&[u8], &[u8]), JournalFault>
    ensures parts { Shows (λ cut. (cut.0.now, lines_of cut.1.now)) result (next number (lines_of text.now)) }
    ensures shorter { IfOk result (λ cut. length cut.1.now < length text.now) }
{
    match cut(text, b'\n') {
        None => Err(fault_at(number, JournalCause::Ended)),
        Some((line, rest)) => Ok((line, rest)),
    }
}
