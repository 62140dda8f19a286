//! Runs of bytes of one sort in front of a text.

ghost use Rattle.std.specs.Prelude.{◌≡◌, ◌≤◌, ℕ, List, length, position, nat_le, ◌&&◌};
ghost use Rattle.pgn_text.specs.Games.{is_digit, is_name_byte, is_value_byte};
ghost use Rattle.pgn_text.specs.Runs.{is_skipped, ends, run_len};

/// The sorts of run.
#[derive(Clone, Copy, Debug, PartialEq, Eq)]
pub(crate) enum Run {
    Digits,
    Dots,
    /// Letters, digits and `_`.
    Name,
    /// Bytes of at least 32 that are neither `"` nor `\\`.
    Value,
    /// Up to the next skipped byte or the next `{`.
    Token,
    /// Spaces, tabs, CRs and LFs.
    Skipped,
    /// Up to the next `}`.
    Comment,
}

fn is_digit(byte: u8) -> bool
    ensures { result ≡ is_digit byte }
{
    byte >= b'0' && byte <= b'9'
}

fn is_capital(byte: u8) -> bool
    ensures { result ≡ (nat_le 65 byte && nat_le byte 90) }
{
    byte >= b'A' && byte <= b'Z'
}

fn is_small(byte: u8) -> bool
    ensures { result ≡ (nat_le 97 byte && nat_le byte 122) }
{
    byte >= b'a' && byte <= b'z'
}

fn is_name_byte(byte: u8) -> bool
    ensures { result ≡ is_name_byte byte }
{
    is_capital(byte) || is_small(byte) || is_digit(byte) || byte == b'_'
}

fn is_value_byte(byte: u8) -> bool
    ensures { result ≡ is_value_byte byte }
{
    byte >= 32 && byte != b'"' && byte != b'\\'
}

/// Whether a space, a tab, a CR or an LF.
pub(crate) fn is_skipped(byte: u8) -> bool
    ensures { result ≡ is_skipped byte }
{
    byte == b' ' || byte == b'\t' || byte == b'\r' || byte == b'\n'
}

fn ends(run: Run, byte: u8) -> bool
    ensures { result ≡ ends run byte }
{
    match run {
        Run::Digits => !is_digit(byte),
        Run::Dots => byte != b'.',
        Run::Name => !is_name_byte(byte),
        Run::Value => !is_value_byte(byte),
        Run::Token => is_skipped(byte) || byte == b'{',
        Run::Skipped => !is_skipped(byte),
        Run::Comment => byte == b'}',
    }
}

/// Where the run in front ends, if a byte stands there that ends it.
pub(crate) fn end_of(run: Run, text: &[u8]) -> Option<usize>
    ensures { result ≡ position (ends run) text.now }
{
    text.iter().position(|b| ends(run, *b))
}

/// How many bytes the run in front has.
#[tactic(auto, using(crate::proofs::Places::found_place, crate::proofs::Places::no_place))]
pub(crate) fn run_len(run: Run, text: &[u8]) -> usize
    ensures is { result ≡ run_len run text.now }
    ensures within { result ≤ length text.now }
{
    match end_of(run, text) {
        Some(at) => at,
        None => text.len(),
    }
}
