//! The letters of SAN.

ghost use Rattle.std.specs.Prelude.{◌≡◌, ◌<◌, ◌≤◌, ◌+◌, ◌++◌, ◌∷◌, [], ℕ, List};
ghost use Rattle.arrayvec.specs.ArrayString.{array_string_len};
ghost use Rattle.board.specs.Moves.{MoveWord};
ghost use Rattle.board.specs.Words.{square_word};
ghost use Rattle.pgn_text.specs.San.{letter, file_letter, rank_digit};
ghost use Rattle.pgn_text.specs.Reading.{Names};

use arrayvec::ArrayString;
use board::{Kind, Position, Square};

/// Appends an ASCII character, for which there is room.
pub(crate) fn push_byte(out: &mut ArrayString<8>, b: u8)
    requires ascii { b < 128 }
    requires room { array_string_len out.old < 8 }
    ensures is { out.new.bytes ≡ out.old.bytes ++ b ∷ [] }
    ensures len { array_string_len out.new ≡ array_string_len out.old + 1 }
{
    out.push(b as char);
}

/// The capital letter of a kind.
pub(crate) fn letter_of(kind: Kind) -> u8
    ensures is { result ≡ letter kind }
    ensures ascii { result < 128 }
{
    match kind {
        Kind::Pawn => b'P',
        Kind::Knight => b'N',
        Kind::Bishop => b'B',
        Kind::Rook => b'R',
        Kind::Queen => b'Q',
        Kind::King => b'K',
    }
}

/// Appends the letter of a square's file.
pub(crate) fn push_file(out: &mut ArrayString<8>, s: Square)
    requires { array_string_len out.old < 8 }
    ensures is { out.new.bytes ≡ out.old.bytes ++ file_letter s ∷ [] }
    ensures len { array_string_len out.new ≡ array_string_len out.old + 1 }
{
    push_byte(out, b'a' + s.file());
}

/// Appends the digit of a square's rank.
pub(crate) fn push_rank(out: &mut ArrayString<8>, s: Square)
    requires { array_string_len out.old < 8 }
    ensures is { out.new.bytes ≡ out.old.bytes ++ rank_digit s ∷ [] }
    ensures len { array_string_len out.new ≡ array_string_len out.old + 1 }
{
    push_byte(out, b'1' + s.rank());
}

/// Appends the name of a square.
pub(crate) fn push_square(out: &mut ArrayString<8>, s: Square)
    requires { array_string_len out.old + 2 ≤ 8 }
    ensures is { out.new.bytes ≡ out.old.bytes ++ square_word s }
    ensures len { array_string_len out.new ≡ array_string_len out.old + 2 }
{
    push_file(out, s);
    push_rank(out, s);
}

/// Two legal moves of a position that have one SAN, with the sign or without it, are one move. The law holds for every
/// position; the call does nothing.
pub fn one_san_is_one_move(p: &Position)
    ensures { (bytes : List ℕ) (m n : MoveWord) → Names p.now bytes m → Names p.now bytes n → m ≡ n }
{
    // It is read so that the proof has what every position keeps.
    let _turn = p.turn();
}
