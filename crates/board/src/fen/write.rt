ghost use Rattle.std.specs.Prelude.{◌≡◌, ◌<◌, ◌≤◌, ◌+◌, ◌*◌, ◌++◌, ◌∷◌, [], length, if◌then◌else◌};
ghost use Rattle.std.specs.Fmt.{decimal};
ghost use Rattle.arrayvec.specs.ArrayString.{array_string_len};
ghost use Rattle.board.specs.Fen.{piece_letter, run, rank_text, ranks_text, board_text, turn_text, castlings, rights_text, ep_text, fen_of};
ghost use Rattle.board.specs.Position.{IsPosition, without_ep};
ghost use Rattle.board.specs.declared.parts.Parts.{Parts};

use crate::parts::Rights;
use crate::piece::{Colour, Piece};
use crate::position::{Position, without_ep};
use crate::square::Square;
use crate::words::{letter_of, push_byte, push_square};
use arrayvec::ArrayString;

/// The longest FEN has 93 bytes.
type Fen = ArrayString<96>;

fn letter_of_piece(piece: Piece) -> u8
    ensures is { result ≡ piece_letter piece.colour piece.kind }
    ensures ascii { result < 128 }
{
    match piece.colour {
        Colour::White => letter_of(piece.kind) - 32,
        Colour::Black => letter_of(piece.kind),
    }
}

#[tactic(auto, using(crate::proofs::Decimals::decimal_len, crate::proofs::Decimals::decimal_one, crate::proofs::Decimals::decimal_one_len, crate::proofs::Decimals::decimal_more_len))]
fn push_decimal(out: &mut Fen, n: u16)
    requires { array_string_len out.old + 5 ≤ 96 }
    ensures is { out.new.bytes ≡ out.old.bytes ++ decimal n }
    ensures len { array_string_len out.new ≡ array_string_len out.old + length (decimal n) }
    ensures short { array_string_len out.new ≤ array_string_len out.old + 5 }
{
    if n < 10 {
        push_byte(out, b'0' + n as u8);
    } else {
        push_decimal(out, n / 10);
        push_byte(out, b'0' + (n % 10) as u8);
    }
}

/// The decimal of a number, with no zero in front.
pub(super) fn write_decimal(n: u16) -> ArrayString<96>
    ensures { result.bytes ≡ decimal n }
{
    let mut out = ArrayString::new();
    push_decimal(&mut out, n);
    out
}

#[tactic(auto, using(crate::proofs::Decimals::decimal_one))]
fn push_run(out: &mut Fen, n: u8)
    requires few { n ≤ 8 }
    requires room { array_string_len out.old + n ≤ 96 }
    ensures is { out.new.bytes ≡ out.old.bytes ++ run n }
    ensures len { array_string_len out.new ≤ array_string_len out.old + n }
{
    if n > 0 {
        push_byte(out, b'0' + n);
    }
}

fn push_rank(out: &mut Fen, empty: u8, cells: &[Option<Piece>])
    requires few { empty + length cells.now ≤ 8 }
    requires room { array_string_len out.old + empty + length cells.now ≤ 96 }
    ensures is { out.new.bytes ≡ out.old.bytes ++ rank_text empty cells.now }
    ensures len { array_string_len out.new ≤ array_string_len out.old + empty + length cells.now }
{
    match cells {
        [] => push_run(out, empty),
        [None, rest @ ..] => push_rank(out, empty + 1, rest),
        [Some(piece), rest @ ..] => {
            push_run(out, empty);
            push_byte(out, letter_of_piece(*piece));
            push_rank(out, 0, rest);
        }
    }
}

#[tactic(auto, using(crate::proofs::Ranks::ranks_text_last, crate::proofs::Ranks::ranks_text_more))]
fn push_ranks(out: &mut Fen, cells: &[Option<Piece>; 64], rank: u8)
    requires few { rank < 8 }
    requires room { array_string_len out.old + 9 * rank + 8 ≤ 96 }
    ensures is { out.new.bytes ≡ out.old.bytes ++ ranks_text cells.now rank }
    ensures len { array_string_len out.new ≤ array_string_len out.old + 9 * rank + 8 }
{
    let first = 8 * rank as usize;
    push_rank(out, 0, &cells[first..first + 8]);
    if rank > 0 {
        push_byte(out, b'/');
        push_ranks(out, cells, rank - 1);
    }
}

fn push_turn(out: &mut Fen, turn: Colour)
    requires { array_string_len out.old < 96 }
    ensures is { out.new.bytes ≡ out.old.bytes ++ turn_text turn }
    ensures len { array_string_len out.new ≤ array_string_len out.old + 1 }
{
    match turn {
        Colour::White => push_byte(out, b'w'),
        Colour::Black => push_byte(out, b'b'),
    }
}

fn push_castling(out: &mut Fen, right: bool, letter: u8)
    requires ascii { letter < 128 }
    requires room { array_string_len out.old < 96 }
    ensures is { out.new.bytes ≡ out.old.bytes ++ (if right then letter ∷ [] else []) }
    ensures len { array_string_len out.new ≤ array_string_len out.old + 1 }
{
    if right {
        push_byte(out, letter);
    }
}

fn push_castlings(out: &mut Fen, rights: Rights)
    requires { array_string_len out.old + 4 ≤ 96 }
    ensures is { out.new.bytes ≡ out.old.bytes ++ castlings rights }
    ensures len { array_string_len out.new ≤ array_string_len out.old + 4 }
{
    push_castling(out, rights.white_short, b'K');
    push_castling(out, rights.white_long, b'Q');
    push_castling(out, rights.black_short, b'k');
    push_castling(out, rights.black_long, b'q');
}

fn push_rights(out: &mut Fen, rights: Rights)
    requires { array_string_len out.old + 4 ≤ 96 }
    ensures is { out.new.bytes ≡ out.old.bytes ++ rights_text rights }
    ensures len { array_string_len out.new ≤ array_string_len out.old + 4 }
{
    if rights.white_short || rights.white_long || rights.black_short || rights.black_long {
        push_castlings(out, rights);
    } else {
        push_byte(out, b'-');
    }
}

fn push_ep(out: &mut Fen, ep: Option<Square>)
    requires { array_string_len out.old + 2 ≤ 96 }
    ensures is { out.new.bytes ≡ out.old.bytes ++ ep_text ep }
    ensures len { array_string_len out.new ≤ array_string_len out.old + 2 }
{
    match ep {
        None => push_byte(out, b'-'),
        Some(s) => push_square(out, s),
    }
}

fn write_fields(p: &Position) -> Fen
    ensures is { result.bytes ≡ fen_of p.now }
    ensures len { length result.bytes ≤ 93 }
    ensures only { (q : Parts) → IsPosition q → fen_of q ≡ result.bytes → q ≡ p.now }
{
    let parts = p.parts();
    let mut out = ArrayString::new();
    push_ranks(&mut out, &parts.cells, 7);
    push_byte(&mut out, b' ');
    push_turn(&mut out, p.turn());
    push_byte(&mut out, b' ');
    push_rights(&mut out, p.rights());
    push_byte(&mut out, b' ');
    push_ep(&mut out, p.ep());
    push_byte(&mut out, b' ');
    push_decimal(&mut out, p.half());
    push_byte(&mut out, b' ');
    push_decimal(&mut out, p.number());
    out
}

/// The FEN of a position, with its en passant square only where `ep_legal` is true: at most 93 bytes. No two positions have
/// one FEN.
pub fn write_fen(p: &Position, ep_legal: bool) -> ArrayString<96>
    ensures is { result.bytes ≡ fen_of (if ep_legal then p.now else without_ep p.now) }
    ensures len { length result.bytes ≤ 93 }
    ensures only { (q : Parts) → IsPosition q → fen_of q ≡ result.bytes → q ≡ (if ep_legal then p.now else without_ep p.now) }
{
    if ep_legal {
        write_fields(p)
    } else {
        write_fields(&without_ep(p))
    }
}
