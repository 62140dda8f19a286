//! A move, written.

ghost use Rattle.std.specs.Prelude.{◌≡◌, ◌≤◌, ◌+◌, ◌++◌, IsTrue, length};
ghost use Rattle.arrayvec.specs.ArrayString.{array_string_len};
ghost use Rattle.board.specs.Moves.{can_be_promo};
ghost use Rattle.move_rules.specs.After.{after};
ghost use Rattle.move_rules.specs.Legal.{legal};
ghost use Rattle.pgn_text.specs.San.{castling_text, cross, pawn_start, promotion_text, pawn_text, piece_text, plain, sign, san};

use crate::cells::{captures, is_castling, is_pawn_move, kind_at};
use crate::notation::{letter_of, push_byte, push_file, push_square};
use crate::rivals::push_apart;
use arrayvec::ArrayString;
use board::{Kind, Move, Position};
use move_rules::{State, in_check, make, state};

fn castling_text(m: Move) -> ArrayString<8>
    ensures is { result.bytes ≡ castling_text m }
    ensures len { array_string_len result ≤ 6 }
{
    let mut out = ArrayString::new();
    if m.from.index() < m.to.index() {
        out.push_str("O-O");
    } else {
        out.push_str("O-O-O");
    }
    out
}

fn push_pawn_start(out: &mut ArrayString<8>, p: &Position, m: Move)
    requires { array_string_len out.old + 2 ≤ 8 }
    ensures is { out.new.bytes ≡ out.old.bytes ++ pawn_start p.now m }
    ensures len { array_string_len out.new ≤ array_string_len out.old + 2 }
{
    if captures(p, m) {
        push_file(out, m.from);
        push_byte(out, b'x');
    }
}

fn push_promotion(out: &mut ArrayString<8>, promo: Option<Kind>)
    requires { array_string_len out.old + 2 ≤ 8 }
    ensures is { out.new.bytes ≡ out.old.bytes ++ promotion_text promo }
    ensures len { array_string_len out.new ≤ array_string_len out.old + 2 }
{
    if let Some(kind) = promo {
        push_byte(out, b'=');
        push_byte(out, letter_of(kind));
    }
}

fn pawn_text(p: &Position, m: Move) -> ArrayString<8>
    ensures is { result.bytes ≡ pawn_text p.now m }
    ensures len { array_string_len result ≤ 6 }
{
    let mut out = ArrayString::new();
    push_pawn_start(&mut out, p, m);
    push_square(&mut out, m.to);
    push_promotion(&mut out, m.promo);
    out
}

fn push_cross(out: &mut ArrayString<8>, p: &Position, m: Move)
    requires { array_string_len out.old + 1 ≤ 8 }
    ensures is { out.new.bytes ≡ out.old.bytes ++ cross p.now m }
    ensures len { array_string_len out.new ≤ array_string_len out.old + 1 }
{
    if captures(p, m) {
        push_byte(out, b'x');
    }
}

fn piece_text(p: &Position, m: Move, kind: Kind) -> ArrayString<8>
    ensures is { result.bytes ≡ piece_text p.now m kind }
    ensures len { array_string_len result ≤ 6 }
{
    let mut out = ArrayString::new();
    push_byte(&mut out, letter_of(kind));
    push_apart(&mut out, p, m, kind);
    push_cross(&mut out, p, m);
    push_square(&mut out, m.to);
    out
}

/// The move without the sign of a check.
#[tactic(auto, unfolding(crate::specs::San::plain))]
pub(crate) fn plain(p: &Position, m: Move) -> ArrayString<8>
    ensures is { result.bytes ≡ plain p.now m }
    ensures len { array_string_len result ≤ 6 }
{
    if is_castling(p, m) {
        castling_text(m)
    } else if is_pawn_move(p, m) {
        pawn_text(p, m)
    } else {
        piece_text(p, m, kind_at(p.at(m.from)))
    }
}

/// The sign of a position after a move.
#[tactic(auto, unfolding(crate::specs::San::sign))]
pub(crate) fn sign(after: &Position) -> &'static str
    ensures is { result.now ≡ sign after.now }
    ensures len { length result.now ≤ 1 }
{
    if !in_check(after) {
        ""
    } else if state(after) == State::Going {
        "+"
    } else {
        "#"
    }
}

/// The SAN of a legal move (PGN standard, section 8.2.3): `e4`, `exd5`, `e8=Q`, `Nf3`, `Rad1`, `R1a4`, `Qh4e1`, `O-O`. A
/// piece is told apart from others of its kind that have a legal move to the square: by its file, or else by its rank, or
/// else by both. A mate has `#` behind it, and another check `+`. It takes no memory.
#[tactic(auto, unfolding(crate::specs::San::san))]
pub fn write_san(p: &Position, m: Move) -> ArrayString<8>
    requires { IsTrue (legal p.now m) }
    ensures { result.bytes ≡ san p.now m }
{
    let mut out = plain(p, m);
    out.push_str(sign(&make(p, m)));
    out
}
