ghost use Rattle.std.specs.Prelude.{◌≡◌, ◌↔◌, ◌≤◌, ℕ, List, Option, false, IsTrue, Some};
ghost use Rattle.std.specs.Fmt.{decimal};
ghost use Rattle.board.specs.declared.piece.Colour.{Colour};
ghost use Rattle.board.specs.declared.piece.Piece.{Piece};
ghost use Rattle.board.specs.declared.parts.Rights.{Rights};
ghost use Rattle.board.specs.Piece.{other};
ghost use Rattle.board.specs.Attack.{king_attacked};
ghost use Rattle.board.specs.Position.{IsBoard, HoldsRights, ep_holds};
ghost use Rattle.board.specs.Fen.{board_text, turn_text, rights_text, ep_text};
ghost use Rattle.board.specs.Reading.{turn_in, has_first, past_first, castlings_in, rights_in, ep_in};

use super::board::read_cells;
use super::write::write_decimal;
use crate::attack::is_king_attacked;
use crate::parts::Rights;
use crate::piece::{Colour, Piece};
use crate::sound::{holds_rights, is_board, is_just_crossed};
use crate::square::Square;
use crate::words::read_square;
use std::str;

/// The board that the first field says, or None where the field is refused, for its form or for what stands on the board.
pub(super) fn read_board(field: &[u8]) -> Option<[Option<Piece>; 64]>
    ensures { (cells : List (Option Piece)) → (result ≡ Some cells) ↔ ((board_text cells ≡ field.now) × IsBoard cells) }
{
    match read_cells(field) {
        Some(cells) if is_board(&cells) => Some(cells),
        _ => None,
    }
}

fn turn_of(field: &[u8]) -> Option<Colour>
    ensures { result ≡ turn_in field.now }
{
    match field {
        b"w" => Some(Colour::White),
        b"b" => Some(Colour::Black),
        _ => None,
    }
}

/// The side that the second field says, on this board.
pub(super) fn read_turn(field: &[u8], cells: &[Option<Piece>; 64]) -> Option<Colour>
    ensures { (turn : Colour) → (result ≡ Some turn) ↔ ((turn_text turn ≡ field.now) × (king_attacked cells.now (other turn) ≡ false)) }
{
    match turn_of(field) {
        Some(turn) if !is_king_attacked(cells, turn.other()) => Some(turn),
        _ => None,
    }
}

fn strip_letter(text: &[u8], letter: u8) -> (bool, &[u8])
    ensures first { result.0 ≡ has_first letter text.now }
    ensures rest { result.1.now ≡ past_first letter text.now }
{
    match text {
        [first, rest @ ..] if *first == letter => (true, rest),
        _ => (false, text),
    }
}

#[tactic(auto, unfolding(crate::specs::Reading::castlings_in))]
fn castlings_of(field: &[u8]) -> Option<Rights>
    ensures { result ≡ castlings_in field.now }
{
    let (white_short, rest) = strip_letter(field, b'K');
    let (white_long, rest) = strip_letter(rest, b'Q');
    let (black_short, rest) = strip_letter(rest, b'k');
    let (black_long, rest) = strip_letter(rest, b'q');
    if !rest.is_empty() {
        return None;
    }
    Some(Rights {
        white_short,
        white_long,
        black_short,
        black_long,
    })
}

fn rights_of(field: &[u8]) -> Option<Rights>
    ensures { result ≡ rights_in field.now }
{
    match field {
        [] => None,
        b"-" => Some(Rights {
            white_short: false,
            white_long: false,
            black_short: false,
            black_long: false,
        }),
        _ => castlings_of(field),
    }
}

/// The castlings that the third field says, on this board.
pub(super) fn read_rights(field: &[u8], cells: &[Option<Piece>; 64]) -> Option<Rights>
    ensures { (rights : Rights) → (result ≡ Some rights) ↔ ((rights_text rights ≡ field.now) × HoldsRights cells.now rights) }
{
    match rights_of(field) {
        Some(rights) if holds_rights(cells, rights) => Some(rights),
        _ => None,
    }
}

fn ep_of(field: &[u8]) -> Option<Option<Square>>
    ensures { result ≡ ep_in field.now }
{
    match field {
        b"-" => Some(None),
        [file, rank] => Some(Some(read_square(*file, *rank)?)),
        _ => None,
    }
}

/// The en passant square that the fourth field says, or that there is none, on this board and for this side.
pub(super) fn read_ep(
    field: &[u8],
    cells: &[Option<Piece>; 64],
    turn: Colour,
) -> Option<Option<Square>>
    ensures { (ep : Option ℕ) → (result ≡ Some ep) ↔ ((ep_text ep ≡ field.now) × IsTrue (ep_holds cells.now turn ep)) }
{
    match ep_of(field) {
        Some(None) => Some(None),
        Some(Some(square)) if is_just_crossed(cells, turn, square) => Some(Some(square)),
        _ => None,
    }
}

/// The number of 16 bits that the field is the decimal of: what its own number writes, so with no zero or sign in front.
pub(super) fn read_decimal(field: &[u8]) -> Option<u16>
    ensures { (n : ℕ) → (result ≡ Some n) ↔ ((decimal n ≡ field.now) × (n ≤ 65535)) }
{
    let Ok(text) = str::from_utf8(field) else {
        return None;
    };
    let Ok(n) = text.parse::<u16>() else {
        return None;
    };
    if write_decimal(n).as_str() == text {
        Some(n)
    } else {
        None
    }
}

/// The same for a number of at least 1.
pub(super) fn read_number(field: &[u8]) -> Option<u16>
    ensures { (n : ℕ) → (result ≡ Some n) ↔ ((decimal n ≡ field.now) × ((1 ≤ n) × (n ≤ 65535))) }
{
    match read_decimal(field) {
        Some(n) if n >= 1 => Some(n),
        _ => None,
    }
}
