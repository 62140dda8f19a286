ghost use Rattle.std.specs.Prelude.{◌≡◌, ◌↔◌, ◌≤◌, ◌<◌, ◌+◌, Some, IsTrue, count_by};
ghost use Rattle.std.specs.List.{list_all, range_with_len};
ghost use Rattle.board.specs.Piece.{is_piece};
ghost use Rattle.board.specs.Attack.{piece_on};
ghost use Rattle.board.specs.Position.{is_pawnless, IsBoard, right_holds, HoldsRights, ep_holds};

use crate::parts::Rights;
use crate::piece::{Colour, Kind, Piece, is_piece};
use crate::square::Square;

fn is_piece_on(cells: &[Option<Piece>; 64], s: u8, colour: Colour, kind: Kind) -> bool
    requires { s < 64 }
    ensures { result ≡ is_piece colour kind (piece_on cells.now s) }
{
    is_piece(cells[s as usize], colour, kind)
}

fn has_one_king(cells: &[Option<Piece>; 64], colour: Colour) -> bool
    ensures { IsTrue result ↔ (count_by (is_piece colour Kind.King) cells.now ≡ 1) }
{
    let kings = cells
        .iter()
        .filter(|cell| is_piece(**cell, colour, Kind::King))
        .count();
    kings == 1
}

fn is_pawnless(cells: &[Option<Piece>; 64], s: u8) -> bool
    requires { s < 64 }
    ensures { result ≡ is_pawnless cells.now s }
{
    !is_piece_on(cells, s, Colour::White, Kind::Pawn)
        && !is_piece_on(cells, s, Colour::Black, Kind::Pawn)
}

fn has_no_pawns(cells: &[Option<Piece>; 64], first: u8) -> bool
    requires { first ≤ 56 }
    ensures { result ≡ list_all (is_pawnless cells.now) (range_with_len first 8) }
{
    (first..first + 8).all(|s| is_pawnless(cells, s))
}

/// Whether there is one king on each side and no pawn on the first or last rank.
pub(crate) fn is_board(cells: &[Option<Piece>; 64]) -> bool
    ensures { IsTrue result ↔ IsBoard cells.now }
{
    has_one_king(cells, Colour::White)
        && has_one_king(cells, Colour::Black)
        && has_no_pawns(cells, 0)
        && has_no_pawns(cells, 56)
}

fn right_holds(cells: &[Option<Piece>; 64], colour: Colour, file: u8, right: bool) -> bool
    requires { file < 8 }
    ensures { result ≡ right_holds cells.now colour file right }
{
    let home = colour.home().index();
    !right
        || is_piece_on(cells, home + 4, colour, Kind::King)
            && is_piece_on(cells, home + file, colour, Kind::Rook)
}

/// Whether king and rook stand at home for each castling that is left.
pub(crate) fn holds_rights(cells: &[Option<Piece>; 64], rights: Rights) -> bool
    ensures { IsTrue result ↔ HoldsRights cells.now rights }
{
    right_holds(cells, Colour::White, 7, rights.white_short)
        && right_holds(cells, Colour::White, 0, rights.white_long)
        && right_holds(cells, Colour::Black, 7, rights.black_short)
        && right_holds(cells, Colour::Black, 0, rights.black_long)
}

/// Whether an enemy pawn can just have crossed the square by its double step.
pub(crate) fn is_just_crossed(cells: &[Option<Piece>; 64], turn: Colour, square: Square) -> bool
    ensures { result ≡ ep_holds cells.now turn (Some square) }
{
    let e = square.index();
    match turn {
        Colour::White => {
            square.rank() == 5
                && cells[e as usize].is_none()
                && cells[e as usize + 8].is_none()
                && is_piece_on(cells, e - 8, Colour::Black, Kind::Pawn)
        }
        Colour::Black => {
            square.rank() == 2
                && cells[e as usize].is_none()
                && cells[e as usize - 8].is_none()
                && is_piece_on(cells, e + 8, Colour::White, Kind::Pawn)
        }
    }
}
