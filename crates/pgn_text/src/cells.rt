//! What SAN asks of a move beside its legality.

ghost use Rattle.std.specs.Prelude.{◌≡◌};
ghost use Rattle.board.specs.Cells.{is_kind};
ghost use Rattle.board.specs.Pawns.{is_ep};
ghost use Rattle.move_rules.specs.After.{is_pawn_move, is_en_passant, is_castling};
ghost use Rattle.pgn_text.specs.San.{captures, kind_at};

use board::{Kind, Move, Piece, Position, Square};

/// Whether a piece of this kind stands in the cell, of either side.
pub(crate) fn is_kind(cell: Option<Piece>, kind: Kind) -> bool
    ensures { result ≡ is_kind kind cell }
{
    match cell {
        None => false,
        Some(piece) => piece.kind == kind,
    }
}

/// The kind of what stands in the cell.
pub(crate) fn kind_at(cell: Option<Piece>) -> Kind
    ensures { result ≡ kind_at cell }
{
    match cell {
        None => Kind::Pawn,
        Some(piece) => piece.kind,
    }
}

/// Whether a pawn moves.
pub(crate) fn is_pawn_move(p: &Position, m: Move) -> bool
    ensures { result ≡ is_pawn_move p.now m }
{
    is_kind(p.at(m.from), Kind::Pawn)
}

/// Whether the king castles, which is his move of two squares.
pub(crate) fn is_castling(p: &Position, m: Move) -> bool
    ensures { result ≡ is_castling p.now m }
{
    is_kind(p.at(m.from), Kind::King) && m.from.distance(m.to) == 2
}

fn is_ep(s: Square, ep: Option<Square>) -> bool
    ensures { result ≡ is_ep s ep }
{
    match ep {
        None => false,
        Some(e) => s == e,
    }
}

fn is_en_passant(p: &Position, m: Move) -> bool
    ensures { result ≡ is_en_passant p.now m }
{
    is_pawn_move(p, m) && is_ep(m.to, p.ep()) && m.from.file() != m.to.file()
}

/// Whether the move captures, en passant too.
pub(crate) fn captures(p: &Position, m: Move) -> bool
    ensures { result ≡ captures p.now m }
{
    p.at(m.to).is_some() || is_en_passant(p, m)
}
