ghost use Rattle.std.specs.Prelude.{◌≡◌, slice_set};
ghost use Rattle.move_rules.specs.After.{is_pawn_move, is_en_passant, is_castling, arriving_cell, moved_cells, passed_pawn, rook_moved_cells, castled_cells, cells_after};

use crate::cells::is_kind;
use crate::pawns::is_ep;
use bitboards::Bits;
use board::{Kind, Move, Piece, Placement, Square};

/// Whether a pawn moves.
pub(crate) fn is_pawn_move(p: &Bits, m: Move) -> bool
    ensures { result ≡ is_pawn_move p.now m }
{
    is_kind(p.at(m.from), Kind::Pawn)
}

/// Whether a pawn goes to the en passant square from another file.
pub(crate) fn is_en_passant(p: &Bits, m: Move) -> bool
    ensures { result ≡ is_en_passant p.now m }
{
    is_pawn_move(p, m) && is_ep(m.to, p.ep()) && m.from.file() != m.to.file()
}

fn is_castling(p: &Bits, m: Move) -> bool
    ensures { result ≡ is_castling p.now m }
{
    is_kind(p.at(m.from), Kind::King) && m.from.distance(m.to) == 2
}

fn arriving_cell(p: &Bits, m: Move) -> Option<Piece>
    ensures { result ≡ arriving_cell p.now m }
{
    match m.promo {
        None => p.at(m.from),
        Some(kind) => Some(Piece {
            colour: p.turn(),
            kind,
        }),
    }
}

fn moved_cells(p: &Bits, m: Move) -> Placement
    ensures { result ≡ moved_cells p.now m }
{
    let left = p.placement().with(m.from, None);
    left.with(m.to, arriving_cell(p, m))
}

fn rook_moved_cells(cells: Placement, a: Square, b: Square) -> Placement
    ensures { result ≡ rook_moved_cells cells a b }
{
    let rook = cells.at(a);
    let left = cells.with(a, None);
    left.with(b, rook)
}

fn castled_cells(p: &Bits, m: Move) -> Placement
    ensures { result ≡ castled_cells p.now m }
{
    let cells = moved_cells(p, m);
    let home = p.turn().home().index();
    if m.from.index() < m.to.index() {
        rook_moved_cells(cells, Square::of(home + 7), Square::of(home + 5))
    } else {
        rook_moved_cells(cells, Square::of(home), Square::of(home + 3))
    }
}

fn en_passant_cells(p: &Bits, m: Move) -> Placement
    ensures { result ≡ slice_set (moved_cells p.now m) (passed_pawn m) None }
{
    let passed = Square::at(m.to.file(), m.from.rank());
    moved_cells(p, m).with(passed, None)
}

/// The board after a move: a captured piece is off it (FIDE Laws of Chess, Articles 3.1.1 and 3.7.3.1), a promoted pawn is
/// what it has become (3.7.3.3 to 3.7.3.5), and in castling the rook has come to the king's other side (3.8.2).
#[tactic(auto, unfolding(crate::specs::After::cells_after))]
pub(crate) fn cells_after(p: &Bits, m: Move) -> Placement
    ensures { result ≡ cells_after p.now m }
{
    if is_en_passant(p, m) {
        en_passant_cells(p, m)
    } else if is_castling(p, m) {
        castled_cells(p, m)
    } else {
        moved_cells(p, m)
    }
}
