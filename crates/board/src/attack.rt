ghost use Rattle.std.specs.Prelude.{◌≡◌, ◌<◌, ◌≤◌, ◌+◌, is_none, IsTrue};
ghost use Rattle.board.specs.Square.{distance};
ghost use Rattle.board.specs.Attack.{piece_on, straight, diagonal, on_line, on_the_way, is_clear, knight_step, pawn_strike, strikes_as, strikes_from, attacked, king_attacked};

use crate::piece::{Colour, Kind, Piece, is_piece};
use crate::square::Square;

fn is_straight(a: Square, b: Square) -> bool
    ensures { result ≡ straight a b }
{
    a != b && (a.file() == b.file() || a.rank() == b.rank())
}

fn is_diagonal(a: Square, b: Square) -> bool
    ensures { result ≡ diagonal a b }
{
    a != b && a.files_to(b) == a.ranks_to(b)
}

fn is_knight_step(a: Square, b: Square) -> bool
    ensures { result ≡ knight_step a b }
{
    let across = a.files_to(b);
    let up = a.ranks_to(b);
    across == 1 && up == 2 || across == 2 && up == 1
}

/// Whether a pawn of this colour on `a` strikes `b`: one step diagonally forward (FIDE Laws of Chess, Article 3.7).
pub fn is_pawn_strike(colour: Colour, a: Square, b: Square) -> bool
    ensures { result ≡ pawn_strike colour a b }
{
    let next_file = a.files_to(b) == 1;
    match colour {
        Colour::White => next_file && b.rank() == a.rank() + 1,
        Colour::Black => next_file && a.rank() == b.rank() + 1,
    }
}

/// Whether two squares lie on one file, rank or diagonal.
pub fn is_on_line(a: Square, b: Square) -> bool
    ensures { result ≡ on_line a b }
{
    is_straight(a, b) || is_diagonal(a, b)
}

/// The square after `i` steps along the line from one square to another. The clauses behind the first one say that this is
/// so: it lies that many king's steps from the one and those that are left from the other, on the same kind of line.
pub fn square_between(from: Square, to: Square, i: u8) -> Square
    requires line { IsTrue (on_line from to) }
    requires within { i ≤ distance from to }
    ensures is { result ≡ on_the_way from to (distance from to) i }
    ensures steps { distance from result ≡ i }
    ensures left { distance result to + i ≡ distance from to }
    ensures straight { IsTrue (straight from to) → 0 < i → IsTrue (straight from result) }
    ensures diagonal { IsTrue (diagonal from to) → 0 < i → IsTrue (diagonal from result) }
{
    let steps = from.distance(to) as u16;
    let from = from.index() as u16;
    let to = to.index() as u16;
    let i = i as u16;
    Square(((from * (steps - i) + to * i) / steps) as u8)
}

fn is_empty(cells: &[Option<Piece>; 64], s: Square) -> bool
    ensures { result ≡ is_none (piece_on cells.now s) }
{
    cells[s.index() as usize].is_none()
}

#[tactic(auto, unfolding(crate::specs::Attack::is_clear))]
fn is_way_clear(cells: &[Option<Piece>; 64], a: Square, b: Square) -> bool
    requires { IsTrue (on_line a b) }
    ensures { result ≡ is_clear cells.now a b }
{
    let steps = a.distance(b);
    (1..steps).all(|i| is_empty(cells, square_between(a, b, i)))
}

/// Whether a piece, put on the square `a`, strikes the square `b` there, as it moves by the FIDE Laws of Chess, Articles 3.2
/// to 3.8: bishop, rook and queen along lines and over no piece, knight and king by a step, a pawn diagonally forward. What
/// stands on `b` does not matter.
#[tactic(auto, unfolding(crate::specs::Attack::strikes_as))]
pub fn piece_strikes(cells: &[Option<Piece>; 64], piece: Piece, a: Square, b: Square) -> bool
    ensures { result ≡ strikes_as cells.now piece.kind piece.colour a b }
{
    match piece.kind {
        Kind::Pawn => is_pawn_strike(piece.colour, a, b),
        Kind::Knight => is_knight_step(a, b),
        Kind::Bishop => is_diagonal(a, b) && is_way_clear(cells, a, b),
        Kind::Rook => is_straight(a, b) && is_way_clear(cells, a, b),
        Kind::Queen => is_on_line(a, b) && is_way_clear(cells, a, b),
        Kind::King => a.distance(b) == 1,
    }
}

#[tactic(auto, unfolding(crate::specs::Attack::strikes_from))]
fn square_strikes(cells: &[Option<Piece>; 64], by: Colour, b: Square, a: Square) -> bool
    ensures { result ≡ strikes_from cells.now by b a }
{
    match cells[a.index() as usize] {
        None => false,
        Some(piece) => piece.colour == by && piece_strikes(cells, piece, a, b),
    }
}

#[tactic(auto, unfolding(crate::specs::Attack::attacked))]
pub(crate) fn is_attacked(cells: &[Option<Piece>; 64], s: Square, by: Colour) -> bool
    ensures { result ≡ attacked cells.now s by }
{
    (0..64).any(|a| square_strikes(cells, by, s, Square::of(a)))
}

#[tactic(auto, unfolding(crate::specs::Attack::king_attacked))]
pub(crate) fn is_king_attacked(cells: &[Option<Piece>; 64], colour: Colour) -> bool
    ensures { result ≡ king_attacked cells.now colour }
{
    let by = colour.other();
    (0..64).any(|s| {
        is_piece(cells[s as usize], colour, Kind::King) && is_attacked(cells, Square::of(s), by)
    })
}
