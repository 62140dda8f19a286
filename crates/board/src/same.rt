ghost use Rattle.std.specs.Prelude.{◌≡◌, ◌↔◌, IsTrue};
ghost use Rattle.board.specs.Same.{same_board, same_rights, same_ep, same, IsSame};

use crate::parts::Rights;
use crate::placement::Placement;
use crate::position::Position;
use crate::square::Square;

/// Whether the same pieces stand on the same squares. It compares four numbers.
pub fn same_placement(a: &Placement, b: &Placement) -> bool
    ensures { result ≡ same_board a.now b.now }
{
    a.keeps();
    b.keeps();
    a == b
}

fn are_same_rights(a: Rights, b: Rights) -> bool
    ensures { result ≡ same_rights a b }
{
    a == b
}

fn are_same_ep(a: Option<Square>, b: Option<Square>) -> bool
    ensures { result ≡ same_ep a b }
{
    a == b
}

#[tactic(auto, unfolding(crate::specs::Same::same))]
fn are_same(a: &Position, b: &Position) -> bool
    ensures { result ≡ same a.now b.now }
{
    same_placement(&a.placement(), &b.placement())
        && a.turn() == b.turn()
        && are_same_rights(a.rights(), b.rights())
        && are_same_ep(a.ep(), b.ep())
}

/// Whether two positions are the same: the same pieces on the same squares, the same side to move, and the same castlings
/// and en passant square left (FIDE Laws of Chess, Article 9.2, where the square is kept only if a capture there is legal).
/// The counts do not matter.
pub fn same_cells(a: &Position, b: &Position) -> bool
    ensures is { result ≡ same a.now b.now }
    ensures means { IsTrue result ↔ IsSame a.now b.now }
{
    are_same(a, b)
}
