ghost use Rattle.std.specs.Prelude.{◌≡◌, ◌↔◌, IsTrue};
ghost use Rattle.move_rules.specs.Legal.{legal, in_check};
ghost use Rattle.move_rules.specs.Lists.{SomeMove};
ghost use Rattle.move_rules.specs.Standing.{state_of};

use crate::any_move::has_legal_move;
use crate::standing::State;
use bitboards::{Bits, is_king_attacked};
use board::Position;

/// Whether the king of the side to move is attacked (FIDE Laws of Chess, Article 3.9.1).
pub fn in_check(p: &Position) -> bool
    ensures { result ≡ in_check p.now }
{
    is_king_attacked(&p.placement(), p.turn())
}

fn standing_of(p: &Position) -> State
    ensures { result ≡ state_of p.now }
{
    if has_legal_move(&Bits::of_position(p)) {
        State::Going
    } else if in_check(p) {
        State::Mate
    } else {
        State::Stalemate
    }
}

/// How the game stands by this position: it goes on while the side to move has a legal move. Without one it is checkmate
/// where that side is in check (FIDE Laws of Chess, Article 5.1.1), and stalemate where it is not (5.2.1).
#[tactic(auto, using(crate::proofs::Standings::going_means))]
pub fn state(p: &Position) -> State
    ensures is { result ≡ state_of p.now }
    ensures going { (result ≡ State.Going) ↔ SomeMove (λ m. IsTrue (legal p.now m)) }
{
    standing_of(p)
}
