ghost use Rattle.std.specs.Prelude.{◌≡◌, ◌<◌, ◌&&◌, ◌||◌, ◌==◌, ℕ};
ghost use Rattle.board.specs.Sets.{IsSetOf};
ghost use Rattle.board.specs.Pawns.{ahead, pawn_rank, is_ep, single_step, double_step, pawn_capture, pawn_reaches};

use crate::bits::Bits;
use crate::squares::square_set;
use crate::steps::pawn_strikes;
use board::{Colour, Square};

// The square one rank ahead, if there is one.
fn one_ahead(colour: Colour, s: Square) -> u64
    ensures is { IsSetOf result (ahead colour 1 s) }
    ensures on_board { s < 64 }
{
    let square = 1 << s.index();
    match colour {
        Colour::White => square << 8,
        Colour::Black => square >> 8,
    }
}

fn two_ahead(colour: Colour, s: Square) -> u64
    ensures { IsSetOf result (ahead colour 2 s) }
{
    let square = 1 << s.index();
    match colour {
        Colour::White => square << 16,
        Colour::Black => square >> 16,
    }
}

fn pawn_rank_of(colour: Colour) -> u8
    ensures { result ≡ pawn_rank colour }
{
    match colour {
        Colour::White => 1,
        Colour::Black => 6,
    }
}

fn ep_set(ep: Option<Square>) -> u64
    ensures { IsSetOf result (λ t. is_ep t ep) }
{
    match ep {
        None => 0,
        Some(s) => square_set(s),
    }
}

fn single_steps(bits: &Bits, from: Square) -> u64
    ensures is { IsSetOf result (single_step bits.now from) }
    ensures on_board { from < 64 }
{
    one_ahead(bits.turn(), from) & !bits.placement().occupied()
}

fn double_steps(bits: &Bits, from: Square) -> u64
    ensures { IsSetOf result (double_step bits.now from) }
{
    if from.rank() == pawn_rank_of(bits.turn()) && single_steps(bits, from) != 0 {
        two_ahead(bits.turn(), from) & !bits.placement().occupied()
    } else {
        0
    }
}

fn captures(bits: &Bits, from: Square) -> u64
    ensures { IsSetOf result (pawn_capture bits.now from) }
{
    let enemies = bits.placement().of_colour(bits.turn().other());
    pawn_strikes(bits.turn(), from) & (enemies | ep_set(bits.ep()))
}

/// Where a pawn of the side to move goes from a square: one square ahead, two from where it started, or diagonally where it
/// captures, en passant too (FIDE Laws of Chess, Articles 3.7.1 to 3.7.3.2).
pub(crate) fn pawn_targets(bits: &Bits, from: Square) -> u64
    ensures { IsSetOf result (pawn_reaches bits.now from) }
{
    single_steps(bits, from) | double_steps(bits, from) | captures(bits, from)
}
