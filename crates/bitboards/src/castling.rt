ghost use Rattle.std.specs.Prelude.{◌≡◌, ◌+◌, ◌≤◌, ◌&&◌, ◌==◌};
ghost use Rattle.board.specs.Position.{home};
ghost use Rattle.board.specs.Sets.{IsSetOf};
ghost use Rattle.board.specs.Castling.{short_right, long_right, all_empty, all_safe, castles_short, castles_long, castles};

use crate::bits::Bits;
use crate::squares::square_set;
use board::{Colour, Rights, Square};

fn short_right_of(colour: Colour, rights: Rights) -> bool
    ensures { result ≡ short_right colour rights }
{
    match colour {
        Colour::White => rights.white_short,
        Colour::Black => rights.black_short,
    }
}

fn long_right_of(colour: Colour, rights: Rights) -> bool
    ensures { result ≡ long_right colour rights }
{
    match colour {
        Colour::White => rights.white_long,
        Colour::Black => rights.black_long,
    }
}

fn are_empty(bits: &Bits, s: u8, n: u8) -> bool
    requires { s + n ≤ 64 }
    ensures { result ≡ all_empty bits.now.cells s n }
{
    let placement = bits.placement();
    (s..s + n).all(|k| placement.at(Square::of(k)).is_none())
}

fn are_safe(bits: &Bits, s: u8, n: u8) -> bool
    requires { s + n ≤ 64 }
    ensures { result ≡ all_safe bits.now.cells bits.now.turn s n }
{
    let by = bits.turn().other();
    (s..s + n).all(|k| !bits.attacked(Square::of(k), by))
}

fn castles_short(bits: &Bits, from: Square) -> bool
    ensures { let h = home bits.now.turn
        in result ≡ (short_right bits.now.turn bits.now.rights && (from == h + 4) && all_empty bits.now.cells (h + 5) 2 && all_safe bits.now.cells bits.now.turn (h + 4) 3) }
{
    let home = bits.turn().home().index();
    short_right_of(bits.turn(), bits.rights())
        && from.index() == home + 4
        && are_empty(bits, home + 5, 2)
        && are_safe(bits, home + 4, 3)
}

fn castles_long(bits: &Bits, from: Square) -> bool
    ensures { let h = home bits.now.turn
        in result ≡ (long_right bits.now.turn bits.now.rights && (from == h + 4) && all_empty bits.now.cells (h + 1) 3 && all_safe bits.now.cells bits.now.turn (h + 2) 3) }
{
    let home = bits.turn().home().index();
    long_right_of(bits.turn(), bits.rights())
        && from.index() == home + 4
        && are_empty(bits, home + 1, 3)
        && are_safe(bits, home + 2, 3)
}

// The square as a set, if it is wanted.
fn set_if(wanted: bool, s: Square) -> u64
    ensures { IsSetOf result (λ t. wanted && (t == s)) }
{
    if wanted { square_set(s) } else { 0 }
}

/// Where the king of the side to move castles from a square (FIDE Laws of Chess, Article 3.8.2).
pub(crate) fn castling_targets(bits: &Bits, from: Square) -> u64
    ensures { IsSetOf result (castles bits.now from) }
{
    let home = bits.turn().home().index();
    set_if(castles_short(bits, from), Square::of(home + 6))
        | set_if(castles_long(bits, from), Square::of(home + 2))
}
