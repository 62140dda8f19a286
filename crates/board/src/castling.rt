ghost use Rattle.std.specs.Prelude.{◌≡◌, ◌+◌, ◌≤◌};
ghost use Rattle.board.specs.Castling.{short_right, long_right, all_empty, all_safe, castles_short, castles_long, castles};

use crate::cells::is_empty;
use crate::parts::{Parts, Rights};
use crate::piece::Colour;
use crate::square::Square;

fn short_right_of(colour: Colour, rights: Rights) -> bool
    ensures { result ≡ short_right colour rights }
{
    match colour {
        Colour::White => rights.white_short,
        Colour::Black => rights.black_short,
    }
}

fn long_right_of(colour: Colour, rights: Rights) -> bool
    ensures { result ≡ long_right colour rights }
{
    match colour {
        Colour::White => rights.white_long,
        Colour::Black => rights.black_long,
    }
}

fn are_empty(p: &Parts, s: u8, n: u8) -> bool
    requires { s + n ≤ 64 }
    ensures { result ≡ all_empty p.now.cells s n }
{
    (s..s + n).all(|k| is_empty(p, Square::of(k)))
}

fn are_safe(p: &Parts, s: u8, n: u8) -> bool
    requires { s + n ≤ 64 }
    ensures { result ≡ all_safe p.now.cells p.now.turn s n }
{
    let by = p.turn.other();
    (s..s + n).all(|k| !p.attacked(Square::of(k), by))
}

fn castles_short(p: &Parts, a: Square, b: Square) -> bool
    ensures { result ≡ castles_short p.now a b }
{
    let home = p.turn.home().index();
    short_right_of(p.turn, p.rights)
        && a.index() == home + 4
        && b.index() == home + 6
        && are_empty(p, home + 5, 2)
        && are_safe(p, home + 4, 3)
}

fn castles_long(p: &Parts, a: Square, b: Square) -> bool
    ensures { result ≡ castles_long p.now a b }
{
    let home = p.turn.home().index();
    long_right_of(p.turn, p.rights)
        && a.index() == home + 4
        && b.index() == home + 2
        && are_empty(p, home + 1, 3)
        && are_safe(p, home + 2, 3)
}

/// Whether the king of the side to move castles from `a` to `b`: neither he nor that rook has moved, nothing stands between
/// them, and he is not in check, crosses no attacked square and comes to none (FIDE Laws of Chess, Article 3.8.2).
pub(crate) fn castles(p: &Parts, a: Square, b: Square) -> bool
    ensures { result ≡ castles p.now a b }
{
    castles_short(p, a, b) || castles_long(p, a, b)
}
