ghost use Rattle.std.specs.Prelude.{◌≡◌, ◌<◌};
ghost use Rattle.move_rules.specs.After.{touches, right_after, rights_after, ep_after, next_count, cells_after, half_after, number_after, after};
ghost use Rattle.board.specs.Position.{parts_of};

use crate::board_after::is_pawn_move;
use crate::cells::is_empty;
use crate::pawns::halfway_to;
use bitboards::Bits;
use board::{Colour, Move, Rights, Square, Status};

fn touches(m: Move, s: u8) -> bool
    ensures { result ≡ touches m s }
{
    m.from.index() == s || m.to.index() == s
}

fn right_after(m: Move, colour: Colour, file: u8, right: bool) -> bool
    requires { file < 8 }
    ensures { result ≡ right_after m colour file right }
{
    let home = colour.home().index();
    right && !touches(m, home + 4) && !touches(m, home + file)
}

#[tactic(auto, unfolding(crate::specs::After::rights_after))]
fn rights_after(p: &Bits, m: Move) -> Rights
    ensures { result ≡ rights_after p.now m }
{
    let rights = p.rights();
    Rights {
        white_short: right_after(m, Colour::White, 7, rights.white_short),
        white_long: right_after(m, Colour::White, 0, rights.white_long),
        black_short: right_after(m, Colour::Black, 7, rights.black_short),
        black_long: right_after(m, Colour::Black, 0, rights.black_long),
    }
}

#[tactic(auto, unfolding(crate::specs::After::ep_after))]
fn ep_after(p: &Bits, m: Move) -> Option<Square>
    ensures { result ≡ ep_after p.now m }
{
    if is_pawn_move(p, m) && m.from.ranks_to(m.to) == 2 {
        Some(halfway_to(m.from, m.to))
    } else {
        None
    }
}

fn next_count(n: u16) -> u16
    ensures { result ≡ next_count n }
{
    n.saturating_add(1)
}

#[tactic(auto, unfolding(crate::specs::After::half_after))]
fn half_after(p: &Bits, m: Move) -> u16
    ensures { result ≡ half_after p.now m }
{
    if is_pawn_move(p, m) || !is_empty(p, m.to) {
        0
    } else {
        next_count(p.status().half)
    }
}

fn number_after(colour: Colour, number: u16) -> u16
    ensures { result ≡ number_after colour number }
{
    match colour {
        Colour::White => number,
        Colour::Black => next_count(number),
    }
}

/// All that belongs to the position after a move beside what stands on the squares.
pub(crate) fn status_after(p: &Bits, m: Move) -> Status
    ensures { parts_of (cells_after p.now m) result ≡ after p.now m }
{
    Status {
        turn: p.turn().other(),
        rights: rights_after(p, m),
        ep: ep_after(p, m),
        half: half_after(p, m),
        number: number_after(p.turn(), p.status().number),
    }
}
