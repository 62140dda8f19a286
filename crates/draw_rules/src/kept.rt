ghost use Rattle.std.specs.Prelude.{◌≡◌, ◌<◌, ◌≤◌, length};
ghost use Rattle.draw_rules.specs.Appearance.{same_appearance, times_in, occurrences};
ghost use Rattle.draw_rules.specs.Packing.{with_pieces, in_step};

use crate::packed::Packed;
use board::{Placement, same_placement};

// Whether the two are kept of one position.
fn is_one(board: &Placement, rest: &Packed, other_board: &Placement, other_rest: &Packed) -> bool
    ensures { result ≡ same_appearance (with_pieces board.now rest.now) (with_pieces other_board.now other_rest.now) }
{
    same_placement(board, other_board) && rest.is_same(*other_rest)
}

fn times_in(boards: &[Placement], rest: &[Packed], board: &Placement, last: &Packed) -> usize
    requires { length boards.now ≡ length rest.now }
    ensures { result ≡ times_in (in_step boards.now rest.now) (with_pieces board.now last.now) }
{
    let mut times = 0;
    for i in 0..boards.len() {
        if is_one(&boards[i], &rest[i], board, last) {
            times += 1;
        }
    }
    times
}

/// How often the last one of the list stands in it.
pub(crate) fn occurrences(boards: &[Placement], rest: &[Packed]) -> u32
    requires in_step { length boards.now ≡ length rest.now }
    requires some { 0 < length boards.now }
    requires few { length boards.now ≤ 151 }
    ensures { result ≡ occurrences (in_step boards.now rest.now) }
{
    let last = boards.len() - 1;
    times_in(boards, rest, &boards[last], &rest[last]) as u32
}
