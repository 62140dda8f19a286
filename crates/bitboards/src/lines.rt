ghost use Rattle.std.specs.Prelude.{◌<◌, ◌&&◌, nat_lt};
ghost use Rattle.board.specs.Attack.{straight, diagonal};
ghost use Rattle.board.specs.Sets.{IsSetOf, has};
ghost use Rattle.bitboards.specs.Lines.{open_between, reached_on, same_file, same_rank, same_rising, same_falling, is_open};

use crate::squares::{first_square, last_square, squares_from, squares_to};
use crate::tables::{FALLING, RISING};
use board::Square;

fn file_line(s: Square) -> u64
    ensures is { IsSetOf result (same_file s) }
    ensures on_board { s < 64 }
{
    0x0101_0101_0101_0101 << (s.index() % 8)
}

fn rank_line(s: Square) -> u64
    ensures is { IsSetOf result (same_rank s) }
    ensures on_board { s < 64 }
{
    0xff << (8 * (s.index() / 8))
}

fn rising_line(s: Square) -> u64
    ensures is { IsSetOf result (same_rising s) }
    ensures on_board { s < 64 }
{
    let s = s.index() as usize;
    RISING[s / 8 + 7 - s % 8]
}

fn falling_line(s: Square) -> u64
    ensures is { IsSetOf result (same_falling s) }
    ensures on_board { s < 64 }
{
    let s = s.index() as usize;
    FALLING[s / 8 + s % 8]
}

// The squares of a line behind s, up to the first that is occupied.
fn reach_up(line: u64, occupied: u64, s: Square) -> u64
    ensures { IsSetOf result (λ t. has line t && nat_lt s t && open_between line occupied s t) }
{
    let above = line & !squares_to(s);
    let blockers = above & occupied;
    if blockers == 0 {
        above
    } else {
        above & squares_to(first_square(blockers))
    }
}

// The squares of a line before s, down to the first that is occupied.
fn reach_down(line: u64, occupied: u64, s: Square) -> u64
    ensures { IsSetOf result (λ t. has line t && nat_lt t s && open_between line occupied s t) }
{
    let below = line & !squares_from(s);
    let blockers = below & occupied;
    if blockers == 0 {
        below
    } else {
        below & squares_from(last_square(blockers))
    }
}

fn reach_on(line: u64, occupied: u64, s: Square) -> u64
    ensures { IsSetOf result (reached_on line occupied s) }
{
    reach_up(line, occupied, s) | reach_down(line, occupied, s)
}

/// Where a rook on `s` comes: along file and rank up to the first square that is occupied, and onto it.
pub fn straight_reach(occupied: u64, s: Square) -> u64
    ensures { IsSetOf result (λ t. straight s t && is_open occupied s t) }
{
    reach_on(file_line(s), occupied, s) | reach_on(rank_line(s), occupied, s)
}

/// Where a bishop on `s` comes: along the diagonals up to the first square that is occupied, and onto it.
pub fn diagonal_reach(occupied: u64, s: Square) -> u64
    ensures { IsSetOf result (λ t. diagonal s t && is_open occupied s t) }
{
    reach_on(rising_line(s), occupied, s) | reach_on(falling_line(s), occupied, s)
}
