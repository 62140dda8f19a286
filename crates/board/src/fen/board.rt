ghost use Rattle.std.specs.Prelude.{◌≡◌, ◌+◌, ◌*◌, ◌<◌, length, replicate, MatchBool, Some, None};
ghost use Rattle.board.specs.Reading.{is_run, piece_in, rank_in, ranks_in};

use super::cut::cut;
use crate::piece::{Colour, Piece};
use crate::words::kind_of;

#[tactic(auto, unfolding(crate::specs::Reading::piece_in))]
fn piece_of(letter: u8) -> Option<Piece>
    ensures { result ≡ piece_in letter }
{
    let (colour, small) = if letter < b'a' {
        (Colour::White, letter + 32)
    } else {
        (Colour::Black, letter)
    };
    let kind = kind_of(small)?;
    Some(Piece { colour, kind })
}

fn is_run(b: u8) -> bool
    ensures { result ≡ is_run b }
{
    b'1' <= b && b <= b'8'
}

/// Reads so many cells of a rank, which are empty before, and says whether the text is theirs.
#[tactic(auto, unfolding(crate::specs::Reading::rank_in))]
fn read_rank(text: &[u8], after_digit: bool, cells: &mut [Option<Piece>]) -> bool
    requires { cells.old ≡ replicate (length cells.old) None }
    ensures { MatchBool result (rank_in (length cells.old) after_digit text.now ≡ Some cells.new) (rank_in (length cells.old) after_digit text.now ≡ None) }
{
    match text {
        [] => cells.is_empty(),
        [b, rest @ ..] => {
            if is_run(*b) {
                let empty = (*b - b'0') as usize;
                if after_digit || empty > cells.len() {
                    return false;
                }
                read_rank(rest, true, &mut cells[empty..])
            } else {
                if cells.is_empty() {
                    return false;
                }
                let Some(piece) = piece_of(*b) else {
                    return false;
                };
                cells[0] = Some(piece);
                read_rank(rest, false, &mut cells[1..])
            }
        }
    }
}

/// Reads the ranks from this one down to the first into cells that are empty before, and says whether the text is theirs.
#[tactic(auto, unfolding(crate::specs::Reading::ranks_in))]
fn read_ranks(text: &[u8], rank: usize, cells: &mut [Option<Piece>]) -> bool
    requires on_board { rank < 8 }
    requires size { length cells.old ≡ 8 * rank + 8 }
    requires empty { cells.old ≡ replicate (length cells.old) None }
    ensures { MatchBool result (ranks_in rank text.now ≡ Some cells.new) (ranks_in rank text.now ≡ None) }
{
    if rank == 0 {
        return read_rank(text, false, cells);
    }
    let (line, rest) = cut(text, b'/');
    let (below, here) = cells.split_at_mut(8 * rank);
    if !read_rank(line, false, here) {
        return false;
    }
    read_ranks(rest, rank - 1, below)
}

/// The 64 cells that the text says, or None where it is the text of no 64 cells.
pub(super) fn read_cells(text: &[u8]) -> Option<[Option<Piece>; 64]>
    ensures { result ≡ ranks_in 7 text.now }
{
    let mut cells = [None; 64];
    if read_ranks(text, 7, &mut cells) {
        Some(cells)
    } else {
        None
    }
}
