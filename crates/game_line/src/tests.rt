ghost use Rattle.std.specs.Prelude.{◌≡◌, length};

use crate::{
    half_counts_are_quiet, kept_positions, lines_of_moves, nothing_is_undone, repetitions_are_kept,
    what_is_repeated,
};
use board::{Position, read_fen, read_move, same_cells};
use draw_rules::Past;
use move_rules::{canonical, is_legal, make};
use std::process::Abort;
use std::test::Fail;

/// Adds a canonical position to a list of so many, and says how many there are then.
fn push(rt: &impl Abort, past: &mut Past, kept: u16, next: &Position) -> u16
    requires { length past.old ≡ kept }
    ensures { length past.new ≡ result }
{
    assert!(rt; next.half() == 0 || next.half() == kept);
    assert!(rt; next.half() <= 150);
    past.push(next);
    if next.half() == 0 { 1 } else { kept + 1 }
}

/// How often the last of the positions stands among them.
fn times(line: &[Position]) -> usize {
    match line.last() {
        None => 0,
        Some(last) => line.iter().filter(|p| same_cells(p, last)).count(),
    }
}

/// The position after a legal move.
fn after(rt: &impl Abort, position: &Position, word: &str) -> Position {
    let m = read_move(word.as_bytes()).expect(rt, word);
    assert!(rt; is_legal(position, m), "{word}");
    make(position, m)
}

/// At each ply of these lines the list that is kept counts as the whole line does.
#[test]
fn the_kept_positions_count_as_the_whole_line(rt: HostRuntime) -> Result<(), Fail> {
    for (moves, count, half) in [
        // the position after the double step occurs for the fifth time, since no pawn may capture it
        (
            "e2e4 e7e5 d2d4 d7d5 g1f3 g8f6 f3g1 f6g8 g1f3 g8f6 f3g1 f6g8 \
             g1f3 g8f6 f3g1 f6g8 g1f3 g8f6 f3g1 f6g8",
            5,
            16,
        ),
        (
            "e2e4 e7e5 d2d4 d7d5 g1f3 g8f6 f3g1 f6g8 g1f3 g8f6 f3g1",
            2,
            7,
        ),
        // after the double step a pawn may capture en passant, and later not
        ("e2e4 a7a6 e4e5 d7d5 b1c3 b8c6 c3b1 c6b8", 1, 4),
        (
            "e2e4 a7a6 e4e5 d7d5 b1c3 b8c6 c3b1 c6b8 b1c3 b8c6 c3b1 c6b8",
            2,
            8,
        ),
        // the kings lose their castlings when they move
        ("e2e4 e7e5 e1e2 e8e7 e2e1 e7e8", 1, 4),
        ("e2e4 e7e5 e1e2 e8e7 e2e1 e7e8 e1e2 e8e7 e2e1 e7e8", 2, 8),
        // a capture begins the list anew
        ("g1f3 g8f6 f3e5 f6g8 e5d7 c8d7", 1, 0),
    ] {
        let mut line = Vec::new(rt.alloc());
        let mut position = Position::start();
        let mut past = Past::new(&canonical(&position));
        let mut kept = 1u16;
        line.push(canonical(&position))?;
        for word in moves.split(' ') {
            position = after(&rt, &position, word);
            let next = canonical(&position);
            kept = push(&rt, &mut past, kept, &next);
            line.push(next)?;
            assert_eq!(rt;
                past.count() as usize,
                times(&line),
                "after {word} of {moves}"
            );
        }
        assert_eq!(rt; past.count(), count, "{moves}");
        assert_eq!(rt; position.half(), half, "{moves}");
    }
    Ok(())
}

/// What the laws say is proved; here they are called, and do nothing.
#[test]
fn the_laws_can_be_called() {
    lines_of_moves();
    half_counts_are_quiet();
    nothing_is_undone();
    what_is_repeated();
    repetitions_are_kept();
    kept_positions();
}

/// White's pawn is pinned along the rank as far as an en passant capture goes, so that the square makes no other position.
#[test]
fn an_en_passant_square_that_no_move_uses_does_not_count(rt: HostRuntime) -> Result<(), Fail> {
    let first = read_fen(b"8/8/8/KPp4r/8/8/8/4k3 w - c6 0 1")?;
    let again = read_fen(b"8/8/8/KPp4r/8/8/8/4k3 w - - 1 2")?;
    assert_eq!(rt; again.half(), 1);
    let mut past = Past::new(&canonical(&first));
    let kept = push(&rt, &mut past, 1, &canonical(&again));
    assert_eq!(rt; kept, 2);
    assert_eq!(rt; past.count(), 2);
    assert!(rt; !same_cells(&first, &again));
    Ok(())
}
