use crate::{Past, bare_king, dead_material, fifty, positions_are_compared, seventy_five};
use board::{Colour, Position, read_fen};
use std::mem::size_of;
use std::process::Abort;

fn position(rt: &impl Abort, text: &str) -> Position {
    read_fen(text.as_bytes()).expect(rt, text)
}

#[test]
fn material_is_dead_where_no_mate_can_be_given(rt: HostRuntime) {
    for (text, dead) in [
        // kings alone
        ("4k3/8/8/8/8/8/8/4K3 w - - 0 1", true),
        // one knight or bishop, of either side
        ("4k3/8/8/8/8/8/8/4K1N1 w - - 0 1", true),
        ("4k1n1/8/8/8/8/8/8/4K3 b - - 0 1", true),
        ("4k3/8/8/8/8/8/8/4KB2 w - - 0 1", true),
        ("4kb2/8/8/8/8/8/8/4K3 w - - 0 1", true),
        // bishops on one colour: f1 and c8 are light, f8 and c1 dark
        ("2b1k3/8/8/8/8/8/8/4KB2 w - - 0 1", true),
        ("4kb2/8/8/8/8/8/8/2B1K3 w - - 0 1", true),
        ("2b1k3/3b4/8/8/8/8/4B3/4KB2 w - - 0 1", true),
        // bishops on both colours
        ("4kb2/8/8/8/8/8/8/4KB2 w - - 0 1", false),
        ("4k3/8/8/8/8/8/8/2B1KB2 w - - 0 1", false),
        ("2b1k3/8/8/8/8/8/8/2B1KB2 w - - 0 1", false),
        // two knights, or a knight and a bishop
        ("4k3/8/8/8/8/8/8/1N2K1N1 w - - 0 1", false),
        ("4k1n1/8/8/8/8/8/8/4K1N1 w - - 0 1", false),
        ("4k1n1/8/8/8/8/8/8/4KB2 w - - 0 1", false),
        ("4k3/8/8/8/8/8/8/4KBN1 w - - 0 1", false),
        // a pawn, a rook or a queen
        ("4k3/8/8/8/8/8/4P3/4K3 w - - 0 1", false),
        ("4k3/8/8/8/8/8/8/4K2R w - - 0 1", false),
        ("3qk3/8/8/8/8/8/8/4K3 b - - 0 1", false),
        ("4kb2/8/8/8/8/8/4P3/2B1K3 w - - 0 1", false),
        (
            "rnbqkbnr/pppppppp/8/8/8/8/PPPPPPPP/RNBQKBNR w KQkq - 0 1",
            false,
        ),
    ] {
        assert_eq!(rt; dead_material(&position(&rt, text)), dead, "at {text}");
    }
}

#[test]
fn a_king_is_bare_where_nothing_else_of_its_colour_is_left(rt: HostRuntime) {
    for (text, white, black) in [
        ("8/8/8/8/8/4k3/8/K6R w - - 0 1", false, true),
        ("4k3/8/8/8/8/8/8/4K3 w - - 0 1", true, true),
        ("4k3/4p3/8/8/8/8/8/4K3 w - - 0 1", true, false),
        (
            "rnbqkbnr/pppppppp/8/8/8/8/PPPPPPPP/RNBQKBNR w KQkq - 0 1",
            false,
            false,
        ),
    ] {
        let position = position(&rt, text);
        assert_eq!(rt;
            bare_king(&position, Colour::White),
            white,
            "White at {text}"
        );
        assert_eq!(rt;
            bare_king(&position, Colour::Black),
            black,
            "Black at {text}"
        );
    }
}

#[test]
fn moves_without_a_pawn_or_a_capture_are_counted_from_the_edge_on(rt: HostRuntime) {
    for (text, fifty_moves, seventy_five_moves) in [
        ("8/8/8/8/8/4k3/8/K6R w - - 0 1", false, false),
        ("8/8/8/8/8/4k3/8/K6R w - - 99 80", false, false),
        ("8/8/8/8/8/4k3/8/K6R w - - 100 80", true, false),
        ("8/8/8/8/8/4k3/8/K6R w - - 149 90", true, false),
        ("8/8/8/8/8/4k3/8/K6R w - - 150 90", true, true),
        ("8/8/8/8/8/4k3/8/K6R w - - 65535 65535", true, true),
    ] {
        let position = position(&rt, text);
        assert_eq!(rt; fifty(&position), fifty_moves, "at {text}");
        assert_eq!(rt; seventy_five(&position), seventy_five_moves, "at {text}");
    }
}

/// How often the second position has occurred, which has a half count of 0 or 1 and comes after the first.
fn count_of(rt: &impl Abort, first: &str, second: &str) -> u32 {
    let first = position(rt, first);
    let second = position(rt, second);
    assert!(rt; second.half() <= 1);
    let mut past = Past::new(&first);
    past.push(&second);
    past.count()
}

#[test]
fn a_position_has_occurred_where_all_but_its_counts_is_the_same(rt: HostRuntime) {
    for (first, second, count) in [
        (
            "r3k2r/8/8/8/8/8/8/R3K2R w KQkq - 0 1",
            "r3k2r/8/8/8/8/8/8/R3K2R w KQkq - 1 1",
            2,
        ),
        (
            "r3k2r/8/8/8/8/8/8/R3K2R w KQkq - 77 50",
            "r3k2r/8/8/8/8/8/8/R3K2R w KQkq - 1 9",
            2,
        ),
        // a castling is lost
        (
            "r3k2r/8/8/8/8/8/8/R3K2R w KQkq - 0 1",
            "r3k2r/8/8/8/8/8/8/R3K2R w Qkq - 1 1",
            1,
        ),
        (
            "r3k2r/8/8/8/8/8/8/R3K2R w KQkq - 0 1",
            "r3k2r/8/8/8/8/8/8/R3K2R w Kkq - 1 1",
            1,
        ),
        (
            "r3k2r/8/8/8/8/8/8/R3K2R w KQkq - 0 1",
            "r3k2r/8/8/8/8/8/8/R3K2R w KQq - 1 1",
            1,
        ),
        (
            "r3k2r/8/8/8/8/8/8/R3K2R w KQkq - 0 1",
            "r3k2r/8/8/8/8/8/8/R3K2R w KQk - 1 1",
            1,
        ),
        // the other side is to move
        (
            "r3k2r/8/8/8/8/8/8/R3K2R w KQkq - 0 1",
            "r3k2r/8/8/8/8/8/8/R3K2R b KQkq - 1 1",
            1,
        ),
        // another piece, another colour, another square
        (
            "4k3/8/8/8/8/8/8/R3K3 w - - 0 1",
            "4k3/8/8/8/8/8/8/Q3K3 w - - 1 1",
            1,
        ),
        (
            "4k3/8/8/8/8/8/8/R3K3 w - - 0 1",
            "4k3/8/8/8/r7/8/8/4K3 w - - 1 1",
            1,
        ),
        (
            "4k3/8/8/8/8/8/8/4K2N w - - 0 1",
            "4k2N/8/8/8/8/8/8/4K3 w - - 1 1",
            1,
        ),
        // an en passant square, or another one
        (
            "4k3/8/8/PpP5/8/8/8/4K3 w - b6 0 1",
            "4k3/8/8/PpP5/8/8/8/4K3 w - b6 1 1",
            2,
        ),
        (
            "4k3/8/8/PpP5/8/8/8/4K3 w - b6 0 1",
            "4k3/8/8/PpP5/8/8/8/4K3 w - - 1 1",
            1,
        ),
        (
            "4k3/8/8/PpPp4/8/8/8/4K3 w - b6 0 1",
            "4k3/8/8/PpPp4/8/8/8/4K3 w - d6 1 1",
            1,
        ),
        // the list starts anew
        (
            "r3k2r/8/8/8/8/8/8/R3K2R w KQkq - 0 1",
            "r3k2r/8/8/8/8/8/8/R3K2R w KQkq - 0 1",
            1,
        ),
    ] {
        assert_eq!(rt;
            count_of(&rt, first, second),
            count,
            "{first} and then {second}"
        );
    }
}

#[test]
fn a_past_is_small(rt: HostRuntime) {
    positions_are_compared();
    assert!(rt; size_of::<Past>() <= 5_152);
}
