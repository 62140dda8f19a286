use crate::{State, canonical, ep_legal, in_check, is_legal, legal_moves, make, state};
use board::{Position, read_fen, read_move, write_fen, write_move};
use std::alloc::{AllocError, Global};
use std::test::Fail;

const START: &str = "rnbqkbnr/pppppppp/8/8/8/8/PPPPPPPP/RNBQKBNR w KQkq - 0 1";

/// Castlings on both sides, pins and captures en passant.
const CROWDED: &str = "r3k2r/p1ppqpb1/bn2pnp1/3PN3/1p2P3/2N2Q1p/PPPBBPPP/R3K2R w KQkq - 0 1";

/// White's pawn is pinned along the rank as far as an en passant capture goes.
const PINNED: &str = "8/8/8/KPp4r/8/8/8/4k3 w - c6 0 1";

/// How many lines of play there are of so many plies.
fn lines_of_play(alloc: Global, p: &Position, plies: u8) -> Result<u64, AllocError> {
    let moves = legal_moves(alloc, p)?;
    if plies <= 1 {
        return Ok(moves.len() as u64);
    }
    let mut lines = 0u64;
    for m in moves.iter() {
        let further = lines_of_play(alloc, &make(p, *m), plies - 1)?;
        lines = lines.saturating_add(further);
    }
    Ok(lines)
}

/// The numbers are those that programs of chess are tried on, from elsewhere.
#[test]
fn lines_of_play_are_as_many_as_are_known(rt: HostRuntime) -> Result<(), Fail> {
    for (fen, plies, lines) in [
        (START, 1, 20),
        (START, 2, 400),
        (START, 3, 8902),
        (CROWDED, 1, 48),
        (CROWDED, 2, 2039),
        ("8/2p5/3p4/KP5r/1R3p1k/8/4P1P1/8 w - - 0 1", 3, 2812),
        (
            "r3k2r/Pppp1ppp/1b3nbN/nP6/BBP1P3/q4N2/Pp1P2PP/R2Q1RK1 w kq - 0 1",
            2,
            264,
        ),
        (
            "rnbq1k1r/pp1Pbppp/2p5/8/2B5/8/PPP1NnPP/RNBQK2R w KQ - 1 8",
            2,
            1486,
        ),
        (
            "r4rk1/1pp1qppp/p1np1n2/2b1p1B1/2B1P1b1/P1NP1N2/1PP1QPPP/R4RK1 w - - 0 10",
            2,
            2079,
        ),
    ] {
        let position = read_fen(fen.as_bytes())?;
        assert_eq!(rt;
            lines_of_play(rt.alloc(), &position, plies)?,
            lines,
            "{plies} plies from {fen}"
        );
    }
    Ok(())
}

#[test]
fn a_pinned_pawn_captures_nothing_en_passant(rt: HostRuntime) -> Result<(), Fail> {
    let position = read_fen(PINNED.as_bytes())?;
    let moves = legal_moves(rt.alloc(), &position)?;
    let words = ["a5a4", "a5a6", "a5b6", "b5b6"];
    assert_eq!(rt; moves.len(), words.len());
    for (m, word) in moves.iter().zip(words) {
        assert_eq!(rt; write_move(*m).as_str(), word);
    }
    Ok(())
}

#[test]
fn an_en_passant_square_stays_where_a_legal_move_uses_it(rt: HostRuntime) -> Result<(), Fail> {
    for (fen, used, kept) in [
        (PINNED, false, "8/8/8/KPp4r/8/8/8/4k3 w - - 0 1"),
        (
            "8/8/8/KPp5/8/8/8/4k3 w - c6 0 1",
            true,
            "8/8/8/KPp5/8/8/8/4k3 w - c6 0 1",
        ),
    ] {
        let position = read_fen(fen.as_bytes())?;
        assert_eq!(rt; ep_legal(&position), used, "{fen}");
        assert_eq!(rt; write_fen(&canonical(&position), true).as_str(), kept);
    }
    Ok(())
}

/// A position, a legal move, and the position after it.
const PLIES: [(&str, &str, &str); 8] = [
    (
        START,
        "e2e4",
        "rnbqkbnr/pppppppp/8/8/4P3/8/PPPP1PPP/RNBQKBNR b KQkq e3 0 1",
    ),
    (
        CROWDED,
        "e1g1",
        "r3k2r/p1ppqpb1/bn2pnp1/3PN3/1p2P3/2N2Q1p/PPPBBPPP/R4RK1 b kq - 1 1",
    ),
    (
        CROWDED,
        "e1c1",
        "r3k2r/p1ppqpb1/bn2pnp1/3PN3/1p2P3/2N2Q1p/PPPBBPPP/2KR3R b kq - 1 1",
    ),
    (
        "4k3/8/8/KPp5/8/8/8/8 w - c6 0 1",
        "b5c6",
        "4k3/8/2P5/K7/8/8/8/8 b - - 0 1",
    ),
    (
        "r3k2r/1P6/8/8/8/8/8/4K3 w kq - 7 9",
        "b7a8n",
        "N3k2r/8/8/8/8/8/8/4K3 b k - 0 9",
    ),
    (
        "r3k2r/8/8/8/8/8/8/R3K2R b KQkq - 7 9",
        "h8h1",
        "r3k3/8/8/8/8/8/8/R3K2r w Qq - 0 10",
    ),
    (
        "8/8/8/8/8/4k3/8/K6R w - - 65534 65535",
        "h1h2",
        "8/8/8/8/8/4k3/7R/K7 b - - 65535 65535",
    ),
    (
        "8/8/8/8/8/4k3/7R/K7 b - - 65535 65535",
        "e3e4",
        "8/8/8/8/4k3/8/7R/K7 w - - 65535 65535",
    ),
];

#[test]
fn each_move_leads_to_its_position(rt: HostRuntime) -> Result<(), Fail> {
    for (before, word, after) in PLIES {
        let position = read_fen(before.as_bytes())?;
        let m = read_move(word.as_bytes()).ok_or("no move")?;
        assert!(rt; is_legal(&position, m), "{word} in {before}");
        assert_eq!(rt;
            write_fen(&make(&position, m), true).as_str(),
            after,
            "{word}"
        );
    }
    Ok(())
}

#[test]
fn a_game_goes_on_or_stands_still(rt: HostRuntime) -> Result<(), Fail> {
    for (fen, checked, stands) in [
        (START, false, State::Going),
        (
            "rnb1kbnr/pppp1ppp/8/4p3/6Pq/5P2/PPPPP2P/RNBQKBNR w KQkq - 1 3",
            true,
            State::Mate,
        ),
        ("7k/5Q2/6K1/8/8/8/8/8 b - - 0 1", false, State::Stalemate),
        ("7k/6Q1/8/8/8/8/8/K7 b - - 0 1", true, State::Going),
    ] {
        let position = read_fen(fen.as_bytes())?;
        assert_eq!(rt; in_check(&position), checked, "{fen}");
        assert_eq!(rt; state(&position), stands, "{fen}");
    }
    Ok(())
}

/// Beside its count this test gives a figure for speed, by the time that it takes.
#[test]
fn four_plies_from_the_start(rt: HostRuntime) -> Result<(), Fail> {
    assert_eq!(rt; lines_of_play(rt.alloc(), &Position::start(), 4)?, 197_281);
    Ok(())
}
