use super::{BLACK, WHITE, control};
use crate::Cause;
use crate::ending::{Ending, claim_cause, due_ending, ending_after_move};
use board::{Colour, read_fen};
use game_clock::GameClock;

/// Positions with how often they have occurred, what may be claimed there, and how the game ends where White's move led to
/// it.
const ENDINGS: [(&[u8], u32, Option<Cause>, Option<(Option<Colour>, Cause)>); 9] = [
    (b"8/8/8/8/8/4k3/8/K6R b - - 99 80", 2, None, None),
    (
        b"8/8/8/8/8/4k3/8/K6R b - - 100 80",
        2,
        Some(Cause::Fifty),
        None,
    ),
    (
        b"8/8/8/8/8/4k3/8/K6R b - - 100 80",
        3,
        Some(Cause::Threefold),
        None,
    ),
    (
        b"8/8/8/8/8/4k3/8/K6R b - - 149 90",
        4,
        Some(Cause::Threefold),
        None,
    ),
    (
        b"8/8/8/8/8/4k3/8/K6R b - - 150 90",
        4,
        Some(Cause::Threefold),
        Some((None, Cause::SeventyFive)),
    ),
    (
        b"8/8/8/8/8/4k3/8/K6R b - - 150 90",
        5,
        Some(Cause::Threefold),
        Some((None, Cause::Fivefold)),
    ),
    (
        b"8/8/8/8/8/4k3/8/K7 b - - 150 90",
        5,
        Some(Cause::Threefold),
        Some((None, Cause::Dead)),
    ),
    (
        b"R5k1/5ppp/8/8/8/8/8/K7 b - - 150 90",
        5,
        Some(Cause::Threefold),
        Some((Some(Colour::White), Cause::Mate)),
    ),
    (
        b"7k/5Q2/6K1/8/8/8/8/8 b - - 150 90",
        5,
        Some(Cause::Threefold),
        Some((None, Cause::Stalemate)),
    ),
];

#[test]
fn causes_come_in_their_order(rt: HostRuntime) {
    for (fen, times, claimed, ends) in ENDINGS {
        let Ok(position) = read_fen(fen) else {
            panic!(rt; "no position");
        };
        assert_eq!(rt; claim_cause(&position, times), claimed);
        let ending = ending_after_move(&position, times, WHITE);
        assert_eq!(rt; ending.map(|ending| (ending.winner, ending.cause)), ends);
    }
}

/// The clock of a game of one minute in which so many moves were made at its start.
#[tactic(auto, unfolding(game_clock::specs::Clocks::is_due))]
fn clock_after(moves: u32) -> GameClock {
    let mut clock = GameClock::new(&control(60, 0), 0);
    for _ in 0..moves {
        if clock.since() == 0
            && clock.moves() < 8_000_000
            && !clock.no_show(0)
            && !clock.fallen(0)
        {
            clock.moved(0);
        }
    }
    clock
}

#[test]
fn a_bare_king_does_not_win_on_time(rt: HostRuntime) {
    let cases: [(&[u8], u32, Option<Colour>); 3] = [
        (b"8/8/8/8/8/4k3/8/K6R w - - 0 1", 2, None),
        (b"8/8/8/8/8/4k3/8/K6R b - - 0 1", 3, Some(WHITE)),
        (b"8/8/8/8/8/4k3/6p1/K7 w - - 0 1", 2, Some(BLACK)),
    ];
    for (fen, moves, winner) in cases {
        let Ok(position) = read_fen(fen) else {
            panic!(rt; "no position");
        };
        let clock = clock_after(moves);
        assert_eq!(rt; clock.since(), 0);
        let ending = Ending {
            winner,
            cause: Cause::Flag,
        };
        assert_eq!(rt; due_ending(&position, &clock, 60000), ending);
    }
}
