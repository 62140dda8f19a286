use crate::{Bits, has_square};
use board::{Colour, Parts, Square, read_fen};
use std::mem::size_of;
use std::test::Fail;

/// Positions reached by play: openings, middle games and endings, some with the king attacked.
const FROM_PLAY: &str = "\
r1bqk2r/ppppbppp/2n2n2/4p3/2B1P3/3P1N2/PPP2PPP/RNBQK2R w KQkq - 1 5
2kr3r/1pp1bppp/p1nqbn2/4p3/4P3/1BP2N1P/PP1NQPP1/R1B2RK1 b - - 4 11
2kr3r/1pp1b1pp/p2q1p2/4p3/2Q1P3/2Pn1N1P/PP3PP1/R1BR2K1 w - - 0 18
2k2r2/2prb3/2q2p2/pp2pQ1p/1P2P3/2PRBN1P/P4PP1/R5K1 b - - 0 24
r7/2pkb3/5p2/1p2p2p/4P1P1/2P1BN1P/P4PK1/7R w - - 4 31
7r/8/2pbkP2/1p2p3/4P3/2P1B3/PR1N1P2/5K2 b - - 2 37
8/r4k2/2p5/1p2p3/4P3/2P2P2/P2BK3/R7 w - - 1 44
1k6/8/R1P5/B3p3/4P3/3K1P2/8/8 b - - 0 50
rnbqkb1r/pp3ppp/2p1pn2/3p4/2PP4/2N2N2/PP2PPPP/R1BQKB1R w KQkq - 2 5
r1b1k2r/pp1n1pp1/2p1p2p/q2p4/2PPnB2/PQP1PN2/5PPP/2R1KB1R b Kkq - 3 11
r1b1k2r/ppq2p2/2p1pn2/7p/2pP2p1/PQPBP1PP/3N1KP1/2R4R w kq - 0 18
r3k2r/2qb1p2/2p2n2/pBQ1P2p/6p1/P1P1P1PP/3N1KP1/2R4R b kq - 0 24
3r4/2q1kp2/2p1b3/5r1p/p1BQ2pP/P1P1P1P1/6P1/2R2NKR w - - 6 31
8/7R/2pk4/7p/p5pP/P1PrP1P1/6PK/2R5 b - - 6 37
8/7R/8/4k2p/p1p1P1pP/P1Pr2P1/6PK/2R5 w - - 0 44
5R2/8/2k5/7p/p1p3pP/P1P1r1P1/6PK/2R5 b - - 11 50
7R/8/3k4/5r1p/p1p3pP/P1P3P1/6PK/1R6 w - - 24 57
8/4k3/8/2R4p/p1R3pP/P1P3P1/6PK/r7 b - - 8 63
r1bqkbnr/1p2pppp/p1np4/2p5/4P3/2P2N1P/PP1P1PP1/RNBQKB1R w KQkq - 0 5
r1b1k2r/1pq1ppbp/p1n2np1/3pP3/P2P4/4BN1P/1P1N1PP1/R2QKB1R b KQkq - 0 11
r3k2r/1p1bp1bp/p1n2np1/3pN3/P2P4/2R1B2P/1q1NBPP1/3Q1RK1 w kq - 0 18
3rk2r/1p1bp1bp/p2q2p1/3pN3/Pn1Pn3/4BN1P/1R2BPP1/QR4K1 b k - 13 24
5rk1/1p4bp/3p2p1/p2pNb2/P2Pn1PP/1Rr1BN2/2n2P2/1R3BK1 w - - 0 31
r5k1/1R5p/5bpB/p2p4/P2pn2P/n1r2N2/1R2BP2/6K1 b - - 7 37
r2r2k1/7p/6pB/p5N1/P1n1p2P/8/R4P2/6K1 w - - 5 44
r5k1/7p/6pB/p7/P3r2P/4nN2/7K/5R2 b - - 2 50
6k1/4n3/6pB/p5N1/P6r/8/4r3/2R3K1 w - - 4 57
6k1/8/6p1/p4n2/P7/3K4/4N3/r7 b - - 7 63
rnbqk2r/pp1pppbp/5np1/2p5/2PP4/4PN2/PP3PPP/RNBQKB1R w KQkq - 2 5
rn3rk1/1bqp1pbp/pp2pnp1/2pP4/P1P1P3/2N2N2/1P2BPPP/R1BQ1RK1 b - - 0 11
r3nrk1/1b1nq1bp/pp1p2p1/2pPpp2/P1P1P3/R1N3B1/1P2BPPP/3QNRK1 w - - 0 18
r1b1n1k1/4qrbp/pp1p2B1/P1pP1p2/2P1pP2/R1N5/1P1Q1BPP/4NRK1 b - - 0 24
1rb1q1k1/6b1/pr1p2p1/2pP1p1n/2P1pP1B/RPN4P/2NQ2P1/1R4K1 w - - 1 31
1r3qk1/6bn/p2p2p1/2pP1bB1/1rP1pPN1/RP5P/3QN3/5RK1 b - - 1 37
4q1k1/6b1/p2p2p1/2pP2P1/2P2RN1/3bp2P/4N3/6K1 w - - 2 44
8/4q1bk/p2p2p1/2pP2P1/2P2R1P/3bp3/4N3/5K2 b - - 4 50
8/6bk/p2p4/2pP2Pp/2b2R2/4p3/4N1K1/3q4 w - - 0 57
7k/5R2/p2p2P1/2pP3p/3b1K2/4p3/4b3/6q1 b - - 7 63
rnbqkbnr/1p3ppp/p1p1p3/3pP3/3P4/P7/1PP2PPP/RNBQKBNR w KQkq - 0 5
r1bqkb1r/1p1n1ppp/p1n1p3/3pP1B1/7P/PNpB1N2/1P3PP1/R2QK2R b KQkq - 3 11
r1bqkb1r/1p3ppp/p3p3/3p4/2BN3P/P3B3/R4PP1/1r1QK2R w Kkq - 0 18
r1b1kb1r/1p3pp1/p3p2p/7P/P1p2N2/4Bq2/RQ3P2/4K1R1 b kq - 0 24
r3k2r/1p1b1p2/p6p/4p2P/P4NR1/2b1B3/4KP2/2R4q w kq - 0 31
r2k1r2/1p6/p1b4p/b3R2P/P7/3K4/5P2/2B5 b - - 0 37
r2k4/1p6/p4r2/P5BP/3bbP2/8/8/1K6 w - - 1 44
8/1p6/p3kb2/P2b3P/5P2/6r1/5K2/8 b - - 9 50
8/5k2/p4P2/bp1b4/8/4K3/7r/8 w - - 0 57
rnbqk2r/pppp1ppp/3b1n2/3Np3/2P1P3/8/PP1P1PPP/R1BQKBNR w KQkq - 1 5
r1bq1rk1/ppppbppp/8/3P2B1/2PQ3P/8/PP3PP1/R3KB1R b KQ - 0 11
r1b1r1k1/p1pp1ppp/8/3P4/1pPQ1P2/2KB4/PP4q1/6RR w - - 0 18
r5k1/pb1p1p2/3P2p1/2Q5/1pP2P2/1K1B4/PP6/8 b - - 0 24
2r3k1/3p1p2/3P2p1/p7/1p2BP2/3b4/PP1K1Q2/8 w - - 2 31
5r1k/Q2p1B2/3P4/8/1p3P2/8/PP6/2K5 b - - 2 37
rn2kbnr/ppq1pppp/2p5/3pPb2/3P4/2N5/PPP2PPP/R1BQKBNR w KQkq - 3 5
r3kbnr/pp2pppp/2n3P1/qB1pP3/3Q2P1/2N2P2/PPP5/R1B1K1NR b KQkq - 0 11
2kr2nr/1pq3pp/p3p1p1/1B1pP3/1n4P1/5P2/P1P1NQ2/R3K1NR w KQ - 0 18
2k2r1r/2q3pp/p1n1p1p1/1p1pP3/1n4P1/PB3P1R/2P1N3/1R2QKN1 b - - 0 24
2k2r2/6p1/p3p3/1p1pP1pP/1Q6/q4P2/2P1N3/1R2K1N1 w - - 0 31
1k6/4Q3/p3p3/1p1pP2p/5N2/5p2/2P5/1R2K3 b - - 1 37
rnb1kb1r/ppp1qppp/3p1n2/4p3/3PP3/5N2/PPP1BPPP/RNBQK2R w KQkq - 0 5
r3k2r/ppp1qpb1/2n1bnpp/1B2p3/4P3/1PN2N2/P1P2PPP/R1BQ1RK1 b kq - 2 11
3rk2r/ppp3b1/2q1bppp/4p3/8/QPB2N2/P1P2PPP/R4RK1 w k - 2 18
r3k2r/2p3b1/1pq1b1p1/4R2p/1B6/1P6/PQP2PPP/R5K1 b k - 0 24
r5k1/2p1r3/1p4pB/3q4/7p/1P3P1P/PQP3P1/R5K1 w - - 1 31
6k1/2p5/1p1q2pB/7r/8/1P2QP1P/P1P3P1/3R1K2 b - - 0 37
6k1/3q1r2/1p4p1/2p5/5B2/1P2QPKP/P5P1/8 w - - 0 44
3r4/4q2k/6p1/1pp1B3/5P2/1P4KP/P1Q3P1/8 b - - 3 50
8/8/2Q3pk/1pp2P2/3q2KP/1P6/P5P1/8 w - - 0 57
8/8/2Q3pk/1p6/2P4P/3q4/P5PK/8 b - - 4 63
";

/// Positions made for what is rare: pawns that capture en passant beside their king, many queens, rights without a way.
const MADE: &str = "\
rnbqkbnr/pppppppp/8/8/8/8/PPPPPPPP/RNBQKBNR w KQkq - 0 1
r3k2r/p1ppqpb1/bn2pnp1/3PN3/1p2P3/2N2Q1p/PPPBBPPP/R3K2R w KQkq - 0 1
r3k2r/p1ppqpb1/bn2pnp1/3PN3/1p2P3/2N2Q1p/PPPBBPPP/R3K2R b KQkq - 0 1
8/2p5/3p4/KP5r/1R3p1k/8/4P1P1/8 w - - 0 1
8/8/8/KPp4r/8/8/8/4k3 w - c6 0 1
r3k2r/Pppp1ppp/1b3nbN/nP6/BBP1P3/q4N2/Pp1P2PP/R2Q1RK1 w kq - 0 1
rnbq1k1r/pp1Pbppp/2p5/8/2B5/8/PPP1NnPP/RNBQK2R w KQ - 1 8
Q6Q/8/3k4/Q6q/8/8/3K4/q6q b - - 0 1
";

fn is_attacked_alike(bits: &Bits, parts: &Parts, s: Square) -> bool {
    bits.attacked(s, Colour::White) == parts.attacked(s, Colour::White)
        && bits.attacked(s, Colour::Black) == parts.attacked(s, Colour::Black)
}

fn goes_alike(bits: &Bits, parts: &Parts, from: Square) -> bool {
    let targets = bits.targets(from);
    (0..64).all(|to| has_square(targets, Square::of(to)) == parts.reaches(from, Square::of(to)))
}

fn are_alike(bits: &Bits, parts: &Parts) -> bool {
    (0..64).all(|s| {
        let s = Square::of(s);
        is_attacked_alike(bits, parts, s) && goes_alike(bits, parts, s)
    })
}

#[test]
fn sets_answer_as_the_plain_program(rt: HostRuntime) -> Result<(), Fail> {
    for fen in FROM_PLAY.lines().chain(MADE.lines()) {
        let parts = read_fen(fen.as_bytes())?.parts();
        assert!(rt; are_alike(&Bits::of(&parts), &parts), "at {fen}");
    }
    Ok(())
}

#[test]
fn sets_are_small(rt: HostRuntime) {
    assert_eq!(rt; size_of::<Bits>(), 48);
}
