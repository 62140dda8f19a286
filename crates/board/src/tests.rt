use crate::{
    Colour, FenFault, Kind, Move, Piece, Position, Square, read_fen, read_move, same_cells,
    without_ep, write_fen, write_move,
};
use std::mem::size_of;

const START: &str = "rnbqkbnr/pppppppp/8/8/8/8/PPPPPPPP/RNBQKBNR w KQkq - 0 1";

/// White's pawn is pinned along the rank as far as a capture in passing goes.
const PINNED: &str = "8/8/8/KPp4r/8/8/8/4k3 w - c6 0 1";

#[test]
fn the_start_has_its_fen(rt: HostRuntime) {
    let start = Position::start();
    assert_eq!(rt; write_fen(&start, true).as_str(), START);
    assert_eq!(rt; read_fen(START.as_bytes()), Ok(start));
    assert_eq!(rt; start, Position::default());
}

/// The positions that move generators are tried on, and others that are known.
#[test]
fn known_positions_are_written_as_they_were_read(rt: HostRuntime) {
    for text in [
        START,
        PINNED,
        "rnbqkbnr/pppppppp/8/8/4P3/8/PPPP1PPP/RNBQKBNR b KQkq e3 0 1",
        "r3k2r/p1ppqpb1/bn2pnp1/3PN3/1p2P3/2N2Q1p/PPPBBPPP/R3K2R w KQkq - 0 1",
        "8/2p5/3p4/KP5r/1R3p1k/8/4P1P1/8 w - - 0 1",
        "r3k2r/Pppp1ppp/1b3nbN/nP6/BBP1P3/q4N2/Pp1P2PP/R2Q1RK1 w kq - 0 1",
        "rnbq1k1r/pp1Pbppp/2p5/8/2B5/8/PPP1NnPP/RNBQK2R w KQ - 1 8",
        "r4rk1/1pp1qppp/p1np1n2/2b1p1B1/2B1P1b1/P1NP1N2/1PP1QPPP/R4RK1 w - - 0 10",
        "8/8/8/8/8/4k3/8/K6R w - - 65535 65535",
    ] {
        let position = read_fen(text.as_bytes()).expect(&rt, text);
        assert_eq!(rt; write_fen(&position, true).as_str(), text);
    }
}

#[test]
fn an_en_passant_square_is_written_where_it_is_asked_for(rt: HostRuntime) {
    let position = read_fen(PINNED.as_bytes()).expect(&rt, PINNED);
    let plain = without_ep(&position);
    assert_eq!(rt; position.ep(), Some(Square::of(42)));
    assert_eq!(rt;
        write_fen(&position, false).as_str(),
        "8/8/8/KPp4r/8/8/8/4k3 w - - 0 1"
    );
    assert_eq!(rt;
        write_fen(&plain, true).as_str(),
        "8/8/8/KPp4r/8/8/8/4k3 w - - 0 1"
    );
    assert!(rt; !same_cells(&position, &plain));
    assert!(rt; same_cells(&plain, &without_ep(&plain)));
}

#[test]
fn a_text_is_refused_at_its_first_fault(rt: HostRuntime) {
    for (text, field, at) in [
        ("", 1, 0),
        (" w - - 0 1", 1, 0),
        ("8/8/8/8/8/4k3/8/K7R w - - 0 1", 1, 0),
        ("8/8/8/8/8/4k3/8/K5R w - - 0 1", 1, 0),
        ("8/8/8/8/8/4k3/8/K33R w - - 0 1", 1, 0),
        ("8/8/8/8/8/4k3/8/K9 w - - 0 1", 1, 0),
        ("8/8/8/8/8/4k3/8/K6X w - - 0 1", 1, 0),
        ("8/8/8/8/4k3/8/K6R w - - 0 1", 1, 0),
        ("8/8/8/8/8/8/4k3/8/K6R w - - 0 1", 1, 0),
        ("8/8/8/8/8/4k3/8/K6R/ w - - 0 1", 1, 0),
        ("8/8/8/8/8/4k3/8/Q6R w - - 0 1", 1, 0),
        ("8/8/8/8/8/4k3/8/K5KR w - - 0 1", 1, 0),
        ("8/8/8/8/8/4k3/8/K5PR w - - 0 1", 1, 0),
        ("p7/8/8/8/8/4k3/8/K6R w - - 0 1", 1, 0),
        ("8/8/8/8/8/4k3/8/K6R\tw - - 0 1", 1, 0),
        ("8/8/8/8/8/4k3/8/K6R", 2, 19),
        ("8/8/8/8/8/4k3/8/K6R ", 2, 20),
        ("8/8/8/8/8/4k3/8/K6R  w - - 0 1", 2, 20),
        ("8/8/8/8/8/4k3/8/K6R W - - 0 1", 2, 20),
        ("8/8/8/8/8/4k2R/8/K7 w - - 0 1", 2, 20),
        ("8/8/8/8/8/4k3/8/K6R w", 3, 21),
        ("r3k2r/8/8/8/8/8/8/R3K2R w QK - 0 1", 3, 26),
        ("r3k2r/8/8/8/8/8/8/R3K2R w KK - 0 1", 3, 26),
        ("r3k2r/8/8/8/8/8/8/R3K2R w K- - 0 1", 3, 26),
        ("r3k2r/8/8/8/8/8/8/R3K3 w KQkq - 0 1", 3, 25),
        ("r3k2r/8/8/8/8/8/8/R2K3R w Q - 0 1", 3, 26),
        ("8/8/8/KPp4r/8/8/8/4k3 w - - ", 5, 28),
        ("8/8/8/KPp4r/8/8/8/4k3 w - C6 0 1", 4, 26),
        ("8/8/8/KPp4r/8/8/8/4k3 w - c9 0 1", 4, 26),
        ("8/8/8/KPp4r/8/8/8/4k3 w - c3 0 1", 4, 26),
        ("8/8/8/KPp4r/8/8/8/4k3 b - c6 0 1", 4, 26),
        ("8/2p5/8/KPp4r/8/8/8/4k3 w - c6 0 1", 4, 28),
        ("8/8/2n5/KPp4r/8/8/8/4k3 w - c6 0 1", 4, 28),
        ("8/8/8/KP5r/8/8/8/4k3 w - c6 0 1", 4, 25),
        ("8/8/8/8/8/4k3/8/K6R w - - 00 1", 5, 26),
        ("8/8/8/8/8/4k3/8/K6R w - - +0 1", 5, 26),
        ("8/8/8/8/8/4k3/8/K6R w - - 65536 1", 5, 26),
        ("8/8/8/8/8/4k3/8/K6R w - - 0", 6, 27),
        ("8/8/8/8/8/4k3/8/K6R w - - 0 0", 6, 28),
        ("8/8/8/8/8/4k3/8/K6R w - - 0 01", 6, 28),
        ("8/8/8/8/8/4k3/8/K6R w - - 0 1x", 6, 28),
        ("8/8/8/8/8/4k3/8/K6R w - - 0 65536", 6, 28),
        ("8/8/8/8/8/4k3/8/K6R w - - 0 1 ", 7, 29),
        ("8/8/8/8/8/4k3/8/K6R w - - 0 1 x", 7, 29),
    ] {
        assert_eq!(rt;
            read_fen(text.as_bytes()),
            Err(FenFault { field, at }),
            "{text}"
        );
    }
}

#[test]
fn bytes_that_are_no_text_are_refused(rt: HostRuntime) {
    let half = b"8/8/8/8/8/4k3/8/K6R w - - \xff 1";
    assert_eq!(rt; read_fen(half), Err(FenFault { field: 5, at: 26 }));
}

#[test]
fn moves_have_their_words(rt: HostRuntime) {
    let castles = Move {
        from: Square::of(4),
        to: Square::of(6),
        promo: None,
    };
    let promotes = Move {
        from: Square::of(48),
        to: Square::of(57),
        promo: Some(Kind::Knight),
    };
    for (word, m) in [("e1g1", castles), ("a7b8n", promotes)] {
        assert_eq!(rt; write_move(m).as_str(), word);
        assert_eq!(rt; read_move(word.as_bytes()), Some(m));
    }
    for word in [
        "", "e1g", "e1g11", "a7b8k", "a7b8p", "a7b8Q", "i1a1", "a0a1", "a9a1", "E1G1", "e1-g1",
        "e1g1 ",
    ] {
        assert_eq!(rt; read_move(word.as_bytes()), None, "{word}");
    }
}

/// At the start every square of White's first three ranks is struck but for the two corners, where the rooks stand.
#[test]
fn pieces_strike_what_they_guard(rt: HostRuntime) {
    let start = Position::start();
    for index in 0..64 {
        let s = Square::of(index);
        let struck = index < 24 && index != 0 && index != 7;
        assert_eq!(rt;
            start.parts().attacked(s, Colour::White),
            struck,
            "square {index}"
        );
    }
    assert!(rt; !start.parts().is_king_attacked(Colour::White));
}

/// A cell is a tag, a colour and a kind; a position is 64 cells and twelve bytes more.
#[test]
fn a_position_is_small(rt: HostRuntime) {
    assert_eq!(rt; size_of::<Option<Piece>>(), 3);
    assert_eq!(rt; size_of::<Position>(), 48);
}
