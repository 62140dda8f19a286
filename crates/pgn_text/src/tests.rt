use crate::{read_san, write_san};
use board::{Move, Position, read_fen, read_move};
use move_rules::is_legal;
use std::test::Fail;

const CASTLINGS: &str = "r3k2r/8/8/8/8/8/8/R3K2R w KQkq - 0 1";

/// A position, a legal move, and its SAN.
const SPELLED: [(&str, &str, &str); 20] = [
    // Told apart by the file, by the rank, and by both.
    ("4k3/8/8/8/8/8/4K3/R6R w - - 0 1", "a1d1", "Rad1"),
    ("4k3/R7/8/8/8/8/8/R3K3 w - - 0 1", "a1a4", "R1a4"),
    ("1k6/8/8/8/4Q2Q/K7/8/7Q w - - 0 1", "h4e1", "Qh4e1"),
    // Both the file and the rank would do.
    ("4k3/8/8/8/8/5N2/8/1N2K3 w - - 0 1", "b1d2", "Nbd2"),
    // The other knight is pinned, and so cannot go there.
    ("4k3/4r3/8/8/4N3/8/8/N3K3 w - - 0 1", "a1c2", "Nc2"),
    ("4k3/4r3/8/8/8/4N3/8/N3K3 w - - 0 1", "a1c2", "Nc2"),
    (CASTLINGS, "e1g1", "O-O"),
    (CASTLINGS, "e1c1", "O-O-O"),
    (CASTLINGS, "a1a8", "Rxa8+"),
    (CASTLINGS, "e1d1", "Kd1"),
    ("5k2/8/8/8/8/8/8/4K2R w K - 0 1", "e1g1", "O-O+"),
    ("4k3/8/8/8/8/8/4P3/4K3 w - - 0 1", "e2e4", "e4"),
    ("4k3/8/8/3p4/4P3/8/8/4K3 w - - 0 1", "e4d5", "exd5"),
    ("4k3/8/8/3pP3/8/8/8/4K3 w - d6 0 1", "e5d6", "exd6"),
    ("1n2k3/P7/8/8/8/8/8/4K3 w - - 0 1", "a7a8q", "a8=Q"),
    ("1n2k3/P7/8/8/8/8/8/4K3 w - - 0 1", "a7b8n", "axb8=N"),
    ("1n2k3/P7/8/8/8/8/8/4K3 w - - 0 1", "a7b8r", "axb8=R+"),
    (
        "rnbqkbnr/pppp1ppp/8/4p3/6P1/5P2/PPPPP2P/RNBQKBNR b KQkq - 0 2",
        "d8h4",
        "Qh4#",
    ),
    ("7k/8/5KQ1/8/8/8/8/8 w - - 0 1", "g6g7", "Qg7#"),
    // Stalemate has no sign.
    ("7k/8/6K1/8/8/8/8/5Q2 w - - 0 1", "f1f7", "Qf7"),
];

/// Whether the move is legal, has this SAN, and is read from it.
fn is_spelled(p: &Position, m: Move, san: &[u8]) -> bool {
    is_legal(p, m) && write_san(p, m).as_bytes() == san && read_san(p, san) == Some(m)
}

#[test]
fn moves_are_written_and_read(rt: HostRuntime) -> Result<(), Fail> {
    for (fen, word, san) in SPELLED {
        let position = read_fen(fen.as_bytes())?;
        let m = read_move(word.as_bytes()).ok_or("no move")?;
        assert!(rt; is_spelled(&position, m, san.as_bytes()), "{word} in {fen}");
    }
    Ok(())
}

/// A position, bytes, and the word of the move that they name, if they name one.
const READ: [(&str, &str, Option<&str>); 16] = [
    // Without its sign.
    (CASTLINGS, "Rxa8", Some("a1a8")),
    (
        "rnbqkbnr/pppp1ppp/8/4p3/6P1/5P2/PPPPP2P/RNBQKBNR b KQkq - 0 2",
        "Qh4",
        Some("d8h4"),
    ),
    // With another sign.
    (CASTLINGS, "Rxa8#", None),
    (CASTLINGS, "O-O+", None),
    (
        "rnbqkbnr/pppp1ppp/8/4p3/6P1/5P2/PPPPP2P/RNBQKBNR b KQkq - 0 2",
        "Qh4+",
        None,
    ),
    // Not told apart, told apart by the rank where the file does, and told apart where nothing else goes there.
    ("1k6/8/8/8/4Q2Q/K7/8/7Q w - - 0 1", "Qe1", None),
    ("4k3/8/8/8/8/5N2/8/1N2K3 w - - 0 1", "N1d2", None),
    ("4k3/8/8/8/8/8/8/1N2K3 w - - 0 1", "Nbd2", None),
    // Other words for it.
    (CASTLINGS, "0-0", None),
    (CASTLINGS, "Ra1xa8", None),
    (CASTLINGS, "Ra8", None),
    ("1n2k3/P7/8/8/8/8/8/4K3 w - - 0 1", "a8", None),
    ("1n2k3/P7/8/8/8/8/8/4K3 w - - 0 1", "a8Q", None),
    ("4k3/8/8/8/8/8/4P3/4K3 w - - 0 1", "", None),
    ("4k3/8/8/8/8/8/4P3/4K3 w - - 0 1", "Pe4", None),
    ("4k3/8/8/8/8/8/4P3/4K3 w - - 0 1", "e5", None),
];

#[test]
fn only_its_own_san_names_a_move(rt: HostRuntime) -> Result<(), Fail> {
    for (fen, san, word) in READ {
        let position = read_fen(fen.as_bytes())?;
        let named: Option<Move> = word.and_then(|word| read_move(word.as_bytes()));
        assert_eq!(rt;
            read_san(&position, san.as_bytes()),
            named,
            "{san} in {fen}"
        );
    }
    Ok(())
}
