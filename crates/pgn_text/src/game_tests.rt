use crate::{PgnCause, PgnFault, PgnResult, ReadPgnFault, read_pgn, write_pgn};
use board::write_move;
use std::alloc::{AllocError, Global};
use std::test::Fail;

/// A fool's mate as an evening writes it.
const MATE: &str =
    "[Event \"Arena\"]\n[Site \"?\"]\n[Date \"????.??.??\"]\n[Round \"0\"]\n[White \"alice\"]\n[Black \"bob\"]\n[Result \"0-1\"]\n\n1. f3 e5 2. g4 Qh4# 0-1\n\n";

/// Knights that go to and fro. The first line has 79 bytes.
const TO_AND_FRO: &str =
    "\n1. Nf3 Nf6 2. Ng1 Ng8 3. Nf3 Nf6 4. Ng1 Ng8 5. Nf3 Nf6 6. Ng1 Ng8 7. Nf3 Nf6 8.\nNg1 Ng8 1/2-1/2\n\n";

/// The words of the moves, and the last token.
fn said(alloc: Global, bytes: &[u8]) -> Result<String, Fail> {
    let game = read_pgn(alloc, bytes).ok().ok_or("no game")?;
    let mut text = String::new(alloc);
    for m in game.moves.items() {
        text.push_str(write_move(*m).as_str())?;
        text.push_str(" ")?;
    }
    text.push_str(match game.result {
        PgnResult::White => "White",
        PgnResult::Black => "Black",
        PgnResult::Draw => "Draw",
        PgnResult::Unknown => "Unknown",
    })?;
    Ok(text)
}

/// Whether the bytes are read, and the game is written as this text.
fn is_written_as(alloc: Global, bytes: &[u8], text: &[u8]) -> Result<bool, AllocError> {
    match read_pgn(alloc, bytes) {
        Err(_) => Ok(false),
        Ok(game) => {
            let written = write_pgn(alloc, &game)?;
            Ok(written.bytes() == text)
        }
    }
}

#[test]
fn games_are_written_as_they_were_read(rt: HostRuntime) -> Result<(), Fail> {
    for text in [MATE, TO_AND_FRO, "\n*\n\n", "\n1. e4 1-0\n\n"] {
        assert!(rt;
            is_written_as(rt.alloc(), text.as_bytes(), text.as_bytes())?,
            "{text}"
        );
    }
    Ok(())
}

#[test]
fn what_says_nothing_of_the_game_is_passed_over(rt: HostRuntime) -> Result<(), Fail> {
    for (text, moves) in [
        (MATE, "f2f3 e7e5 g2g4 d8h4 Black"),
        ("1.f3 e5 {late} 2.g4! Qh4 0-1", "f2f3 e7e5 g2g4 d8h4 Black"),
        (
            "\r\n{a {comment}\t1... e4?! 1. $14 e5{}2.*",
            "e2e4 e7e5 Unknown",
        ),
        ("[A \"]\"]\r\n[_9 \"\"]\ne4!! 1-0!?\n", "e2e4 White"),
    ] {
        assert_eq!(rt;
            said(rt.alloc(), text.as_bytes())?.as_str(),
            moves,
            "{text}"
        );
    }
    Ok(())
}

/// A text, and the offset and the cause of its first fault.
const FAULTS: [(&str, usize, PgnCause); 24] = [
    ("", 0, PgnCause::Result),
    ("1. e4 e5", 8, PgnCause::Result),
    ("1. e4 {*", 8, PgnCause::Result),
    ("1. e5 *", 3, PgnCause::San),
    ("1. e4 e5 2. Nf3+ *", 12, PgnCause::San),
    ("1. e4!!! *", 3, PgnCause::San),
    ("1.! *", 2, PgnCause::San),
    ("1 e4 *", 0, PgnCause::San),
    ("1. $5! *", 3, PgnCause::San),
    ("1. $ *", 3, PgnCause::San),
    ("1. e4 [A \"x\"]\n*", 6, PgnCause::San),
    ("1. e4 (1. d4) *", 6, PgnCause::Variation),
    ("1.(e4 *", 2, PgnCause::Variation),
    ("1. e4 1-0 *", 10, PgnCause::After),
    ("* {late}", 2, PgnCause::After),
    (" [A \"x\"] \n*", 1, PgnCause::Tag),
    ("[A \"x\"]", 0, PgnCause::Tag),
    ("[A  \"x\"]\n*", 0, PgnCause::Tag),
    ("[ \"x\"]\n*", 0, PgnCause::Tag),
    ("[A \"x\\\"\"]\n*", 0, PgnCause::Tag),
    ("[A-B \"x\"]\n*", 0, PgnCause::Tag),
    ("[A \"x\"]\n[FEN \"8/8 w\"]\n*", 8, PgnCause::Start),
    ("[SetUp \"1\"]\n*", 0, PgnCause::Start),
    ("[FEN \"\t\"]\n*", 0, PgnCause::Tag),
];

fn has_fault(alloc: Global, bytes: &[u8], at: usize, cause: PgnCause) -> bool {
    match read_pgn(alloc, bytes) {
        Ok(_) => false,
        Err(fault) => fault == ReadPgnFault::Bad(PgnFault { at, cause }),
    }
}

#[test]
fn a_text_is_refused_at_its_first_fault(rt: HostRuntime) -> Result<(), Fail> {
    for (text, at, cause) in FAULTS {
        assert!(rt; has_fault(rt.alloc(), text.as_bytes(), at, cause), "{text}");
    }
    Ok(())
}
