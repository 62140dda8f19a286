use crate::{ReplayEnd, pgn, replay, upgrade};
use conn::{MemSink, MemSource};
use std::alloc::{AllocError, Global};
use std::process::Abort;
use std::test::Fail;
use std::thread::Threads;

const HEAD: &str = "arena 1\ncontrol 180 2 20000\nwindow 0 3600000\nwave 5000\nleaders 1\n";

const TWO: &str = "player 2000 - alice\nplayer 1900 - bob\nbegin\n";

const THREE: &str = "player 2000 - alice\nplayer 1900 - bob\nplayer 2100 - carol\nbegin\n";

const FOUR: &str = "player 2000 - a\nplayer 1990 - b\nplayer 1980 - c\nplayer 1970 - d\nbegin\n";

const TEAMS: &str =
    "arena 1\ncontrol 180 2 20000\nwindow 0 3600000\nwave 5000\nleaders 2\nteam Red\nteam Blue\n\
player 2000 0 a\nplayer 1990 0 b\nplayer 1980 1 c\nplayer 1970 1 d\nbegin\n";

const FOUR_ENTER: &str = "0 0 enter 0\n0 0 enter 1\n0 0 enter 2\n0 0 enter 3\n";

const BLITZ: &str = "arena 1\ncontrol 60 0 20000\nwindow 0 3600000\nwave 5000\nleaders 1\n";

// The same, but the arena is over a millisecond after the flag falls.
const SHORT: &str = "arena 1\ncontrol 60 0 20000\nwindow 0 62001\nwave 5000\nleaders 1\n";

const SECOND: &str =
    "arena 2\nrule 1\ncontrol 180 2 20000\nwindow 0 3600000\nwave 5000\nleaders 1\n";

const BY_RULE_TWO: &str =
    "arena 2\nrule 2\ncontrol 180 2 20000\nwindow 0 3600000\nwave 5000\nleaders 1\n\
player 2000 - a\nplayer 1990 - b\nplayer 1980 - c\nbegin\n";

const GAME: &str = "0 0 enter 0\n0 0 enter 1\n1000 0 wave 2\n";

const BLITZ_GAME: &str = "0 0 enter 0\n0 0 enter 1\n0 0 wave 2\n1000 0 act 0 0 move e2e4\n\
2000 0 act 1 0 move e7e5\n";

const MATE: &str =
    "1000 0 act 0 0 berserk\n2000 0 act 0 0 move f2f3\n3000 0 act 1 0 move e7e5\n4000 0 act 0 0 move g2g4\n\
5000 0 act 1 0 move d8h4\nend\n";

const STALEMATE: &str =
    "1000 0 act 0 0 move e2e3\n1000 0 act 1 0 move a7a5\n1000 0 act 0 0 move d1h5\n1000 0 act 1 0 move a8a6\n\
1000 0 act 0 0 move h5a5\n1000 0 act 1 0 move h7h5\n1000 0 act 0 0 move h2h4\n1000 0 act 1 0 move a6h6\n\
1000 0 act 0 0 move a5c7\n1000 0 act 1 0 move f7f6\n1000 0 act 0 0 move c7d7\n1000 0 act 1 0 move e8f7\n\
1000 0 act 0 0 move d7b7\n1000 0 act 1 0 move d8d3\n1000 0 act 0 0 move b7b8\n1000 0 act 1 0 move d3h7\n\
1000 0 act 0 0 move b8c8\n1000 0 act 1 0 move f7g6\n1000 0 act 0 0 move c8e6\nend\n";

const FIVE_TIMES: &str =
    "1000 0 act 0 0 move e2e4\n1000 0 act 1 0 move e7e5\n1000 0 act 0 0 move d2d4\n1000 0 act 1 0 move d7d5\n\
1000 0 act 0 0 move g1f3\n1000 0 act 1 0 move g8f6\n1000 0 act 0 0 move f3g1\n1000 0 act 1 0 move f6g8\n\
1000 0 act 0 0 move g1f3\n1000 0 act 1 0 move g8f6\n1000 0 act 0 0 move f3g1\n1000 0 act 1 0 move f6g8\n\
1000 0 act 0 0 move g1f3\n1000 0 act 1 0 move g8f6\n1000 0 act 0 0 move f3g1\n1000 0 act 1 0 move f6g8\n\
1000 0 act 0 0 move g1f3\n1000 0 act 1 0 move g8f6\n1000 0 act 0 0 move f3g1\n1000 0 act 1 0 move f6g8\nend\n";

const BY_RULE_TWO_WAVE: &str =
    "0 0 enter 0\n0 0 enter 1\n0 0 enter 2\n0 0 wave 3 1-2\n1000 0 act 1 0 resign\n";

// A journal's head, its players, its first and its further entries, and what a replay of it comes to: the table that is written, or
// the end.
type Case = [&'static str; 5];

const LEGAL: [Case; 17] = [
    // the table by rating
    [
        HEAD,
        THREE,
        "0 0 enter 0\n5 0 enter 2\n",
        "end\n",
        "1 carol 2100 0 0 0\n2 alice 2000 0 0 0\ngames 0 entries 2\n",
    ],
    // nobody
    [HEAD, TWO, "", "end\n", "games 0 entries 0\n"],
    // a mate, by one who did not berserk
    [
        HEAD,
        TWO,
        GAME,
        MATE,
        "1 bob 1900 2 2500 1\n2 alice 2000 0 1400 1\ngames 1 entries 8\n",
    ],
    // a stalemate after 19 plies is worth nothing
    [
        HEAD,
        TWO,
        GAME,
        STALEMATE,
        "1 bob 1900 0 2000 1\n2 alice 2000 0 1900 1\ngames 1 entries 22\n",
    ],
    // a position that occurs for the fifth time, after 20 plies, is worth a point each
    [
        HEAD,
        TWO,
        GAME,
        FIVE_TIMES,
        "1 bob 1900 1 2000 1\n2 alice 2000 1 1900 1\ngames 1 entries 23\n",
    ],
    // a flag falls at the moment, and not before
    [
        BLITZ,
        TWO,
        BLITZ_GAME,
        "62000 0 act 0 0 move g1f3\nend\n",
        "1 bob 1900 2 2500 1\n2 alice 2000 0 1400 1\ngames 1 entries 6\n",
    ],
    [
        BLITZ,
        TWO,
        BLITZ_GAME,
        "61999 0 act 0 0 move g1f3\nend\n",
        "1 alice 2000 0 0 0\n2 bob 1900 0 0 0\ngames 0 entries 6\n",
    ],
    // a game that ends at the arena's end or later does not count
    [
        SHORT,
        TWO,
        BLITZ_GAME,
        "62001 0 tick\nend\n",
        "1 alice 2000 0 0 0\n2 bob 1900 0 0 0\ngames 0 entries 6\n",
    ],
    [
        SHORT,
        TWO,
        BLITZ_GAME,
        "62000 0 tick\nend\n",
        "1 bob 1900 2 2500 1\n2 alice 2000 0 1400 1\ngames 1 entries 6\n",
    ],
    // who was not idle throughout is not paired
    [
        HEAD,
        FOUR,
        FOUR_ENTER,
        "10 1 pause 1\n20 1 enter 1\n30 0 wave 4\n30 0 act 2 0 resign\nend\n",
        "1 d 1970 2 2480 1\n2 c 1980 0 1470 1\n3 a 2000 0 0 0\n4 b 1990 0 0 0\ngames 1 entries 8\n",
    ],
    // a player who does not appear loses
    [
        HEAD,
        TWO,
        "0 0 enter 0\n0 0 enter 1\n0 0 wave 2\n",
        "20000 0 tick\nend\n",
        "1 bob 1900 2 2500 1\n2 alice 2000 0 1400 1\ngames 1 entries 4\n",
    ],
    // who left plays his game to its end
    [
        HEAD,
        TWO,
        GAME,
        "2000 0 leave 0\n3000 0 act 0 0 resign\nend\n",
        "1 bob 1900 2 2500 1\n2 alice 2000 0 1400 1\ngames 1 entries 5\n",
    ],
    // a draw without a move
    [
        HEAD,
        TWO,
        GAME,
        "1000 0 act 0 0 offer\n1000 0 act 1 0 accept\nend\n",
        "1 bob 1900 0 2000 1\n2 alice 2000 0 1900 1\ngames 1 entries 5\n",
    ],
    // players of one team do not meet, and a line for each team
    [
        TEAMS,
        "",
        FOUR_ENTER,
        "0 0 wave 4\n0 0 act 3 1 resign\nend\n",
        "1 b 1990 2 2470 1\n2 d 1970 0 1490 1\n3 a 2000 0 0 0\n4 c 1980 0 0 0\nteam 1 Red 2 2470\nteam 2 Blue 0 1490\ngames 1 entries 6\n",
    ],
    [
        TEAMS,
        "",
        FOUR_ENTER,
        "end\n",
        "1 a 2000 0 0 0\n2 b 1990 0 0 0\n3 c 1980 0 0 0\n4 d 1970 0 0 0\nteam 1 Red 0 0\nteam 2 Blue 0 0\ngames 0 entries 4\n",
    ],
    // version 2 lists the pairs of each wave
    [
        SECOND,
        TWO,
        "0 0 enter 0\n0 0 enter 1\n",
        "1000 0 wave 2 0-1\nend\n",
        "1 alice 2000 0 0 0\n2 bob 1900 0 0 0\ngames 0 entries 3\n",
    ],
    // whom the second rule left alone is paired first
    [
        BY_RULE_TWO,
        "",
        BY_RULE_TWO_WAVE,
        "2000 0 wave 5 0-1\nend\n",
        "1 c 1980 2 2490 1\n2 b 1990 0 1480 1\n3 a 2000 0 0 0\ngames 1 entries 6\n",
    ],
];

const REFUSED: [Case; 15] = [
    [
        HEAD,
        "player 02000 - alice\nbegin\n",
        "",
        "end\n",
        "BadJournal(JournalFault { line: 6, cause: Form })",
    ],
    [
        HEAD,
        THREE,
        "0 0 enter 0\n5 0 enter 2\n",
        "",
        "BadJournal(JournalFault { line: 12, cause: Ended })",
    ],
    [
        HEAD,
        THREE,
        "0 0 enter 0\n5 0 enter 2\n",
        "end\n ",
        "BadJournal(JournalFault { line: 13, cause: After })",
    ],
    // a bad line decides, also behind an entry that is not allowed
    [
        HEAD,
        TWO,
        "0 0 leave 0\n0 0 enter 2\n",
        "end\n",
        "BadJournal(JournalFault { line: 10, cause: Range })",
    ],
    [
        SECOND,
        TWO,
        "0 0 enter 0\n0 0 enter 1\n",
        "1000 0 wave 2\nend\n",
        "BadJournal(JournalFault { line: 12, cause: Form })",
    ],
    [
        HEAD,
        "player 2000 - alice\nbegin\n",
        "5 0 enter 0\n4 0 pause 0\n",
        "end\n",
        "Illegal { line: 9, cause: StampFalls }",
    ],
    [
        HEAD,
        TWO,
        "0 0 enter 0\n0 0 enter 1\n0 0 wave 3\n",
        "end\n",
        "Illegal { line: 11, cause: WaveNumber }",
    ],
    [
        HEAD,
        TWO,
        "0 0 enter 0\n0 0 enter 1\n0 0 wave 2\n",
        "20000 0 tick\n20000 0 wave 4\nend\n",
        "Illegal { line: 13, cause: WaveEmpty }",
    ],
    [
        HEAD,
        TWO,
        "0 0 enter 0\n0 0 enter 1\n0 0 wave 2\n",
        "19999 0 tick\nend\n",
        "Illegal { line: 12, cause: Refused(NothingDue) }",
    ],
    [
        HEAD,
        TWO,
        GAME,
        "2000 0 leave 0\n3000 0 act 0 0 resign\n4000 0 enter 0\nend\n",
        "Illegal { line: 14, cause: Refused(Left) }",
    ],
    [
        HEAD,
        TWO,
        GAME,
        "1000 0 act 0 0 offer\n1000 0 act 0 0 offer\nend\n",
        "Illegal { line: 13, cause: Refused(Act(OfferStands)) }",
    ],
    [
        HEAD,
        FOUR,
        FOUR_ENTER,
        "10 1 pause 1\n20 1 enter 1\n30 0 wave 4\n30 0 act 0 0 resign\nend\n",
        "Illegal { line: 18, cause: Refused(NotYours) }",
    ],
    // teams move the lines on
    [
        TEAMS,
        "",
        "0 0 pause 0\n",
        "end\n",
        "Illegal { line: 13, cause: Refused(NotEntered) }",
    ],
    [
        SECOND,
        TWO,
        "0 0 enter 0\n0 0 enter 1\n",
        "1000 0 wave 2 1-0\nend\n",
        "Illegal { line: 12, cause: PairsDiffer }",
    ],
    [
        BY_RULE_TWO,
        "",
        BY_RULE_TWO_WAVE,
        "2000 0 wave 5 2-1\nend\n",
        "Illegal { line: 16, cause: PairsDiffer }",
    ],
];

// A journal of either version, whose upgrade is the same text.
const UPGRADED: [Case; 2] = [
    [HEAD, TWO, GAME, "end\n", IN_SECOND],
    [
        SECOND,
        TWO,
        "0 0 enter 0\n0 0 enter 1\n",
        "1000 0 wave 2 0-1\nend\n",
        IN_SECOND,
    ],
];

const IN_SECOND: &str =
    "arena 2\nrule 1\ncontrol 180 2 20000\nwindow 0 3600000\nwave 5000\nleaders 1\nplayer 2000 - alice\nplayer 1900 - bob\n\
begin\n0 0 enter 0\n0 0 enter 1\n1000 0 wave 2 0-1\nend\n";

// A journal whose games are written: those that ended in time, without a move that came too late.
const PLAYED: [Case; 3] = [
    [
        HEAD,
        TWO,
        GAME,
        MATE,
        "[Event \"Arena\"]\n[Site \"?\"]\n[Date \"????.??.??\"]\n[Round \"0\"]\n[White \"alice\"]\n[Black \"bob\"]\n\
[Result \"0-1\"]\n\n1. f3 e5 2. g4 Qh4# 0-1\n\n",
    ],
    [
        BLITZ,
        TWO,
        BLITZ_GAME,
        "62000 0 act 0 0 move g1f3\nend\n",
        "[Event \"Arena\"]\n[Site \"?\"]\n[Date \"????.??.??\"]\n[Round \"0\"]\n[White \"alice\"]\n[Black \"bob\"]\n\
[Result \"0-1\"]\n\n1. e4 e5 0-1\n\n",
    ],
    [HEAD, TWO, GAME, "end\n", ""],
];

// Which call is tried.
#[derive(Debug, Clone, Copy, PartialEq, Eq)]
enum Call {
    Replay,
    Upgrade,
    Pgn,
}

// The bytes of a case's journal, which come 50 at a time.
fn source_of(alloc: Global, case: &Case, failing: Vec<u64>) -> Result<MemSource, AllocError> {
    let [head, players, first, further, _] = *case;
    let text = format!(in alloc; "{head}{players}{first}{further}")?;
    Ok(MemSource::new(text.into_bytes(), 50, failing))
}

// The call ends as is wanted: a legal journal has its text written, and of any other nothing is.
fn says<R: Abort>(
    rt: &R,
    alloc: Global,
    end: ReplayEnd,
    sink: &MemSink,
    wanted: &str,
) -> Result<(), Fail> {
    if end == ReplayEnd::Done {
        assert!(rt; sink.bytes() == wanted.as_bytes(), "{wanted}");
        return Ok(());
    }
    let told = format!(in alloc; "{end:?}")?;
    assert!(rt; told.as_str() == wanted, "{wanted} and not {told}");
    assert!(rt; sink.bytes().is_empty(), "{wanted} and nothing more");
    Ok(())
}

fn tries<R: Threads + Sync + Abort>(
    rt: &R,
    alloc: Global,
    call: Call,
    case: &Case,
) -> Result<(), Fail> {
    let mut sink = MemSink::new(alloc, 1000, 50, Vec::new(alloc))?;
    let mut source = source_of(alloc, case, Vec::new(alloc))?;
    let end = match call {
        Call::Replay => replay(rt, alloc, &mut source, &mut sink),
        Call::Upgrade => upgrade(rt, alloc, &mut source, &mut sink),
        Call::Pgn => pgn(rt, alloc, &mut source, &mut sink),
    };
    says(rt, alloc, end, &sink, case[4])
}

fn tries_all<R: Threads + Sync + Abort>(
    rt: &R,
    alloc: Global,
    call: Call,
    cases: &[Case],
) -> Result<(), Fail> {
    for case in cases {
        tries(rt, alloc, call, case)?;
    }
    Ok(())
}

#[test]
fn a_text_has_its_table_or_its_first_fault(rt: HostRuntime) -> Result<(), Fail> {
    tries_all(&rt, rt.alloc(), Call::Replay, &LEGAL)?;
    tries_all(&rt, rt.alloc(), Call::Replay, &REFUSED)
}

#[test]
fn an_upgrade_writes_version_2_with_the_pairs_of_each_wave(rt: HostRuntime) -> Result<(), Fail> {
    tries_all(&rt, rt.alloc(), Call::Upgrade, &UPGRADED)?;
    tries_all(&rt, rt.alloc(), Call::Upgrade, &REFUSED)
}

#[test]
fn the_games_that_ended_are_written(rt: HostRuntime) -> Result<(), Fail> {
    tries_all(&rt, rt.alloc(), Call::Pgn, &PLAYED)?;
    tries_all(&rt, rt.alloc(), Call::Pgn, &REFUSED)
}

// The numbers of the one call that fails, if one does.
fn failing(alloc: Global, call: Option<u64>) -> Result<Vec<u64>, AllocError> {
    let mut calls = Vec::new(alloc);
    if let Some(call) = call {
        calls.push(call)?;
    }
    Ok(calls)
}

// How a replay of two who entered ends where such a read and such a write fail, and how many bytes it wrote.
fn hindered<R: Threads + Sync>(
    rt: &R,
    alloc: Global,
    read: Option<u64>,
    write: Option<u64>,
) -> Result<(ReplayEnd, usize), AllocError> {
    let mut sink = MemSink::new(alloc, 1000, 10, failing(alloc, write)?)?;
    let mut source = source_of(alloc, &LEGAL[0], failing(alloc, read)?)?;
    let end = replay(rt, alloc, &mut source, &mut sink);
    Ok((end, sink.bytes().len()))
}

#[test]
fn a_failure_is_told_and_leaves_what_was_written_before(rt: HostRuntime) -> Result<(), Fail> {
    assert_eq!(rt;
        hindered(&rt, rt.alloc(), Some(2), None)?,
        (ReplayEnd::ReadFault, 0)
    );
    assert_eq!(rt;
        hindered(&rt, rt.alloc(), None, Some(0))?,
        (ReplayEnd::WriteFault, 0)
    );
    assert_eq!(rt;
        hindered(&rt, rt.alloc(), None, Some(3))?,
        (ReplayEnd::WriteFault, 30)
    );
    Ok(())
}
