//! What the program's words come to, and below it what crosses crates: requests and bodies, the arena, its lock, the director's
//! turns, connections and whole evenings.

mod arena;
mod connections;
mod evenings;
mod lobbies;
mod lock;
mod requests;
mod turns;

use crate::{Form, Status, form, run};
use conn::{MemSink, MemSource, Text};
use std::alloc::{AllocError, Global};
use std::process::Abort;
use std::test::Fail;
use std::thread::Threads;

const USAGE: &str =
    "usage: arena_main replay | upgrade | pgn | gen SEED PLAYERS | serve SETUP PORT WORKERS JOURNAL\n";

const ONE: &str =
    "arena 1\ncontrol 180 2 20000\nwindow 0 3600000\nwave 5000\nleaders 1\nplayer 2000 - alice\nbegin\n";

const TWO: &str =
    "arena 1\ncontrol 180 2 20000\nwindow 0 3600000\nwave 5000\nleaders 1\nplayer 2000 - alice\nplayer 1900 - bob\nbegin\n";

const SECOND: &str =
    "arena 2\nrule 1\ncontrol 180 2 20000\nwindow 0 3600000\nwave 5000\nleaders 1\nplayer 2000 - alice\nplayer 1900 - bob\n\
begin\n";

// The program's words, a journal's head and its entries, its status and what is written.
type Case = [&'static str; 5];

const CASES: [Case; 21] = [
    [
        "replay",
        TWO,
        "0 0 enter 0\n5 0 enter 1\nend\n",
        "Done",
        "1 alice 2000 0 0 0\n2 bob 1900 0 0 0\ngames 0 entries 2\n",
    ],
    [
        "upgrade",
        TWO,
        "0 0 enter 0\n0 0 enter 1\n1000 0 wave 2\nend\n",
        "Done",
        "arena 2\nrule 1\ncontrol 180 2 20000\nwindow 0 3600000\nwave 5000\nleaders 1\nplayer 2000 - alice\nplayer 1900 - bob\n\
begin\n0 0 enter 0\n0 0 enter 1\n1000 0 wave 2 0-1\nend\n",
    ],
    [
        "pgn",
        TWO,
        "0 0 enter 0\n0 0 enter 1\n1000 0 wave 2\n2000 0 act 0 0 move e2e4\n3000 0 act 0 0 resign\nend\n",
        "Done",
        "[Event \"Arena\"]\n[Site \"?\"]\n[Date \"????.??.??\"]\n[Round \"0\"]\n[White \"alice\"]\n[Black \"bob\"]\n\
[Result \"0-1\"]\n\n1. e4 0-1\n\n",
    ],
    [
        "replay",
        TWO,
        "0 0 enter 0\n",
        "BadJournal",
        "line 10: Ended\n",
    ],
    [
        "upgrade",
        TWO,
        "00 0 enter 0\nend\n",
        "BadJournal",
        "line 9: Form\n",
    ],
    [
        "replay",
        TWO,
        "0 0 enter 2\nend\n",
        "BadJournal",
        "line 9: Range\n",
    ],
    [
        "replay",
        "arena 1\ncontrol 180 2 20000\nwindow 0 3600000\nwave 5000\nleaders 1\nteam a\nteam a\n",
        "",
        "BadJournal",
        "line 7: Repeat\n",
    ],
    ["replay", TWO, "end\n ", "BadJournal", "line 10: After\n"],
    [
        "replay",
        ONE,
        "5 0 enter 0\n4 0 pause 0\nend\n",
        "Illegal",
        "line 9: StampFalls\n",
    ],
    [
        "upgrade",
        ONE,
        "0 0 tick\nend\n",
        "Illegal",
        "line 8: NothingDue\n",
    ],
    [
        "replay",
        ONE,
        "0 0 pause 0\nend\n",
        "Illegal",
        "line 8: NotEntered\n",
    ],
    [
        "replay",
        ONE,
        "0 0 enter 0\n0 0 enter 0\nend\n",
        "Illegal",
        "line 9: AlreadyIn\n",
    ],
    [
        "replay",
        ONE,
        "0 0 enter 0\n1 0 leave 0\n2 0 enter 0\nend\n",
        "Illegal",
        "line 10: Left\n",
    ],
    [
        "replay",
        ONE,
        "3600000 0 enter 0\nend\n",
        "Illegal",
        "line 8: Closed\n",
    ],
    [
        "replay",
        ONE,
        "0 0 wave 1\nend\n",
        "Illegal",
        "line 8: WaveNumber\n",
    ],
    [
        "replay",
        ONE,
        "0 0 wave 0\nend\n",
        "Illegal",
        "line 8: WaveEmpty\n",
    ],
    [
        "replay",
        ONE,
        "0 0 act 0 0 resign\nend\n",
        "Illegal",
        "line 8: NoGame\n",
    ],
    [
        "replay",
        SECOND,
        "0 0 enter 0\n0 0 enter 1\n1000 0 wave 2 1-0\nend\n",
        "Illegal",
        "line 12: PairsDiffer\n",
    ],
    ["replay ", TWO, "end\n", "BadWords", USAGE],
    [
        "gen 0 2",
        "",
        "",
        "Done",
        "1 p1 1468 4 1125 4\n2 p0 1000 2 1343 4\ngames 4 entries 34\n",
    ],
    [
        "serve setup.json 8080 4 journal.txt",
        "",
        "",
        "BadWords",
        USAGE,
    ],
];

// The words of a line.
fn words_of(alloc: Global, line: &str) -> Result<Vec<Text>, AllocError> {
    let mut texts = Vec::new(alloc);
    for word in line.split(' ') {
        texts.push(Text::of(Vec::from_slice(alloc, word.as_bytes())?))?;
    }
    Ok(texts)
}

fn source_of(
    alloc: Global,
    head: &str,
    entries: &str,
    failing: Vec<u64>,
) -> Result<MemSource, AllocError> {
    let text = format!(in alloc; "{head}{entries}")?;
    Ok(MemSource::new(text.into_bytes(), 50, failing))
}

fn says<R: Abort>(
    rt: &R,
    alloc: Global,
    status: Status,
    sink: &MemSink,
    case: &Case,
) -> Result<(), Fail> {
    let told = format!(in alloc; "{status:?}")?;
    assert!(rt; told.as_str() == case[3], "{} and not {told}", case[3]);
    assert!(rt; sink.bytes() == case[4].as_bytes(), "{}", case[4]);
    Ok(())
}

fn runs<R: Threads + Sync + Abort>(rt: &R, alloc: Global, case: &Case) -> Result<(), Fail> {
    let words = words_of(alloc, case[0])?;
    let mut sink = MemSink::new(alloc, 1000, 50, Vec::new(alloc))?;
    let mut source = source_of(alloc, case[1], case[2], Vec::new(alloc))?;
    let status = run(rt, alloc, &words, &mut source, &mut sink);
    says(rt, alloc, status, &sink, case)
}

#[test]
fn each_text_has_its_status_and_what_is_written(rt: HostRuntime) -> Result<(), Fail> {
    for case in &CASES {
        runs(&rt, rt.alloc(), case)?;
    }
    Ok(())
}

// The status for these words where such a read and such a write fail, and how many bytes are written and left to read.
fn hindered<R: Threads + Sync>(
    rt: &R,
    alloc: Global,
    line: &str,
    read: u64,
    write: u64,
) -> Result<(Status, usize, usize), AllocError> {
    let words = words_of(alloc, line)?;
    let mut sink = MemSink::new(alloc, 1000, 10, Vec::from_slice(alloc, &[write])?)?;
    let mut source = source_of(
        alloc,
        TWO,
        "0 0 leave 1\nend\n",
        Vec::from_slice(alloc, &[read])?,
    )?;
    let status = run(rt, alloc, &words, &mut source, &mut sink);
    Ok((status, sink.bytes().len(), source.rest().len()))
}

#[test]
fn other_words_read_nothing_and_a_failure_is_told(rt: HostRuntime) -> Result<(), Fail> {
    let all = TWO.len() + 16;
    assert_eq!(rt;
        hindered(&rt, rt.alloc(), "", 0, 99)?,
        (Status::BadWords, USAGE.len(), all)
    );
    assert_eq!(rt;
        hindered(&rt, rt.alloc(), "replay x", 0, 99)?,
        (Status::BadWords, USAGE.len(), all)
    );
    assert_eq!(rt;
        hindered(&rt, rt.alloc(), "help", 0, 2)?,
        (Status::WriteFault, 20, all)
    );
    assert_eq!(rt;
        hindered(&rt, rt.alloc(), "replay", 0, 99)?,
        (Status::ReadFault, 0, all)
    );
    assert_eq!(rt;
        hindered(&rt, rt.alloc(), "upgrade", 99, 1)?,
        (Status::WriteFault, 10, 0)
    );
    assert_eq!(rt;
        hindered(&rt, rt.alloc(), "gen 0 2", 0, 1)?,
        (Status::WriteFault, 10, all)
    );
    Ok(())
}

#[test]
fn words_have_their_forms(rt: HostRuntime) -> Result<(), Fail> {
    for (line, wanted) in [
        (
            "serve s.json 8080 4 j.txt",
            Some(Form::Serve {
                port: 8080,
                workers: 4,
            }),
        ),
        (
            "serve s.json 65535 256 j.txt",
            Some(Form::Serve {
                port: 65535,
                workers: 256,
            }),
        ),
        ("serve s.json 0 4 j.txt", None),
        ("serve s.json 65536 4 j.txt", None),
        ("serve s.json 8080 257 j.txt", None),
        ("serve s.json 8080 04 j.txt", None),
        ("serve s.json 8080 4", None),
        (
            "gen 2147483647 1000",
            Some(Form::Gen {
                seed: 2147483647,
                players: 1000,
            }),
        ),
        ("gen 2147483648 2", None),
        ("gen 0 1", None),
        ("upgrade", Some(Form::Upgrade)),
        ("upgrade now", None),
        ("", None),
    ] {
        let words = words_of(rt.alloc(), line)?;
        assert!(rt; form(&words) == wanted, "{line}");
    }
    Ok(())
}
