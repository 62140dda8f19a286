ghost use Rattle.std.specs.Prelude.{IfOk};
ghost use Rattle.entries.specs.Ranges.{IsWritable};

use crate::arena_of;
use entries::Journal;
use journal_text::read_journal;
use std::alloc::{AllocError, Global};
use std::process::Abort;
use std::string::String;
use std::test::Fail;
use std::thread::Threads;

const FIRST: &str =
    "arena 1\ncontrol 180 2 20000\nwindow 1000 3600000\nwave 5000\nleaders 1\nplayer 2000 - a\nplayer 1900 - b\n\
player 1800 - c\nplayer 1700 - d\nbegin\n";

const SECOND: &str =
    "arena 2\nrule 2\ncontrol 180 2 20000\nwindow 1000 3600000\nwave 5000\nleaders 1\nplayer 2000 - a\nplayer 1900 - b\n\
player 1800 - c\nplayer 1700 - d\nbegin\n";

const TWO: &str = "0 0 enter 0\n0 0 enter 1\n";

const FOUR: &str = "0 0 enter 0\n0 0 enter 1\n0 0 enter 2\n0 0 enter 3\n";

// A journal's head, its first and its further entries, and what it comes to.
type Case = [&'static str; 4];

const CASES: [Case; 20] = [
    [FIRST, "", "end\n", "entries 0 games 0"],
    [
        FIRST,
        "0 0 enter 0\n0 0 enter 1\n0 0 enter 2\n1000 0 wave 3\n",
        "2000 0 act 1 0 berserk\n2000 0 leave 2\n30000 0 tick\nend\n",
        "entries 7 games 1",
    ],
    // a wave of an earlier length starts the pairs of that length
    [
        FIRST,
        FOUR,
        "1000 0 wave 2\n1000 0 wave 4\n1000 0 enter 3\nend\n",
        "Illegal { entry: 6, cause: Refused(AlreadyIn) }",
    ],
    // the same length twice
    [
        FIRST,
        FOUR,
        "1000 0 wave 2\n1000 0 wave 2\nend\n",
        "Illegal { entry: 5, cause: WaveEmpty }",
    ],
    [
        FIRST,
        "5 0 enter 0\n",
        "4 0 enter 0\nend\n",
        "Illegal { entry: 1, cause: StampFalls }",
    ],
    [
        FIRST,
        TWO,
        "0 0 tick\nend\n",
        "Illegal { entry: 2, cause: Refused(NothingDue) }",
    ],
    [
        FIRST,
        TWO,
        "1000 0 wave 2\n1000 0 act 0 0 resign\n1000 0 act 0 0 resign\nend\n",
        "Illegal { entry: 4, cause: Refused(Act(Over)) }",
    ],
    // each test of a wave, also where later ones hold too
    [
        FIRST,
        "",
        "999 0 wave 1\nend\n",
        "Illegal { entry: 0, cause: Early }",
    ],
    [
        FIRST,
        "",
        "3600000 0 wave 1\nend\n",
        "Illegal { entry: 0, cause: Closed }",
    ],
    [
        FIRST,
        "",
        "1000 0 wave 1\nend\n",
        "Illegal { entry: 0, cause: WaveNumber }",
    ],
    [
        FIRST,
        "",
        "1000 0 wave 0\nend\n",
        "Illegal { entry: 0, cause: WaveEmpty }",
    ],
    [
        FIRST,
        TWO,
        "1000 0 wave 3\nend\n",
        "Illegal { entry: 2, cause: WaveNumber }",
    ],
    [
        FIRST,
        TWO,
        "500 0 pause 1\n1000 0 wave 2\nend\n",
        "Illegal { entry: 3, cause: WaveEmpty }",
    ],
    // an earlier entry that is not allowed comes before a later one
    [
        FIRST,
        "1000 0 wave 5\n",
        "0 0 enter 0\nend\n",
        "Illegal { entry: 0, cause: WaveNumber }",
    ],
    [
        SECOND,
        FOUR,
        "1000 0 wave 4 0-1 2-3\nend\n",
        "entries 5 games 2",
    ],
    [
        SECOND,
        FOUR,
        "1000 0 wave 4 2-3 0-1\nend\n",
        "Illegal { entry: 4, cause: PairsDiffer }",
    ],
    [
        SECOND,
        TWO,
        "1000 0 wave 2 1-0\nend\n",
        "Illegal { entry: 2, cause: PairsDiffer }",
    ],
    [
        SECOND,
        TWO,
        "1000 0 wave 2 0-1 2-3\nend\n",
        "Illegal { entry: 2, cause: PairsDiffer }",
    ],
    [
        SECOND,
        FOUR,
        "1000 0 wave 4 0-1\nend\n",
        "Illegal { entry: 4, cause: PairsDiffer }",
    ],
    [
        SECOND,
        TWO,
        "1000 0 wave 0 0-1\nend\n",
        "Illegal { entry: 2, cause: WaveEmpty }",
    ],
];

// The journal of a case.
fn journal(alloc: Global, case: &Case) -> Result<Journal, Fail>
    ensures { IfOk result (λ read. IsWritable read) }
{
    let [head, first, further, _] = *case;
    let text = format!(in alloc; "{head}{first}{further}")?;
    match read_journal(alloc, text.as_bytes()) {
        Ok(read) => Ok(read),
        Err(_) => Err(Fail::from(AllocError)),
    }
}

// What a journal comes to: its arena's entries and games, or its fault.
fn came<R: Threads + Sync>(rt: &R, alloc: Global, journal: &Journal) -> Result<String, AllocError>
    requires { IsWritable journal.now }
{
    match arena_of(rt, alloc, journal) {
        Ok(arena) => format!(in alloc; "entries {} games {}", arena.len(), arena.begun()),
        Err(fault) => format!(in alloc; "{fault:?}"),
    }
}

fn comes_to<R: Threads + Sync + Abort>(rt: &R, alloc: Global, case: &Case) -> Result<(), Fail> {
    let came = came(rt, alloc, &journal(alloc, case)?)?;
    assert!(rt; came.as_str() == case[3], "{} and not {came}", case[3]);
    Ok(())
}

#[test]
fn a_journal_has_its_arena_or_its_first_entry_that_is_not_allowed(
    rt: HostRuntime,
) -> Result<(), Fail> {
    for case in &CASES {
        comes_to(&rt, rt.alloc(), case)?;
    }
    Ok(())
}
