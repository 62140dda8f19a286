//! Whom a wave pairs, and which of its pairs it starts.

use super::evenings::Evening;
use super::{Lines, goes};
use std::test::Fail;

/// What happens between the plan of a wave and its commit.
const BETWEEN: [(Evening, Lines); 7] = [
    (
        Evening::Plain,
        &[
            ("all 4", "Idle"),
            ("plan", "0-1 2-3 alone"),
            ("0 1 pause 0", "Paused"),
            ("0 0 commit", "1"),
            ("starts", "5:2-3"),
        ],
    ),
    (
        Evening::Plain,
        &[
            ("all 4", "Idle"),
            ("plan", "0-1 2-3 alone"),
            ("0 1 leave 3", "Left"),
            ("0 0 commit", "1"),
            ("starts", "5:0-1"),
        ],
    ),
    (
        Evening::Plain,
        &[
            ("all 4", "Idle"),
            ("plan", "0-1 2-3 alone"),
            ("0 1 pause 1", "Paused"),
            ("0 1 enter 1", "Idle"),
            ("0 0 commit", "1"),
            ("starts", "6:2-3"),
        ],
    ),
    (
        Evening::Plain,
        &[
            ("all 4", "Idle"),
            ("plan", "0-1 2-3 alone"),
            ("0 1 enter 4", "Idle"),
            ("0 0 commit", "2"),
            ("starts", "5:0-1 5:2-3"),
        ],
    ),
    (
        Evening::Plain,
        &[
            ("all 4", "Idle"),
            ("plan", "0-1 2-3 alone"),
            ("0 1 commit", "2"),
            ("0 0 commit", "0"),
            ("length", "5"),
        ],
    ),
    (
        Evening::Plain,
        &[
            ("all 4", "Idle"),
            ("plan", "0-1 2-3 alone"),
            ("0 1 commit", "2"),
            ("0 1 act 0 0 resign", "0 180000 180000 Resign Black"),
            ("0 1 act 3 1 resign", "0 180000 180000 Resign White"),
            ("0 0 commit", "0"),
            ("length", "7"),
        ],
    ),
    (
        Evening::Plain,
        &[
            ("all 4", "Idle"),
            ("plan", "0-1 2-3 alone"),
            ("0 1 tick", "NothingDue"),
            ("3600000 0 commit", "Closed"),
            ("0 0 commit", "2"),
            ("starts", "4:0-1 4:2-3"),
        ],
    ),
];

/// Who waits, and whom the plan makes of them.
const WAVES: [(Evening, Lines); 6] = [
    (Evening::Two, &[("reserve 3", ""), ("length", "0")]),
    // Who paused since the plan and came back is not started, and somebody else's game is not his.
    (
        Evening::Plain,
        &[
            ("0 0 enter 0", "Idle"),
            ("0 0 enter 1", "Idle"),
            ("0 0 enter 2", "Idle"),
            ("0 0 enter 3", "Idle"),
            ("plan", "0-1 2-3 alone"),
            ("10 1 pause 1", "Paused"),
            ("20 1 enter 1", "Idle"),
            ("30 0 commit", "1"),
            ("30 0 act 0 0 resign", "NotYours"),
            ("30 0 act 2 0 resign", "0 180000 180000 Resign Black"),
            (
                "table",
                "1 d 1970 2 2480 1 / 2 c 1980 0 1470 1 / 3 a 2000 0 0 0 / 4 b 1990 0 0 0 / games 1 entries 8",
            ),
        ],
    ),
    (
        Evening::TwoTeams,
        &[
            ("all 4", "Idle"),
            ("plan", "0-2 1-3 alone"),
            ("0 0 commit", "2"),
            ("0 0 act 3 1 resign", "0 180000 180000 Resign White"),
            (
                "table",
                "1 b 1990 2 2470 1 / 2 d 1970 0 1490 1 / 3 a 2000 0 0 0 / 4 c 1980 0 0 0 / games 1 entries 6",
            ),
            ("teams", "team 1 Red 2 2470 / team 2 Blue 0 1490"),
        ],
    ),
    // Under the second rule who was left alone is paired, and the two who have just met are not.
    (
        Evening::SecondRule,
        &[
            ("all 3", "Idle"),
            ("plan", "1-2 alone 0"),
            ("0 0 commit", "1"),
            ("1000 0 act 1 0 resign", "0 180000 180000 Resign Black"),
            ("plan", "0-1 alone 2"),
            ("2000 0 commit", "1"),
            ("starts", "3:1-2 5:0-1"),
            (
                "table",
                "1 c 1980 2 2490 1 / 2 b 1990 0 1480 1 / 3 a 2000 0 0 0 / games 1 entries 6",
            ),
        ],
    ),
    // The fifteenth is a group of his own.
    (
        Evening::Plain,
        &[
            ("all 15", "Idle"),
            ("plan", "0-1 2-3 4-5 6-7 8-9 10-11 12-13 alone 14"),
            ("0 0 commit", "7"),
            ("length", "16"),
            ("seat 14", "Idle"),
        ],
    ),
    (
        Evening::OneTeam,
        &[
            ("all 16", "Idle"),
            ("plan", "alone 0 1 2 3 4 5 6 7 8 9 10 11 12 13 14 15"),
            ("0 0 commit", "0"),
            ("length", "16"),
        ],
    ),
];

#[test]
fn a_commit_starts_who_still_waits(rt: HostRuntime) -> Result<(), Fail> {
    for (evening, lines) in BETWEEN {
        goes(&rt, rt.alloc(), evening, lines)?;
    }
    Ok(())
}

#[test]
fn waves_pair_who_waits(rt: HostRuntime) -> Result<(), Fail> {
    for (evening, lines) in WAVES {
        goes(&rt, rt.alloc(), evening, lines)?;
    }
    Ok(())
}
