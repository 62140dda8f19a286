//! How games end, and what they count for.

use super::evenings::Evening;
use super::{Lines, goes};
use std::test::Fail;

/// A game of two players in each of its ways to an end.
const GAMES: [(Evening, Lines); 12] = [
    (
        Evening::Two,
        &[
            ("all 2", "Idle"),
            ("plan", "0-1 alone"),
            ("1000 0 commit", "1"),
            ("1000 0 act 0 0 berserk", "0 90000 180000"),
            ("2000 0 act 0 0 f2f3", "1 90000 180000"),
            ("3000 0 act 1 0 e7e5", "2 90000 180000"),
            ("4000 0 act 0 0 g2g4", "3 89000 180000"),
            ("5000 0 act 1 0 d8h4", "4 89000 181000 Mate Black"),
            (
                "table",
                "1 b 1900 2 2500 1 / 2 a 2000 0 1400 1 / games 1 entries 8",
            ),
            ("view 6000", "6000 Running 2 1 0"),
            ("game 6000 0", "4 89000 181000 Mate Black"),
            ("game 6000 1", "NoGame"),
            ("standing 0", "2 of 2"),
            ("standing 1", "0 of 2"),
            ("journal 6", "2 of 8"),
        ],
    ),
    (
        Evening::Two,
        &[
            ("all 2", "Idle"),
            ("plan", "0-1 alone"),
            ("1000 0 commit", "1"),
            (
                "play 1000 0 e2e3 a7a5 d1h5 a8a6 h5a5 h7h5 h2h4 a6h6 a5c7 f7f6 c7d7 e8f7 d7b7 d8d3 b7b8 d3h7 b8c8 f7g6 c8e6",
                "19 198000 196000 Stalemate draw",
            ),
            (
                "table",
                "1 b 1900 0 2000 1 / 2 a 2000 0 1900 1 / games 1 entries 22",
            ),
        ],
    ),
    // White's minute is used up to the millisecond.
    (
        Evening::Minute,
        &[
            ("all 2", "Idle"),
            ("plan", "0-1 alone"),
            ("0 0 commit", "1"),
            ("1000 0 act 0 0 e2e4", "1 60000 60000"),
            ("2000 0 act 1 0 e7e5", "2 60000 60000"),
            ("62000 0 act 0 0 g1f3", "2 0 60000 Flag Black"),
            (
                "table",
                "1 b 1900 2 2500 1 / 2 a 2000 0 1400 1 / games 1 entries 6",
            ),
        ],
    ),
    (
        Evening::Minute,
        &[
            ("all 2", "Idle"),
            ("plan", "0-1 alone"),
            ("0 0 commit", "1"),
            ("1000 0 act 0 0 e2e4", "1 60000 60000"),
            ("2000 0 act 1 0 e7e5", "2 60000 60000"),
            ("61999 0 act 0 0 g1f3", "3 1 60000"),
            (
                "table",
                "1 a 2000 0 0 0 / 2 b 1900 0 0 0 / games 0 entries 6",
            ),
        ],
    ),
    // A game that ends at the arena's end does not count, and one that ends before it does.
    (
        Evening::Short,
        &[
            ("all 2", "Idle"),
            ("plan", "0-1 alone"),
            ("0 0 commit", "1"),
            ("1000 0 act 0 0 e2e4", "1 60000 60000"),
            ("2000 0 act 1 0 e7e5", "2 60000 60000"),
            ("62001 0 enter 2", "Closed"),
            ("62001 0 tick", "1"),
            (
                "table",
                "1 a 2000 0 0 0 / 2 b 1900 0 0 0 / games 0 entries 6",
            ),
        ],
    ),
    (
        Evening::Short,
        &[
            ("all 2", "Idle"),
            ("plan", "0-1 alone"),
            ("0 0 commit", "1"),
            ("1000 0 act 0 0 e2e4", "1 60000 60000"),
            ("2000 0 act 1 0 e7e5", "2 60000 60000"),
            ("62000 0 tick", "1"),
            (
                "table",
                "1 b 1900 2 2500 1 / 2 a 2000 0 1400 1 / games 1 entries 6",
            ),
        ],
    ),
    // Who does not show up pauses, and nobody is there for another wave.
    (
        Evening::Two,
        &[
            ("all 2", "Idle"),
            ("plan", "0-1 alone"),
            ("0 0 commit", "1"),
            ("19999 0 tick", "NothingDue"),
            ("20000 0 tick", "1"),
            ("game 20000 0", "0 180000 180000 NoShow Black"),
            ("seat 0", "Paused"),
            ("plan", "alone 1"),
            ("20000 0 commit", "0"),
            (
                "table",
                "1 b 1900 2 2500 1 / 2 a 2000 0 1400 1 / games 1 entries 4",
            ),
        ],
    ),
    (
        Evening::Two,
        &[
            ("all 2", "Idle"),
            ("plan", "0-1 alone"),
            ("1000 0 commit", "1"),
            ("2000 0 leave 0", "Playing(0)"),
            ("3000 0 act 0 0 resign", "0 180000 180000 Resign Black"),
            (
                "table",
                "1 b 1900 2 2500 1 / 2 a 2000 0 1400 1 / games 1 entries 5",
            ),
            ("seat 0", "Left"),
            ("4000 0 enter 0", "Left"),
        ],
    ),
    // The position behind four plies occurs anew every four plies.
    (
        Evening::Two,
        &[
            ("all 2", "Idle"),
            ("plan", "0-1 alone"),
            ("1000 0 commit", "1"),
            (
                "play 1000 0 e2e4 e7e5 d2d4 d7d5 g1f3 g8f6 f3g1 f6g8 g1f3 g8f6 f3g1 f6g8",
                "12 190000 190000",
            ),
            (
                "play 1000 0 g1f3 g8f6 f3g1 f6g8 g1f3 g8f6 f3g1 f6g8",
                "20 198000 198000 Fivefold draw",
            ),
            (
                "table",
                "1 b 1900 1 2000 1 / 2 a 2000 1 1900 1 / games 1 entries 23",
            ),
        ],
    ),
    (
        Evening::Two,
        &[
            ("all 2", "Idle"),
            ("plan", "0-1 alone"),
            ("1000 0 commit", "1"),
            (
                "play 1000 0 e2e4 e7e5 d2d4 d7d5 g1f3 g8f6 f3g1 f6g8 g1f3 g8f6 f3g1",
                "11 190000 188000",
            ),
            ("1000 0 act 1 0 claim", "Act(NoClaim)"),
            ("1000 0 act 1 0 f6g8", "12 190000 190000"),
            ("1000 0 act 0 0 claim", "12 190000 190000 Threefold draw"),
            (
                "table",
                "1 b 1900 0 2000 1 / 2 a 2000 0 1900 1 / games 1 entries 16",
            ),
        ],
    ),
    (
        Evening::Two,
        &[
            ("all 2", "Idle"),
            ("plan", "0-1 alone"),
            ("1000 0 commit", "1"),
            ("1000 0 act 0 0 offer", "0 180000 180000"),
            ("1000 0 act 0 0 offer", "Act(OfferStands)"),
            ("1000 0 act 1 0 accept", "0 180000 180000 Agreed draw"),
            (
                "table",
                "1 b 1900 0 2000 1 / 2 a 2000 0 1900 1 / games 1 entries 5",
            ),
        ],
    ),
    // A look ends three games: the first by time, though it was due last; the second by Black's no-show; and the third by that
    // of White, who left before.
    (
        Evening::Plain,
        &[
            ("all 6", "Idle"),
            ("plan", "0-1 2-3 4-5 alone"),
            ("0 0 commit", "3"),
            ("1000 0 act 0 0 e2e4", "1 180000 180000"),
            ("1500 0 act 1 0 e7e5", "2 180000 180000"),
            ("1500 0 act 2 1 e2e4", "1 180000 180000"),
            ("2000 0 leave 4", "Playing(2)"),
            ("19999 0 tick", "NothingDue"),
            ("181500 0 tick", "3"),
            ("counted", "0 1 2"),
            ("game 181500 0", "2 0 180000 Flag Black"),
            ("game 181500 1", "1 180000 180000 NoShow White"),
            ("game 181500 2", "0 180000 180000 NoShow Black"),
            ("seat 3", "Paused"),
            ("seat 4", "Left"),
            (
                "table",
                "1 b 1990 2 2500 1 / 2 c 1980 2 2470 1 / 3 f 1950 2 2460 1 / 4 a 2000 0 1490 1 / 5 d 1970 0 1480 1 / 6 e 1960 0 1450 1 / games 3 entries 12",
            ),
        ],
    ),
];

#[test]
fn games_end(rt: HostRuntime) -> Result<(), Fail> {
    for (evening, lines) in GAMES {
        goes(&rt, rt.alloc(), evening, lines)?;
    }
    Ok(())
}
