//! Texts with one part changed, each with its fault.

use super::*;

/// Where a text that begins as the evening ends too early or too late.
const PLACES: [Case; 3] = [
    ("player 2000", "player 02000", "6 Form"),
    ("end\n", "", "12 Ended"),
    ("end\n", "end\n.", "13 After"),
];

/// Lines of a battle without their form.
const FORMS: [Case; 50] = [
    ("arena 1", "arena 2", "2 Form"),
    ("arena 1", "arena 0", "1 Form"),
    ("arena 1", "arena 01", "1 Form"),
    ("arena 1", "arena 2\nrule", "2 Form"),
    ("arena 1", "arena 3", "1 Form"),
    ("arena 1\n", "", "1 Form"),
    ("arena 1\n", "arena 1\r\n", "1 Form"),
    ("arena 1", "0 0 tick\narena 1", "1 Form"),
    ("control 0", "control  0", "2 Form"),
    ("180 300000", "180 300000 ", "2 Form"),
    ("180 300000", "180", "2 Form"),
    ("window 8", "window +8", "3 Form"),
    ("wave 600000", "waves 600000", "4 Form"),
    ("leaders 20", "leaders 18446744073709551617", "5 Form"),
    ("team Red", "team Re.d", "6 Form"),
    ("team Red", "team ", "6 Form"),
    ("team Red", "teams Red", "6 Form"),
    ("team Red", "team abcdefghijklmnopqrstu", "6 Form"),
    ("400 1 Red", "400 1 ", "8 Form"),
    ("400 1 Red", "400 01 Red", "8 Form"),
    ("400 1 Red", "400 1 abcdefghijklmnopqrstu", "8 Form"),
    ("player 4000", "team Green\nplayer 4000", "9 Form"),
    (
        "player 400 1 Red\nplayer 4000 0 b_B-9\nplayer 2100 - carol\n",
        "",
        "8 Form",
    ),
    ("begin\n", "", "11 Form"),
    ("begin", "begin ", "11 Form"),
    ("0 0 enter 0", "0 0 enter", "12 Form"),
    ("0 0 enter 0", "0 0 Enter 0", "12 Form"),
    ("0 0 enter 0", "", "12 Form"),
    ("7 1 pause 2", "7 1 pausing 2", "14 Form"),
    ("7 1 pause 2", "7 1 pause -1", "14 Form"),
    ("7 1 pause 2", "07 1 tick", "14 Form"),
    ("7 1 pause 2", "7  1 tick", "14 Form"),
    ("7 1 pause 2", "7 tick", "14 Form"),
    ("7 1 pause 2", "7 1 tickle", "14 Form"),
    ("7 1 pause 2", "7 1 tick 2", "14 Form"),
    ("7 1 pause 2", "7 1 tick ", "14 Form"),
    ("7 1 pause 2", "7 1 wave", "14 Form"),
    ("7 1 pause 2", "7 1 wave 2 0-2", "14 Form"),
    ("7 1 pause 2", "7 1 act 2 0", "14 Form"),
    ("7 1 pause 2", "7 1 act 2 move e2e4", "14 Form"),
    ("7 1 pause 2", "7 1 act 2 0 move", "14 Form"),
    ("7 1 pause 2", "7 1 act 2 0 move e2e9", "14 Form"),
    ("7 1 pause 2", "7 1 act 2 0 move e7e8k", "14 Form"),
    ("7 1 pause 2", "7 1 act 2 0 move e2e4 +", "14 Form"),
    ("7 1 pause 2", "7 1 act 2 0 resigned", "14 Form"),
    ("7 1 pause 2", "7 1 act 2 0 resign 1", "14 Form"),
    ("end", "ends", "16 Form"),
    // The form of a whole line is looked at before any number of it.
    ("0 180 300000", "10801 x 300000", "2 Form"),
    ("400 1 Red", "399 9 Re.d", "8 Form"),
    ("7 1 pause 2", "7 256 pause x", "14 Form"),
];

/// Numbers of a battle that are out of range.
const RANGES: [Case; 23] = [
    ("0 180 300000", "10801 180 300000", "2 Range"),
    ("0 180 300000", "9999999999 180 300000", "2 Range"),
    ("0 180 300000", "0 181 300000", "2 Range"),
    ("0 180 300000", "0 0 300000", "2 Range"),
    ("0 180 300000", "0 180 999", "2 Range"),
    ("0 180 300000", "0 180 300001", "2 Range"),
    ("window 899999999", "window 900000000", "3 Range"),
    ("899999999 900000000", "899999999 900000001", "3 Range"),
    ("wave 600000", "wave 99", "4 Range"),
    ("wave 600000", "wave 600001", "4 Range"),
    ("leaders 20", "leaders 0", "5 Range"),
    ("leaders 20", "leaders 21", "5 Range"),
    ("400 1 Red", "399 1 Red", "8 Range"),
    ("400 1 Red", "4001 1 Red", "8 Range"),
    ("400 1 Red", "400 2 Red", "8 Range"),
    ("0 0 enter 0", "0 0 enter 3", "12 Range"),
    ("7 1 pause 2", "7 256 pause 2", "14 Range"),
    ("7 1 pause 2", "7 256 tick", "14 Range"),
    ("7 1 pause 2", "7 1 wave 8000001", "14 Range"),
    ("7 1 pause 2", "7 1 act 3 0 resign", "14 Range"),
    ("7 1 pause 2", "7 1 act 2 200000 resign", "14 Range"),
    ("1000000000 3 leave 0", "1000000001 3 leave 0", "15 Range"),
    // A number is looked at before a name.
    ("4000 0 b_B-9", "4000 2 Red", "9 Range"),
];

/// What stands twice, too early or too late in a battle, and which of two faults is named.
const OTHERS: [Case; 12] = [
    ("team Blue", "team Red", "7 Repeat"),
    ("0 b_B-9", "0 Red", "9 Repeat"),
    ("carol", "b_B-9", "10 Repeat"),
    (BATTLE, "", "1 Ended"),
    ("end\n", "", "16 Ended"),
    ("end\n", "9 9 tick", "16 Ended"),
    ("end\n", "end\nend\n", "17 After"),
    ("end\n", "end\n\n", "17 After"),
    ("end\n", "end\n0 0 tick\nx\n", "17 After"),
    // Of two faults the one on the earlier line is named.
    ("wave 600000\nleaders 20", "wave 99\nleader", "4 Range"),
    (
        "team Blue\nplayer 400 1",
        "team Red\nplayer 400 7",
        "7 Repeat",
    ),
    ("7 1 pause 2\n1000000000", "7 256 tick\n01", "14 Range"),
];

/// Faults of the pairing rule and of the games that waves list.
const LISTS: [Case; 13] = [
    ("rule 2", "rule 0", "2 Range"),
    ("rule 2", "rule 3", "2 Range"),
    ("rule 2\n", "", "2 Form"),
    (" 1-2 3-0", "", "13 Form"),
    (" 1-2 3-0", " ", "13 Form"),
    ("1-2 3-0", "1-2  3-0", "13 Form"),
    ("1-2 3-0", "1-2 3", "13 Form"),
    ("1-2 3-0", "1-2 3-0-0", "13 Form"),
    ("1-2 3-0", "1-2 03-0", "13 Form"),
    ("1-2 3-0", "4-2 3-", "13 Form"),
    ("1-2 3-0", "1-2 3-4", "13 Range"),
    ("1-2 3-0", "4-2 3-0", "13 Range"),
    ("0 0 enter 0", "0 0 enter 0 1-2", "12 Form"),
];

#[test]
fn each_fault_is_named_with_its_line(rt: HostRuntime) -> Result<(), Fail> {
    let tables: [(&str, &[Case]); 5] = [
        (EVENING, &PLACES),
        (BATTLE, &FORMS),
        (BATTLE, &RANGES),
        (BATTLE, &OTHERS),
        (LISTED, &LISTS),
    ];
    for (text, cases) in tables {
        check(&rt, rt.alloc(), text, cases)?;
    }
    Ok(())
}

/// Whether the fault is that the text has ended in this line.
fn has_ended_in(fault: Option<ReadJournalFault>, wanted: usize) -> bool {
    match fault {
        Some(ReadJournalFault::Bad(fault)) => {
            fault.line == wanted as u64 && fault.cause == JournalCause::Ended
        }
        _ => false,
    }
}

#[test]
fn each_beginning_of_a_text_ends_in_its_last_line(rt: HostRuntime) {
    for n in 0..BATTLE.len() {
        let beginning = &BATTLE.as_bytes()[..n];
        let lines = beginning.iter().filter(|b| **b == b'\n').count();
        assert!(rt;
            has_ended_in(fault(rt.alloc(), beginning), lines + 1),
            "{n}"
        );
    }
}
