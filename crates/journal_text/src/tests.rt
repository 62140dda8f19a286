ghost use Rattle.std.specs.Prelude.{IfOk};
ghost use Rattle.entries.specs.Ranges.{IsWritable};

use super::*;
use conn::Text;
use entries::{Entry, Journal, Player, Setup, Start};
use std::alloc::{AllocError, Global};
use std::fmt::Write;
use std::process::Abort;
use std::test::Fail;

mod counts;
mod faults;

/// Three players, of whom the first and the third enter.
const EVENING: &str =
    "arena 1\ncontrol 180 2 20000\nwindow 0 3600000\nwave 5000\nleaders 1\nplayer 2000 - alice\nplayer 1900 - bob\nplayer 2100 - carol\nbegin\n0 0 enter 0\n5 0 enter 2\nend\n";

/// Two teams and three players, one of them in no team, who enter, pause and leave.
const BATTLE: &str =
    "arena 1\ncontrol 0 180 300000\nwindow 899999999 900000000\nwave 600000\nleaders 20\nteam Red\nteam Blue\nplayer 400 1 Red\nplayer 4000 0 b_B-9\nplayer 2100 - carol\nbegin\n0 0 enter 0\n0 255 enter 2\n7 1 pause 2\n1000000000 3 leave 0\nend\n";

/// Each kind of entry and each action, in version 1.
const GAMES: &str =
    "arena 1\ncontrol 180 2 20000\nwindow 0 3600000\nwave 5000\nleaders 1\nplayer 2000 - alice\nplayer 1900 - bob\nbegin\n0 0 enter 0\n0 0 enter 1\n1000 0 wave 2\n1000 0 act 0 0 berserk\n2000 0 act 0 0 move e2e4\n2000 0 act 1 0 offer\n2001 0 act 0 0 decline\n2002 0 act 1 199999 move a7a8q\n2003 0 act 1 0 claim\n2004 0 act 1 0 accept\n3000 0 tick\n3000 255 act 0 0 resign\n4000 1 wave 8000000\nend\n";

/// Version 2, under the second pairing rule, with two waves.
const LISTED: &str =
    "arena 2\nrule 2\ncontrol 180 2 20000\nwindow 0 3600000\nwave 5000\nleaders 1\nplayer 2000 - a\nplayer 1990 - b\nplayer 1980 - c\nplayer 1970 - d\nbegin\n0 0 enter 0\n0 0 wave 3 1-2 3-0\n1000 0 act 1 0 resign\n2000 0 wave 5 0-0\nend\n";

/// What each of the texts says: the version, the rule and the setup, and then a line for each team, player, entry and game.
const SAYINGS: [(&str, &str); 4] = [
    (
        EVENING,
        "version 1, rule 1
Control { initial_ms: 180000, inc_ms: 2000, first_ms: 20000 }
starts 0, ends 3600000, wave 5000, leaders 1
alice 2000 None
bob 1900 None
carol 2100 None
Entry { stamp: 0, pass: 0, what: Enter(0) }
Entry { stamp: 5, pass: 0, what: Enter(2) }
",
    ),
    (
        BATTLE,
        "version 1, rule 1
Control { initial_ms: 0, inc_ms: 180000, first_ms: 300000 }
starts 899999999, ends 900000000, wave 600000, leaders 20
Red
Blue
Red 400 Some(1)
b_B-9 4000 Some(0)
carol 2100 None
Entry { stamp: 0, pass: 0, what: Enter(0) }
Entry { stamp: 0, pass: 255, what: Enter(2) }
Entry { stamp: 7, pass: 1, what: Pause(2) }
Entry { stamp: 1000000000, pass: 3, what: Leave(0) }
",
    ),
    (
        GAMES,
        "version 1, rule 1
Control { initial_ms: 180000, inc_ms: 2000, first_ms: 20000 }
starts 0, ends 3600000, wave 5000, leaders 1
alice 2000 None
bob 1900 None
Entry { stamp: 0, pass: 0, what: Enter(0) }
Entry { stamp: 0, pass: 0, what: Enter(1) }
Entry { stamp: 1000, pass: 0, what: Wave(2) }
Entry { stamp: 1000, pass: 0, what: Act(0, 0, Berserk) }
Entry { stamp: 2000, pass: 0, what: Act(0, 0, Move(Move { from: Square(12), to: Square(28), promo: None })) }
Entry { stamp: 2000, pass: 0, what: Act(1, 0, Offer) }
Entry { stamp: 2001, pass: 0, what: Act(0, 0, Decline) }
Entry { stamp: 2002, pass: 0, what: Act(1, 199999, Move(Move { from: Square(48), to: Square(56), promo: Some(Queen) })) }
Entry { stamp: 2003, pass: 0, what: Act(1, 0, Claim) }
Entry { stamp: 2004, pass: 0, what: Act(1, 0, Accept) }
Entry { stamp: 3000, pass: 0, what: Tick }
Entry { stamp: 3000, pass: 255, what: Act(0, 0, Resign) }
Entry { stamp: 4000, pass: 1, what: Wave(8000000) }
",
    ),
    (
        LISTED,
        "version 2, rule 2
Control { initial_ms: 180000, inc_ms: 2000, first_ms: 20000 }
starts 0, ends 3600000, wave 5000, leaders 1
a 2000 None
b 1990 None
c 1980 None
d 1970 None
Entry { stamp: 0, pass: 0, what: Enter(0) }
Entry { stamp: 0, pass: 0, what: Wave(3) }
Entry { stamp: 1000, pass: 0, what: Act(1, 0, Resign) }
Entry { stamp: 2000, pass: 0, what: Wave(5) }
Start { entry: 1, white: 1, black: 2 }
Start { entry: 1, white: 3, black: 0 }
Start { entry: 3, white: 0, black: 0 }
",
    ),
];

/// The lines of the entries of `LISTED`, without the games that they list, and the line behind them.
const LISTED_ENTRIES: &str = "0 0 enter 0\n0 0 wave 3\n1000 0 act 1 0 resign\n2000 0 wave 5\nend\n";

/// The journal of the text.
fn journal_of(alloc: Global, text: &str) -> Result<Journal, Fail>
    ensures writable { IfOk result IsWritable }
{
    Ok(
        read_journal(alloc, text.as_bytes())
            .ok()
            .ok_or("the text is a journal's")?,
    )
}

/// The name as a text.
fn name(text: &Text) -> &str {
    std::str::from_utf8(text.bytes()).unwrap_or("not UTF-8")
}

/// Shows when an arena starts and ends.
fn show_window(shown: &mut String, setup: &Setup) -> Result<(), AllocError> {
    write!(shown, "starts {}, ends {}, ", setup.starts, setup.ends)
}

/// Shows how long an arena waits before a wave, and how many leaders it has.
fn show_waves(shown: &mut String, setup: &Setup) -> Result<(), AllocError> {
    write!(shown, "wave {}, leaders {}\n", setup.wave_ms, setup.leaders)
}

/// Shows teams by their names.
fn show_teams(shown: &mut String, teams: &[Text]) -> Result<(), AllocError> {
    for team in teams {
        write!(shown, "{}\n", name(team))?;
    }
    Ok(())
}

/// Shows each player's name, rating and team.
fn show_players(shown: &mut String, players: &[Player]) -> Result<(), AllocError> {
    for player in players {
        write!(
            shown,
            "{} {} {:?}\n",
            name(&player.name),
            player.rating,
            player.team
        )?;
    }
    Ok(())
}

/// Shows each entry.
fn show_entries(shown: &mut String, entries: &[Entry]) -> Result<(), AllocError> {
    for entry in entries {
        write!(shown, "{entry:?}\n")?;
    }
    Ok(())
}

/// Shows each game of a wave.
fn show_starts(shown: &mut String, starts: &[Start]) -> Result<(), AllocError> {
    for start in starts {
        write!(shown, "{start:?}\n")?;
    }
    Ok(())
}

/// Shows a whole journal.
fn show(shown: &mut String, journal: &Journal) -> Result<(), AllocError> {
    let setup = &journal.setup;
    write!(shown, "version {}, rule {}\n", journal.version, setup.rule)?;
    write!(shown, "{:?}\n", setup.control)?;
    show_window(shown, setup)?;
    show_waves(shown, setup)?;
    show_teams(shown, setup.teams.items())?;
    show_players(shown, setup.players.items())?;
    show_entries(shown, journal.entries.items())?;
    show_starts(shown, journal.starts.items())
}

/// What the text's journal says.
fn saying(alloc: Global, text: &str) -> Result<String, Fail> {
    let journal = journal_of(alloc, text)?;
    let mut shown = String::new(alloc);
    show(&mut shown, &journal)?;
    Ok(shown)
}

#[test]
fn texts_are_read(rt: HostRuntime) -> Result<(), Fail> {
    for (text, wanted) in SAYINGS {
        let found = saying(rt.alloc(), text)?;
        assert_eq!(rt; found.as_str(), wanted);
    }
    one_journal();
    journal_or_fault();
    first_that_cannot_stand();
    place_of_entry();
    Ok(())
}

/// The journal of the text, written.
fn written(alloc: Global, text: &str) -> Result<Text, Fail> {
    let journal = journal_of(alloc, text)?;
    Ok(write_journal(alloc, &journal)?)
}

#[test]
fn a_journal_is_written_and_read_back(rt: HostRuntime) -> Result<(), Fail> {
    for text in [EVENING, BATTLE, GAMES, LISTED] {
        let written = written(rt.alloc(), text)?;
        assert_eq!(rt; written.bytes(), text.as_bytes());
    }
    Ok(())
}

/// Puts a line and its line feed.
fn put_line(lines: &mut Vec<u8>, line: &[u8]) -> Result<(), AllocError> {
    lines.extend_from_slice(line)?;
    lines.push(b'\n')?;
    Ok(())
}

/// Puts the line of an entry, written by itself.
fn put_entry(lines: &mut Vec<u8>, alloc: Global, entry: &Entry) -> Result<(), AllocError> {
    let line = write_entry(alloc, entry)?;
    put_line(lines, line.bytes())
}

/// Puts the line of each entry.
fn put_entries(lines: &mut Vec<u8>, alloc: Global, entries: &[Entry]) -> Result<(), AllocError> {
    for entry in entries {
        put_entry(lines, alloc, entry)?;
    }
    Ok(())
}

/// The lines of the entries of the text's journal, and the line behind them.
fn entry_lines(alloc: Global, text: &str) -> Result<Vec<u8>, Fail> {
    let journal = journal_of(alloc, text)?;
    let mut lines = Vec::new(alloc);
    put_entries(&mut lines, alloc, journal.entries.items())?;
    lines.extend_from_slice(b"end\n")?;
    Ok(lines)
}

#[test]
fn each_entry_is_written_by_itself(rt: HostRuntime) -> Result<(), Fail> {
    for text in [EVENING, BATTLE, GAMES] {
        let (_, wanted) = text.split_once("begin\n").ok_or("entries begin")?;
        let lines = entry_lines(rt.alloc(), text)?;
        assert_eq!(rt; lines.as_slice(), wanted.as_bytes());
    }
    let lines = entry_lines(rt.alloc(), LISTED)?;
    assert_eq!(rt; lines.as_slice(), LISTED_ENTRIES.as_bytes());
    Ok(())
}

/// An old part, a new part, and the fault of the text with the one in place of the other: its line and its cause, or `read`.
type Case = (&'static str, &'static str, &'static str);

/// The text with the first such part changed.
fn changed(alloc: Global, text: &str, old: &str, new: &str) -> Result<String, AllocError> {
    match text.split_once(old) {
        None => String::from_str(alloc, "the part does not stand there"),
        Some((before, behind)) => format!(in alloc; "{before}{new}{behind}"),
    }
}

/// The fault of the text, if it has one.
fn fault(alloc: Global, text: &[u8]) -> Option<ReadJournalFault> {
    read_journal(alloc, text).err()
}

/// The line and the cause of the text's fault, or `read`.
fn finding(alloc: Global, text: &[u8]) -> Result<String, AllocError> {
    match fault(alloc, text) {
        None => String::from_str(alloc, "read"),
        Some(ReadJournalFault::OutOfMemory) => Err(AllocError),
        Some(ReadJournalFault::Bad(JournalFault { line, cause })) => {
            format!(in alloc; "{line} {cause:?}")
        }
    }
}

/// What is found of the text with the part changed.
fn finding_of_changed(
    alloc: Global,
    text: &str,
    old: &str,
    new: &str,
) -> Result<String, AllocError> {
    let text = changed(alloc, text, old, new)?;
    finding(alloc, text.as_bytes())
}

/// Checks that the text with each of these parts changed has the fault beside it.
fn check(rt: &impl Abort, alloc: Global, text: &str, cases: &[Case]) -> Result<(), Fail> {
    for (old, new, wanted) in cases {
        let found = finding_of_changed(alloc, text, old, new)?;
        assert_eq!(rt; found.as_str(), *wanted, "{new}");
    }
    Ok(())
}

/// Values at the ends of their ranges.
const ENDS: [Case; 15] = [
    ("control 180 2 20000", "control 10800 0 1000", "read"),
    ("control 180 2 20000", "control 0 180 300000", "read"),
    ("window 0 3600000", "window 899999999 900000000", "read"),
    ("wave 5000", "wave 100", "read"),
    ("wave 5000", "wave 600000", "read"),
    ("leaders 1", "leaders 20", "read"),
    ("player 2000", "player 400", "read"),
    ("player 2000", "player 4000", "read"),
    ("alice", "-", "read"),
    ("alice", "Az09_-Az09_-Az09_-Az", "read"),
    ("5 0 enter 2", "1000000000 255 leave 2", "read"),
    ("5 0 enter 2", "0 0 pause 0", "read"),
    ("0 0 enter 0\n5 0 enter 2\n", "", "read"),
    // A team and a player may have one name.
    ("player 2000", "team alice\nplayer 2000", "read"),
    ("player 2000 -", "team Red\nplayer 2000 0", "read"),
];

#[test]
fn values_at_the_ends_of_their_ranges_are_read(rt: HostRuntime) -> Result<(), Fail> {
    check(&rt, rt.alloc(), EVENING, &ENDS)
}
