//! Texts of many lines, and waves of many games.

use super::*;

/// A text with a wave that lists so many games.
fn long_wave(alloc: Global, games: usize) -> Result<String, AllocError> {
    let games = " 1-2".repeat(alloc, games)?;
    changed(alloc, LISTED, " 1-2 3-0", games.as_str())
}

/// What is found of a text whose wave lists so many games.
fn finding_of_wave(alloc: Global, games: usize) -> Result<String, AllocError> {
    let text = long_wave(alloc, games)?;
    finding(alloc, text.as_bytes())
}

#[test]
fn a_wave_lists_at_most_500_games(rt: HostRuntime) -> Result<(), Fail> {
    for (games, wanted) in [(500, "read"), (501, "13 Range")] {
        let found = finding_of_wave(rt.alloc(), games)?;
        assert_eq!(rt; found.as_str(), wanted, "{games}");
    }
    Ok(())
}

/// Puts the lines of so many teams.
fn put_teams(text: &mut String, teams: u32) -> Result<(), AllocError> {
    for t in 0..teams {
        write!(text, "team team{t}\n")?;
    }
    Ok(())
}

/// Puts the lines of so many players.
fn put_players(text: &mut String, players: u32) -> Result<(), AllocError> {
    for p in 0..players {
        write!(text, "player 1500 - player{p}\n")?;
    }
    Ok(())
}

/// What the player of this entry does, where each enters and pauses in turn.
fn wish(entry: u32, players: u32) -> &'static str {
    if entry / players.max(1) % 2 == 0 {
        "enter"
    } else {
        "pause"
    }
}

/// Puts the lines of so many entries, in which each of the players enters and pauses in turn.
fn put_wishes(text: &mut String, players: u32, entries: u32) -> Result<(), AllocError> {
    for e in 0..entries {
        write!(text, "{e} 0 {} {}\n", wish(e, players), e % players.max(1))?;
    }
    Ok(())
}

/// Puts the lines of so many teams and players, and of so many entries.
fn put_long(text: &mut String, teams: u32, players: u32, entries: u32) -> Result<(), AllocError> {
    text.push_str("arena 1\ncontrol 180 2 20000\nwindow 0 3600000\nwave 5000\nleaders 1\n")?;
    put_teams(text, teams)?;
    put_players(text, players)?;
    text.push_str("begin\n")?;
    put_wishes(text, players, entries)?;
    text.push_str("end\n")
}

/// A text with so many teams and players, each of whom enters and pauses in turn, for so many entries.
fn long_text(alloc: Global, teams: u32, players: u32, entries: u32) -> Result<String, AllocError> {
    let mut text = String::new(alloc);
    put_long(&mut text, teams, players, entries)?;
    Ok(text)
}

/// How many teams, players and entries the text's journal has.
fn counts(alloc: Global, text: &str) -> Option<(usize, usize, usize)> {
    let journal = read_journal(alloc, text.as_bytes()).ok()?;
    Some((
        journal.setup.teams.items().len(),
        journal.setup.players.items().len(),
        journal.entries.items().len(),
    ))
}

/// The counts of a text with so many teams, players and entries.
fn counts_of_long(
    alloc: Global,
    teams: u32,
    players: u32,
    entries: u32,
) -> Result<Option<(usize, usize, usize)>, AllocError> {
    let text = long_text(alloc, teams, players, entries)?;
    Ok(counts(alloc, text.as_str()))
}

#[test]
fn counts_may_be_at_their_ends(rt: HostRuntime) -> Result<(), Fail> {
    for (teams, players, entries) in [(100, 1000, 2000), (0, 1000, 100_000)] {
        let found = counts_of_long(rt.alloc(), teams, players, entries)?;
        assert_eq!(rt;
            found,
            Some((teams as usize, players as usize, entries as usize))
        );
    }
    Ok(())
}

/// What is found of a text with so many teams and players and no entry, with a part changed.
fn finding_of_long(
    alloc: Global,
    teams: u32,
    players: u32,
    old: &str,
    new: &str,
) -> Result<String, AllocError> {
    let text = long_text(alloc, teams, players, 0)?;
    finding_of_changed(alloc, text.as_str(), old, new)
}

#[test]
fn counts_have_their_ends(rt: HostRuntime) -> Result<(), Fail> {
    let cases = [
        (101, 1, "end", "end", "106 Range"),
        (1, 1001, "end", "end", "1007 Range"),
        // One line too many is named before its name, which stood before.
        (1, 1001, "player1000\n", "player0\n", "1007 Range"),
    ];
    for (teams, players, old, new, wanted) in cases {
        let found = finding_of_long(rt.alloc(), teams, players, old, new)?;
        assert_eq!(rt; found.as_str(), wanted);
    }
    Ok(())
}
