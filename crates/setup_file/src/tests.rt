mod evening;
mod order;
mod players;

use crate::{Keys, ReadSetupFault, SetupFault, read_setup, value_is_json};
use conn::Text;
use entries::{Player, Setup};
use std::alloc::{AllocError, Global};
use std::fmt::Write;
use std::process::Abort;
use std::test::Fail;

/// Two teams and two players.
const EVENING: &str =
    r#"{"control":{"initial":60,"increment":1,"first":5000},"starts":1000,"ends":3600000,"wave":1000,"leaders":3,"rule":2,"teams":["Red","Blue"],"players":[{"name":"anna","rating":1500,"key":"key_of_anna_0001","team":"Blue"},{"name":"bert","rating":1600,"key":"key_of_bert_0002","team":null}]}"#;

/// The bytes of examples/club-night.json.
const CLUB_NIGHT: &str = r#"{
  "control": { "initial": 180, "increment": 2, "first": 20000 },
  "starts": 60000,
  "ends": 5460000,
  "wave": 5000,
  "leaders": 2,
  "rule": 1,
  "teams": ["Rooks", "Knights"],
  "players": [
    { "name": "alice", "rating": 2050, "key": "alice_k3y_for_tonight", "team": "Rooks" },
    { "name": "bob", "rating": 1900, "key": "bob_0123456789abcdef", "team": "Knights" },
    { "name": "carol", "rating": 2105, "key": "carol_plays_the_dutch", "team": "Rooks" },
    { "name": "dave", "rating": 1620, "key": "dave_q8w7e6r5t4y3u2", "team": "Knights" },
    { "name": "erin", "rating": 1745, "key": "erin_never_declines_1", "team": null },
    { "name": "frank_90", "rating": 1500, "key": "frank_90_is_new_here" }
  ]
}
"#;

/// What must stand in a file: all else has a default.
const SMALLEST: &str =
    r#"{"control":{"initial":0,"increment":1},"starts":0,"ends":1,"players":[{"name":"a","rating":400,"key":"0123456789abcdef"}]}"#;

/// The text with the one such part changed.
fn changed(alloc: Global, old: &str, new: &str) -> Result<String, AllocError> {
    match EVENING.split_once(old) {
        None => String::from_str(alloc, "the part does not stand there"),
        Some((before, behind)) => format!(in alloc; "{before}{new}{behind}"),
    }
}

/// The fault of the bytes as a text: its member, index and cause, or `read` where they have none.
fn fault(alloc: Global, bytes: &[u8]) -> Result<String, AllocError> {
    match read_setup(alloc, bytes).err() {
        None => String::from_str(alloc, "read"),
        Some(ReadSetupFault::OutOfMemory) => Err(AllocError),
        Some(
            ReadSetupFault::Bad(
                SetupFault {
                    member,
                    index,
                    cause,
                },
            ),
        ) => format!(in alloc; "{member:?} {index} {cause:?}"),
    }
}

/// The fault of the evening with the part changed.
fn fault_of_changed(alloc: Global, old: &str, new: &str) -> Result<String, AllocError> {
    let text = changed(alloc, old, new)?;
    fault(alloc, text.as_bytes())
}

/// An old part, a new part, and the fault that the text has with the one in place of the other.
type Row = (&'static str, &'static str, &'static str);

/// The text has these faults, each with its parts changed.
fn refuses(rt: &impl Abort, alloc: Global, rows: &[Row]) -> Result<(), Fail> {
    for (old, new, wanted) in rows {
        let found = fault_of_changed(alloc, old, new)?;
        assert_eq!(rt; found.as_str(), *wanted, "{new}");
    }
    Ok(())
}

/// Bytes that are no JSON object, and an object without members.
const WHOLES: [(&[u8], &str); 11] = [
    (b"", "Whole 0 NotJson"),
    (b"{", "Whole 0 NotJson"),
    (b"{} {}", "Whole 0 NotJson"),
    (b"{'a': 1}", "Whole 0 NotJson"),
    (b"{\"a\": 01}", "Whole 0 NotJson"),
    (b"{\"a\": \"\xff\"}", "Whole 0 NotJson"),
    (b"\xef\xbb\xbf{}", "Whole 0 NotJson"),
    (b"[]", "Whole 0 Kind"),
    (b"null", "Whole 0 Kind"),
    (b"\"{}\"", "Whole 0 Kind"),
    (b"{}", "Control 0 Missing"),
];

#[test]
fn the_whole_file_is_a_json_object(rt: HostRuntime) -> Result<(), Fail> {
    for (bytes, wanted) in WHOLES.iter() {
        let found = fault(rt.alloc(), bytes)?;
        assert_eq!(rt; found.as_str(), *wanted);
    }
    Ok(())
}

/// A member that nobody knows, of so many lists in one another, before the next member.
fn nested(alloc: Global, lists: usize) -> Result<String, AllocError> {
    let opening = "[".repeat(alloc, lists)?;
    let closing = "]".repeat(alloc, lists)?;
    let (opening, closing) = (opening.as_str(), closing.as_str());
    format!(in alloc; "\"unknown\":{opening}{closing},\"wave\"")
}

/// The fault of the evening with such a member.
fn fault_of_nested(alloc: Global, lists: usize) -> Result<String, AllocError> {
    let member = nested(alloc, lists)?;
    fault_of_changed(alloc, "\"wave\"", member.as_str())
}

#[test]
fn members_that_nobody_knows_are_passed_over(rt: HostRuntime) -> Result<(), Fail> {
    for (lists, wanted) in [(126, "read"), (127, "Whole 0 NotJson")] {
        let found = fault_of_nested(rt.alloc(), lists)?;
        assert_eq!(rt; found.as_str(), wanted, "{lists}");
    }
    Ok(())
}

/// What two files say: the rule and the setup, a line for each team and player, and the player of each of the keys.
const SAYINGS: [(&str, &[&str], &str); 2] = [
    (
        CLUB_NIGHT,
        &[
            "alice_k3y_for_tonight",
            "bob_0123456789abcdef",
            "carol_plays_the_dutch",
            "dave_q8w7e6r5t4y3u2",
            "erin_never_declines_1",
            "frank_90_is_new_here",
            "alice_k3y_for_tonigh",
            "",
        ],
        "rule 1, Control { initial_ms: 180000, inc_ms: 2000, first_ms: 20000 }
starts 60000, ends 5460000, wave 5000, leaders 2
Rooks
Knights
alice 2050 Some(0)
bob 1900 Some(1)
carol 2105 Some(0)
dave 1620 Some(1)
erin 1745 None
frank_90 1500 None
Some(0)
Some(1)
Some(2)
Some(3)
Some(4)
Some(5)
None
None
",
    ),
    (
        SMALLEST,
        &["0123456789abcdef"],
        "rule 1, Control { initial_ms: 0, inc_ms: 1000, first_ms: 20000 }
starts 0, ends 1, wave 5000, leaders 5
a 400 None
Some(0)
",
    ),
];

/// The name as a text.
fn name(text: &Text) -> &str {
    std::str::from_utf8(text.bytes()).unwrap_or("not UTF-8")
}

/// Shows when an arena starts and ends.
fn show_window(shown: &mut String, setup: &Setup) -> Result<(), AllocError> {
    write!(shown, "starts {}, ends {}, ", setup.starts, setup.ends)
}

/// Shows how long an arena waits before a wave, and how many leaders it has.
fn show_waves(shown: &mut String, setup: &Setup) -> Result<(), AllocError> {
    write!(shown, "wave {}, leaders {}\n", setup.wave_ms, setup.leaders)
}

/// Shows teams by their names.
fn show_teams(shown: &mut String, teams: &[Text]) -> Result<(), AllocError> {
    for team in teams {
        write!(shown, "{}\n", name(team))?;
    }
    Ok(())
}

/// Shows each player's name, rating and team.
fn show_players(shown: &mut String, players: &[Player]) -> Result<(), AllocError> {
    for player in players {
        write!(
            shown,
            "{} {} {:?}\n",
            name(&player.name),
            player.rating,
            player.team
        )?;
    }
    Ok(())
}

/// Shows whose keys these are.
fn show_owners(shown: &mut String, keys: &Keys, asked: &[&str]) -> Result<(), AllocError> {
    for key in asked {
        write!(shown, "{:?}\n", keys.find(key.as_bytes()))?;
    }
    Ok(())
}

/// Shows a whole setup, and whose keys these are.
fn show(shown: &mut String, setup: &Setup, keys: &Keys, asked: &[&str]) -> Result<(), AllocError> {
    write!(shown, "rule {}, {:?}\n", setup.rule, setup.control)?;
    show_window(shown, setup)?;
    show_waves(shown, setup)?;
    show_teams(shown, setup.teams.items())?;
    show_players(shown, setup.players.items())?;
    show_owners(shown, keys, asked)
}

/// What the file says, and whose keys these are.
fn saying(alloc: Global, text: &str, asked: &[&str]) -> Result<String, Fail> {
    let (setup, keys) = read_setup(alloc, text.as_bytes())
        .ok()
        .ok_or("the file holds a setup")?;
    let mut shown = String::new(alloc);
    show(&mut shown, &setup, &keys, asked)?;
    Ok(shown)
}

#[test]
fn files_are_read(rt: HostRuntime) -> Result<(), Fail> {
    for (text, asked, wanted) in SAYINGS {
        let found = saying(rt.alloc(), text, asked)?;
        assert_eq!(rt; found.as_str(), wanted);
    }
    value_is_json();
    Ok(())
}

/// How long the evening with this part in place of its waves waits before a wave, where it is read.
fn wave_of(alloc: Global, new: &str) -> Result<Option<u64>, AllocError> {
    let text = changed(alloc, "\"wave\":1000", new)?;
    Ok(
        read_setup(alloc, text.as_bytes())
            .ok()
            .map(|(setup, _)| setup.wave_ms),
    )
}

#[test]
fn of_a_member_that_stands_twice_the_last_counts(rt: HostRuntime) -> Result<(), Fail> {
    let wave = wave_of(rt.alloc(), "\"wave\":null,\"wave\":2500")?;
    assert_eq!(rt; wave, Some(2500));
    let rows = [(
        "\"wave\":1000",
        "\"wave\":2500,\"wave\":null",
        "Wave 0 Kind",
    )];
    refuses(&rt, rt.alloc(), &rows)
}
