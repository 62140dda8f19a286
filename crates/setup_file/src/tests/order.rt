use super::{Row, fault, fault_of_changed, refuses};
use std::alloc::{AllocError, Global};
use std::fmt::Write;
use std::test::Fail;

/// Two faults, of which the first in order is named.
const PAIRS: [Row; 10] = [
    (
        r#""wave":1000,"leaders":3"#,
        r#""wave":1,"leaders":0"#,
        "Wave 0 Range",
    ),
    (
        r#""starts":1000,"ends":3600000"#,
        r#""starts":null"#,
        "Starts 0 Kind",
    ),
    (
        r#""rule":2,"teams":["Red","Blue"]"#,
        r#""rule":4,"teams":[1]"#,
        "Rule 0 Range",
    ),
    (r#"["Red","Blue"]"#, r#"["","Blue",0]"#, "Teams 2 Kind"),
    (
        r#"["Red","Blue"]"#,
        r#"["Red","Red","Bl ue"]"#,
        "Teams 2 Range",
    ),
    (
        r#""teams":["Red","Blue"],"players":["#,
        r#""teams":["Red","Red"],"players":[0,"#,
        "Teams 1 Repeat",
    ),
    (
        r#""rating":1500,"key":"key_of_anna_0001","team":"Blue"},{"name":"bert""#,
        r#""rating":1,"key":"key_of_anna_0001","team":"Blue"},{"name":"""#,
        "Rating 0 Range",
    ),
    (
        r#""name":"anna","rating":1500"#,
        r#""name":"","rating":1"#,
        "Name 0 Range",
    ),
    (
        r#""key":"key_of_anna_0001","team":"Blue""#,
        r#""key":"short","team":"Green""#,
        "Key 0 Range",
    ),
    (r#""team":null}"#, r#""team":7},0"#, "Players 2 Kind"),
];

#[test]
fn of_two_faults_the_first_in_order_is_named(rt: HostRuntime) -> Result<(), Fail> {
    refuses(&rt, rt.alloc(), &PAIRS)
}

/// A list of so many equal teams, and one more.
fn equal_teams(alloc: Global, team: &str, more: usize) -> Result<String, AllocError> {
    let mut list = format!(in alloc; "[{team}")?;
    for _ in 0..more {
        write!(list, ",{team}")?;
    }
    list.push_str("]")?;
    Ok(list)
}

/// The fault of the evening whose teams are such a list.
fn fault_of_teams(alloc: Global, team: &str, more: usize) -> Result<String, AllocError> {
    let list = equal_teams(alloc, team, more)?;
    fault_of_changed(alloc, "[\"Red\",\"Blue\"]", list.as_str())
}

#[test]
fn the_number_of_elements_comes_before_their_names(rt: HostRuntime) -> Result<(), Fail> {
    let rows = [
        ("\"\"", 99, "Teams 0 Range"),
        ("\"R\"", 99, "Teams 1 Repeat"),
        ("\"R\"", 100, "Teams 0 Range"),
    ];
    for (team, more, wanted) in rows.iter() {
        let found = fault_of_teams(rt.alloc(), team, *more)?;
        assert_eq!(rt; found.as_str(), *wanted);
    }
    Ok(())
}

/// An evening of so many players of whom nothing is said.
fn crowd(alloc: Global, players: usize) -> Result<String, AllocError> {
    let mut text = String::from_str(
        alloc,
        "{\"control\":{\"initial\":0,\"increment\":1},\"starts\":0,\"ends\":1,\"players\":[{}",
    )?;
    for _ in 1..players {
        text.push_str(",{}")?;
    }
    text.push_str("]}")?;
    Ok(text)
}

/// The fault of such an evening.
fn fault_of_crowd(alloc: Global, players: usize) -> Result<String, AllocError> {
    let text = crowd(alloc, players)?;
    fault(alloc, text.as_bytes())
}

#[test]
fn more_than_a_thousand_players_are_too_many(rt: HostRuntime) -> Result<(), Fail> {
    for (players, wanted) in [(1000, "Name 0 Missing"), (1001, "Players 0 Range")] {
        let found = fault_of_crowd(rt.alloc(), players)?;
        assert_eq!(rt; found.as_str(), wanted);
    }
    Ok(())
}
