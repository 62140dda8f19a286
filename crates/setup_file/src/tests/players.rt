use super::{Row, refuses};
use std::test::Fail;

/// Each member of teams and players with each of its causes.
const MEMBERS: [Row; 32] = [
    (r#"["Red","Blue"]"#, r#"null"#, "Teams 0 Kind"),
    (r#"["Red","Blue"]"#, r#""Red""#, "Teams 0 Kind"),
    (r#"["Red","Blue"]"#, r#"["Red","Blue",7]"#, "Teams 2 Kind"),
    (r#"["Red","Blue"]"#, r#"["","Blue"]"#, "Teams 0 Range"),
    (r#"["Red","Blue"]"#, r#"["Red","Bl ue"]"#, "Teams 1 Range"),
    (
        r#"["Red","Blue"]"#,
        r#"["Red","Blue","Red"]"#,
        "Teams 2 Repeat",
    ),
    (
        r#","players":[{"name":"anna","rating":1500,"key":"key_of_anna_0001","team":"Blue"},{"name":"bert","rating":1600,"key":"key_of_bert_0002","team":null}]"#,
        r#""#,
        "Players 0 Missing",
    ),
    (
        r#""players":[{"name":"anna","rating":1500,"key":"key_of_anna_0001","team":"Blue"},{"name":"bert","rating":1600,"key":"key_of_bert_0002","team":null}]"#,
        r#""players":{}"#,
        "Players 0 Kind",
    ),
    (
        r#""players":[{"name":"anna","rating":1500,"key":"key_of_anna_0001","team":"Blue"},{"name":"bert","rating":1600,"key":"key_of_bert_0002","team":null}]"#,
        r#""players":[{},[]]"#,
        "Players 1 Kind",
    ),
    (
        r#""players":[{"name":"anna","rating":1500,"key":"key_of_anna_0001","team":"Blue"},{"name":"bert","rating":1600,"key":"key_of_bert_0002","team":null}]"#,
        r#""players":[]"#,
        "Players 0 Range",
    ),
    (r#""name":"anna","#, r#""#, "Name 0 Missing"),
    (r#""name":"bert""#, r#""name":null"#, "Name 1 Kind"),
    (r#""name":"anna""#, r#""name":"""#, "Name 0 Range"),
    (r#""name":"anna""#, r#""name":"anna.k""#, "Name 0 Range"),
    (
        r#""name":"bert""#,
        r#""name":"bert_and_his_brothers""#,
        "Name 1 Range",
    ),
    (r#""name":"bert""#, r#""name":"anna""#, "Name 1 Repeat"),
    (r#""rating":1600,"#, r#""#, "Rating 1 Missing"),
    (r#""rating":1600"#, r#""rating":"1600""#, "Rating 1 Kind"),
    (r#""rating":1600"#, r#""rating":1600.5"#, "Rating 1 Kind"),
    (r#""rating":1500"#, r#""rating":399"#, "Rating 0 Range"),
    (r#""rating":1500"#, r#""rating":5000"#, "Rating 0 Range"),
    (r#""key":"key_of_anna_0001","#, r#""#, "Key 0 Missing"),
    (r#""key":"key_of_bert_0002""#, r#""key":null"#, "Key 1 Kind"),
    (
        r#""key":"key_of_anna_0001""#,
        r#""key":"key_of_anna_001""#,
        "Key 0 Range",
    ),
    (
        r#""key":"key_of_anna_0001""#,
        r#""key":"kkkkkkkkkkkkkkkkkkkkkkkkkkkkkkkkkkkkkkkkkkkkkkkkkkkkkkkkkkkkkkkkk""#,
        "Key 0 Range",
    ),
    (
        r#""key":"key_of_bert_0002""#,
        r#""key":"key-of-bert-0002""#,
        "Key 1 Range",
    ),
    (
        r#""key":"key_of_bert_0002""#,
        r#""key":"key_of_anna_0001""#,
        "Key 1 Repeat",
    ),
    (r#""team":null"#, r#""team":1"#, "Team 1 Kind"),
    (r#""team":null"#, r#""team":["Red"]"#, "Team 1 Kind"),
    (r#""team":null"#, r#""team":"blue""#, "Team 1 UnknownTeam"),
    (
        r#""team":null"#,
        r#""team":"no name at all""#,
        "Team 1 UnknownTeam",
    ),
    (r#"["Red","Blue"]"#, r#"[]"#, "Team 0 UnknownTeam"),
];

#[test]
fn each_member_of_teams_and_players_has_its_causes(rt: HostRuntime) -> Result<(), Fail> {
    refuses(&rt, rt.alloc(), &MEMBERS)
}
