//! What requests mean.

use super::evening;
use api::Routes;
use conn::Text;
use http_lines::RequestHead;
use setup_file::Keys;
use std::alloc::{AllocError, Global};
use std::process::Abort;
use std::test::Fail;

fn text(alloc: Global, bytes: &[u8]) -> Result<Text, AllocError> {
    Ok(Text::of(Vec::from_slice(alloc, bytes)?))
}

fn head(
    alloc: Global,
    method: &[u8],
    path: &[u8],
    bearer: Option<&[u8]>,
) -> Result<RequestHead, AllocError> {
    let bearer = match bearer {
        None => None,
        Some(key) => Some(text(alloc, key)?),
    };
    Ok(RequestHead {
        method: text(alloc, method)?,
        path: text(alloc, path)?,
        bearer,
        closes: false,
    })
}

// A method, a path, the key that is sent, if not empty, and what the request means.
type Case = [&'static str; 4];

fn asks<R: Abort>(
    rt: &R,
    alloc: Global,
    routes: &Routes,
    keys: &Keys,
    case: &Case,
) -> Result<(), Fail> {
    let [method, path, key, wanted] = *case;
    let bearer = if key.is_empty() {
        None
    } else {
        Some(key.as_bytes())
    };
    let head = head(alloc, method.as_bytes(), path.as_bytes(), bearer)?;
    let found = format!(in alloc; "{:?}", routes.route(keys, &head))?;
    assert!(rt; found.as_str() == wanted, "{method} {path} means {found}");
    Ok(())
}

fn ask_all<R: Abort>(rt: &R, alloc: Global, cases: &[Case]) -> Result<(), Fail> {
    let (_, keys) = evening(alloc)?;
    let routes = Routes::new(alloc)?;
    for case in cases {
        asks(rt, alloc, &routes, &keys, case)?;
    }
    Ok(())
}

const CALLS: [Case; 17] = [
    ["GET", "/api/arena", "", "Ok(Query(Arena))"],
    ["GET", "/api/standing/0", "", "Ok(Query(Standing(0)))"],
    ["GET", "/api/standing/999", "", "Ok(Query(Standing(999)))"],
    ["GET", "/api/teams", "", "Ok(Query(Teams))"],
    ["GET", "/api/me", "alicekey00000001", "Ok(Query(Me(0)))"],
    [
        "GET",
        "/api/game/4294967295",
        "",
        "Ok(Query(Game(4294967295)))",
    ],
    [
        "GET",
        "/api/journal/8000000",
        "",
        "Ok(Query(Journal(8000000)))",
    ],
    [
        "POST",
        "/api/enter",
        "bobskey000000002",
        "Ok(Command(Enter(1)))",
    ],
    [
        "POST",
        "/api/pause",
        "alicekey00000001",
        "Ok(Command(Pause(0)))",
    ],
    [
        "POST",
        "/api/leave",
        "alicekey00000001",
        "Ok(Command(Leave(0)))",
    ],
    [
        "POST",
        "/api/game/7/move/e2e4",
        "alicekey00000001",
        "Ok(Command(Act(0, 7, Move(Move { from: Square(12), to: Square(28), promo: None }))))",
    ],
    [
        "POST",
        "/api/game/7/draw/offer",
        "alicekey00000001",
        "Ok(Command(Act(0, 7, Offer)))",
    ],
    [
        "POST",
        "/api/game/7/draw/accept",
        "alicekey00000001",
        "Ok(Command(Act(0, 7, Accept)))",
    ],
    [
        "POST",
        "/api/game/7/draw/decline",
        "alicekey00000001",
        "Ok(Command(Act(0, 7, Decline)))",
    ],
    [
        "POST",
        "/api/game/7/resign",
        "alicekey00000001",
        "Ok(Command(Act(0, 7, Resign)))",
    ],
    [
        "POST",
        "/api/game/7/claim",
        "alicekey00000001",
        "Ok(Command(Act(0, 7, Claim)))",
    ],
    [
        "POST",
        "/api/game/7/berserk",
        "alicekey00000001",
        "Ok(Command(Act(0, 7, Berserk)))",
    ],
];

const ERRORS: [Case; 33] = [
    ["GET", "", "", "Err(NoRoute)"],
    ["GET", "/", "", "Err(NoRoute)"],
    ["GET", "/api/arena/", "", "Err(NoRoute)"],
    ["GET", "/api/Arena", "", "Err(NoRoute)"],
    ["GET", "/api/arena\u{e9}", "", "Err(NoRoute)"],
    ["GET", "/api/standing/", "", "Err(NoRoute)"],
    ["GET", "/api/standing/0/1", "", "Err(NoRoute)"],
    ["GET", "/api/game", "", "Err(NoRoute)"],
    [
        "GET",
        "/api/game//resign",
        "alicekey00000001",
        "Err(NoRoute)",
    ],
    [
        "POST",
        "/api/game/7/flag",
        "alicekey00000001",
        "Err(NoRoute)",
    ],
    [
        "POST",
        "/api/game/7/move/",
        "alicekey00000001",
        "Err(NoRoute)",
    ],
    [
        "POST",
        "/api/game/7/move/e2e4/x",
        "alicekey00000001",
        "Err(NoRoute)",
    ],
    ["POST", "/api/arena", "", "Err(BadMethod(AllowGet))"],
    ["HEAD", "/api/arena", "", "Err(BadMethod(AllowGet))"],
    ["get", "/api/teams", "", "Err(BadMethod(AllowGet))"],
    ["POST", "/api/me", "", "Err(BadMethod(AllowGet))"],
    ["POST", "/api/game/x", "", "Err(BadMethod(AllowGet))"],
    ["GET", "/api/enter", "", "Err(BadMethod(AllowPost))"],
    ["GET", "/api/game/x/resign", "", "Err(BadMethod(AllowPost))"],
    [
        "PUT",
        "/api/game/7/draw/claim",
        "",
        "Err(BadMethod(AllowPost))",
    ],
    ["GET", "/api/me", "", "Err(NoKey)"],
    ["POST", "/api/game/x/move/x", "", "Err(NoKey)"],
    ["GET", "/api/me", "alicekey00000002", "Err(UnknownKey)"],
    [
        "POST",
        "/api/game/x/berserk",
        "alicekey00000002",
        "Err(UnknownKey)",
    ],
    ["GET", "/api/standing/1000", "", "Err(BadParam)"],
    ["GET", "/api/standing/00", "", "Err(BadParam)"],
    ["GET", "/api/game/4294967296", "", "Err(BadParam)"],
    ["GET", "/api/journal/8000001", "", "Err(BadParam)"],
    ["GET", "/api/journal/-1", "", "Err(BadParam)"],
    [
        "POST",
        "/api/game/x/resign",
        "alicekey00000001",
        "Err(BadParam)",
    ],
    [
        "POST",
        "/api/game/7/move/e2e9",
        "alicekey00000001",
        "Err(BadParam)",
    ],
    [
        "POST",
        "/api/game/7/draw/claim",
        "alicekey00000001",
        "Err(BadParam)",
    ],
    [
        "POST",
        "/api/game/7/move/e7e8k",
        "alicekey00000001",
        "Err(BadParam)",
    ],
];

#[test]
fn each_row_has_its_call(rt: HostRuntime) -> Result<(), Fail> {
    ask_all(&rt, rt.alloc(), &CALLS)
}

#[test]
fn each_row_has_its_errors(rt: HostRuntime) -> Result<(), Fail> {
    ask_all(&rt, rt.alloc(), &ERRORS)
}
