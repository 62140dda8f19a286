//! Bodies, each as it is written.

ghost use Rattle.std.specs.Prelude.{IfOk, ◌≡◌, ◌≤◌, length};
ghost use Rattle.entries.specs.Ranges.{IsGood};

use super::evening;
use api::{ApiError, answer_body, error_body, extra, reply_body, status};
use arena_rules::{Answer, ArenaView, MeView, Phase, PlayerSeat, Query, Refusal, Reply};
use board::{Colour, Move, Position, read_fen, read_move};
use conn::{List, Text};
use entries::{Entry, Setup, What};
use game_room::{ActRefusal, Cause, GameView, Outcome};
use http_lines::Extra;
use ranking::Row;
use std::alloc::{AllocError, Global};
use std::process::Abort;
use std::test::Fail;
use team_battle::TeamRow;

// The game of the two after White's first move, in which White offers a draw.
fn opened(outcome: Option<Outcome>) -> Result<GameView, AllocError>
    ensures white { IfOk result (λ game. game.white ≡ 0) }
    ensures black { IfOk result (λ game. game.black ≡ 1) }
{
    let fen = b"rnbqkbnr/pppppppp/8/8/4P3/8/PPPP1PPP/RNBQKBNR b KQkq e3 0 1";
    let (Ok(position), Some(last)) = (read_fen(fen.as_slice()), read_move(b"e2e4")) else {
        return Err(AllocError);
    };
    Ok(view(position, last, outcome))
}

fn view(position: Position, last: Move, outcome: Option<Outcome>) -> GameView
    ensures white { result.white ≡ 0 }
    ensures black { result.black ≡ 1 }
{
    GameView {
        id: 0,
        white: 0,
        black: 1,
        position,
        plies: 1,
        last: Some(last),
        offer: Some(Colour::White),
        white_ms: 180_000,
        black_ms: 179_999,
        white_berserk: false,
        black_berserk: true,
        outcome,
    }
}

fn resigned(winner: Option<Colour>, cause: Cause) -> Option<Outcome> {
    Some(Outcome {
        winner,
        cause,
        plies: 1,
        white_berserk: false,
        black_berserk: true,
        stamp: 5,
    })
}

fn running_game(alloc: Global, setup: &Setup) -> Result<Text, AllocError>
    requires good { IsGood setup.now }
    requires two { 2 ≤ length setup.now.players }
{
    let going = Reply::Game(opened(None)?);
    reply_body(alloc, setup, &going)
}

fn ended_game(alloc: Global, setup: &Setup) -> Result<Text, AllocError>
    requires good { IsGood setup.now }
    requires two { 2 ≤ length setup.now.players }
{
    let won = Answer::Game(opened(resigned(Some(Colour::Black), Cause::Resign))?);
    answer_body(alloc, setup, &Query::Game(0), &won)
}

fn player_in_a_game(alloc: Global, setup: &Setup) -> Result<Text, AllocError>
    requires good { IsGood setup.now }
    requires two { 2 ≤ length setup.now.players }
{
    let plays = Reply::Me(MeView {
        player: 1,
        seat: PlayerSeat::Playing(3),
        rank: Some(4),
        points: 7,
        performance: -20,
        fire: true,
    });
    reply_body(alloc, setup, &plays)
}

fn absent_player(alloc: Global, setup: &Setup) -> Result<Text, AllocError>
    requires good { IsGood setup.now }
    requires two { 2 ≤ length setup.now.players }
{
    let absent = Answer::Me(MeView {
        player: 0,
        seat: PlayerSeat::Absent,
        rank: None,
        points: 0,
        performance: 0,
        fire: false,
    });
    answer_body(alloc, setup, &Query::Me(0), &absent)
}

fn page_with_a_row(alloc: Global, setup: &Setup) -> Result<Text, AllocError>
    requires good { IsGood setup.now }
    requires two { 2 ≤ length setup.now.players }
{
    let row = Row {
        rank: 0,
        player: 0,
        points: 2,
        performance: 2400,
        games: 1,
        fire: false,
    };
    let page = Answer::Standing {
        total: 11,
        rows: List::of(vec![in alloc; row]?),
    };
    answer_body(alloc, setup, &Query::Standing(1), &page)
}

fn page_past_the_end(alloc: Global, setup: &Setup) -> Result<Text, AllocError>
    requires { IsGood setup.now }
{
    let past = Answer::Standing {
        total: 11,
        rows: List::of(Vec::new(alloc)),
    };
    answer_body(alloc, setup, &Query::Standing(2), &past)
}

fn teams(alloc: Global, setup: &Setup) -> Result<Text, AllocError>
    requires good { IsGood setup.now }
    requires one { 1 ≤ length setup.now.teams }
{
    let team = TeamRow {
        rank: 0,
        team: 0,
        points: 2,
        performance: -1,
    };
    let teams = Answer::Teams(List::of(vec![in alloc; team]?));
    answer_body(alloc, setup, &Query::Teams, &teams)
}

fn arena(alloc: Global, setup: &Setup) -> Result<Text, AllocError>
    requires { IsGood setup.now }
{
    let arena = Answer::Arena(ArenaView {
        stamp: 5,
        phase: Phase::Running,
        entered: 2,
        begun: 1,
        running: 1,
    });
    answer_body(alloc, setup, &Query::Arena, &arena)
}

fn journal(alloc: Global, setup: &Setup) -> Result<Text, AllocError>
    requires { IsGood setup.now }
{
    let entry = Entry {
        stamp: 5,
        pass: 1,
        what: What::Enter(0),
    };
    let journal = Answer::Journal {
        total: 9,
        entries: List::of(vec![in alloc; entry]?),
    };
    answer_body(alloc, setup, &Query::Journal(8), &journal)
}

// What is shown of an evening.
#[derive(Debug, Clone, Copy)]
enum Shown {
    RunningGame,
    EndedGame,
    PlayerInAGame,
    AbsentPlayer,
    PageWithARow,
    PagePastTheEnd,
    Teams,
    Arena,
    Journal,
}

fn body_of(alloc: Global, setup: &Setup, shown: Shown) -> Result<Text, AllocError>
    requires good { IsGood setup.now }
    requires two { 2 ≤ length setup.now.players }
    requires one { 1 ≤ length setup.now.teams }
{
    match shown {
        Shown::RunningGame => running_game(alloc, setup),
        Shown::EndedGame => ended_game(alloc, setup),
        Shown::PlayerInAGame => player_in_a_game(alloc, setup),
        Shown::AbsentPlayer => absent_player(alloc, setup),
        Shown::PageWithARow => page_with_a_row(alloc, setup),
        Shown::PagePastTheEnd => page_past_the_end(alloc, setup),
        Shown::Teams => teams(alloc, setup),
        Shown::Arena => arena(alloc, setup),
        Shown::Journal => journal(alloc, setup),
    }
}

const BODIES: [(Shown, &str); 9] = [
    (
        Shown::RunningGame,
        r#"{"black":"bob","blackBerserk":true,"blackMs":179999,"fen":"rnbqkbnr/pppppppp/8/8/4P3/8/PPPP1PPP/RNBQKBNR b KQkq - 0 1","id":0,"last":"e2e4","offer":"white","outcome":null,"ply":1,"turn":"black","white":"alice","whiteBerserk":false,"whiteMs":180000}"#,
    ),
    (
        Shown::EndedGame,
        r#"{"black":"bob","blackBerserk":true,"blackMs":179999,"fen":"rnbqkbnr/pppppppp/8/8/4P3/8/PPPP1PPP/RNBQKBNR b KQkq - 0 1","id":0,"last":"e2e4","offer":"white","outcome":{"cause":"resign","winner":"black"},"ply":1,"turn":"black","white":"alice","whiteBerserk":false,"whiteMs":180000}"#,
    ),
    (
        Shown::PlayerInAGame,
        r#"{"fire":true,"game":3,"name":"bob","performance":-20,"points":7,"rank":4,"rating":1900,"seat":"playing"}"#,
    ),
    (
        Shown::AbsentPlayer,
        r#"{"fire":false,"game":null,"name":"alice","performance":0,"points":0,"rank":null,"rating":2000,"seat":"absent"}"#,
    ),
    (
        Shown::PageWithARow,
        r#"{"page":1,"players":[{"fire":false,"games":1,"name":"alice","performance":2400,"points":2,"rank":0,"rating":2000}],"total":11}"#,
    ),
    (
        Shown::PagePastTheEnd,
        r#"{"page":2,"players":[],"total":11}"#,
    ),
    (
        Shown::Teams,
        r#"{"teams":[{"name":"Red","performance":-1,"points":2,"rank":0}]}"#,
    ),
    (
        Shown::Arena,
        r#"{"begun":1,"ends":3600000,"entered":2,"running":1,"starts":0,"state":"running","time":5}"#,
    ),
    (
        Shown::Journal,
        r#"{"entries":["5 1 enter 0"],"from":8,"total":9}"#,
    ),
];

fn show_all<R: Abort>(rt: &R, alloc: Global, setup: &Setup) -> Result<(), AllocError>
    requires good { IsGood setup.now }
    requires two { 2 ≤ length setup.now.players }
    requires one { 1 ≤ length setup.now.teams }
{
    for (shown, wanted) in &BODIES {
        let body = body_of(alloc, setup, *shown)?;
        assert!(rt; body.bytes() == wanted.as_bytes(), "{shown:?}");
    }
    Ok(())
}

#[test]
fn what_is_asked_for_is_shown(rt: HostRuntime) -> Result<(), Fail> {
    let (setup, _) = evening(rt.alloc())?;
    Ok(show_all(&rt, rt.alloc(), &setup)?)
}

// Errors, each with its status, its field and its body.
const ERRORS: [(ApiError, &str); 5] = [
    (
        ApiError::BadMethod(Extra::AllowPost),
        r#"405 AllowPost {"error":"BadMethod"}"#,
    ),
    (
        ApiError::UnknownKey,
        r#"401 Challenge {"error":"UnknownKey"}"#,
    ),
    (
        ApiError::Refused(Refusal::AlreadyIn),
        r#"409 Plain {"error":"AlreadyIn"}"#,
    ),
    (
        ApiError::Refused(Refusal::Act(ActRefusal::Illegal)),
        r#"400 Plain {"error":"Illegal"}"#,
    ),
    (
        ApiError::HeadTooLong,
        r#"431 Plain {"error":"HeadTooLong"}"#,
    ),
];

fn answer_to(alloc: Global, error: &ApiError) -> Result<String, AllocError> {
    let body = error_body(alloc, error)?;
    let text = str::from_utf8(body.bytes()).unwrap_or("?");
    format!(in alloc; "{} {:?} {text}", status(error), extra(error))
}

#[test]
fn errors_are_shown(rt: HostRuntime) -> Result<(), Fail> {
    for (error, wanted) in &ERRORS {
        let told = answer_to(rt.alloc(), error)?;
        assert!(rt; told.as_str() == *wanted, "{told}");
    }
    Ok(())
}
