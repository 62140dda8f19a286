ghost use Rattle.std.specs.Prelude.{◌≡◌, ◌+◌, ◌<◌, ◌≢◌, ◌∷◌, [], length, IfOk};
ghost use Rattle.entries.specs.Ranges.{IsGood};

use super::{PairingFacts, Pairings, Scores, candidates};
use board::Colour;
use conn::{List, Text};
use entries::{Control, Player, Setup};
use game_room::{Cause, Header, Outcome};
use pair_cost::Candidate;
use ranking::Row;
use seats::{Seats, Wish};
use std::alloc::{AllocError, Global};
use std::process::Abort;
use std::test::Fail;

const CONTROL: Control = Control {
    initial_ms: 180_000,
    inc_ms: 2_000,
    first_ms: 20_000,
};

fn named(alloc: Global, letter: u8, rating: u32, team: Option<u32>) -> Result<Player, AllocError>
    ensures name { IfOk result (λ player. player.name ≡ letter ∷ []) }
    ensures rating { IfOk result (λ player. player.rating ≡ rating) }
    ensures team { IfOk result (λ player. player.team ≡ team) }
{
    Ok(Player {
        name: Text::of(vec![in alloc; letter]?),
        rating,
        team,
    })
}

/// Four players with ratings from 2000 down by tens, of whom the second has a team.
fn evening(alloc: Global) -> Result<Setup, AllocError>
    ensures good { IfOk result IsGood }
    ensures four { IfOk result (λ setup. length setup.players ≡ 4) }
{
    let ann = named(alloc, b'a', 2000, None)?;
    let ben = named(alloc, b'b', 1990, Some(0))?;
    let cyd = named(alloc, b'c', 1980, None)?;
    let dan = named(alloc, b'd', 1970, None)?;
    let red = Text::of(vec![in alloc; b'r']?);
    Ok(Setup {
        control: CONTROL,
        starts: 0,
        ends: 3_600_000,
        wave_ms: 5_000,
        leaders: 1,
        rule: 2,
        teams: List::of(vec![in alloc; red]?),
        players: List::of(vec![in alloc; ann, ben, cyd, dan]?),
    })
}

/// No games and nobody who entered.
fn opened(alloc: Global) -> Result<Scores, AllocError>
    ensures size { IfOk result (λ scores. length scores.accounts ≡ 4) }
    ensures none { IfOk result (λ scores. scores.counted ≡ 0) }
{
    let setup = evening(alloc)?;
    let scores = Scores::new(alloc, &setup)?;
    Ok(scores)
}

fn enter(rt: &impl Abort, scores: &mut Scores, p: u32)
    requires { length scores.old.accounts ≡ 4 }
    ensures size { length scores.new.accounts ≡ 4 }
    ensures counted { scores.new.counted ≡ scores.old.counted }
{
    assert!(rt; p < 4);
    scores.enter(p);
}

/// A game of two of the four ended so.
fn count(rt: &impl Abort, scores: &mut Scores, white: u32, black: u32, outcome: &Outcome)
    requires size { length scores.old.accounts ≡ 4 }
    requires few { scores.old.counted < 100 }
    ensures size { length scores.new.accounts ≡ 4 }
    ensures counted { scores.new.counted ≡ scores.old.counted + 1 }
{
    assert!(rt; white < 4 && black < 4 && white != black);
    let header = Header {
        id: scores.counted(),
        white,
        black,
        control: CONTROL,
        start: 0,
    };
    scores.count(&header, outcome);
}

/// A game of two players, and the points, the performance, the games and the fire of White and of Black behind it.
#[derive(Clone, Copy)]
struct Case {
    white: u32,
    black: u32,
    outcome: Outcome,
    whites: (u32, i64, u32, bool),
    blacks: (u32, i64, u32, bool),
}

const fn ended(
    winner: Option<Colour>,
    plies: u32,
    white_berserk: bool,
    black_berserk: bool,
) -> Outcome {
    Outcome {
        winner,
        cause: Cause::Agreed,
        plies,
        white_berserk,
        black_berserk,
        stamp: 0,
    }
}

fn says(rt: &impl Abort, scores: &Scores, p: u32, want: (u32, i64, u32, bool)) {
    let row = scores.row_of(p).map(|row| (
        row.player,
        row.points,
        row.performance,
        row.games,
        row.fire,
    ));
    assert_eq!(rt; row, Some((p, want.0, want.1, want.2, want.3)));
}

/// The game of a case is played.
fn play(rt: &impl Abort, scores: &mut Scores, case: &Case)
    requires size { length scores.old.accounts ≡ 4 }
    requires few { scores.old.counted < 100 }
    ensures size { length scores.new.accounts ≡ 4 }
    ensures counted { scores.new.counted ≡ scores.old.counted + 1 }
{
    count(rt, scores, case.white, case.black, &case.outcome);
    says(rt, scores, case.white, case.whites);
    says(rt, scores, case.black, case.blacks);
}

/// All four enter.
fn all_entered(rt: &impl Abort, alloc: Global) -> Result<Scores, AllocError>
    ensures size { IfOk result (λ scores. length scores.accounts ≡ 4) }
    ensures none { IfOk result (λ scores. scores.counted ≡ 0) }
{
    let mut scores = opened(alloc)?;
    enter(rt, &mut scores, 0);
    enter(rt, &mut scores, 1);
    enter(rt, &mut scores, 2);
    enter(rt, &mut scores, 3);
    Ok(scores)
}

/// A berserk counts for a win of 14 plies or more, a draw from 20 plies on, and the second draw in a row only from 60 on; a
/// game behind two wins counts double.
#[test]
fn counts_for_both_players(rt: HostRuntime) -> Result<(), Fail> {
    let cases = [
        Case {
            white: 0,
            black: 1,
            outcome: ended(Some(Colour::White), 20, true, false),
            whites: (3, 2490, 1, false),
            blacks: (0, 1500, 1, false),
        },
        Case {
            white: 1,
            black: 0,
            outcome: ended(Some(Colour::White), 13, true, true),
            whites: (2, 2000, 2, false),
            blacks: (3, 1990, 2, false),
        },
        Case {
            white: 2,
            black: 0,
            outcome: ended(None, 20, false, false),
            whites: (1, 2000, 1, false),
            blacks: (4, 1986, 3, false),
        },
        Case {
            white: 1,
            black: 2,
            outcome: ended(Some(Colour::Black), 40, false, true),
            whites: (2, 1826, 3, false),
            blacks: (4, 2245, 2, false),
        },
        Case {
            white: 2,
            black: 1,
            outcome: ended(Some(Colour::White), 40, false, false),
            whites: (6, 2326, 3, true),
            blacks: (2, 1740, 4, false),
        },
        Case {
            white: 0,
            black: 2,
            outcome: ended(None, 60, true, false),
            whites: (5, 1985, 4, false),
            blacks: (8, 2245, 4, false),
        },
    ];
    let mut scores = all_entered(&rt, rt.alloc())?;
    'playing: for case in &cases {
        play(&rt, &mut scores, case);
    }
    assert_eq!(rt; scores.counted(), 6);
    Ok(())
}

fn row(rank: u32, player: u32, points: u32, performance: i64, games: u32) -> Row {
    Row {
        rank,
        player,
        points,
        performance,
        games,
        fire: false,
    }
}

/// A game of somebody who enters later counts for him from then on.
#[test]
fn lists_those_who_entered(rt: HostRuntime) -> Result<(), Fail> {
    let alloc = rt.alloc();
    let mut scores = opened(alloc)?;
    enter(&rt, &mut scores, 3);
    count(
        &rt,
        &mut scores,
        3,
        2,
        &ended(Some(Colour::Black), 30, false, false),
    );
    assert_eq!(rt;
        (scores.len(), scores.rank_of(2), scores.row_of(2)),
        (1, None, None)
    );
    enter(&rt, &mut scores, 2);
    enter(&rt, &mut scores, 3);
    enter(&rt, &mut scores, 1);
    let rows = [
        row(0, 2, 2, 2470, 1),
        row(1, 3, 0, 1480, 1),
        row(2, 1, 0, 0, 0),
    ];
    assert_eq!(rt; scores.rows(alloc)?.as_slice(), rows.as_slice());
    assert_eq!(rt; scores.page(alloc, 1, 1)?.as_slice(), &rows[1..2]);
    assert_eq!(rt; (scores.row(2), scores.row(3)), (Some(rows[2]), None));
    assert_eq!(rt; (scores.rank_of(3), scores.rank_of(0)), (Some(1), None));
    Ok(())
}

fn facts(last: Option<u32>, balance: i32, alone: u32) -> PairingFacts {
    PairingFacts {
        last,
        balance,
        alone,
    }
}

/// Nobody has met anybody.
fn unpaired(alloc: Global) -> Result<Pairings, AllocError>
    ensures size { IfOk result (λ pairings. length pairings.facts ≡ 4) }
    ensures begun { IfOk result (λ pairings. pairings.begun ≡ 0) }
    ensures waves { IfOk result (λ pairings. pairings.waves ≡ 0) }
{
    let pairings = Pairings::new(alloc, 4)?;
    Ok(pairings)
}

fn begin(rt: &impl Abort, pairings: &mut Pairings, white: u32, black: u32)
    requires size { length pairings.old.facts ≡ 4 }
    requires few { pairings.old.begun < 100 }
    ensures size { length pairings.new.facts ≡ 4 }
    ensures begun { pairings.new.begun ≡ pairings.old.begun + 1 }
    ensures waves { pairings.new.waves ≡ pairings.old.waves }
{
    assert!(rt; white < 4 && black < 4);
    pairings.begin(white, black);
}

fn leave_alone(rt: &impl Abort, pairings: &mut Pairings, p: u32)
    requires size { length pairings.old.facts ≡ 4 }
    requires few { pairings.old.waves < 100 }
    ensures size { length pairings.new.facts ≡ 4 }
    ensures begun { pairings.new.begun ≡ pairings.old.begun }
    ensures waves { pairings.new.waves ≡ pairings.old.waves + 1 }
{
    assert!(rt; p < 4);
    pairings.leave_alone(&[p]);
}

#[test]
fn tells_the_games_of_a_player(rt: HostRuntime) -> Result<(), Fail> {
    let mut pairings = unpaired(rt.alloc())?;
    leave_alone(&rt, &mut pairings, 0);
    leave_alone(&rt, &mut pairings, 0);
    begin(&rt, &mut pairings, 1, 2);
    begin(&rt, &mut pairings, 1, 3);
    assert_eq!(rt; pairings.of(0), facts(None, 0, 2));
    assert_eq!(rt; pairings.of(1), facts(Some(3), 2, 0));
    assert_eq!(rt; pairings.of(2), facts(Some(1), -1, 0));
    assert_eq!(rt; pairings.of(4), facts(None, 0, 0));
    begin(&rt, &mut pairings, 3, 0);
    leave_alone(&rt, &mut pairings, 1);
    assert_eq!(rt; pairings.of(0), facts(Some(3), -1, 0));
    assert_eq!(rt; pairings.of(1), facts(Some(3), 2, 1));
    assert_eq!(rt; pairings.of(3), facts(Some(0), 0, 0));
    Ok(())
}

/// A player who has asked for nothing waits.
fn wait(rt: &impl Abort, seats: &mut Seats, p: u32)
    requires { length seats.old ≡ 4 }
    ensures { length seats.new ≡ 4 }
{
    assert!(rt; p < 4);
    if let Wish::Absent = seats.wish(p) {
        seats.enter(p, 1);
    }
}

/// The first three wait.
fn seated(rt: &impl Abort, alloc: Global) -> Result<Seats, AllocError> {
    let mut seats = Seats::new(alloc, 4)?;
    wait(rt, &mut seats, 0);
    wait(rt, &mut seats, 1);
    wait(rt, &mut seats, 2);
    Ok(seats)
}

/// The first wave left ann alone, and cyd won with Black against ben.
#[test]
fn tells_the_rows_of_the_second_wave(rt: HostRuntime) -> Result<(), Fail> {
    let alloc = rt.alloc();
    let setup = evening(alloc)?;
    let mut scores = all_entered(&rt, alloc)?;
    let mut pairings = unpaired(alloc)?;
    leave_alone(&rt, &mut pairings, 0);
    begin(&rt, &mut pairings, 1, 2);
    count(
        &rt,
        &mut scores,
        1,
        2,
        &ended(Some(Colour::Black), 0, false, false),
    );
    let seats = seated(&rt, alloc)?;
    let rows = candidates(alloc, &setup, &scores, &pairings, &seats)?;
    let want = [
        candidate(2, 0, 1980, None, facts(Some(1), -1, 0)),
        candidate(1, 1, 1990, Some(0), facts(Some(2), 1, 0)),
        candidate(0, 2, 2000, None, facts(None, 0, 1)),
    ];
    assert_eq!(rt; rows.as_slice(), want.as_slice());
    Ok(())
}

fn candidate(
    player: u32,
    rank: u32,
    rating: u32,
    team: Option<u32>,
    facts: PairingFacts,
) -> Candidate {
    Candidate {
        player,
        rank,
        rating,
        last: facts.last,
        balance: facts.balance,
        team,
        alone: facts.alone,
    }
}
