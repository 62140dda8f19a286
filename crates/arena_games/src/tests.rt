ghost use Rattle.std.specs.Prelude.{◌≡◌, ◌+◌, ◌<◌, ◌≤◌, IfOk, IfSome};
ghost use Rattle.entries.specs.Limits.{max_stamp, max_entries};
ghost use Rattle.entries.specs.Ranges.{IsControl};
ghost use Rattle.arena_games.specs.Beginnings.{MayBegin};
ghost use Rattle.arena_games.specs.Trials.{IsLooking, Lasts};

use crate::ended::EndedGame;
use crate::kept::Kept;
use crate::{GameEnd, Games};
use board::{Colour, Position, read_move};
use entries::{Action, Control};
use game_room::{ActRefusal, Cause, GameView, Header, Outcome};
use std::alloc::{AllocError, Global};
use std::mem::size_of;
use std::test::Fail;

const WHITE: Colour = Colour::White;

const BLACK: Colour = Colour::Black;

/// A control in seconds with 20 seconds for the first move.
fn control(initial: u64, increment: u64) -> Control
    requires initial { initial ≤ 10800 }
    requires some { 0 < initial }
    requires increment { increment ≤ 180 }
    ensures { IsControl result }
{
    Control {
        initial_ms: 1000 * initial,
        inc_ms: 1000 * increment,
        first_ms: 20000,
    }
}

fn header(id: u32, start: u64) -> Header
    requires { start ≤ max_stamp }
    ensures may { MayBegin result }
    ensures start { result.start ≡ start }
{
    Header {
        id,
        white: 10,
        black: 11,
        control: control(180, 2),
        start,
    }
}

/// Games that begin at these moments, none of which is later than `now`.
fn begun(alloc: Global, starts: [u64; 3], now: u64) -> Result<Games, AllocError>
    requires now { now ≤ max_stamp }
    ensures { IfOk result (λ games. Lasts games now 0) }
{
    let mut games = Games::new(alloc);
    let headers = [
        header(0, starts[0].min(now)),
        header(1, starts[1].min(now)),
        header(2, starts[2].min(now)),
    ];
    let prepared = games.prepare(alloc, &headers)?;
    games.begin(prepared);
    Ok(games)
}

/// The answer to an action at `t`, where nothing was later than `now` and at most `n` things have happened.
fn act(
    games: &mut Games,
    side: Colour,
    action: Action,
    now: u64,
    t: u64,
    n: u32,
) -> Option<Result<Option<Outcome>, ActRefusal>>
    requires lasts { Lasts games.old now n }
    requires later { now ≤ t }
    requires stamped { t ≤ max_stamp }
    requires few { n < max_entries }
    ensures { Lasts games.new t (n + 1) }
{
    if games.begun() <= 1 {
        return None;
    }
    Some(games.act(1, side, action, t))
}

/// The same of the move of a word.
fn moved(
    games: &mut Games,
    side: Colour,
    word: &[u8],
    now: u64,
    t: u64,
    n: u32,
) -> Option<Result<Option<Outcome>, ActRefusal>>
    requires lasts { Lasts games.old now n }
    requires later { now ≤ t }
    requires stamped { t ≤ max_stamp }
    requires few { n < max_entries }
    ensures { Lasts games.new t (n + 1) }
{
    let action = match read_move(word) {
        Some(m) => Action::Move(m),
        None => Action::Claim,
    };
    act(games, side, action, now, t, n)
}

fn seen(games: &Games, t: u64, n: u32) -> Option<GameView>
    requires { Lasts games.now t n }
{
    games.view(1, t)
}

/// The next end of a tick that has come to the games from a number on.
fn end_next(games: &mut Games, from: u32, t: u64) -> Option<GameEnd>
    requires { IsLooking games.old from t }
    ensures { IfSome result (λ end. IsLooking games.new (end.game + 1) t) }
{
    games.end_next_due(from, t)
}

/// The games at the beginning of a tick.
fn looking(games: Games, t: u64) -> Games
    requires { Lasts games t 0 }
    ensures { IsLooking result 0 t }
{
    games
}

/// Fool's mate, in the second of three games.
#[test]
fn a_game_is_seen_after_its_mate(rt: HostRuntime) -> Result<(), Fail> {
    let mut games = begun(rt.alloc(), [1000, 1000, 1000], 1000)?;
    assert_eq!(rt; games.begun(), 3);
    assert_eq!(rt; games.header(1).map(|h| h.start), Some(1000));
    assert_eq!(rt;
        moved(&mut games, WHITE, b"f2f3", 1000, 2000, 0),
        Some(Ok(None))
    );
    assert_eq!(rt;
        moved(&mut games, BLACK, b"e7e5", 2000, 3000, 1),
        Some(Ok(None))
    );
    assert_eq!(rt;
        moved(&mut games, WHITE, b"g2g4", 3000, 5000, 2),
        Some(Ok(None))
    );
    let mate = Outcome {
        winner: Some(BLACK),
        cause: Cause::Mate,
        plies: 4,
        white_berserk: false,
        black_berserk: false,
        stamp: 8000,
    };
    assert_eq!(rt;
        moved(&mut games, BLACK, b"d8h4", 5000, 8000, 3),
        Some(Ok(Some(mate)))
    );
    assert_eq!(rt; games.running(), 2);
    assert_eq!(rt; games.outcome(1), Some(mate));
    assert_eq!(rt;
        act(&mut games, WHITE, Action::Resign, 8000, 9000, 4),
        Some(Err(ActRefusal::Over))
    );
    let view = seen(&games, 9000, 5).ok_or("no view")?;
    assert_eq!(rt;
        (view.id, view.white, view.black, view.plies),
        (1, 10, 11, 4)
    );
    assert_eq!(rt; (view.white_ms, view.black_ms), (180_000, 179_000));
    assert_eq!(rt;
        (view.last, view.offer, view.outcome),
        (read_move(b"d8h4"), None, Some(mate))
    );
    Ok(())
}

/// The first and the last of three games are due, since White has not moved.
#[test]
fn a_tick_ends_two_games_in_order(rt: HostRuntime) -> Result<(), Fail> {
    let games = begun(rt.alloc(), [1000, 9000, 2000], 22_000)?;
    assert!(rt; games.numbers().len() == 3);
    let mut games = looking(games, 22_000);
    let no_show = Outcome {
        winner: Some(BLACK),
        cause: Cause::NoShow,
        plies: 0,
        white_berserk: false,
        black_berserk: false,
        stamp: 22_000,
    };
    let first = end_next(&mut games, 0, 22_000).ok_or("no first end")?;
    assert_eq!(rt; (first.game, first.outcome), (0, no_show));
    let second = end_next(&mut games, 1, 22_000).ok_or("no second end")?;
    assert_eq!(rt; (second.game, second.outcome), (2, no_show));
    assert_eq!(rt; end_next(&mut games, 3, 22_000), None);
    assert_eq!(rt; games.running(), 1);
    assert_eq!(rt; games.outcome(1), None);
    Ok(())
}

/// What is kept of an ended game, with its header, beside its position.
#[test]
fn records_are_short(rt: HostRuntime) {
    assert!(rt; size_of::<EndedGame>() <= size_of::<Position>() + 56);
    assert!(rt; size_of::<Kept>() <= size_of::<Position>() + 112);
}
