ghost use Rattle.std.specs.Prelude.{◌≡◌, ◌<◌, length};

use crate::{PlayerSeat, Seats, Wish};
use std::test::Fail;

// A call on one player.
#[derive(Debug, Clone, Copy)]
enum Step {
    Enter(u64),
    Pause,
    Leave,
    Sit(u32),
    Free(u64),
    NoShow(u64),
}

// Makes the call where it may be made, and says whether it may.
fn is_made(seats: &mut Seats, p: u32, step: Step) -> bool
    requires { p < length seats.old }
    ensures { length seats.new ≡ length seats.old }
{
    match step {
        Step::Enter(n) => is_entered(seats, p, n),
        Step::Pause => is_paused(seats, p),
        Step::Leave => is_gone(seats, p),
        Step::Sit(g) => is_seated(seats, p, g),
        Step::Free(n) => is_freed(seats, p, n, false),
        Step::NoShow(n) => is_freed(seats, p, n, true),
    }
}

fn is_entered(seats: &mut Seats, p: u32, n: u64) -> bool
    requires { p < length seats.old }
    ensures { length seats.new ≡ length seats.old }
{
    match seats.wish(p) {
        Wish::Absent | Wish::Paused => {
            seats.enter(p, n);
            true
        }
        Wish::In | Wish::Left => false,
    }
}

fn is_paused(seats: &mut Seats, p: u32) -> bool
    requires { p < length seats.old }
    ensures { length seats.new ≡ length seats.old }
{
    match seats.wish(p) {
        Wish::In => {
            seats.pause(p);
            true
        }
        Wish::Absent | Wish::Paused | Wish::Left => false,
    }
}

fn is_gone(seats: &mut Seats, p: u32) -> bool
    requires { p < length seats.old }
    ensures { length seats.new ≡ length seats.old }
{
    match seats.wish(p) {
        Wish::In | Wish::Paused => {
            seats.leave(p);
            true
        }
        Wish::Absent | Wish::Left => false,
    }
}

fn is_seated(seats: &mut Seats, p: u32, g: u32) -> bool
    requires { p < length seats.old }
    ensures { length seats.new ≡ length seats.old }
{
    match seats.seat(p) {
        PlayerSeat::Idle => {
            seats.sit(p, g);
            true
        }
        PlayerSeat::Absent | PlayerSeat::Paused | PlayerSeat::Playing(_) | PlayerSeat::Left => {
            false
        }
    }
}

fn is_freed(seats: &mut Seats, p: u32, n: u64, no_show: bool) -> bool
    requires { p < length seats.old }
    ensures { length seats.new ≡ length seats.old }
{
    match seats.seat(p) {
        PlayerSeat::Playing(_) => {
            seats.free(p, n, no_show);
            true
        }
        PlayerSeat::Absent | PlayerSeat::Idle | PlayerSeat::Paused | PlayerSeat::Left => false,
    }
}

// What a script of calls on one player comes to.
struct Script {
    steps: &'static [Step],
    wish: Wish,
    seat: PlayerSeat,
    since: Option<u64>,
}

const SCRIPTS: [Script; 12] = [
    Script {
        steps: &[],
        wish: Wish::Absent,
        seat: PlayerSeat::Absent,
        since: None,
    },
    Script {
        steps: &[Step::Enter(1)],
        wish: Wish::In,
        seat: PlayerSeat::Idle,
        since: Some(1),
    },
    // Who comes back waits anew.
    Script {
        steps: &[Step::Enter(1), Step::Pause, Step::Enter(7)],
        wish: Wish::In,
        seat: PlayerSeat::Idle,
        since: Some(7),
    },
    Script {
        steps: &[Step::Enter(1), Step::Leave],
        wish: Wish::Left,
        seat: PlayerSeat::Left,
        since: None,
    },
    Script {
        steps: &[Step::Enter(1), Step::Sit(4_294_967_295)],
        wish: Wish::In,
        seat: PlayerSeat::Playing(4_294_967_295),
        since: None,
    },
    // A wish during the game shows only after it.
    Script {
        steps: &[Step::Enter(1), Step::Sit(5), Step::Pause],
        wish: Wish::Paused,
        seat: PlayerSeat::Playing(5),
        since: None,
    },
    Script {
        steps: &[Step::Enter(1), Step::Sit(5), Step::Pause, Step::Free(9)],
        wish: Wish::Paused,
        seat: PlayerSeat::Paused,
        since: None,
    },
    // Who paused and entered while he played waits from the end of his game on.
    Script {
        steps: &[
            Step::Enter(1),
            Step::Sit(5),
            Step::Pause,
            Step::Enter(6),
            Step::Free(9),
        ],
        wish: Wish::In,
        seat: PlayerSeat::Idle,
        since: Some(9),
    },
    Script {
        steps: &[
            Step::Enter(1),
            Step::Sit(0),
            Step::Free(18_446_744_073_709_551_615),
        ],
        wish: Wish::In,
        seat: PlayerSeat::Idle,
        since: Some(18_446_744_073_709_551_615),
    },
    Script {
        steps: &[Step::Enter(1), Step::Sit(5), Step::NoShow(9)],
        wish: Wish::Paused,
        seat: PlayerSeat::Paused,
        since: None,
    },
    Script {
        steps: &[Step::Enter(1), Step::Sit(5), Step::Leave, Step::NoShow(9)],
        wish: Wish::Left,
        seat: PlayerSeat::Left,
        since: None,
    },
    Script {
        steps: &[
            Step::Enter(1),
            Step::Sit(5),
            Step::NoShow(9),
            Step::Enter(12),
            Step::Sit(6),
            Step::Free(20),
        ],
        wish: Wish::In,
        seat: PlayerSeat::Idle,
        since: Some(20),
    },
];

#[test]
fn scripts_of_calls(rt: HostRuntime) -> Result<(), Fail> {
    for script in &SCRIPTS {
        let mut seats = Seats::new(rt.alloc(), 3)?;
        for step in script.steps {
            assert_eq!(rt; seats.len(), 3);
            assert!(rt; is_made(&mut seats, 1, *step), "at {step:?}");
        }
        assert_eq!(rt; seats.len(), 3);
        assert_eq!(rt; seats.wish(1), script.wish, "{:?}", script.steps);
        assert_eq!(rt; seats.seat(1), script.seat, "{:?}", script.steps);
        assert_eq!(rt; seats.idle_since(1), script.since, "{:?}", script.steps);
        // nobody else has moved, and no player has the number 3
        for other in [0, 2, 3] {
            assert_eq!(rt; seats.seat(other), PlayerSeat::Absent);
            assert_eq!(rt; seats.idle_since(other), None);
        }
    }
    Ok(())
}

#[test]
fn an_arena_without_players(rt: HostRuntime) -> Result<(), Fail> {
    assert_eq!(rt; Seats::new(rt.alloc(), 0)?.len(), 0);
    Ok(())
}
