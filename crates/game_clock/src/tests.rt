ghost use Rattle.std.specs.Prelude.{◌≡◌, ◌≢◌, ◌≤◌};
ghost use Rattle.entries.specs.Ranges.{IsControl};

use crate::GameClock;
use board::Colour;
use entries::Control;

/// A control in seconds with 20 seconds for the first move.
fn control(initial: u64, increment: u64) -> Control
    requires initial { initial ≤ 10800 }
    requires increment { increment ≤ 180 }
    requires some { initial ≡ 0 → increment ≢ 0 }
    ensures { IsControl result }
{
    Control {
        initial_ms: 1000 * initial,
        inc_ms: 1000 * increment,
        first_ms: 20000,
    }
}

fn new_clock(initial: u64, increment: u64) -> Option<GameClock> {
    if initial > 10800 || increment > 180 || (initial == 0 && increment == 0) {
        return None;
    }
    Some(GameClock::new(&control(initial, increment), 0))
}

/// Whether the move could be noted.
#[tactic(auto, unfolding(crate::specs::Clocks::is_due))]
fn has_noted(clock: &mut GameClock, t: u64) -> bool {
    let asked = clock.since() <= t && t <= 1_000_000_000 && clock.moves() < 8_000_000;
    if !asked || clock.no_show(t) || clock.fallen(t) {
        return false;
    }
    clock.moved(t);
    true
}

fn has_berserked(clock: &mut GameClock, side: Colour) -> bool {
    if clock.has_moved(side) || clock.has_berserked(side) {
        return false;
    }
    clock.berserk(side);
    true
}

/// What both clocks show, where `t` is not before the turn began.
fn shown(clock: &GameClock, t: u64) -> Option<(u64, u64)> {
    if t < clock.since() {
        return None;
    }
    Some((clock.left(Colour::White, t), clock.left(Colour::Black, t)))
}

/// Initial time and increment in seconds, whether White berserks, the stamps of four moves, and what the clocks show at the
/// last of them.
const BANKS: [((u64, u64), bool, [u64; 4], (u64, u64)); 8] = [
    ((180, 0), true, [0, 0, 0, 0], (90000, 180000)),
    ((60, 2), true, [0, 0, 0, 0], (60000, 62000)),
    ((0, 2), false, [0, 0, 0, 0], (4000, 4000)),
    ((80, 2), true, [0, 0, 0, 0], (40000, 82000)),
    ((79, 2), true, [0, 0, 0, 0], (79000, 81000)),
    (
        (180, 2),
        false,
        [19999, 39998, 40998, 43998],
        (181000, 179000),
    ),
    (
        (180, 2),
        true,
        [19999, 39998, 40998, 43998],
        (89000, 179000),
    ),
    ((60, 0), false, [1000, 2000, 61999, 61999], (1, 60000)),
];

#[test]
fn banks_are_those_worked_by_hand(rt: HostRuntime) {
    for ((initial, increment), berserk, stamps, banks) in BANKS {
        let Some(mut clock) = new_clock(initial, increment) else {
            panic!(rt; "a control out of range");
        };
        if berserk {
            assert!(rt; has_berserked(&mut clock, Colour::White));
        }
        for t in stamps {
            assert!(rt; has_noted(&mut clock, t), "{initial} + {increment} at {t}");
        }
        assert_eq!(rt;
            shown(&clock, stamps[3]),
            Some(banks),
            "{initial} + {increment}"
        );
    }
}

#[test]
fn banks_before_the_moves(rt: HostRuntime) {
    for (initial, increment, bank, halved) in [
        (180, 0, 180000, 90000),
        (60, 2, 60000, 60000),
        (0, 2, 2000, 2000),
        (1, 0, 1000, 500),
    ] {
        let Some(mut clock) = new_clock(initial, increment) else {
            panic!(rt; "a control out of range");
        };
        assert_eq!(rt; shown(&clock, 0), Some((bank, bank)));
        assert!(rt; has_berserked(&mut clock, Colour::Black));
        assert!(rt; !has_berserked(&mut clock, Colour::Black));
        assert_eq!(rt; shown(&clock, 20000), Some((bank, halved)));
    }
}

/// Whether the first-move limit and the flag of the side to move have come.
fn ended(clock: &GameClock, t: u64) -> Option<(bool, bool)> {
    if t < clock.since() {
        return None;
    }
    Some((clock.no_show(t), clock.fallen(t)))
}

/// The stamps of moves, and the first millisecond at which the side to move is late, for its first move or by its flag.
const LIMITS: [(&[u64], u64, (bool, bool)); 4] = [
    (&[], 20000, (true, false)),
    (&[5], 20005, (true, false)),
    (&[5, 7], 60007, (false, true)),
    (&[5, 7, 1007], 61007, (false, true)),
];

#[test]
fn limits_come_at_their_last_millisecond(rt: HostRuntime) {
    for (stamps, at, limits) in LIMITS {
        let Some(mut clock) = new_clock(60, 2) else {
            panic!(rt; "a control out of range");
        };
        for t in stamps {
            assert!(rt; has_noted(&mut clock, *t));
        }
        assert!(rt; 0 < at);
        assert_eq!(rt; ended(&clock, at - 1), Some((false, false)), "before {at}");
        assert_eq!(rt; ended(&clock, at), Some(limits), "at {at}");
    }
}
