ghost use Rattle.std.specs.Prelude.{◌≡◌, ◌+◌, ◌≤◌};
ghost use Rattle.entries.specs.Ranges.{IsControl};
ghost use Rattle.game_clock.specs.Banks.{first_bank, after_halving, increment};
ghost use Rattle.game_clock.specs.ClockEvents.{turn_of, has_moved};

use board::Colour;
use entries::Control;

/// What each side starts with, at most 10,800,000 ms: the initial time, or the increment where that is 0.
pub(crate) fn first_bank(control: &Control) -> u64
    requires { IsControl control.now }
    ensures is { result ≡ first_bank control.now }
    ensures most { result ≤ 10800000 }
{
    if control.initial_ms == 0 {
        control.inc_ms
    } else {
        control.initial_ms
    }
}

/// What a berserk leaves of a bank: half, rounded down, or all where the initial time is below 40 increments.
pub(crate) fn after_halving(control: &Control, bank: u64) -> u64
    requires { IsControl control.now }
    ensures is { result ≡ after_halving control.now bank }
    ensures most { result ≤ bank }
{
    if control.initial_ms < 40 * control.inc_ms {
        bank
    } else {
        bank / 2
    }
}

/// What a move adds from a side's second on.
pub(crate) fn increment(control: &Control, berserk: bool) -> u64
    requires { IsControl control.now }
    ensures is { result ≡ increment control.now berserk }
    ensures most { result ≤ 180000 }
{
    if berserk { 0 } else { control.inc_ms }
}

/// Who makes the move with this number, counted from 0.
#[tactic(auto, unfolding(crate::specs::ClockEvents::turn_of))]
pub(crate) fn turn_of(moves: u32) -> Colour
    ensures { result ≡ turn_of moves }
{
    if moves % 2 == 0 {
        Colour::White
    } else {
        Colour::Black
    }
}

/// Whether the side has made a move once so many were made.
pub(crate) fn has_moved(side: Colour, moves: u32) -> bool
    ensures { result ≡ has_moved side moves }
{
    match side {
        Colour::White => moves >= 1,
        Colour::Black => moves >= 2,
    }
}
