ghost use Rattle.std.specs.Prelude.{◌≡◌};
ghost use Rattle.arena_rules.specs.Verdicts.{closed_or, enter_refusal, pause_refusal, leave_refusal};

use arena_rules::{Refusal, Wish};
use entries::Setup;

/// Closed at the arena's end and past it, and otherwise what follows.
pub fn closed_or(setup: &Setup, t: u64, next: Option<Refusal>) -> Option<Refusal>
    ensures { result ≡ closed_or setup.now t next }
{
    if setup.ends <= t {
        Some(Refusal::Closed)
    } else {
        next
    }
}

/// Whether a player of this wish may enter.
pub fn enter_refusal(wish: Wish) -> Option<Refusal>
    ensures { result ≡ enter_refusal wish }
{
    match wish {
        Wish::Absent | Wish::Paused => None,
        Wish::In => Some(Refusal::AlreadyIn),
        Wish::Left => Some(Refusal::Left),
    }
}

/// Whether a player of this wish may pause.
pub fn pause_refusal(wish: Wish) -> Option<Refusal>
    ensures { result ≡ pause_refusal wish }
{
    match wish {
        Wish::Absent => Some(Refusal::NotEntered),
        Wish::In => None,
        Wish::Paused => Some(Refusal::AlreadyPaused),
        Wish::Left => Some(Refusal::Left),
    }
}

/// Whether a player of this wish may leave.
pub fn leave_refusal(wish: Wish) -> Option<Refusal>
    ensures { result ≡ leave_refusal wish }
{
    match wish {
        Wish::Absent => Some(Refusal::NotEntered),
        Wish::In | Wish::Paused => None,
        Wish::Left => Some(Refusal::Left),
    }
}
