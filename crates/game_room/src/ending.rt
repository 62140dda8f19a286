ghost use Rattle.std.specs.Prelude.{◌≡◌, ◌≤◌, nat_le};
ghost use Rattle.draw_rules.specs.Material.{dead_material};
ghost use Rattle.game_room.specs.Endings.{won, drawn, claim_cause, claim_ending, draw_after_move, ending_after_move, due_ending, outcome_at, outcome_if_ended, offer_unless_ended};

use crate::outcome::{Cause, Outcome};
use board::{Colour, Position};
use draw_rules::{bare_king, dead_material, fifty, seventy_five};
use game_clock::GameClock;
use move_rules::{State, state};

/// Who won, and why the game ended.
#[derive(Debug, Clone, Copy, PartialEq, Eq)]
pub(crate) struct Ending {
    pub(crate) winner: Option<Colour>,
    pub(crate) cause: Cause,
}

/// A side won.
pub(crate) fn won(side: Colour, cause: Cause) -> Ending
    ensures { result ≡ won side cause }
{
    Ending {
        winner: Some(side),
        cause,
    }
}

/// Nobody won.
pub(crate) fn drawn(cause: Cause) -> Ending
    ensures { result ≡ drawn cause }
{
    Ending {
        winner: None,
        cause,
    }
}

fn is_fifty(p: &Position) -> bool
    ensures { result ≡ nat_le 100 p.now.half }
{
    fifty(p)
}

fn is_seventy_five(p: &Position) -> bool
    ensures { result ≡ nat_le 150 p.now.half }
{
    seventy_five(p)
}

/// What a claim draws by, if anything (FIDE Laws of Chess, Articles 9.2 and 9.3).
pub(crate) fn claim_cause(p: &Position, times: u32) -> Option<Cause>
    ensures { result ≡ claim_cause times p.now.half }
{
    if times >= 3 {
        Some(Cause::Threefold)
    } else if is_fifty(p) {
        Some(Cause::Fifty)
    } else {
        None
    }
}

/// The draw that can be claimed.
pub(crate) fn claim_ending(cause: Option<Cause>) -> Option<Ending>
    ensures { result ≡ claim_ending cause }
{
    match cause {
        None => None,
        Some(cause) => Some(drawn(cause)),
    }
}

// What draws a game by itself while there is a legal move.
fn draw_after_move(p: &Position, times: u32) -> Option<Ending>
    ensures { result ≡ draw_after_move p.now times p.now.half }
{
    if dead_material(p) {
        Some(drawn(Cause::Dead))
    } else if times >= 5 {
        Some(drawn(Cause::Fivefold))
    } else if is_seventy_five(p) {
        Some(drawn(Cause::SeventyFive))
    } else {
        None
    }
}

/// How a game ends, if it does, by the move of this side that led to the position, which has occurred so often.
#[tactic(auto, unfolding(crate::specs::Endings::ending_after_move))]
pub(crate) fn ending_after_move(p: &Position, times: u32, side: Colour) -> Option<Ending>
    ensures { result ≡ ending_after_move p.now times p.now.half side }
{
    match state(p) {
        State::Mate => Some(won(side, Cause::Mate)),
        State::Stalemate => Some(drawn(Cause::Stalemate)),
        State::Going => draw_after_move(p, times),
    }
}

/// How a game ends that is due at `t`, which is not before the turn began.
#[tactic(auto, unfolding(crate::specs::Endings::due_ending))]
pub(crate) fn due_ending(p: &Position, clock: &GameClock, t: u64) -> Ending
    requires { clock.now.since ≤ t }
    ensures { result ≡ due_ending p.now clock.now t }
{
    let other = p.turn().other();
    if clock.no_show(t) {
        won(other, Cause::NoShow)
    } else if bare_king(p, other) {
        drawn(Cause::Flag)
    } else {
        won(other, Cause::Flag)
    }
}

fn outcome_at(clock: &GameClock, ending: Ending, t: u64) -> Outcome
    ensures { result ≡ outcome_at clock.now ending t }
{
    Outcome {
        winner: ending.winner,
        cause: ending.cause,
        plies: clock.moves(),
        white_berserk: clock.has_berserked(Colour::White),
        black_berserk: clock.has_berserked(Colour::Black),
        stamp: t,
    }
}

/// The outcome if the game ends so at `t`.
pub(crate) fn outcome_if_ended(clock: &GameClock, ending: Option<Ending>, t: u64) -> Option<Outcome>
    ensures { result ≡ outcome_if_ended clock.now ending t }
{
    match ending {
        None => None,
        Some(ending) => Some(outcome_at(clock, ending, t)),
    }
}

/// The offer that stands then.
pub(crate) fn offer_unless_ended(ending: Option<Ending>, offer: Option<Colour>) -> Option<Colour>
    ensures { result ≡ offer_unless_ended ending offer }
{
    match ending {
        None => offer,
        Some(_) => None,
    }
}
