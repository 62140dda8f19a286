ghost use Rattle.std.specs.Prelude.{◌≡◌, ◌<◌, ◌≤◌, false, None, IsTrue};
ghost use Rattle.move_rules.specs.Legal.{legal};
ghost use Rattle.game_clock.specs.ClockEvents.{has_moved};
ghost use Rattle.game_clock.specs.Clocks.{is_due, berserk_of, after_berserk};
ghost use Rattle.draw_rules.specs.Appearance.{occurrences};
ghost use Rattle.game_room.specs.Endings.{claim_cause, claim_ending};
ghost use Rattle.game_room.specs.Refusals.{own_refusal};
ghost use Rattle.game_room.specs.Games.{offer_after_move};
ghost use Rattle.game_room.specs.Held.{standing_in, room_settled, room_moved, room_offered, room_ending, room_after_action, room_after_due};
ghost use Rattle.entries.specs.Limits.{max_stamp, max_entries};

use super::Room;
use super::refusals::is_offer_of;
use crate::ending::{
    Ending, claim_cause, claim_ending, drawn, due_ending, ending_after_move, offer_unless_ended,
    outcome_if_ended, won,
};
use crate::outcome::Cause;
use board::{Colour, Move};
use entries::Action;
use move_rules::{canonical, make};

// Settles how the game ends at `t`, if it does.
#[tactic(auto, unfolding(crate::specs::Held::room_settled))]
fn settle(room: &mut Room, ending: Option<Ending>, t: u64)
    requires going { room.old.outcome ≡ None }
    requires in_turn { room.old.clocks.since ≤ t }
    ensures { room.new ≡ room_settled room.old ending t }
{
    room.outcome = outcome_if_ended(&room.clock, ending, t);
    room.offer = offer_unless_ended(ending, room.offer);
}

/// Ends a game that is due at `t`.
pub(crate) fn end_due(room: &mut Room, t: u64)
    requires going { room.old.outcome ≡ None }
    requires in_turn { room.old.clocks.since ≤ t }
    ensures { room.new ≡ room_after_due room.old t }
{
    let ending = due_ending(&room.position, &room.clock, t);
    settle(room, Some(ending), t);
}

fn offer(room: &mut Room, side: Colour)
    ensures { room.new ≡ room_offered room.old side }
{
    room.offer = Some(side);
    match side {
        Colour::White => room.white_offered = true,
        Colour::Black => room.black_offered = true,
    }
}

fn decline(room: &mut Room)
    ensures { room.new ≡ record room.old { offer = None } }
{
    room.offer = None;
}

fn berserk(room: &mut Room, side: Colour)
    requires going { room.old.outcome ≡ None }
    requires early { has_moved side room.old.clocks.moves ≡ false }
    requires once { berserk_of room.old.clocks side ≡ false }
    ensures { room.new ≡ record room.old { clocks = after_berserk room.old.clocks side } }
{
    room.clock.berserk(side);
}

fn offer_after_move(side: Colour, offer: Option<Colour>) -> Option<Colour>
    ensures { result ≡ offer_after_move side offer }
{
    if is_offer_of(side.other(), offer) {
        None
    } else {
        offer
    }
}

// Makes a move, and settles how the game ends by it, if it does.
#[tactic(auto, unfolding(crate::specs::Held::room_settled, crate::specs::Held::room_moved))]
fn play(room: &mut Room, side: Colour, m: Move, t: u64)
    requires going { room.old.outcome ≡ None }
    requires legal { IsTrue (legal room.old.position m) }
    requires in_turn { room.old.clocks.since ≤ t }
    requires stamped { t ≤ max_stamp }
    requires in_time { is_due room.old.clocks t ≡ false }
    requires room { room.old.clocks.moves < max_entries }
    ensures { room.new ≡ room_settled (room_moved room.old side m t) (room_ending (room_moved room.old side m t) side) t }
{
    let position = make(&room.position, m);
    room.past.push(&canonical(&position));
    room.clock.moved(t);
    let ending = ending_after_move(&position, room.past.count(), side);
    room.position = position;
    room.last = Some(m);
    room.white_offered = false;
    room.black_offered = false;
    room.offer = offer_unless_ended(ending, offer_after_move(side, room.offer));
    room.outcome = outcome_if_ended(&room.clock, ending, t);
}

fn claim(room: &mut Room, t: u64)
    requires going { room.old.outcome ≡ None }
    requires in_turn { room.old.clocks.since ≤ t }
    ensures { let times = occurrences room.old.past
        in room.new ≡ room_settled room.old (claim_ending (claim_cause times room.old.position.half)) t }
{
    let ending = claim_ending(claim_cause(&room.position, room.past.count()));
    settle(room, ending, t);
}

/// Does what the action does in a game that goes on, is not due at `t` and does not refuse it.
pub(crate) fn perform(room: &mut Room, side: Colour, action: &Action, t: u64)
    requires going { room.old.outcome ≡ None }
    requires accepted { own_refusal (standing_in room.old) side action.now ≡ None }
    requires in_turn { room.old.clocks.since ≤ t }
    requires stamped { t ≤ max_stamp }
    requires in_time { is_due room.old.clocks t ≡ false }
    requires room { room.old.clocks.moves < max_entries }
    ensures { room.new ≡ room_after_action room.old side action.now t }
{
    match action {
        Action::Move(m) => play(room, side, *m, t),
        Action::Resign => settle(room, Some(won(side.other(), Cause::Resign)), t),
        Action::Offer => offer(room, side),
        Action::Accept => settle(room, Some(drawn(Cause::Agreed)), t),
        Action::Decline => decline(room),
        Action::Claim => claim(room, t),
        Action::Berserk => berserk(room, side),
    }
}
