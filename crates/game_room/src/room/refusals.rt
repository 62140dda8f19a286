ghost use Rattle.std.specs.Prelude.{◌≡◌, ◌≤◌};
ghost use Rattle.game_room.specs.Standing.{has_offered, is_offer_of};
ghost use Rattle.game_room.specs.Refusals.{move_refusal, offer_refusal, reply_refusal, claim_refusal, berserk_refusal, own_refusal, refusal};
ghost use Rattle.game_room.specs.Held.{standing_in};

use super::Room;
use crate::ending::claim_cause;
use crate::refusal::ActRefusal;
use board::{Colour, Move};
use entries::Action;
use move_rules::is_legal;

fn move_refusal(room: &Room, side: Colour, m: Move) -> Option<ActRefusal>
    ensures { result ≡ move_refusal (standing_in room.now) side m }
{
    if side != room.position.turn() {
        Some(ActRefusal::NotYourTurn)
    } else if !is_legal(&room.position, m) {
        Some(ActRefusal::Illegal)
    } else {
        None
    }
}

fn has_offered(room: &Room, side: Colour) -> bool
    ensures { result ≡ has_offered (standing_in room.now) side }
{
    match side {
        Colour::White => room.white_offered,
        Colour::Black => room.black_offered,
    }
}

fn offer_refusal(room: &Room, side: Colour) -> Option<ActRefusal>
    ensures { result ≡ offer_refusal (standing_in room.now) side }
{
    if room.offer.is_some() || has_offered(room, side) {
        Some(ActRefusal::OfferStands)
    } else {
        None
    }
}

/// Whether the offer is this side's.
pub(crate) fn is_offer_of(side: Colour, offer: Option<Colour>) -> bool
    ensures { result ≡ is_offer_of side offer }
{
    match offer {
        None => false,
        Some(by) => by == side,
    }
}

fn reply_refusal(room: &Room, side: Colour) -> Option<ActRefusal>
    ensures { result ≡ reply_refusal (standing_in room.now) side }
{
    if !is_offer_of(side.other(), room.offer) {
        Some(ActRefusal::NoOffer)
    } else {
        None
    }
}

fn claim_refusal(room: &Room, side: Colour) -> Option<ActRefusal>
    ensures { result ≡ claim_refusal (standing_in room.now) side }
{
    if side != room.position.turn() {
        Some(ActRefusal::NotYourTurn)
    } else if claim_cause(&room.position, room.past.count()).is_none() {
        Some(ActRefusal::NoClaim)
    } else {
        None
    }
}

fn berserk_refusal(room: &Room, side: Colour) -> Option<ActRefusal>
    ensures { result ≡ berserk_refusal (standing_in room.now) side }
{
    if room.clock.has_moved(side) {
        Some(ActRefusal::BerserkLate)
    } else if room.clock.has_berserked(side) {
        Some(ActRefusal::BerserkTwice)
    } else if room.clock.control().initial_ms == 0 {
        Some(ActRefusal::BerserkZero)
    } else {
        None
    }
}

fn own_refusal(room: &Room, side: Colour, action: &Action) -> Option<ActRefusal>
    ensures { result ≡ own_refusal (standing_in room.now) side action.now }
{
    match action {
        Action::Move(m) => move_refusal(room, side, *m),
        Action::Resign => None,
        Action::Offer => offer_refusal(room, side),
        Action::Accept | Action::Decline => reply_refusal(room, side),
        Action::Claim => claim_refusal(room, side),
        Action::Berserk => berserk_refusal(room, side),
    }
}

/// The refusal of an action at `t`, which is not before the turn began.
#[tactic(auto, unfolding(crate::specs::Refusals::refusal))]
pub(crate) fn refusal(room: &Room, side: Colour, action: &Action, t: u64) -> Option<ActRefusal>
    requires { room.now.clocks.since ≤ t }
    ensures { result ≡ refusal (standing_in room.now) side action.now t }
{
    if room.outcome.is_some() {
        Some(ActRefusal::Over)
    } else if room.is_late(t) {
        None
    } else {
        own_refusal(room, side, action)
    }
}
