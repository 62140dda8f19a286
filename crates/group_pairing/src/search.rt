ghost use Rattle.std.specs.Prelude.{◌≡◌, ◌-◌, ◌+◌, ◌^◌, ◌≤◌, ◌<◌, length, take, drop, replicate};
ghost use Rattle.std.specs.Int.{bit_at};
ghost use Rattle.group_pairing.specs.Search.{IsFirst, IsLeastIn, IsBest, CanBeLeft, HoldsOffers, HoldsCharges, HoldsBest};

use crate::choice::{Choice, NOBODY, left_alone, lesser, nothing, paired};
use crate::offers::{CELLS, Offer};
use crate::place_set::{SETS, can_be_left, first_of, has, sets_of, without};
use pair_cost::{Candidate, Frame};

// Writes for each set of places of the group that can be left the best choice, from the smaller numbers to the greater.
pub(crate) fn fill_best(
    rows: &[Candidate],
    f: &Frame,
    offers: &[Offer],
    charges: &[u64],
    best: &mut [Choice],
)
    requires few { length rows.now ≤ 14 }
    requires cells { length offers.now ≡ CELLS }
    requires offers { HoldsOffers rows.now f.now offers.now CELLS }
    requires places { length charges.now ≡ 14 }
    requires charges { HoldsCharges rows.now f.now charges.now (length rows.now) }
    requires sets { length best.old ≡ SETS }
    ensures best { HoldsBest rows.now f.now best.new (2 ^ length rows.now) }
    ensures sets { length best.new ≡ SETS }
{
    best[0] = nothing();
    for set in 1..sets_of(rows.len()) {
        if can_be_left(set, rows.len()) {
            let found = best_within(rows, f, offers, charges, best, set);
            best[set] = found;
        }
    }
}

// The best choice for a set, from those for the sets before it: its first place has nobody, or one of the others.
fn best_within(
    rows: &[Candidate],
    f: &Frame,
    offers: &[Offer],
    charges: &[u64],
    best: &[Choice],
    set: usize,
) -> Choice
    requires few { length rows.now ≤ 14 }
    requires cells { length offers.now ≡ CELLS }
    requires offers { HoldsOffers rows.now f.now offers.now CELLS }
    requires places { length charges.now ≡ 14 }
    requires charges { HoldsCharges rows.now f.now charges.now (length rows.now) }
    requires best { HoldsBest rows.now f.now best.now set }
    requires sets { set ≤ length best.now }
    requires some { 0 < set }
    requires set { set < 2 ^ length rows.now }
    requires left { CanBeLeft (length rows.now) set }
    ensures { IsBest rows.now f.now set 0 0 result }
{
    let place = first_of(set);
    let rest = without(set, place);
    let mut found = left_alone(best[rest], charges[place]);
    for partner in (place + 1..rows.len()).rev() {
        found = with_partner(rows, f, offers, best, set, place, partner, found);
    }
    found
}

// The best choice where the first place of the set has this partner or, as in `later`, a later one or nobody.
fn with_partner(
    rows: &[Candidate],
    f: &Frame,
    offers: &[Offer],
    best: &[Choice],
    set: usize,
    place: usize,
    partner: usize,
    later: Choice,
) -> Choice
    requires few { length rows.now ≤ 14 }
    requires cells { length offers.now ≡ CELLS }
    requires offers { HoldsOffers rows.now f.now offers.now CELLS }
    requires best { HoldsBest rows.now f.now best.now set }
    requires sets { set ≤ length best.now }
    requires set { set < 2 ^ length rows.now }
    requires left { CanBeLeft (length rows.now) set }
    requires first { IsFirst set place }
    requires place { place < partner }
    requires partner { partner < length rows.now }
    requires later { IsBest rows.now f.now set place (partner + 1) later }
    ensures { IsBest rows.now f.now set place partner result }
{
    let rest = without(set, place);
    let offer = offers[14 * place + partner];
    if has(rest, partner) && offer.may {
        let cut = without(rest, partner);
        lesser(paired(best[cut], partner, offer.price), later)
    } else {
        later
    }
}

// The least list within a set that can be left, read out of the table place by place.
pub(crate) fn drawn(rows: &[Candidate], f: &Frame, best: &[Choice], set: usize) -> [u8; 14]
    requires few { length rows.now ≤ 14 }
    requires best { HoldsBest rows.now f.now best.now (2 ^ length rows.now) }
    requires sets { length best.now ≡ SETS }
    requires set { set < 2 ^ length rows.now }
    requires left { CanBeLeft (length rows.now) set }
    ensures list { IsLeastIn rows.now f.now set 0 0 (take (length rows.now) result) }
    ensures rest { drop (length rows.now) result ≡ replicate (14 - length rows.now) 14 }
{
    if set == 0 {
        return [NOBODY; 14];
    }
    let place = first_of(set);
    let partner = best[set].partner;
    let rest = without(set, place);
    if partner == NOBODY {
        return drawn(rows, f, best, rest);
    }
    let cut = without(rest, usize::from(partner));
    let mut to = drawn(rows, f, best, cut);
    to[place] = partner;
    to[usize::from(partner)] = place as u8;
    to
}
