ghost use Rattle.std.specs.Prelude.{◌≡◌, ◌+◌, ◌^◌, ◌<◌, ◌≤◌, if◌then◌else◌};
ghost use Rattle.group_pairing.specs.Search.{leads};

use std::mem::size_of;

/// Nobody, in place of a partner's place.
pub(crate) const NOBODY: u8 = 14;

/// What is best for a set of places: how many of them have nobody, what these and the set's pairs cost, and the partner of
/// the first of them.
#[derive(Debug, Clone, Copy)]
pub(crate) struct Choice {
    pub(crate) total: u64,
    pub(crate) alone: u32,
    pub(crate) partner: u8,
}

// Each row of a solver's table has 16 bytes.
const _: () = prove!(size_of::<Choice>() == 16);

// The choice of the empty set.
pub(crate) fn nothing() -> Choice
    ensures { result ≡ record { total = 0; alone = 0; partner = 14 } }
{
    Choice {
        total: 0,
        alone: 0,
        partner: NOBODY,
    }
}

// With a first place that has nobody, at this charge.
pub(crate) fn left_alone(rest: Choice, charge: u64) -> Choice
    requires count { rest.alone + 1 < 2 ^ 32 }
    requires fits { rest.total + charge < 2 ^ 64 }
    ensures alone { result.alone ≡ rest.alone + 1 }
    ensures total { result.total ≡ rest.total + charge }
    ensures partner { result.partner ≡ 14 }
{
    Choice {
        total: rest.total + charge,
        alone: rest.alone + 1,
        partner: NOBODY,
    }
}

// With a first place that has this partner, at this price.
pub(crate) fn paired(rest: Choice, partner: usize, price: u64) -> Choice
    requires partner { partner < 14 }
    requires fits { rest.total + price < 2 ^ 64 }
    ensures alone { result.alone ≡ rest.alone }
    ensures total { result.total ≡ rest.total + price }
    ensures partner { result.partner ≡ partner }
{
    Choice {
        total: rest.total + price,
        alone: rest.alone,
        partner: partner as u8,
    }
}

// The one of the two that leaves fewer alone or costs less, and the first where both are alike in this.
pub(crate) fn lesser(first: Choice, second: Choice) -> Choice
    ensures { result ≡ (if leads first second then first else second) }
{
    if first.alone < second.alone || (first.alone == second.alone && first.total <= second.total) {
        first
    } else {
        second
    }
}
