ghost use Rattle.std.specs.Prelude.{◌≡◌, ◌≤◌, ◌<◌, length, true, false, not};
ghost use Rattle.pair_cost.specs.Cost.{is_forbidden, cost};
ghost use Rattle.group_pairing.specs.Groups.{IsGroup};
ghost use Rattle.group_pairing.specs.Search.{IsOffer, HoldsOffers, HoldsCharges};

use pair_cost::{Candidate, Frame, charge, cost};

/// The cells of a table with a row and a column for each of fourteen places.
pub(crate) const CELLS: usize = 196;

/// Whether two places may be paired, and what it costs if they may.
#[derive(Debug, Clone, Copy)]
pub(crate) struct Offer {
    pub(crate) price: u64,
    pub(crate) may: bool,
}

/// Two places that may not be paired.
pub(crate) const fn no_offer() -> Offer
    ensures may { result.may ≡ false }
    ensures price { result.price ≡ 0 }
{
    Offer {
        price: 0,
        may: false,
    }
}

// Writes into each cell the offer of the places of its row and column.
pub(crate) fn fill_offers(table: &mut [Offer], rows: &[Candidate], f: &Frame)
    requires cells { length table.old ≡ CELLS }
    requires group { IsGroup rows.now f.now }
    ensures offers { HoldsOffers rows.now f.now table.new CELLS }
    ensures cells { length table.new ≡ CELLS }
{
    for cell in 0..CELLS {
        let made = offer_at(rows, f, cell / 14, cell % 14);
        table[cell] = made;
    }
}

fn offer_at(rows: &[Candidate], f: &Frame, place: usize, partner: usize) -> Offer
    requires { IsGroup rows.now f.now }
    ensures { IsOffer rows.now f.now place partner result }
{
    if place < rows.len() && partner < rows.len() {
        offer_between(&rows[place], &rows[partner], f)
    } else {
        no_offer()
    }
}

// The offer of two candidates.
fn offer_between(a: &Candidate, b: &Candidate, f: &Frame) -> Offer
    requires a_ranked { a.now.rank ≤ f.now.max }
    requires b_ranked { b.now.rank ≤ f.now.max }
    requires places { f.now.max ≤ 999 }
    requires a_rated { a.now.rating ≤ 4000 }
    requires b_rated { b.now.rating ≤ 4000 }
    ensures may { result.may ≡ not (is_forbidden f.now a.now b.now) }
    ensures price { result.may ≡ true → result.price ≡ cost f.now a.now b.now }
    ensures small { result.price ≤ 22002000 }
{
    match cost(a, b, f) {
        None => no_offer(),
        Some(price) => Offer { price, may: true },
    }
}

// Writes into the cell of each place what leaving it alone costs.
pub(crate) fn fill_charges(table: &mut [u64], rows: &[Candidate], f: &Frame)
    requires cells { length table.old ≡ 14 }
    requires few { length rows.now ≤ 14 }
    ensures charges { HoldsCharges rows.now f.now table.new (length rows.now) }
    ensures cells { length table.new ≡ 14 }
{
    for place in 0..rows.len() {
        let price = charge(&rows[place], f);
        table[place] = price;
    }
}
