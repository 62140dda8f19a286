ghost use Rattle.std.specs.Prelude.{◌≡◌, length};

use crate::choice::{Choice, nothing};
use crate::offers::{CELLS, Offer, fill_charges, fill_offers, no_offer};
use crate::partners::Partners;
use crate::place_set::{SETS, sets_of};
use crate::search::{drawn, fill_best};
use crate::solver::Solve;
use pair_cost::{Candidate, Frame};
use std::alloc::{AllocError, Global};

/// A solver that keeps the best choice for each set of a group's places: 16,384 rows of 16 bytes for fourteen, of which it
/// visits the 987 that can be left where the first place goes again and again, alone or with a partner.
#[derive(Debug, Drop)]
pub struct Bench {
    offers: Vec<Offer>,
    charges: Vec<u64>,
    best: Vec<Choice>,
    ghost cells: { length offers.items ≡ 196 },
    ghost places: { length charges.items ≡ 14 },
    ghost sets: { length best.items ≡ 16384 },
}

impl Bench {
    /// A bench with all the memory that it will ever use.
    pub fn new(alloc: Global) -> Result<Bench, AllocError> {
        let offers = vec![in alloc; no_offer(); CELLS]?;
        let charges = vec![in alloc; 0; 14]?;
        let best = vec![in alloc; nothing(); SETS]?;
        Ok(Bench {
            offers,
            charges,
            best,
        })
    }
}

impl Solve for Bench {
    fn solve(&mut self, rows: &[Candidate], f: &Frame) -> Partners {
        fill_offers(self.offers.as_mut_slice(), rows, f);
        fill_charges(self.charges.as_mut_slice(), rows, f);
        let best = self.best.as_mut_slice();
        fill_best(
            rows,
            f,
            self.offers.as_slice(),
            self.charges.as_slice(),
            best,
        );
        let whole = sets_of(rows.len()) - 1;
        let to = drawn(rows, f, best, whole);
        Partners {
            len: rows.len() as u8,
            to,
        }
    }
}
