ghost use Rattle.std.specs.Prelude.{◌≡◌, ◌≢◌, ◌<◌, ◌≤◌, ◌==◌, ◌++◌, ◌∷◌, [], length, if◌then◌else◌};
ghost use Rattle.draw_rules.specs.Appearance.{appearance_of, occurrences};

use crate::kept::occurrences;
use crate::packed::Packed;
use arrayvec::ArrayVec;
use board::{Placement, Position};
use std::marker::Model;

/// The positions from the last pawn move or capture on, each without its counts. What stood on the board earlier cannot come
/// back, so these are enough to tell how often the last one has appeared (FIDE Laws of Chess, Articles 9.2 and 9.6.1). A position
/// takes 34 bytes: 32 for the pieces, and two for all else, which are kept in a list of their own.
#[derive(Drop)]
pub struct Past {
    boards: ArrayVec<Placement, 151>,
    rest: ArrayVec<Packed, 151>,
}

impl Model for Past {
    ghost use Rattle.std.specs.Prelude.{List, ◌≡◌, ◌<◌, length};
    ghost use Rattle.draw_rules.specs.Appearance.{Appearance};
    ghost use Rattle.draw_rules.specs.Packing.{in_step};

    ghost Value = { List Appearance };

    ghost view = { λ p. in_step p.boards.items p.rest.items };

    ghost invariant = { λ p. (length p.boards.items ≡ length p.rest.items) × (0 < length p.boards.items) };
}

impl Past {
    /// The list of one position.
    pub fn new(first: &Position) -> Past
        ensures { result ≡ appearance_of first.now ∷ [] }
    {
        let mut boards = ArrayVec::new();
        boards.push(first.placement());
        let mut rest = ArrayVec::new();
        rest.push(Packed::of(first));
        Past { boards, rest }
    }

    /// Adds a position at the end of the list, which starts anew with it where its half count is 0.
    pub fn push(&mut self, p: &Position)
        requires follows { p.now.half ≢ 0 → p.now.half ≡ length self.old }
        requires room { p.now.half ≤ 150 }
        ensures { self.new ≡ (if p.now.half == 0 then appearance_of p.now ∷ [] else self.old ++ appearance_of p.now ∷ []) }
    {
        if p.half() == 0 {
            self.begin(p);
        } else {
            self.add(p);
        }
    }

    fn begin(&mut self, p: &Position)
        ensures { self.new ≡ appearance_of p.now ∷ [] }
    {
        self.boards.clear();
        self.boards.push(p.placement());
        self.rest.clear();
        self.rest.push(Packed::of(p));
    }

    #[tactic(auto, using(crate::proofs::Packing::in_step_push, crate::proofs::Packing::length_in_step))]
    fn add(&mut self, p: &Position)
        requires { length self.old < 151 }
        ensures { self.new ≡ self.old ++ appearance_of p.now ∷ [] }
    {
        self.boards.push(p.placement());
        self.rest.push(Packed::of(p));
    }

    /// How often the last position of the list stands in it.
    pub fn count(&self) -> u32
        ensures { result ≡ occurrences self.now }
    {
        occurrences(self.boards.as_slice(), self.rest.as_slice())
    }
}
