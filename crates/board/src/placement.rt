ghost use Rattle.std.specs.Prelude.{◌≡◌, ◌≢◌, ◌<◌, ℕ, Bool, true, is_some, replicate, None, length, slice_set};
ghost use Rattle.board.specs.Attack.{piece_on};
ghost use Rattle.board.specs.Piece.{same_kind};
ghost use Rattle.board.specs.Cells.{is_of, is_kind};
ghost use Rattle.board.specs.Sets.{has, IsSetOf};
ghost use Rattle.board.specs.Placement.{kind_steps, kind_slants, kind_runs, cell_steps, cell_slants, cell_runs, cell_is_black, kind_in, cell_in};

use crate::piece::{Colour, Kind, Piece};
use crate::square::Square;
use std::marker::Model;

/// What stands on the squares, in four sets of squares of 8 bytes each. A set is a number in which bit n is the square with
/// number n. Three sets tell the kind: what goes by steps or jumps (pawn, knight, king), what slants (bishop, queen, and the
/// king to tell it from a pawn) and what runs (rook, queen, and the knight).
#[derive(Clone, Copy, Debug, PartialEq, Eq)]
pub struct Placement {
    steps: u64,
    slants: u64,
    runs: u64,
    black: u64,
}

impl Model for Placement {
    ghost use Rattle.std.specs.Prelude.{List, Option};
    ghost use Rattle.std.proofs.Common.{sym};
    ghost use Rattle.board.specs.declared.piece.Piece.{Piece};
    ghost use Rattle.board.specs.Sets.{set_of};
    ghost use Rattle.board.specs.Placement.{cell_steps, cell_slants, cell_runs, cell_is_black, cells_in, IsKept};

    ghost Value = { List (Option Piece) };

    ghost view = { λ p. cells_in p.steps p.slants p.runs p.black };

    ghost invariant = { λ p. IsKept p.steps p.slants p.runs p.black (cells_in p.steps p.slants p.runs p.black) };

    ghost inverse = { λ cells. record { steps = set_of cell_steps cells; slants = set_of cell_slants cells; runs = set_of cell_runs cells; black = set_of cell_is_black cells } };

    ghost inverse_ok = { λ a h i. record { steps = sym h.steps i; slants = sym h.slants i; runs = sym h.runs i; black = sym h.black i } };
}

fn has(set: u64, s: Square) -> bool
    ensures is { result ≡ has set s }
    ensures on_board { s < 64 }
{
    set >> s.index() & 1 == 1
}

// The set with the square, or without it.
fn with(set: u64, s: Square, wanted: bool) -> u64
    ensures at { has result s ≡ wanted }
    ensures others { (t : ℕ) → t < 64 → t ≢ s → has result t ≡ has set t }
    ensures on_board { s < 64 }
{
    let square = 1 << s.index();
    if wanted { set | square } else { set & !square }
}

fn kind_steps(kind: Kind) -> bool
    ensures { result ≡ kind_steps kind }
{
    match kind {
        Kind::Pawn | Kind::Knight | Kind::King => true,
        Kind::Bishop | Kind::Rook | Kind::Queen => false,
    }
}

fn kind_slants(kind: Kind) -> bool
    ensures { result ≡ kind_slants kind }
{
    match kind {
        Kind::Bishop | Kind::Queen | Kind::King => true,
        Kind::Pawn | Kind::Knight | Kind::Rook => false,
    }
}

fn kind_runs(kind: Kind) -> bool
    ensures { result ≡ kind_runs kind }
{
    match kind {
        Kind::Knight | Kind::Rook | Kind::Queen => true,
        Kind::Pawn | Kind::Bishop | Kind::King => false,
    }
}

fn cell_steps(cell: Option<Piece>) -> bool
    ensures { result ≡ cell_steps cell }
{
    match cell {
        None => false,
        Some(piece) => kind_steps(piece.kind),
    }
}

fn cell_slants(cell: Option<Piece>) -> bool
    ensures { result ≡ cell_slants cell }
{
    match cell {
        None => false,
        Some(piece) => kind_slants(piece.kind),
    }
}

fn cell_runs(cell: Option<Piece>) -> bool
    ensures { result ≡ cell_runs cell }
{
    match cell {
        None => false,
        Some(piece) => kind_runs(piece.kind),
    }
}

fn cell_is_black(cell: Option<Piece>) -> bool
    ensures { result ≡ cell_is_black cell }
{
    match cell {
        None => false,
        Some(piece) => match piece.colour {
            Colour::White => false,
            Colour::Black => true,
        },
    }
}

fn kind_in(steps: bool, slants: bool, runs: bool) -> Option<Kind>
    ensures { result ≡ kind_in steps slants runs }
{
    match (steps, slants, runs) {
        (false, false, false) => None,
        (true, false, false) => Some(Kind::Pawn),
        (true, false, true) => Some(Kind::Knight),
        (false, true, false) => Some(Kind::Bishop),
        (false, false, true) => Some(Kind::Rook),
        (false, true, true) => Some(Kind::Queen),
        (true, true, _) => Some(Kind::King),
    }
}

fn cell_in(steps: bool, slants: bool, runs: bool, black: bool) -> Option<Piece>
    ensures { result ≡ cell_in steps slants runs black }
{
    let colour = if black { Colour::Black } else { Colour::White };
    match kind_in(steps, slants, runs) {
        None => None,
        Some(kind) => Some(Piece { colour, kind }),
    }
}

impl Placement {
    /// The board on which nothing stands.
    pub fn empty() -> Placement
        ensures { result ≡ replicate 64 None }
    {
        Placement {
            steps: 0,
            slants: 0,
            runs: 0,
            black: 0,
        }
    }

    /// The board with these cells.
    pub fn of(cells: &[Option<Piece>; 64]) -> Placement
        ensures { result ≡ cells.now }
    {
        let mut placement = Placement::empty();
        for s in 0..64 {
            placement = placement.with(Square::of(s), cells[s as usize]);
        }
        placement
    }

    /// The board with this in the place of what stands on the square.
    pub fn with(self, s: Square, cell: Option<Piece>) -> Placement
        ensures { result ≡ slice_set self s cell }
    {
        Placement {
            steps: with(self.steps, s, cell_steps(cell)),
            slants: with(self.slants, s, cell_slants(cell)),
            runs: with(self.runs, s, cell_runs(cell)),
            black: with(self.black, s, cell_is_black(cell)),
        }
    }

    /// The piece on a square, or None where it is empty.
    pub fn at(&self, s: Square) -> Option<Piece>
        ensures { result ≡ piece_on self.now s }
    {
        cell_in(
            has(self.steps, s),
            has(self.slants, s),
            has(self.runs, s),
            has(self.black, s),
        )
    }

    /// What stands on each square, by the square's number.
    pub fn cells(&self) -> [Option<Piece>; 64]
        ensures { result ≡ self.now }
    {
        self.keeps();
        let mut cells = [None; 64];
        for s in 0..64 {
            cells[s as usize] = self.at(Square::of(s));
        }
        cells
    }

    /// The squares on which a piece stands.
    pub fn occupied(&self) -> u64
        ensures { IsSetOf result (λ s. is_some (piece_on self.now s)) }
    {
        self.steps | self.slants | self.runs
    }

    /// The squares on which a piece of this colour stands.
    pub fn of_colour(&self, colour: Colour) -> u64
        ensures { IsSetOf result (λ s. is_of colour (piece_on self.now s)) }
    {
        match colour {
            Colour::White => (self.steps | self.slants | self.runs) & !self.black,
            Colour::Black => self.black,
        }
    }

    /// The squares on which a piece of this kind stands, of either side.
    pub fn of_kind(&self, kind: Kind) -> u64
        ensures { IsSetOf result (λ s. is_kind kind (piece_on self.now s)) }
    {
        match kind {
            Kind::Pawn => self.steps & !self.slants & !self.runs,
            Kind::Knight => self.steps & self.runs,
            Kind::Bishop => self.slants & !self.steps & !self.runs,
            Kind::Rook => self.runs & !self.steps & !self.slants,
            Kind::Queen => self.slants & self.runs,
            Kind::King => self.steps & self.slants,
        }
    }

    /// Says to a caller that a board has 64 cells, and does nothing.
    pub fn keeps(&self)
        ensures { length self.now ≡ 64 }
    {
        let _ = &self.steps;
    }
}

impl Default for Placement {
    ghost use Rattle.std.specs.Prelude.{◌≡◌, replicate, None};

    ghost is_default = { λ p. p ≡ replicate 64 None };

    fn default() -> Self {
        Placement::empty()
    }
}
