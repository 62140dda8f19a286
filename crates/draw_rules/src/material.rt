ghost use Rattle.std.specs.Prelude.{◌≡◌, ◌||◌, not};
ghost use Rattle.board.specs.Attack.{piece_on};
ghost use Rattle.board.specs.Same.{same_bool};
ghost use Rattle.board.specs.Sets.{IsSetOf};
ghost use Rattle.draw_rules.specs.Material.{is_king_or_empty, is_minor, is_light, only_kings, kings_and_one_minor, kings_and_bishops_on, dead_material, bare_king};

use board::{Colour, Kind, Placement, Position};

/// The light squares, as h1 is one.
const LIGHT: u64 = 0x55aa_55aa_55aa_55aa;

fn light_or_dark(light: bool) -> u64
    ensures { IsSetOf result (λ s. same_bool (is_light s) light) }
{
    if light { LIGHT } else { !LIGHT }
}

// The squares of all pieces but kings.
fn no_kings(board: &Placement) -> u64
    ensures { IsSetOf result (λ s. not (is_king_or_empty (piece_on board.now s))) }
{
    board.occupied() & !board.of_kind(Kind::King)
}

// The squares of knights and bishops.
fn minors(board: &Placement) -> u64
    ensures { IsSetOf result (λ s. is_minor (piece_on board.now s)) }
{
    board.of_kind(Kind::Knight) | board.of_kind(Kind::Bishop)
}

#[tactic(auto, unfolding(crate::specs::Material::only_kings))]
fn has_only_kings(board: &Placement) -> bool
    ensures { result ≡ only_kings board.now }
{
    board.keeps();
    no_kings(board) == 0
}

#[tactic(auto, unfolding(crate::specs::Material::kings_and_one_minor))]
fn has_one_minor(board: &Placement) -> bool
    ensures { result ≡ kings_and_one_minor board.now }
{
    board.keeps();
    let minors = minors(board);
    no_kings(board) & !minors == 0 && minors.count_ones() == 1
}

#[tactic(auto, unfolding(crate::specs::Material::kings_and_bishops_on))]
fn has_bishops_on(light: bool, board: &Placement) -> bool
    ensures { result ≡ kings_and_bishops_on light board.now }
{
    let bishops = board.of_kind(Kind::Bishop) & light_or_dark(light);
    no_kings(board) & !bishops == 0
}

#[tactic(auto, unfolding(crate::specs::Material::dead_material))]
fn is_dead(board: &Placement) -> bool
    ensures { result ≡ dead_material board.now }
{
    has_only_kings(board)
        || has_one_minor(board)
        || has_bishops_on(true, board)
        || has_bishops_on(false, board)
}

/// Whether nothing is left beside the kings but one knight, or one bishop, or bishops of which all stand on light squares or
/// all on dark ones, or nothing at all. No side can give mate then (FIDE Laws of Chess, Article 5.2.2). Other dead positions
/// are not looked for.
pub fn dead_material(p: &Position) -> bool
    ensures { result ≡ dead_material p.now.cells }
{
    is_dead(&p.placement())
}

#[tactic(auto, unfolding(crate::specs::Material::bare_king))]
fn has_bare_king(board: &Placement, colour: Colour) -> bool
    ensures { result ≡ bare_king board.now colour }
{
    board.keeps();
    board.of_colour(colour) & !board.of_kind(Kind::King) == 0
}

/// Whether this colour has its king alone.
pub fn bare_king(p: &Position, colour: Colour) -> bool
    ensures { result ≡ bare_king p.now.cells colour }
{
    has_bare_king(&p.placement(), colour)
}
