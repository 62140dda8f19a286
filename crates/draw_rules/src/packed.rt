ghost use Rattle.std.specs.Prelude.{◌≡◌, ◌<◌, ◌≤◌, ◌+◌, ◌*◌, ◌&&◌};
ghost use Rattle.board.specs.Piece.{same_colour};
ghost use Rattle.board.specs.Placement.{colour_is_black};
ghost use Rattle.board.specs.Same.{same_rights, same_ep};
ghost use Rattle.draw_rules.specs.Packing.{beside, digit, ep_number, number_of};

use board::{Colour, Position, Square};
use std::marker::Model;

/// What a position has beside its pieces and counts, in two bytes.
#[derive(Clone, Copy, Debug, PartialEq, Eq)]
pub(crate) struct Packed {
    number: u16,
}

impl Model for Packed {
    ghost use Rattle.std.specs.Prelude.{◌≡◌};
    ghost use Rattle.std.proofs.Common.{sym};
    ghost use Rattle.draw_rules.specs.Packing.{Beside, number_of, beside_in};

    ghost Value = { Beside };

    ghost view = { λ p. beside_in p.number };

    ghost invariant = { λ p. p.number ≡ number_of (beside_in p.number) };

    ghost inverse = { λ b. record { number = number_of b } };

    ghost inverse_ok = { λ a h i. record { number = sym h i } };
}

impl Default for Packed {
    ghost use Rattle.std.specs.Prelude.{◌≡◌};
    ghost use Rattle.draw_rules.specs.Packing.{beside_in};

    ghost is_default = { λ p. p ≡ beside_in 0 };

    fn default() -> Self {
        Packed { number: 0 }
    }
}

fn digit(set: bool, rest: u16) -> u16
    requires { rest < 32768 }
    ensures is { result ≡ digit set rest }
    ensures most { result ≤ 2 * rest + 1 }
{
    if set { 1 + 2 * rest } else { 2 * rest }
}

fn is_black(colour: Colour) -> bool
    ensures { result ≡ colour_is_black colour }
{
    colour == Colour::Black
}

fn ep_number(ep: Option<Square>) -> u16
    ensures is { result ≡ ep_number ep }
    ensures most { result ≤ 64 }
{
    match ep {
        None => 0,
        Some(s) => u16::from(s.index()) + 1,
    }
}

#[tactic(auto, unfolding(crate::specs::Packing::number_of))]
fn number_of(p: &Position) -> u16
    ensures { result ≡ number_of (beside p.now) }
{
    let rights = p.rights();
    let number = ep_number(p.ep());
    let number = digit(rights.black_long, number);
    let number = digit(rights.black_short, number);
    let number = digit(rights.white_long, number);
    let number = digit(rights.white_short, number);
    digit(is_black(p.turn()), number)
}

impl Packed {
    /// What this position has beside its pieces and counts.
    pub(crate) fn of(p: &Position) -> Packed
        ensures { result ≡ beside p.now }
    {
        Packed {
            number: number_of(p),
        }
    }

    /// Whether two positions have the same beside their pieces and counts. It compares two numbers.
    pub(crate) fn is_same(self, other: Packed) -> bool
        ensures { result ≡ (same_colour self.turn other.turn && same_rights self.rights other.rights && same_ep self.ep other.ep) }
    {
        self == other
    }
}
