ghost use Rattle.std.specs.Prelude.{◌≡◌, length};

use crate::historied::Historied;
use crate::rule::Place;
use crate::view::Start;
use std::marker::Model;
use std::snapshot::Snapshot;

/// A right to take turns at one turnstile. Contracts see which turnstile it is of, its number, the history that it has
/// seen, for each turn that it ended how long that history then was, and whether it has the turn.
#[derive(Drop)]
pub struct Pass<V: Historied> {
    pub(crate) seat: Place<V>,
    pub(crate) number: u32,
    pub(crate) seen: u64,
    pub(crate) start: Snapshot<Start<V>>,
}

impl<V: Historied> Model for Pass<V> {
    ghost use Rattle.std.specs.Prelude.{◌≡◌, length, Some};
    ghost use Rattle.turnstile.specs.Passes.{PassState, pass_code};
    ghost use Rattle.turnstile.specs.Views.{has_turn, Carries};
    ghost use Rattle.turnstile.specs.declared.view.Role.TheVariants.{Holder};

    ghost Value = { PassState V.Entry V.Fixed };

    ghost coded = { pass_code V.Entry.code V.Fixed.code };

    ghost view = { λ p. record { of = record { id = p.seat.table_id; fixed = V.fixed p.start.value.value.value; passes = p.start.value.passes }; number = p.number; seen = p.seat.me.0.seen; turns = p.seat.me.0.turns; has_turn = has_turn p.seat.me.0.stage } };

    ghost invariant = { λ p. (p.seat.me.0.lock ≡ Some (V.fixed p.start.value.value.value, p.start.value.passes)) × (p.seat.me.0.role ≡ Holder p.number) × (p.seen ≡ length p.seat.me.0.seen) × Carries p.seat.me.0.stage p.seat.me.1 };
}

impl<V: Historied> Pass<V> {
    /// The number that each of its entries bears. Passes are numbered from 0.
    pub fn number(&self) -> u32
        ensures { result ≡ self.now.number }
    {
        self.number
    }

    /// How many entries it has seen.
    pub fn seen(&self) -> u64
        ensures { result ≡ length self.now.seen }
    {
        self.seen
    }
}
