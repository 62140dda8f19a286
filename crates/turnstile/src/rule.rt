//! The table under the lock: three words, one slot, and the rule that every step keeps.
use crate::historied::Historied;
use crate::view::{Start, View};
use atomic_table::{Seat, Table, TableRule};
use std::alloc::Global;
use std::marker::PhantomData;

/// The word that counts the tickets taken.
pub(crate) const TICKET: usize = 0;

/// The word that counts the turns ended: the ticket that is served.
pub(crate) const SERVING: usize = 1;

/// The word that counts the entries of the history.
pub(crate) const COUNT: usize = 2;

/// The slot of the value. It is empty for as long as the value is out with a turn.
pub(crate) const VALUE: usize = 0;

pub struct Queue<V> {
    value: PhantomData<V>,
}

impl<V: Historied> TableRule<Option<V>, View<V::Entry, V::Fixed>, Start<V>> for Queue<V> {
    ghost use Rattle.std.specs.Prelude.{[]};
    ghost use Rattle.turnstile.specs.Rule.{Kept};
    ghost use Rattle.turnstile.specs.Views.{maker_view};

    ghost holds = { λ start s. Kept V.entries V.by V.fixed (V.fixed start.value.value) start.passes s };

    ghost first = { λ start. maker_view (V.fixed start.value.value) start.passes 0 [] };
}

pub type Ruled<V> = Table<
    Option<V>,
    View<<V as Historied>::Entry, <V as Historied>::Fixed>,
    Start<V>,
    Queue<V>,
    Global,
>;

pub type Place<V> = Seat<Option<V>, View<<V as Historied>::Entry, <V as Historied>::Fixed>>;
