//! What each step tells the seat that takes it, how a pass is cut off the maker's seat, and how it is joined again.
ghost use Rattle.turnstile.specs.Steps.{took, looked, published, served, one_more_made, newcomer, with_joined, spent};

use crate::historied::Historied;
use crate::view::View;
use atomic_table::{Join, Play, Split};
use std::marker::PhantomData;

pub(crate) struct Take;

impl<V, E, F> Play<Option<V>, View<E, F>> for Take {
    ghost then = { took };
}

pub(crate) struct Look<V> {
    value: PhantomData<V>,
}

impl<V: Historied> Play<Option<V>, View<V::Entry, V::Fixed>> for Look<V> {
    ghost then = { looked V.entries V.by V.fixed };
}

pub(crate) struct Publish<V> {
    value: PhantomData<V>,
}

impl<V: Historied> Play<Option<V>, View<V::Entry, V::Fixed>> for Publish<V> {
    ghost then = { published V.entries };
}

pub(crate) struct Serve;

impl<V, E, F> Play<Option<V>, View<E, F>> for Serve {
    ghost then = { served };
}

pub(crate) struct CutPass;

impl<E, F> Split<View<E, F>> for CutPass {
    ghost left = { one_more_made };

    ghost right = { newcomer };
}

pub(crate) struct JoinPass;

impl<E, F> Join<View<E, F>> for JoinPass {
    ghost both = { with_joined };

    ghost spent = { spent };
}
