ghost use Rattle.std.specs.Prelude.{◌≡◌, ◌≤◌, ◌<◌, ℕ, true, false, [], ◌∷◌, ◌++◌, length, map, All, IfOk, List, Option};
ghost use Rattle.std.specs.List.{range_with_len};
ghost use mathlib.Core.List.{IsPrefix};
ghost use Rattle.atomic_table.specs.Table.{State};
ghost use Rattle.turnstile.specs.Between.{BetweenSteps};
ghost use Rattle.turnstile.specs.Histories.{own, OthersAdded, OnlyAdded};
ghost use Rattle.turnstile.specs.Passes.{new_pass, own_of, IsTold};
ghost use Rattle.turnstile.specs.declared.view.Start.{Start};
ghost use Rattle.turnstile.specs.declared.view.View.{View};

use crate::historied::Historied;
use crate::pass::Pass;
use crate::rule::{COUNT, Queue, Ruled, SERVING, TICKET, VALUE};
use crate::steps::{CutPass, JoinPass, Look, Publish, Serve, Take};
use crate::view::{Start, View};
use crate::waiters::Waiters;
use atomic_table::{Badge, Refused, Table, TableRule};
use std::alloc::{AllocError, Global};
use std::marker::Model;
use std::snapshot::Snapshot;
use std::sync::Wait;

/// A lock round a value, which passes take in turns. Contracts see which turnstile it is, the fixed part of its value, and
/// its number of passes.
#[derive(Drop)]
pub struct Turnstile<V: Historied> {
    table: Ruled<V>,
    maker: Badge<View<<V as Historied>::Entry, <V as Historied>::Fixed>>,
    waiters: Waiters,
}

impl<V: Historied> Model for Turnstile<V> {
    ghost use Rattle.std.specs.Prelude.{◌≡◌, ◌≤◌, [], ◌∷◌};
    ghost use Rattle.turnstile.specs.Passes.{Lock, lock_code};
    ghost use Rattle.turnstile.specs.Views.{maker_view};

    ghost Value = { Lock V.Fixed };

    ghost coded = { lock_code V.Fixed.code };

    ghost view = { λ t. record { id = t.table.shared.table_id; fixed = V.fixed t.table.shared.key.value.value; passes = t.table.shared.key.passes } };

    ghost invariant = { λ t. (t.table.shared.table_id.words ≡ 3) × (t.table.shared.table_id.slots ≡ 1) × (t.maker.table_id ≡ t.table.shared.table_id) × (t.maker.views ≡ maker_view (V.fixed t.table.shared.key.value.value) t.table.shared.key.passes t.table.shared.key.passes [] ∷ []) };
}

impl<V: Historied> Turnstile<V> {
    /// A turnstile round the value, and its passes: the first of the list has the number 0, and so on. The answer `Err` is
    /// for want of memory alone, and the value is then dropped.
    pub fn new(
        alloc: Global,
        value: V,
        passes: u32,
    ) -> Result<(Turnstile<V>, Vec<Pass<V>>), AllocError>
    where
        V: Drop,
        requires some { (1 ≤ passes) × (passes ≤ 256) }
        requires empty { V.entries value ≡ [] }
        ensures fixed { IfOk result (λ r. r.0.fixed ≡ V.fixed value) }
        ensures number { IfOk result (λ r. r.0.passes ≡ passes) }
        ensures passes { IfOk result (λ r. r.1.items ≡ map (new_pass r.0) (range_with_len 0 passes)) }

        // What the list of passes says of each, in the words of the other calls' conditions.
        ensures len { IfOk result (λ r. length r.1.items ≡ passes) }
        ensures numbers { IfOk result (λ r. map (λ p. p.number) r.1.items ≡ range_with_len 0 passes) }
        ensures of { IfOk result (λ r. All (λ p. p.of ≡ r.0) r.1.items) }
        ensures outside { IfOk result (λ r. All (λ p. p.has_turn ≡ false) r.1.items) }
        ensures unused { IfOk result (λ r. All (λ p. (p.seen ≡ []) × (p.turns ≡ [])) r.1.items) }
    {
        let start = Start {
            value: Snapshot::of(&value),
            passes: u64::from(passes),
        };
        let waiters = Waiters::for_passes(alloc, passes)?;
        let mut list = Vec::with_capacity(alloc, passes as usize)?;
        let mut slots = Vec::with_capacity(alloc, 1)?;
        slots.push_reserved(Some(value));
        let (table, mut maker) = match Table::new(alloc, &[0, 0, 0], slots, &start) {
            Ok(made) => made,
            Err(Refused { slots: _ }) => return Err(AllocError),
        };
        for number in 0..passes {
            let seat = table.shared.split_seat::<CutPass>(&mut maker);
            list.push_reserved(Pass {
                seat,
                number,
                seen: 0,
                start: Snapshot::of(&start),
            });
        }
        let maker = maker.into_badge();
        Ok((
            Turnstile {
                table,
                maker,
                waiters,
            },
            list,
        ))
    }

    /// Takes a ticket, waits until it is served, and hands out the value, which nobody else has until `leave`.
    pub fn enter<R: Wait>(&self, rt: &R, pass: &mut Pass<V>) -> V
        requires of { pass.old.of ≡ self.now }
        requires outside { pass.old.has_turn ≡ false }
        ensures pass { pass.new ≡ record pass.old { seen = V.entries result; has_turn = true } }
        ensures history { OthersAdded V.by pass.old.number pass.old.seen (V.entries result) }
        ensures own { own_of V.by pass.new ≡ own_of V.by pass.old }
        ensures numbers { All (λ e. V.by e < self.now.passes) (V.entries result) }
        ensures number { pass.old.number < self.now.passes }
        ensures fixed { V.fixed result ≡ self.now.fixed }
    {
        let shared = &self.table.shared;
        let ticket = shared.fetch_add::<Take>(&mut pass.seat, TICKET, 1);
        let mut looks = 0;
        for _ in rt.forever() {
            let serving = shared.load::<Look<V>>(&mut pass.seat, SERVING);
            if serving == ticket {
                let value = shared.exchange(&mut pass.seat, VALUE, None).unwrap();
                pass.seen = value.len();
                return value;
            }
            self.waiters.pause(rt, looks, ticket, serving);
            looks = looks.saturating_add(1);
        }
        unreachable!()
    }

    /// Ends the turn: the value goes back under the lock, with what the pass added, for the next ticket. Never waits.
    pub fn leave(&self, pass: &mut Pass<V>, value: V)
        requires of { pass.old.of ≡ self.now }
        requires turn { pass.old.has_turn ≡ true }
        requires history { OnlyAdded V.by pass.old.number pass.old.seen (V.entries value) }
        requires fixed { V.fixed value ≡ self.now.fixed }
        ensures pass { pass.new ≡ record pass.old { seen = V.entries value; turns = pass.old.turns ++ length (V.entries value) ∷ []; has_turn = false } }
        ensures own { (new : List V.Entry) → V.entries value ≡ pass.old.seen ++ new → own_of V.by pass.new ≡ own_of V.by pass.old ++ new }
    {
        let shared = &self.table.shared;
        let len = value.len();
        let more = len - pass.seen;
        let hole = shared.exchange(&mut pass.seat, VALUE, Some(value));
        let None = hole else { unreachable!() };
        shared.fetch_add::<Publish<V>>(&mut pass.seat, COUNT, more);
        pass.seen = len;
        let ended = shared.fetch_add::<Serve>(&mut pass.seat, SERVING, 1);
        self.wake_next(ended.wrapping_add(1));
    }

    // Wakes the waiter whose ticket is served now. A ticket that is not taken yet needs no waking: who takes it looks first.
    fn wake_next(&self, serving: u64) {
        if self.table.shared.peek(TICKET) != serving {
            self.waiters.wake(serving);
        }
    }

    /// Takes the lock apart, once all passes are back, and gives the value.
    pub fn close(self, passes: Vec<Pass<V>>) -> V
        requires all { length passes.items ≡ self.passes }
        requires of { All (λ p. p.of ≡ self) passes.items }
        requires outside { All (λ p. p.has_turn ≡ false) passes.items }
        ensures begins { All (λ p. IsPrefix p.seen (V.entries result)) passes.items }
        ensures own { All (λ p. own V.by p.number (V.entries result) ≡ own_of V.by p) passes.items }
        ensures every { (i : ℕ) → i < self.passes → IsTold V.by (V.entries result) passes.items i }
        ensures numbers { All (λ e. V.by e < self.passes) (V.entries result) }
        ensures fixed { V.fixed result ≡ self.fixed }
    {
        let Turnstile {
            table,
            maker,
            waiters,
        } = self;
        drop(waiters);
        let mut maker = maker.into_seat::<Option<V>>();
        for pass in passes {
            let Pass {
                seat,
                number: _,
                seen: _,
                start: _,
            } = pass;
            table.shared.join_seat::<JoinPass>(&mut maker, seat);
        }
        let mut closed = table.close_with(maker);
        let value = closed.take(0).unwrap();
        closed.free();
        value
    }

    /// A law, and no work: what holds between any two steps, of any threads, in each state that the rule of a turnstile's
    /// table allows. The table has the value and the number of passes that it was made with as its key.
    pub fn between_steps()
        ensures { (start : Start V) (s : State (Option V) (View V.Entry V.Fixed)) → ⟦<Queue<V> as TableRule<Option<V>, View<V::Entry, V::Fixed>, Start<V>>>⟧.holds start s → BetweenSteps V.entries V.by V.fixed (V.fixed start.value.value) start.passes s }
    {}
}
