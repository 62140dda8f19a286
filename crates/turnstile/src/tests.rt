ghost use Rattle.std.specs.Prelude.{◌≡◌, ◌≤◌, false, All, IfOk, length};
ghost use Rattle.turnstile.specs.Histories.{OnlyAdded};

use super::*;
use std::alloc::{AllocError, Global};
use std::process::Abort;
use std::sync::Wait;
use std::test::Fail;
use std::thread;
use std::thread::Threads;

/// What a pass wrote down, and as its how-manieth note.
#[derive(Clone, Copy)]
struct Note {
    by: u32,
    count: u64,
}

#[derive(Drop)]
struct Notes {
    kept: Vec<Note>,
}

impl Historied for Notes {
    type Entry = Note;

    type Fixed = ();

    ghost entries = { λ n. n.kept.items };

    ghost by = { λ n. n.by };

    ghost fixed = { λ _. tt };

    fn len(&self) -> u64 {
        self.kept.len() as u64
    }
}

impl Notes {
    fn add(&mut self, note: Note)
        ensures { OnlyAdded (λ n. n.by) note.by self.old.kept.items self.new.kept.items }
    {
        let _ = self.kept.push(note);
    }
}

/// Adds a note in each of so many turns, and gives the pass back. The very first turn of all yields so often before it ends.
fn write<R: Wait>(
    rt: &R,
    lock: &Turnstile<Notes>,
    mut pass: Pass<Notes>,
    turns: u64,
    first_yields: u64,
) -> Pass<Notes>
    requires { (pass.of ≡ lock.now) × (pass.has_turn ≡ false) }
    ensures { (result.of ≡ lock.now) × (result.has_turn ≡ false) }
{
    for count in 0..turns {
        let mut notes = lock.enter(rt, &mut pass);
        if notes.kept.is_empty() {
            yield_often(first_yields);
        }
        let by = pass.number();
        notes.add(Note { by, count });
        lock.leave(&mut pass, notes);
    }
    pass
}

fn yield_often(times: u64) {
    for _ in 0..times {
        thread::yield_now();
    }
}

/// Each pass moves into a thread of its own, and all threads share the lock by reference.
fn write_all<R: Threads + Wait + Sync>(
    rt: &R,
    lock: &Turnstile<Notes>,
    passes: Vec<Pass<Notes>>,
    turns: u64,
    first_yields: u64,
) -> Result<Vec<Pass<Notes>>, AllocError>
    requires { All (λ p. (p.of ≡ lock.now) × (p.has_turn ≡ false)) passes.items }
    ensures len { IfOk result (λ v. length v.items ≡ length passes.items) }
    ensures each { IfOk result (λ v. All (λ p. (p.of ≡ lock.now) × (p.has_turn ≡ false)) v.items) }
{
    thread::map_vec(
        rt,
        passes,
        &|pass| write(rt, lock, pass, turns, first_yields),
    )
}

/// The notes of each of so many passes stand in the order in which that pass added them, and there is no other note.
fn in_order(notes: &[Note], passes: usize, turns: u64) -> bool {
    let mut next = [0u64; 16];
    for note in notes {
        let by = note.by as usize;
        if by >= passes || by >= next.len() || note.count != next[by] {
            return false;
        }
        next[by] = next[by].wrapping_add(1);
    }
    next.iter()
        .enumerate()
        .all(|(by, n)| *n == if by < passes { turns } else { 0 })
}

/// So many passes take their turns; afterwards every note is there once, and those of each pass in their order.
fn add_in_turns<R: Threads + Wait + Abort + Sync>(
    rt: &R,
    alloc: Global,
    passes: u32,
    turns: u64,
    first_yields: u64,
) -> Result<(), Fail>
    requires { (1 ≤ passes) × (passes ≤ 16) }
{
    let notes = Notes {
        kept: Vec::new(alloc),
    };
    let (lock, all) = Turnstile::new(alloc, notes, passes)?;
    let all = write_all(rt, &lock, all, turns, first_yields)?;
    let notes = lock.close(all);
    assert_eq!(rt;
        notes.kept.len() as u64,
        u64::from(passes).wrapping_mul(turns)
    );
    assert!(rt; in_order(notes.kept.as_slice(), passes as usize, turns));
    Ok(())
}

#[test]
fn two_threads_add_in_turns(rt: HostRuntime) -> Result<(), Fail> {
    add_in_turns(&rt, rt.alloc(), 2, 1000, 0)
}

/// While the first turn lasts, the others come, look as often as they may, and sleep. Twelve are more than look at all
/// before they sleep.
#[test]
fn those_who_sleep_are_woken(rt: HostRuntime) -> Result<(), Fail> {
    for passes in [2, 8, 12] {
        add_in_turns(&rt, rt.alloc(), passes, 1000, 20_000)?;
    }
    Ok(())
}

#[test]
fn passes_are_numbered_in_order_and_have_seen_nothing(rt: HostRuntime) -> Result<(), Fail> {
    let notes = Notes {
        kept: Vec::new(rt.alloc()),
    };
    let (_lock, passes) = Turnstile::new(rt.alloc(), notes, 3)?;
    assert_eq!(rt; passes.len(), 3);
    for (i, pass) in passes.iter().enumerate() {
        assert!(rt; pass.number() as usize == i && pass.seen() == 0);
    }
    Ok(())
}
