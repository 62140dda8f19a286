//! The arena by itself: evenings of sixteen players, line by line.

ghost use Rattle.arena_rules.specs.Commits.{IsPlanOf};

use arena_core::Arena;
use std::alloc::{AllocError, Global};
use std::process::Abort;
use std::test::Fail;
use std::thread::Threads;
use wave::Plan;

mod evenings;
mod games;
mod script;
mod waves;
mod words;

use evenings::{Evening, opened, planned};
use script::say;

/// Lines in turn, each with what it is answered.
type Lines = &'static [(&'static str, &'static str)];

/// The arena of an evening; where memory is refused once, it is made at the second try.
fn opened_at_last(alloc: Global, evening: Evening) -> Result<Arena, AllocError> {
    match opened(alloc, evening) {
        Ok(arena) => Ok(arena),
        Err(_) => opened(alloc, evening),
    }
}

/// Does what a line says; where memory is refused once, nothing has changed, and it is done at the second try.
fn say_at_last<R: Threads + Sync + Abort>(
    rt: &R,
    alloc: Global,
    text: &mut String,
    arena: &mut Arena,
    plan: &mut Plan,
    line: &str,
) -> Result<(), AllocError>
    requires { IsPlanOf arena.old.setup arena.old.entries plan.old }
    ensures { IsPlanOf arena.new.setup arena.new.entries plan.new }
{
    let before = (arena.len(), arena.begun(), arena.finished());
    if say(rt, alloc, text, arena, plan, line).is_ok() {
        return Ok(());
    }
    let now = (arena.len(), arena.begun(), arena.finished());
    assert_eq!(rt; now, before, "{line}");
    say(rt, alloc, text, arena, plan, line)
}

/// Says lines in turn. Each is answered so.
fn say_all<R: Threads + Sync + Abort>(
    rt: &R,
    alloc: Global,
    text: &mut String,
    arena: &mut Arena,
    plan: &mut Plan,
    lines: &[(&str, &str)],
) -> Result<(), AllocError>
    requires { IsPlanOf arena.old.setup arena.old.entries plan.old }
{
    'saying: for (line, answer) in lines {
        say_at_last(rt, alloc, text, arena, plan, line)?;
        assert_eq!(rt; text.as_str(), *answer, "{line}");
    }
    Ok(())
}

/// Says lines in turn to an arena, over the plan of its beginning. Each is answered so.
fn answers<R: Threads + Sync + Abort>(
    rt: &R,
    alloc: Global,
    arena: &mut Arena,
    lines: &[(&str, &str)],
) -> Result<(), AllocError> {
    let mut text = String::with_capacity(alloc, 1000)?;
    let mut plan = planned(rt, alloc, arena)?;
    say_all(rt, alloc, &mut text, arena, &mut plan, lines)
}

/// How many entries and games the arena says that it has, and how many its journal has.
fn counts(arena: Arena) -> ([u64; 2], [u64; 2]) {
    let said = [arena.len(), u64::from(arena.begun())];
    let journal = arena.into_journal();
    let (entries, games) = (journal.entries.items().len(), journal.starts.items().len());
    (said, [entries as u64, games as u64])
}

/// The lines are answered so in the arena of an evening. It goes the same way where memory is refused once.
fn goes<R: Threads + Sync + Abort>(
    rt: &R,
    alloc: Global,
    evening: Evening,
    lines: &[(&str, &str)],
) -> Result<(), AllocError> {
    let mut arena = opened_at_last(alloc, evening)?;
    let went = answers(rt, alloc, &mut arena, lines);
    let (said, kept) = counts(arena);
    assert_eq!(rt; kept, said);
    went
}
