//! What a line of a script does to an arena, and what it is answered, as a text.

ghost use Rattle.std.specs.Prelude.{IfSome, IsTrue, IfOk, ◌≡◌, ◌<◌, length};
ghost use Rattle.arena_rules.specs.Commands.{IsCommandOf};
ghost use Rattle.arena_rules.specs.Commits.{IsPlanOf};
ghost use Rattle.arena_rules.specs.Queries.{IsQueryOf};

use super::evenings::planned;
use super::words::{
    write_answer, write_counted, write_plan, write_reply, write_starts, write_table, write_teams,
};
use arena_core::{ApplyFault, Arena, Command, CommitFault, Query, QueryFault};
use arena_rules::plans_of_entries;
use board::read_move;
use entries::Action;
use std::alloc::{AllocError, Global};
use std::fmt::Write;
use std::thread::Threads;
use wave::Plan;

/// The number that a word says, or else one that no player and no game has.
fn number(word: &str) -> u32 {
    word.parse::<u32>().unwrap_or(u32::MAX)
}

fn moment(word: &str) -> u64 {
    word.parse::<u64>().unwrap_or(u64::MAX)
}

fn action(word: &str) -> Option<Action> {
    match word {
        "resign" => Some(Action::Resign),
        "offer" => Some(Action::Offer),
        "accept" => Some(Action::Accept),
        "decline" => Some(Action::Decline),
        "claim" => Some(Action::Claim),
        "berserk" => Some(Action::Berserk),
        _ => Some(Action::Move(read_move(word.as_bytes())?)),
    }
}

/// The command of these words.
fn command(words: &[&str]) -> Option<Command> {
    match *words {
        ["enter", p] => Some(Command::Enter(number(p))),
        ["pause", p] => Some(Command::Pause(number(p))),
        ["leave", p] => Some(Command::Leave(number(p))),
        ["act", p, g, what] => Some(Command::Act(number(p), number(g), action(what)?)),
        ["tick"] => Some(Command::Tick),
        _ => None,
    }
}

/// Whether the command is one of the arena's players.
fn is_command(arena: &Arena, c: &Command) -> bool
    ensures { IsTrue result → IsCommandOf (length arena.now.setup.players) c.now }
{
    let players = arena.setup().players.items().len();
    match *c {
        Command::Enter(p) | Command::Pause(p) | Command::Leave(p) => (p as usize) < players,
        Command::Act(p, _, _) => (p as usize) < players,
        Command::Tick => true,
    }
}

/// What the command is answered.
fn obey(
    text: &mut String,
    arena: &mut Arena,
    plan: &Plan,
    pass: u32,
    now: u64,
    c: Command,
) -> Result<(), AllocError>
    requires { IsPlanOf arena.old.setup arena.old.entries plan.now }
    ensures { IsPlanOf arena.new.setup arena.new.entries plan.now }
{
    plans_of_entries();
    if !is_command(arena, &c) {
        return write!(text, "no player");
    }
    match arena.apply(pass, now, c) {
        Ok(reply) => write_reply(text, &reply),
        Err(ApplyFault::Refused(refusal)) => write!(text, "{refusal:?}"),
        Err(ApplyFault::OutOfMemory) => Err(AllocError),
    }
}

/// How many games the plan's commit starts, or why it is refused.
fn commit(
    text: &mut String,
    alloc: Global,
    arena: &mut Arena,
    plan: &Plan,
    pass: u32,
    now: u64,
) -> Result<(), AllocError>
    requires { IsPlanOf arena.old.setup arena.old.entries plan.now }
    ensures { IsPlanOf arena.new.setup arena.new.entries plan.now }
{
    plans_of_entries();
    match arena.commit(alloc, pass, now, plan) {
        Ok(count) => write!(text, "{count}"),
        Err(CommitFault::OutOfMemory) => Err(AllocError),
        Err(fault) => write!(text, "{fault:?}"),
    }
}

/// The first so many players enter at 0, by pass 0; what the last is answered.
fn enter_all(
    text: &mut String,
    arena: &mut Arena,
    plan: &Plan,
    count: u32,
) -> Result<(), AllocError>
    requires { IsPlanOf arena.old.setup arena.old.entries plan.now }
    ensures { IsPlanOf arena.new.setup arena.new.entries plan.now }
{
    arena.reserve(count)?;
    'entering: for p in 0..count {
        text.clear();
        obey(text, arena, plan, 0, 0, Command::Enter(p))?;
    }
    Ok(())
}

/// The players of a game make these moves in turn, at one moment; what the last is answered.
fn play(
    text: &mut String,
    arena: &mut Arena,
    plan: &Plan,
    now: u64,
    g: u32,
    moves: &[&str],
) -> Result<(), AllocError>
    requires { IsPlanOf arena.old.setup arena.old.entries plan.now }
    ensures { IsPlanOf arena.new.setup arena.new.entries plan.now }
{
    arena.reserve(100)?;
    let Some(start) = arena.start(g) else {
        return write!(text, "no game");
    };
    'playing: for (ply, word) in moves.iter().enumerate() {
        let player = if ply % 2 == 0 {
            start.white
        } else {
            start.black
        };
        text.clear();
        match action(word) {
            Some(made) => obey(text, arena, plan, 0, now, Command::Act(player, g, made))?,
            None => return write!(text, "no move"),
        }
    }
    Ok(())
}

/// Whether the question is about one of the arena's players, or about something else.
fn is_query(arena: &Arena, q: &Query) -> bool
    ensures { IsTrue result → IsQueryOf (length arena.now.setup.players) q.now }
{
    match *q {
        Query::Me(p) => (p as usize) < arena.setup().players.items().len(),
        Query::Arena | Query::Standing(_) | Query::Teams | Query::Game(_) | Query::Journal(_) => {
            true
        }
    }
}

/// What the question is answered.
fn ask(
    text: &mut String,
    alloc: Global,
    arena: &Arena,
    now: u64,
    q: Query,
) -> Result<(), AllocError> {
    if !is_query(arena, &q) {
        return write!(text, "no player");
    }
    match arena.query(alloc, now, q) {
        Ok(answer) => write_answer(text, &answer),
        Err(QueryFault::NoGame) => write!(text, "NoGame"),
        Err(QueryFault::OutOfMemory) => Err(AllocError),
    }
}

/// What these words ask to see of the arena.
fn see(text: &mut String, alloc: Global, arena: &Arena, words: &[&str]) -> Result<(), AllocError> {
    match *words {
        ["table"] => write_table(text, alloc, arena),
        ["teams"] => write_teams(text, alloc, arena),
        ["starts"] => write_starts(text, arena),
        ["counted"] => write_counted(text, arena),
        ["length"] => write!(text, "{}", arena.len()),
        ["seat", p] => ask(text, alloc, arena, 0, Query::Me(number(p))),
        ["view", now] => ask(text, alloc, arena, moment(now), Query::Arena),
        ["game", now, g] => ask(text, alloc, arena, moment(now), Query::Game(number(g))),
        ["standing", k] => ask(text, alloc, arena, 0, Query::Standing(number(k))),
        ["journal", k] => ask(text, alloc, arena, 0, Query::Journal(moment(k))),
        _ => write!(text, "no such line"),
    }
}

/// Does what the words of a line say, and writes what it is answered.
fn obey_words<R: Threads + Sync>(
    rt: &R,
    alloc: Global,
    text: &mut String,
    arena: &mut Arena,
    plan: &mut Plan,
    words: &[&str],
) -> Result<(), AllocError>
    requires { IsPlanOf arena.old.setup arena.old.entries plan.old }
    ensures { IsPlanOf arena.new.setup arena.new.entries plan.new }
{
    match *words {
        ["plan"] => {
            *plan = planned(rt, alloc, arena)?;
            write_plan(text, plan)
        }
        ["reserve", count] => arena.reserve(number(count)),
        ["all", count] => enter_all(text, arena, plan, number(count)),
        ["play", now, g, ..] => play(text, arena, plan, moment(now), number(g), &words[3..]),
        [now, pass, "commit"] => commit(text, alloc, arena, plan, number(pass), moment(now)),
        [now, pass, _, ..] => match command(&words[2..]) {
            Some(c) => obey(text, arena, plan, number(pass), moment(now), c),
            None => see(text, alloc, arena, words),
        },
        _ => see(text, alloc, arena, words),
    }
}

/// Does what a line says, and writes what it is answered. The plan that is kept is that of the last line `plan`, or that of the
/// arena's beginning. Where memory is refused to it, it does nothing.
pub fn say<R: Threads + Sync>(
    rt: &R,
    alloc: Global,
    text: &mut String,
    arena: &mut Arena,
    plan: &mut Plan,
    line: &str,
) -> Result<(), AllocError>
    requires { IsPlanOf arena.old.setup arena.old.entries plan.old }
    ensures { IsPlanOf arena.new.setup arena.new.entries plan.new }
{
    text.clear();
    let words: Vec<&str> = line.split_whitespace().collect(alloc)?;
    obey_words(rt, alloc, text, arena, plan, words.as_slice())
}
