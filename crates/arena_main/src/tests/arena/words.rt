//! Answers as texts.

use arena_core::{Answer, Arena, Reply};
use board::Colour;
use game_room::{GameView, Outcome};
use std::alloc::{AllocError, Global};
use std::fmt::Write;
use wave::Plan;

/// Something more follows in a text, behind this where it is not the first.
fn next(text: &mut String, behind: &str) -> Result<(), AllocError> {
    if text.is_empty() {
        return Ok(());
    }
    text.push_str(behind)
}

fn winner(outcome: &Outcome) -> &'static str {
    match outcome.winner {
        Some(Colour::White) => "White",
        Some(Colour::Black) => "Black",
        None => "draw",
    }
}

/// How many moves were made, what the clocks show, White's first, and behind them how the game ended, if it did.
fn write_game(text: &mut String, view: &GameView) -> Result<(), AllocError> {
    let (plies, white, black) = (view.plies, view.white_ms, view.black_ms);
    write!(text, "{plies} {white} {black}")?;
    match view.outcome {
        None => Ok(()),
        Some(outcome) => {
            let won = winner(&outcome);
            write!(text, " {:?} {won}", outcome.cause)
        }
    }
}

/// The player's seat, the game, or how many games were ended.
pub fn write_reply(text: &mut String, reply: &Reply) -> Result<(), AllocError> {
    match reply {
        Reply::Me(view) => write!(text, "{:?}", view.seat),
        Reply::Game(view) => write_game(text, view),
        Reply::Ticked(count) => write!(text, "{count}"),
    }
}

/// The arena's stamp, phase, entrants, games and running games, the player's seat, the game, or how many there are of how many.
pub fn write_answer(text: &mut String, answer: &Answer) -> Result<(), AllocError> {
    match answer {
        Answer::Arena(view) => {
            let (entered, begun, running) = (view.entered, view.begun, view.running);
            write!(
                text,
                "{} {:?} {entered} {begun} {running}",
                view.stamp, view.phase
            )
        }
        Answer::Me(view) => write!(text, "{:?}", view.seat),
        Answer::Game(view) => write_game(text, view),
        Answer::Teams(rows) => write!(text, "{}", rows.items().len()),
        Answer::Standing { total, rows } => write!(text, "{} of {total}", rows.items().len()),
        Answer::Journal { total, entries } => write!(text, "{} of {total}", entries.items().len()),
    }
}

/// The pairs of a plan, White first, and whom it leaves alone.
pub fn write_plan(text: &mut String, plan: &Plan) -> Result<(), AllocError> {
    for pair in plan.pairs.items() {
        let (white, black) = (pair.white, pair.black);
        write!(text, "{white}-{black} ")?;
    }
    write!(text, "alone")?;
    for p in plan.alone.items() {
        write!(text, " {p}")?;
    }
    Ok(())
}

/// The rows of the table with their names and ratings, how many games count and how many entries there are.
pub fn write_table(text: &mut String, alloc: Global, arena: &Arena) -> Result<(), AllocError> {
    let rows = arena.rows(alloc)?;
    for row in rows.as_slice() {
        if let Some(player) = arena.setup().players.items().get(row.player as usize) {
            let name = std::str::from_utf8(player.name.bytes()).unwrap_or("?");
            let (rating, points, performance) = (player.rating, row.points, row.performance);
            let place = row.rank.wrapping_add(1);
            write!(
                text,
                "{place} {name} {rating} {points} {performance} {} / ",
                row.games
            )?;
        }
    }
    let (games, entries) = (arena.finished(), arena.len());
    write!(text, "games {games} entries {entries}")
}

/// The rows of the teams, each with its name, points and performance.
pub fn write_teams(text: &mut String, alloc: Global, arena: &Arena) -> Result<(), AllocError> {
    let rows = arena.teams(alloc)?;
    for row in rows.as_slice() {
        if let Some(team) = arena.setup().teams.items().get(row.team as usize) {
            next(text, " / ")?;
            let name = std::str::from_utf8(team.bytes()).unwrap_or("?");
            let (place, points) = (row.rank.wrapping_add(1), row.points);
            write!(text, "team {place} {name} {points} {}", row.performance)?;
        }
    }
    Ok(())
}

/// The games that count, in the order in which they ended.
pub fn write_counted(text: &mut String, arena: &Arena) -> Result<(), AllocError> {
    for i in 0..arena.finished() {
        if let Some(game) = arena.counted(i) {
            next(text, " ")?;
            write!(text, "{game}")?;
        }
    }
    Ok(())
}

/// The games that were begun, each with the number of its wave's entry and its players, White first.
pub fn write_starts(text: &mut String, arena: &Arena) -> Result<(), AllocError> {
    for g in 0..arena.begun() {
        if let Some(start) = arena.start(g) {
            next(text, " ")?;
            let (entry, white, black) = (start.entry, start.white, start.black);
            write!(text, "{entry}:{white}-{black}")?;
        }
    }
    Ok(())
}
