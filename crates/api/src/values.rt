//! The bodies as JSON values.

ghost use Rattle.std.specs.Prelude.{◌≡◌, ◌<◌, IfOk, All, length, map};
ghost use Rattle.serde_json.specs.View.{view};
ghost use Rattle.entries.specs.Ranges.{IsGood};
ghost use Rattle.ranking.specs.declared.row.Row.{Row};
ghost use Rattle.team_battle.specs.declared.team_row.TeamRow.{TeamRow};
ghost use Rattle.api.specs.Short.{IsShort};
ghost use Rattle.api.specs.Bodies.{number_or_null, error_data, arena_data, row_data, standing_data, team_data, teams_data, me_data, entry_data, journal_data};

use crate::error::{ApiError, name};
use crate::words::{game_of_seat, phase_word, player_name, player_rating, seat_word, team_name};
use arena_rules::{ArenaView, MeView};
use entries::{Entry, Setup, What};
use journal_text::write_entry;
use ranking::Row;
use serde_json::{Value, json};
use std::alloc::{AllocError, Global};
use team_battle::TeamRow;

// A number, or null.
fn number_or_null(number: Option<u32>) -> Value
    ensures { view result ≡ number_or_null number }
{
    match number {
        None => Value::Null,
        Some(number) => Value::from(number),
    }
}

/// The body of an error.
#[tactic(auto, unfolding(crate::specs::Bodies::error_data))]
pub(crate) fn error_value(alloc: Global, e: &ApiError) -> Result<Value, AllocError>
    ensures { IfOk result (λ v. view v ≡ error_data e.now) }
{
    json!(in alloc; {"error": name(e)})
}

/// The arena as a whole.
#[tactic(auto, unfolding(crate::specs::Bodies::arena_data))]
pub(crate) fn arena_value(
    alloc: Global,
    setup: &Setup,
    arena: &ArenaView,
) -> Result<Value, AllocError>
    ensures { IfOk result (λ v. view v ≡ arena_data setup.now arena.now) }
{
    json!(in alloc; {
        "begun": arena.begun,
        "ends": setup.ends,
        "entered": arena.entered,
        "running": arena.running,
        "starts": setup.starts,
        "state": phase_word(arena.phase),
        "time": arena.stamp
    })
}

// A row of the table.
#[tactic(auto, unfolding(crate::specs::Bodies::row_data))]
fn row_value(alloc: Global, setup: &Setup, row: &Row) -> Result<Value, AllocError>
    requires good { IsGood setup.now }
    requires player { row.now.player < length setup.now.players }
    ensures { IfOk result (λ v. view v ≡ row_data setup.now row.now) }
{
    json!(in alloc; {
        "fire": row.fire,
        "games": row.games,
        "name": player_name(setup, row.player),
        "performance": row.performance,
        "points": row.points,
        "rank": row.rank,
        "rating": player_rating(setup, row.player)
    })
}

// The rows of a page.
fn row_values(alloc: Global, setup: &Setup, rows: &[Row]) -> Result<Vec<Value>, AllocError>
    requires good { IsGood setup.now }
    requires players { All (λ (r : Row). r.player < length setup.now.players) rows.now }
    ensures { IfOk result (λ values. map view values.items ≡ map (row_data setup.now) rows.now) }
{
    let mut values = Vec::with_capacity(alloc, rows.len())?;
    'rows: for row in rows {
        values.push(row_value(alloc, setup, row)?)?;
    }
    Ok(values)
}

/// A page of the table.
#[tactic(auto, unfolding(crate::specs::Bodies::standing_data))]
pub(crate) fn standing_value(
    alloc: Global,
    setup: &Setup,
    page: u64,
    total: u32,
    rows: &[Row],
) -> Result<Value, AllocError>
    requires good { IsGood setup.now }
    requires players { All (λ (r : Row). r.player < length setup.now.players) rows.now }
    ensures { IfOk result (λ v. view v ≡ standing_data setup.now page total rows.now) }
{
    let players = row_values(alloc, setup, rows)?;
    json!(in alloc; {"page": page, "players": (Value::Array(players)), "total": total})
}

// A row of the table of the teams.
#[tactic(auto, unfolding(crate::specs::Bodies::team_data))]
fn team_value(alloc: Global, setup: &Setup, row: &TeamRow) -> Result<Value, AllocError>
    requires good { IsGood setup.now }
    requires team { row.now.team < length setup.now.teams }
    ensures { IfOk result (λ v. view v ≡ team_data setup.now row.now) }
{
    json!(in alloc; {
        "name": team_name(setup, row.team),
        "performance": row.performance,
        "points": row.points,
        "rank": row.rank
    })
}

// The rows of the table of the teams.
fn team_values(alloc: Global, setup: &Setup, rows: &[TeamRow]) -> Result<Vec<Value>, AllocError>
    requires good { IsGood setup.now }
    requires teams { All (λ (r : TeamRow). r.team < length setup.now.teams) rows.now }
    ensures { IfOk result (λ values. map view values.items ≡ map (team_data setup.now) rows.now) }
{
    let mut values = Vec::with_capacity(alloc, rows.len())?;
    'rows: for row in rows {
        values.push(team_value(alloc, setup, row)?)?;
    }
    Ok(values)
}

/// The table of the teams.
#[tactic(auto, unfolding(crate::specs::Bodies::teams_data))]
pub(crate) fn teams_value(
    alloc: Global,
    setup: &Setup,
    rows: &[TeamRow],
) -> Result<Value, AllocError>
    requires good { IsGood setup.now }
    requires teams { All (λ (r : TeamRow). r.team < length setup.now.teams) rows.now }
    ensures { IfOk result (λ v. view v ≡ teams_data setup.now rows.now) }
{
    let teams = team_values(alloc, setup, rows)?;
    json!(in alloc; {"teams": (Value::Array(teams))})
}

/// A player.
#[tactic(auto, unfolding(crate::specs::Bodies::me_data))]
pub(crate) fn me_value(alloc: Global, setup: &Setup, me: &MeView) -> Result<Value, AllocError>
    requires good { IsGood setup.now }
    requires player { me.now.player < length setup.now.players }
    ensures { IfOk result (λ v. view v ≡ me_data setup.now me.now) }
{
    let game = number_or_null(game_of_seat(me.seat));
    let rank = number_or_null(me.rank);
    json!(in alloc; {
        "fire": me.fire,
        "game": game,
        "name": player_name(setup, me.player),
        "performance": me.performance,
        "points": me.points,
        "rank": rank,
        "rating": player_rating(setup, me.player),
        "seat": seat_word(me.seat)
    })
}

// The numbers of an entry are those of a machine, and its move, if it has one, can be named.
fn is_short(entry: Entry)
    ensures { IsShort entry }
{
    match entry.what {
        What::Act(_, _, action) => action.keeps(),
        What::Enter(_) | What::Pause(_) | What::Leave(_) | What::Tick | What::Wave(_) => {}
    }
}

// The line of an entry.
fn entry_value(alloc: Global, entry: &Entry) -> Result<Value, AllocError>
    ensures { IfOk result (λ v. view v ≡ entry_data entry.now) }
{
    is_short(*entry);
    let line = write_entry(alloc, entry)?;
    match str::from_utf8(line.bytes()) {
        Ok(line) => Value::try_from_str(alloc, line),
        Err(_) => unreachable!(),
    }
}

// The lines of entries.
fn entry_values(alloc: Global, entries: &[Entry]) -> Result<Vec<Value>, AllocError>
    ensures { IfOk result (λ values. map view values.items ≡ map entry_data entries.now) }
{
    let mut values = Vec::with_capacity(alloc, entries.len())?;
    'entries: for entry in entries {
        values.push(entry_value(alloc, entry)?)?;
    }
    Ok(values)
}

/// Entries of the journal from a number on.
#[tactic(auto, unfolding(crate::specs::Bodies::journal_data))]
pub(crate) fn journal_value(
    alloc: Global,
    from: u64,
    total: u64,
    entries: &[Entry],
) -> Result<Value, AllocError>
    ensures { IfOk result (λ v. view v ≡ journal_data from total entries.now) }
{
    let lines = entry_values(alloc, entries)?;
    json!(in alloc; {"entries": (Value::Array(lines)), "from": from, "total": total})
}
