ghost use Rattle.std.specs.Prelude.{◌≡◌, ◌<◌, ◌++◌, length, take, All, OnOk, IfOk};
ghost use Rattle.std.specs.List.{flat_map};
ghost use Rattle.std.specs.String.{string_bytes};
ghost use Rattle.journal_text.specs.Lines.{line};
ghost use Rattle.ranking.specs.declared.row.Row.{Row as RowValue};
ghost use Rattle.table_text.specs.Table.{table, summary, score_words, player_line, row_line, count_line};

use crate::team_lines::push_teams;
use arena_core::Arena;
use arena_rules::tables_of_legal_lists;
use conn::Text;
use entries::Player;
use ranking::Row;
use std::alloc::{AllocError, Global};
use team_battle::each_team_stands_once;

// The end of a player's line: what he has of his counted games.
fn score_end(alloc: Global, row: &Row) -> Result<String, AllocError>
    ensures { IfOk result (λ text. string_bytes text ≡ line (score_words row.now)) }
{
    let (points, performance, games) = (row.points, row.performance, row.games);
    format!(in alloc; "{points} {performance} {games}\n")
}

// Puts a player's line behind the text.
fn push_player(
    alloc: Global,
    text: &mut Vec<u8>,
    player: &Player,
    row: &Row,
) -> Result<(), AllocError>
    ensures { OnOk result (text.new.items ≡ text.old.items ++ player_line player.now row.now) }
{
    let (place, rating) = (u64::from(row.rank) + 1, player.rating);
    let front = format!(in alloc; "{place} ")?;
    let mid = format!(in alloc; " {rating} ")?;
    let back = score_end(alloc, row)?;
    text.extend_from_slice(front.as_bytes())?;
    text.extend_from_slice(player.name.bytes())?;
    text.extend_from_slice(mid.as_bytes())?;
    text.extend_from_slice(back.as_bytes())
}

// Puts the lines of these rows behind the text.
fn push_players(
    alloc: Global,
    text: &mut Vec<u8>,
    players: &[Player],
    rows: &[Row],
) -> Result<(), AllocError>
    requires { All (λ (row : RowValue). row.player < length players.now) rows.now }
    ensures { OnOk result (text.new.items
        ≡ text.old.items ++ flat_map (row_line players.now) rows.now) }
{
    for row in rows {
        push_player(alloc, text, &players[row.player as usize], row)?;
    }
    Ok(())
}

// Puts the last line behind the text.
fn push_counts(
    alloc: Global,
    text: &mut Vec<u8>,
    games: u64,
    entries: u64,
) -> Result<(), AllocError>
    ensures { OnOk result (text.new.items ≡ text.old.items ++ count_line games entries) }
{
    let line = format!(in alloc; "games {games} entries {entries}\n")?;
    text.extend_from_slice(line.as_bytes())
}

/// The table of an arena, as it is printed: a line for each player who entered, in the order of the table, a line for each team,
/// in the order of the teams, and the number of counted games and of entries. It fails only for want of memory.
pub fn write_table(alloc: Global, a: &Arena) -> Result<Text, AllocError>
    ensures { IfOk result (λ text. text ≡ table a.now.setup a.now.entries) }
{
    a.shows_legal();
    tables_of_legal_lists();
    each_team_stands_once();
    let setup = a.setup();
    let rows = a.rows(alloc)?;
    let teams = a.teams(alloc)?;
    let mut text = Vec::new(alloc);
    push_players(alloc, &mut text, setup.players.items(), &rows)?;
    push_teams(alloc, &mut text, setup.teams.items(), &teams)?;
    push_counts(alloc, &mut text, u64::from(a.finished()), a.len())?;
    Ok(Text::of(text))
}

// The first ten rows, or all where there are fewer.
fn first_ten(rows: &[Row]) -> &[Row]
    ensures { result.now ≡ take 10 rows.now }
{
    &rows[..rows.len().min(10)]
}

/// The beginning and the end of that table: the lines of its first ten players, and the number of counted games and of entries. It
/// fails only for want of memory.
pub fn write_summary(alloc: Global, a: &Arena) -> Result<Text, AllocError>
    ensures { IfOk result (λ text. text ≡ summary a.now.setup a.now.entries) }
{
    a.shows_legal();
    tables_of_legal_lists();
    let rows = a.rows(alloc)?;
    let mut text = Vec::new(alloc);
    push_players(
        alloc,
        &mut text,
        a.setup().players.items(),
        first_ten(&rows),
    )?;
    push_counts(alloc, &mut text, u64::from(a.finished()), a.len())?;
    Ok(Text::of(text))
}
