ghost use Rattle.std.specs.Prelude.{◌≡◌, ◌<◌, ◌++◌, length, All, OnOk, IfOk};
ghost use Rattle.std.specs.List.{flat_map};
ghost use Rattle.std.specs.String.{string_bytes};
ghost use Rattle.journal_text.specs.Lines.{line};
ghost use Rattle.team_battle.specs.declared.team_row.TeamRow.{TeamRow as TeamRowValue};
ghost use Rattle.table_text.specs.Table.{team_line, team_row_line, team_words};

use conn::Text;
use std::alloc::{AllocError, Global};
use team_battle::TeamRow;

// The end of a team's line: what it has of its leaders.
fn end_of_team(alloc: Global, row: &TeamRow) -> Result<String, AllocError>
    ensures { IfOk result (λ text. string_bytes text ≡ line (team_words row.now)) }
{
    let (points, performance) = (row.points, row.performance);
    format!(in alloc; "{points} {performance}\n")
}

// Puts a team's line behind the text.
fn push_team(
    alloc: Global,
    text: &mut Vec<u8>,
    name: &Text,
    row: &TeamRow,
) -> Result<(), AllocError>
    ensures { OnOk result (text.new.items ≡ text.old.items ++ team_line name.now row.now) }
{
    let place = u64::from(row.rank) + 1;
    let front = format!(in alloc; "team {place} ")?;
    let back = end_of_team(alloc, row)?;
    text.extend_from_slice(front.as_bytes())?;
    text.extend_from_slice(name.bytes())?;
    text.extend_from_slice(b" ")?;
    text.extend_from_slice(back.as_bytes())
}

/// Puts the lines of these rows behind the text.
pub fn push_teams(
    alloc: Global,
    text: &mut Vec<u8>,
    teams: &[Text],
    rows: &[TeamRow],
) -> Result<(), AllocError>
    requires { All (λ (row : TeamRowValue). row.team < length teams.now) rows.now }
    ensures { OnOk result (text.new.items
        ≡ text.old.items ++ flat_map (team_row_line teams.now) rows.now) }
{
    for row in rows {
        push_team(alloc, text, &teams[row.team as usize], row)?;
    }
    Ok(())
}
