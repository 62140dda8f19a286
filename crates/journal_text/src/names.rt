//! The lines of a journal's teams and players.

ghost use Rattle.std.specs.Prelude.{◌≡◌, ◌+◌, ◌<◌, ◌≤◌, ◌^◌, [], Some, None, IfOk, is_some, if◌then◌else◌, length, option_map, vec_len};
ghost use Rattle.std.specs.List.{list_any};
ghost use Rattle.std.specs.Str.{bytes_eq};
ghost use Rattle.entries.specs.declared.setup.Player.{Player};
ghost use Rattle.journal_text.specs.Lines.{lines_of, words_of};
ghost use Rattle.journal_text.specs.Forms.{is_taken, team_form, team_in, membership_form, membership_fits, player_form, player_in};
ghost use Rattle.journal_text.specs.EntryForms.{no_entries};
ghost use Rattle.journal_text.specs.Reading.{InNames, InEntries, Shows, GoesOn, names_of, run, stand_of};

use crate::fault::{JournalCause, ReadJournalFault, at_line};
use crate::head::Head;
use crate::lines::{four_words, is_word, next_line, two_words};
use conn::Text;
use entries::{Player, is_name};
use std::alloc::{AllocError, Global};

/// What a line between the head and the entries is.
#[derive(Clone, Copy, Debug, PartialEq, Eq)]
enum Stand {
    Team,
    Player,
    Begin,
}

/// The name of a line `team NAME`.
#[tactic(auto, unfolding(crate::specs::Forms::team_form))]
fn team_form(line: &[u8]) -> Option<&[u8]>
    ensures { option_map (λ name. name.now) result ≡ team_form (words_of line.now) }
{
    let (key, name) = two_words(line)?;
    if key == b"team".as_slice() && is_name(name) {
        Some(name)
    } else {
        None
    }
}

/// Whether the line is a team's.
fn is_team(line: &[u8]) -> bool
    ensures { result ≡ is_some (team_form (words_of line.now)) }
{
    team_form(line).is_some()
}

/// What a line is, behind so many players.
fn stand_of(players: usize, line: &[u8]) -> Stand
    ensures { result ≡ stand_of players (words_of line.now) }
{
    if players == 0 {
        if is_team(line) {
            return Stand::Team;
        }
        return Stand::Player;
    }
    if is_word(line, b"begin") {
        return Stand::Begin;
    }
    Stand::Player
}

/// Whether one of the teams has this name.
fn is_taken(teams: &[Text], name: &[u8]) -> bool
    ensures { result ≡ is_taken teams.now name.now }
{
    teams.iter().any(|team| team.bytes() == name)
}

/// The name of the team of its line, behind these teams.
#[tactic(auto, unfolding(crate::specs::Forms::team_in))]
fn team<'a>(teams: &[Text], line: &'a [u8]) -> Result<&'a [u8], JournalCause>
    ensures is { Shows (λ name. name.now) result (team_in teams.now (words_of line.now)) }
    ensures room { IfOk result (λ _. length teams.now < 100) }
{
    let name = team_form(line).ok_or(JournalCause::Form)?;
    if teams.len() >= 100 {
        Err(JournalCause::Range)
    } else if is_taken(teams, name) {
        Err(JournalCause::Repeat)
    } else {
        Ok(name)
    }
}

/// The number of a player's team, whatever its range, or none.
#[tactic(auto, unfolding(crate::specs::Forms::membership_form))]
fn membership_form(word: &[u8]) -> Option<Option<u64>>
    ensures { result ≡ membership_form word.now }
{
    if word == b"-".as_slice() {
        return Some(None);
    }
    let team = decimals::read(word)?;
    Some(Some(team))
}

/// A player's rating and team, whatever their ranges, and name.
#[tactic(auto, unfolding(crate::specs::Forms::player_form))]
fn player_form(line: &[u8]) -> Option<(u64, Option<u64>, &[u8])>
    ensures { option_map (λ p. (p.0, p.1, p.2.now)) result ≡ player_form (words_of line.now) }
{
    let (key, rating, team, name) = four_words(line)?;
    if key != b"player".as_slice() {
        return None;
    }
    let rating = decimals::read(rating)?;
    let team = membership_form(team)?;
    if is_name(name) {
        Some((rating, team, name))
    } else {
        None
    }
}

/// The team of a player, where it is none or one of so many.
fn membership(team: Option<u64>, teams: u32) -> Option<Option<u32>>
    ensures { result ≡ (if membership_fits teams team then Some team else None) }
{
    match team {
        None => Some(None),
        Some(team) => {
            if team < u64::from(teams) {
                Some(Some(team as u32))
            } else {
                None
            }
        }
    }
}

/// Whether some player has this name.
fn is_player(players: &[Player], name: &[u8]) -> bool
    ensures { result ≡ list_any (λ (p : Player). bytes_eq p.name name.now) players.now }
{
    players.iter().any(|p| p.name.bytes() == name)
}

/// Whether one of the players' names is this one.
fn is_name_taken(players: &[Player], name: &[u8]) -> bool
    ensures { result ≡ is_taken (names_of players.now) name.now }
{
    is_player(players, name)
}

/// The rating, the team and the name of the player of this line, of so many teams and behind these players.
#[tactic(auto, unfolding(crate::specs::Forms::player_in))]
fn player<'a>(
    teams: u32,
    players: &[Player],
    line: &'a [u8],
) -> Result<(u32, Option<u32>, &'a [u8]), JournalCause>
    ensures is { Shows (λ p. record { name = p.2.now; rating = p.0; team = p.1 }) result
        (player_in teams (names_of players.now) (words_of line.now)) }
    ensures room { IfOk result (λ _. length players.now < 1000) }
{
    let (rating, team, name) = player_form(line).ok_or(JournalCause::Form)?;
    if rating < 400 || 4000 < rating {
        return Err(JournalCause::Range);
    }
    let team = membership(team, teams).ok_or(JournalCause::Range)?;
    if players.len() >= 1000 {
        Err(JournalCause::Range)
    } else if is_name_taken(players, name) {
        Err(JournalCause::Repeat)
    } else {
        Ok((rating as u32, team, name))
    }
}

/// The teams and the players up to `begin`, behind this head, the number of the line behind it, and the text from there on.
#[tactic(auto, using(crate::proofs::Steps::names_step), unfolding(crate::specs::Reading::step))]
pub(crate) fn names_of<'a>(
    alloc: Global,
    head: &Head,
    first: u64,
    text: &'a [u8],
) -> Result<(Vec<Text>, Vec<Player>, u64, &'a [u8]), ReadJournalFault>
    requires { first + length text.now ≤ 2 ^ 63 }
    ensures read { GoesOn (λ r. run (InEntries head.now r.0.items r.1.items no_entries) r.2 (lines_of r.3.now)) result
        (run (InNames head.now [] []) first (lines_of text.now)) }
    ensures most { IfOk result (λ r. vec_len r.1 ≤ 1000) }
    ensures placed { IfOk result (λ r. r.2 + length r.3.now ≤ 2 ^ 63) }
{
    let mut teams = Vec::new(alloc);
    let mut players = Vec::new(alloc);
    let mut number = first;
    let mut rest = text;
    'lines: loop {
        let (line, after) = next_line(rest, number)?;
        match stand_of(players.len(), line) {
            Stand::Team => {
                let name = at_line(number, team(&teams, line))?;
                teams.push(Text::of(Vec::from_slice(alloc, name)?))?;
            }
            Stand::Player => {
                let (rating, team, name) = at_line(
                    number,
                    player(teams.len() as u32, &players, line),
                )?;
                players.push(Player {
                    name: Text::of(Vec::from_slice(alloc, name)?),
                    rating,
                    team,
                })?;
            }
            Stand::Begin => return Ok((teams, players, number + 1, after)),
        }
        number += 1;
        rest = after;
    }
}
