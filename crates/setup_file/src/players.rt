//! A setup's players, and the keys by which they are known.

ghost use Rattle.std.specs.Prelude.{◌≡◌, ◌≤◌, [], false, not, codes, map, IfOk, OnOk, position, length};
ghost use Rattle.entries.specs.Names.{is_name};
ghost use Rattle.serde_json.specs.Find.{get};
ghost use Rattle.serde_json.specs.View.{view};
ghost use Rattle.setup_file.specs.declared.fault.Member.TheVariants.{Players};
ghost use Rattle.setup_file.specs.declared.fault.SetupCause.TheVariants.{Kind};
ghost use Rattle.setup_file.specs.Keys.{is_key};
ghost use Rattle.setup_file.specs.Members.{fresh, fresh_in, is_object, is_taken, is_within, ranged, team_in};
ghost use Rattle.setup_file.specs.Reading.{Gives, Shows, none_at, objects_in, player_in, players_in};

use crate::fault::{Member, ReadSetupFault, SetupCause, SetupFault, at, none_at};
use crate::keys::is_key;
use crate::members::{list, number, text};
use crate::register::Register;
use conn::Text;
use entries::{Player, is_name};
use serde_json::Value;
use std::alloc::Global;

/// What the object of a player says.
#[derive(Clone, Copy)]
struct Entrant<'a> {
    name: &'a [u8],
    rating: u32,
    key: &'a [u8],
    team: Option<u32>,
}

/// The place of the first value that is no object.
fn first_no_object(values: &[Value]) -> Option<usize>
    ensures { result ≡ position (λ v. not (is_object (view v))) values.now }
{
    values.iter().position(|value| !value.is_object())
}

/// Each value is an object, or the first that is none is a fault.
fn all_objects(values: &[Value]) -> Result<(), SetupFault>
    ensures { result ≡ none_at Players Kind (position (λ v. not (is_object v)) (map view values.now)) }
{
    none_at(Member::Players, SetupCause::Kind, first_no_object(values))
}

/// 1 to 1,000 players.
fn counted(values: &[Value]) -> Result<&[Value], SetupCause>
    ensures is { Shows (λ vs. map view vs.now) result (ranged (is_within 1 1000 (length (map view values.now))) (map view values.now)) }
    ensures most { IfOk result (λ vs. length vs.now ≤ 1000) }
{
    if 1 <= values.len() && values.len() <= 1000 {
        Ok(values)
    } else {
        Err(SetupCause::Range)
    }
}

/// The objects of the players.
#[tactic(auto, unfolding(crate::specs::Reading::objects_in))]
pub(crate) fn objects(tree: &Value) -> Result<&[Value], SetupFault>
    ensures is { Shows (λ vs. map view vs.now) result (objects_in (view tree.now)) }
    ensures most { IfOk result (λ vs. length vs.now ≤ 1000) }
{
    let values = at(Member::Players, 0, list(tree, "players", None))?;
    all_objects(values)?;
    at(Member::Players, 0, counted(values))
}

/// The text, where it has its form and stands not among those before.
fn fresh<'a>(text: &'a [u8], formed: bool, before: &Register) -> Result<&'a [u8], SetupCause>
    ensures is { Shows (λ t. t.now) result (fresh formed before.now text.now) }
    ensures new { IfOk result (λ t. is_taken before.now t.now ≡ false) }
{
    if !formed {
        Err(SetupCause::Range)
    } else if before.has(text) {
        Err(SetupCause::Repeat)
    } else {
        Ok(text)
    }
}

/// A player's name, behind players with these.
#[tactic(auto, unfolding(crate::specs::Members::fresh_in))]
fn name<'a>(tree: &'a Value, names: &Register) -> Result<&'a [u8], SetupCause>
    ensures is { Shows (λ t. t.now) result (fresh_in is_name names.now (get (codes "name") (view tree.now))) }
    ensures new { IfOk result (λ t. is_taken names.now t.now ≡ false) }
{
    let name = text(tree, "name")?;
    fresh(name, is_name(name), names)
}

/// A player's key, behind players with these.
#[tactic(auto, unfolding(crate::specs::Members::fresh_in))]
fn key<'a>(tree: &'a Value, keys: &Register) -> Result<&'a [u8], SetupCause>
    ensures is { Shows (λ t. t.now) result (fresh_in is_key keys.now (get (codes "key") (view tree.now))) }
    ensures new { IfOk result (λ t. is_taken keys.now t.now ≡ false) }
{
    let key = text(tree, "key")?;
    fresh(key, is_key(key), keys)
}

/// The number of a player's team, or none.
#[tactic(auto, unfolding(crate::specs::Members::team_in))]
fn team(tree: &Value, teams: &Register) -> Result<Option<u32>, SetupCause>
    ensures { result ≡ team_in teams.now (get (codes "team") (view tree.now)) }
{
    let Some(value) = tree.get("team") else {
        return Ok(None);
    };
    if value.is_null() {
        return Ok(None);
    }
    let name = value.as_str().ok_or(SetupCause::Kind)?;
    let team = teams.find(name.as_bytes()).ok_or(SetupCause::UnknownTeam)?;
    Ok(Some(team))
}

/// The player of an object, behind players with these names and keys.
#[tactic(auto, unfolding(crate::specs::Reading::player_in))]
fn entrant_of<'a>(
    tree: &'a Value,
    teams: &Register,
    names: &Register,
    keys: &Register,
) -> Result<Entrant<'a>, SetupFault>
    ensures is { Shows (λ e. (record { name = e.name.now; rating = e.rating; team = e.team }, e.key.now)) result
        (player_in teams.now names.now keys.now (view tree.now)) }
    ensures name { IfOk result (λ e. is_taken names.now e.name.now ≡ false) }
    ensures key { IfOk result (λ e. is_taken keys.now e.key.now ≡ false) }
{
    let index = names.len();
    let name = at(Member::Name, index, name(tree, names))?;
    let rating = at(
        Member::Rating,
        index,
        number(tree, "rating", None, 400, 4000),
    )?;
    let key = at(Member::Key, index, key(tree, keys))?;
    let team = at(Member::Team, index, team(tree, teams))?;
    Ok(Entrant {
        name,
        rating: rating as u32,
        key,
        team,
    })
}

/// The players of these objects, and their keys.
pub(crate) fn players_of(
    alloc: Global,
    objects: &[Value],
    teams: &Register,
) -> Result<(Vec<Player>, Register), ReadSetupFault>
    requires { length objects.now ≤ 1000 }
    ensures { Gives (λ read. (read.0.items, read.1)) result (players_in teams.now [] [] (map view objects.now)) }
{
    let mut players = Vec::with_capacity(alloc, objects.len())?;
    let mut names = Register::new(alloc);
    let mut keys = Register::new(alloc);
    for object in objects {
        let entrant = entrant_of(object, teams, &names, &keys)?;
        names.add(alloc, entrant.name)?;
        keys.add(alloc, entrant.key)?;
        players.push(Player {
            name: Text::of(Vec::from_slice(alloc, entrant.name)?),
            rating: entrant.rating,
            team: entrant.team,
        })?;
    }
    Ok((players, keys))
}
