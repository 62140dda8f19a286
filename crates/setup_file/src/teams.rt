//! The names of a setup's teams.

ghost use Rattle.std.specs.Prelude.{◌≡◌, ◌≤◌, [], nat_le, not, map, OnOk, position, length};
ghost use Rattle.entries.specs.Names.{is_name};
ghost use Rattle.serde_json.specs.View.{view};
ghost use Rattle.setup_file.specs.declared.fault.Member.TheVariants.{Teams};
ghost use Rattle.setup_file.specs.declared.fault.SetupCause.TheVariants.{Kind, Range};
ghost use Rattle.setup_file.specs.Members.{is_text, ranged, text_of};
ghost use Rattle.setup_file.specs.Reading.{Gives, Shows, none_at, different_in, teams_in};

use crate::fault::{Member, ReadSetupFault, SetupCause, SetupFault, at, fault_of, none_at};
use crate::members::{list, text_of};
use crate::register::Register;
use entries::is_name;
use serde_json::Value;
use std::alloc::Global;

/// The place of the first value that is no text.
fn first_no_text(values: &[Value]) -> Option<usize>
    ensures { result ≡ position (λ v. not (is_text (view v))) values.now }
{
    values.iter().position(|value| !value.is_string())
}

/// The place of the first text that is no name.
fn first_no_name(values: &[Value]) -> Option<usize>
    ensures { result ≡ position (λ v. not (is_name (text_of (view v)))) values.now }
{
    values.iter().position(|value| !is_name(text_of(value)))
}

/// Each value is a text, or the first that is none is a fault.
fn texts(values: &[Value]) -> Result<(), SetupFault>
    ensures { result ≡ none_at Teams Kind (position (λ v. not (is_text v)) (map view values.now)) }
{
    none_at(Member::Teams, SetupCause::Kind, first_no_text(values))
}

/// Each text is a name, or the first that is none is a fault.
fn names(values: &[Value]) -> Result<(), SetupFault>
    ensures { result ≡ none_at Teams Range (position (λ v. not (is_name (text_of v))) (map view values.now)) }
{
    none_at(Member::Teams, SetupCause::Range, first_no_name(values))
}

/// The names, where no two are the same, or the first that stood before is a fault.
fn different(alloc: Global, values: &[Value]) -> Result<Register, ReadSetupFault>
    requires { length values.now ≤ 100 }
    ensures { Gives (λ names. names) result (different_in [] (map text_of (map view values.now))) }
{
    let mut names = Register::new(alloc);
    for value in values {
        let name = text_of(value);
        if names.has(name) {
            return Err(fault_of(Member::Teams, names.len(), SetupCause::Repeat).into());
        }
        names.add(alloc, name)?;
    }
    Ok(names)
}

/// At most 100 teams.
fn few(values: &[Value]) -> Result<(), SetupCause>
    ensures is { Shows (λ _. map view values.now) result (ranged (nat_le (length (map view values.now)) 100) (map view values.now)) }
    ensures few { OnOk result (length values.now ≤ 100) }
{
    if values.len() <= 100 {
        Ok(())
    } else {
        Err(SetupCause::Range)
    }
}

/// The names of the teams.
#[tactic(auto, unfolding(crate::specs::Reading::teams_in))]
pub(crate) fn teams_of(alloc: Global, tree: &Value) -> Result<Register, ReadSetupFault>
    ensures { Gives (λ names. names) result (teams_in (view tree.now)) }
{
    let values = at(Member::Teams, 0, list(tree, "teams", Some(&[])))?;
    texts(values)?;
    at(Member::Teams, 0, few(values))?;
    names(values)?;
    different(alloc, values)
}
