//! What a member of an object gives, or why it cannot stand.

ghost use Rattle.std.specs.Prelude.{◌≡◌, ◌≤◌, IfOk, None, Some, codes, map, option_map};
ghost use Rattle.serde_json.specs.Find.{get, as_str};
ghost use Rattle.serde_json.specs.View.{view};
ghost use Rattle.setup_file.specs.Members.{an_object, elements, is_object, is_within, number_in, text_of, valued, whole};
ghost use Rattle.setup_file.specs.Reading.{Shows};

use crate::fault::SetupCause;
use serde_json::Value;

/// A whole number from the least to the most.
#[tactic(auto, unfolding(crate::specs::Members::number_in))]
pub(crate) fn number(
    tree: &Value,
    name: &str,
    default: Option<u64>,
    least: u64,
    most: u64,
) -> Result<u64, SetupCause>
    ensures is { result ≡ number_in default least most (get name.now (view tree.now)) }
    ensures least { IfOk result (λ n. least ≤ n) }
    ensures most { IfOk result (λ n. n ≤ most) }
{
    let n = whole(tree, name, default)?;
    if is_within(least, most, n) {
        Ok(n)
    } else {
        Err(SetupCause::Range)
    }
}

/// From the least to the most.
pub(crate) fn is_within(least: u64, most: u64, n: u64) -> bool
    ensures { result ≡ is_within least most n }
{
    least <= n && n <= most
}

/// A whole number, whatever its range.
fn whole(tree: &Value, name: &str, default: Option<u64>) -> Result<u64, SetupCause>
    ensures { result ≡ valued default whole (get name.now (view tree.now)) }
{
    match tree.get(name) {
        None => default.ok_or(SetupCause::Missing),
        Some(value) => value.as_u64().ok_or(SetupCause::Kind),
    }
}

/// An object.
pub(crate) fn object<'a>(tree: &'a Value, name: &str) -> Result<&'a Value, SetupCause>
    ensures { Shows (λ v. view v.now) result (valued None an_object (get name.now (view tree.now))) }
{
    let value = tree.get(name).ok_or(SetupCause::Missing)?;
    if value.is_object() {
        Ok(value)
    } else {
        Err(SetupCause::Kind)
    }
}

/// A text.
pub(crate) fn text<'a>(tree: &'a Value, name: &str) -> Result<&'a [u8], SetupCause>
    ensures { Shows (λ text. text.now) result (valued None as_str (get name.now (view tree.now))) }
{
    let value = tree.get(name).ok_or(SetupCause::Missing)?;
    let text = value.as_str().ok_or(SetupCause::Kind)?;
    Ok(text.as_bytes())
}

/// The elements of a list.
pub(crate) fn list<'a>(
    tree: &'a Value,
    name: &str,
    default: Option<&'a [Value]>,
) -> Result<&'a [Value], SetupCause>
    ensures { Shows (λ vs. map view vs.now) result
        (valued (option_map (λ vs. map view vs.now) default.entry) elements (get name.now (view tree.now))) }
{
    match tree.get(name) {
        None => default.ok_or(SetupCause::Missing),
        Some(value) => elements(value).ok_or(SetupCause::Kind),
    }
}

/// The elements of a value, if it is a list.
fn elements(value: &Value) -> Option<&[Value]>
    ensures { option_map (λ vs. map view vs.now) result ≡ elements (view value.now) }
{
    let elements = value.as_array()?;
    Some(elements.as_slice())
}

/// The bytes of a text.
pub(crate) fn text_of(value: &Value) -> &[u8]
    ensures { result.now ≡ text_of (view value.now) }
{
    match value.as_str() {
        None => &[],
        Some(text) => text.as_bytes(),
    }
}
