//! The members of a setup's file before its teams and players.

ghost use Rattle.std.specs.Prelude.{◌≡◌};
ghost use Rattle.serde_json.specs.View.{view};
ghost use Rattle.setup_file.specs.Reading.{control_in, head_in};

use crate::fault::{Member, SetupFault, at};
use crate::members::{number, object};
use entries::Control;
use serde_json::Value;

/// What the members before the teams say.
#[derive(Clone, Copy, Debug)]
pub(crate) struct Head {
    pub(crate) control: Control,
    pub(crate) starts: u64,
    pub(crate) ends: u64,
    pub(crate) wave_ms: u64,
    pub(crate) leaders: u32,
    pub(crate) rule: u32,
}

/// The time control.
#[tactic(auto, unfolding(crate::specs::Reading::control_in))]
fn control(tree: &Value) -> Result<Control, SetupFault>
    ensures { result ≡ control_in (view tree.now) }
{
    let control = at(Member::Control, 0, object(tree, "control"))?;
    let initial = at(
        Member::Initial,
        0,
        number(control, "initial", None, 0, 10_800),
    )?;
    let least = if initial == 0 { 1 } else { 0 };
    let increment = at(
        Member::Increment,
        0,
        number(control, "increment", None, least, 180),
    )?;
    let opening = at(
        Member::First,
        0,
        number(control, "first", Some(20_000), 1000, 300_000),
    )?;
    Ok(Control {
        initial_ms: initial * 1000,
        inc_ms: increment * 1000,
        first_ms: opening,
    })
}

/// The members before the teams.
#[tactic(auto, unfolding(crate::specs::Reading::head_in))]
pub(crate) fn head_of(tree: &Value) -> Result<Head, SetupFault>
    ensures { result ≡ head_in (view tree.now) }
{
    let control = control(tree)?;
    let starts = at(
        Member::Starts,
        0,
        number(tree, "starts", None, 0, 899_999_999),
    )?;
    let ends = at(
        Member::Ends,
        0,
        number(tree, "ends", None, starts + 1, 900_000_000),
    )?;
    let wave_ms = at(
        Member::Wave,
        0,
        number(tree, "wave", Some(5000), 100, 600_000),
    )?;
    let leaders = at(Member::Leaders, 0, number(tree, "leaders", Some(5), 1, 20))?;
    let rule = at(Member::Rule, 0, number(tree, "rule", Some(1), 1, 2))?;
    Ok(Head {
        control,
        starts,
        ends,
        wave_ms,
        leaders: leaders as u32,
        rule: rule as u32,
    })
}
