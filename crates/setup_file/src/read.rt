ghost use Rattle.std.specs.Prelude.{◌≡◌, ◌≢◌, Err, length, IfOk};
ghost use Rattle.entries.specs.Ranges.{IsGood};
ghost use Rattle.serde_json.specs.Data.{Data};
ghost use Rattle.serde_json.specs.View.{view};
ghost use Rattle.setup_file.specs.declared.fault.Member.TheVariants.{Whole};
ghost use Rattle.setup_file.specs.declared.fault.SetupCause.TheVariants.{NotJson, Kind};
ghost use Rattle.setup_file.specs.declared.fault.SetupFault.{SetupFault};
ghost use Rattle.setup_file.specs.Keys.{AreKeysOf};
ghost use Rattle.setup_file.specs.Members.{IsTree, an_object, found, tree_of};
ghost use Rattle.setup_file.specs.Reading.{Gives, Shows, at, not_json, read_bytes, read_tree};

use crate::fault::{Member, ReadSetupFault, SetupCause, SetupFault, at, fault_of};
use crate::head::head_of;
use crate::keys::Keys;
use crate::players::{objects, players_of};
use crate::teams::teams_of;
use conn::List;
use entries::Setup;
use serde_json::Value;
use std::alloc::Global;

/// The setup that the JSON text says, and its players' keys. `Bad` names the first fault, in the order of
/// `specs/Reading.antt`: NotJson, the members from `control` to `players`, and then player by player `name`, `rating`,
/// `key` and `team`; of each member Missing, Kind, Range, Repeat, UnknownTeam. Unknown members are passed over, and of a
/// member that stands twice the last counts. Its cost is that of reading the text and of hashing each name and key.
pub fn read_setup(alloc: Global, bytes: &[u8]) -> Result<(Setup, Keys), ReadSetupFault>
    // Of a JSON text exactly the setup and keys of its value, or exactly the first fault of that value, unless memory
    // runs out.
    ensures tree { (tree : Data) → IsTree bytes.now tree → Gives (λ read. read) result (read_tree tree) }

    // Of other bytes exactly that they are no JSON text.
    ensures none { ((tree : Data) → ¬ IsTree bytes.now tree) → Gives (λ read. read) result not_json }

    // The same as a function of the bytes.
    ensures is { Gives (λ read. read) result (read_bytes bytes.now) }

    // What is read is good, and each player has a key of his own.
    ensures good { IfOk result (λ read. IsGood read.0) }
    ensures keyed { IfOk result (λ read. AreKeysOf (length read.0.players) read.1) }
{
    setup_of(alloc, bytes)
}

/// No fault of a JSON value is that the bytes are no JSON text: so that comes exactly where they are none.
pub fn value_is_json()
    ensures { (tree : Data) (fault : SetupFault) → read_tree tree ≡ Err fault → fault.cause ≢ NotJson }
{}

/// The JSON value of the bytes.
fn tree(alloc: Global, bytes: &[u8]) -> Result<Value, ReadSetupFault>
    ensures { Gives view result (at Whole 0 (found NotJson (tree_of bytes.now))) }
{
    match Value::from_slice(alloc, bytes) {
        Ok(value) => Ok(value),
        Err(e) => {
            if e.is_memory() {
                Err(ReadSetupFault::OutOfMemory)
            } else {
                Err(fault_of(Member::Whole, 0, SetupCause::NotJson).into())
            }
        }
    }
}

/// The value is an object.
fn whole(value: &Value) -> Result<&Value, SetupCause>
    ensures { Shows (λ v. view v.now) result (found Kind (an_object (view value.now))) }
{
    if value.is_object() {
        Ok(value)
    } else {
        Err(SetupCause::Kind)
    }
}

/// The setup and keys of a JSON value.
#[tactic(auto, unfolding(crate::specs::Reading::read_tree))]
fn read_tree(alloc: Global, tree: &Value) -> Result<(Setup, Keys), ReadSetupFault>
    ensures { Gives (λ read. read) result (read_tree (view tree.now)) }
{
    at(Member::Whole, 0, whole(tree))?;
    let head = head_of(tree)?;
    let teams = teams_of(alloc, tree)?;
    let objects = objects(tree)?;
    let (players, keys) = players_of(alloc, objects, &teams)?;
    let setup = Setup {
        control: head.control,
        starts: head.starts,
        ends: head.ends,
        wave_ms: head.wave_ms,
        leaders: head.leaders,
        rule: head.rule,
        teams: teams.texts(alloc)?,
        players: List::of(players),
    };
    Ok((setup, Keys::of(keys)))
}

/// The setup and keys of the bytes.
#[tactic(auto, unfolding(crate::specs::Reading::read_bytes))]
fn setup_of(alloc: Global, bytes: &[u8]) -> Result<(Setup, Keys), ReadSetupFault>
    ensures { Gives (λ read. read) result (read_bytes bytes.now) }
{
    let tree = tree(alloc, bytes)?;
    read_tree(alloc, &tree)
}
