//! Requests, and the bodies of answers.

ghost use Rattle.std.specs.Prelude.{◌≤◌, length, IfOk};
ghost use Rattle.entries.specs.Ranges.{IsGood};

use entries::Setup;
use setup_file::{Keys, read_setup};
use std::alloc::{AllocError, Global};
use std::test::Fail;

mod bodies;
mod calls;

// Alice of the team Red, with the key above, and Bob of no team.
pub fn evening(alloc: Global) -> Result<(Setup, Keys), Fail>
    ensures good { IfOk result (λ r. IsGood r.0) }
    ensures two { IfOk result (λ r. 2 ≤ length r.0.players) }
    ensures one { IfOk result (λ r. 1 ≤ length r.0.teams) }
{
    let file =
        br#"{"control":{"initial":180,"increment":2},"starts":0,"ends":3600000,"teams":["Red"],"players":[{"name":"alice","rating":2000,"key":"alicekey00000001","team":"Red"},{"name":"bob","rating":1900,"key":"bobskey000000002"}]}"#;
    match read_setup(alloc, file.as_slice()) {
        Ok((setup, keys)) if setup.players.items().len() >= 2 && setup.teams.items().len() >= 1 => {
            Ok((setup, keys))
        }
        _ => Err(Fail::from(AllocError)),
    }
}
