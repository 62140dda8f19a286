//! Connections to an arena of four players.

ghost use Rattle.std.specs.Prelude.{◌≡◌, IfOk, length};
ghost use Rattle.entries.specs.Ranges.{IsGood};
ghost use Rattle.setup_file.specs.Keys.{AreKeysOf};
ghost use Rattle.arena_lock.specs.Turns.{IsReady};
ghost use Rattle.host.specs.Asked.{AreKeysOfPlayers};

mod faults;
mod heads;
mod requests;
mod threads;
mod wires;

use super::lobbies::{enter, planned};
use arena_lock::{Lobby, Pass};
use entries::Setup;
use setup_file::{Keys, read_setup};
use std::alloc::{AllocError, Global};
use std::sync::Wait;
use std::thread::Threads;

const SETUP: &[u8] =
    br#"{"control":{"initial":180,"increment":2},"starts":0,"ends":3600000,"leaders":1,"players":[{"name":"alice","rating":2000,"key":"alicekey00000001"},{"name":"bob","rating":1900,"key":"bobskey000000002"},{"name":"carol","rating":1500,"key":"carolkey00000003"},{"name":"dave","rating":1400,"key":"daveskey00000004"}]}"#;

/// The keys of the players are those of players.
fn keys_of_players(setup: &Setup, keys: &Keys)
    requires own { AreKeysOf (length setup.now.players) keys.now }
    ensures players { AreKeysOfPlayers (length setup.now.players) keys.now }
{}

/// A setup and its keys, if it is one of four players.
fn of_four(setup: Setup, keys: Keys) -> Result<(Setup, Keys), AllocError>
    requires good { IsGood setup }
    requires own { AreKeysOf (length setup.players) keys }
    ensures good { IfOk result (λ r. IsGood r.0) }
    ensures four { IfOk result (λ r. length r.0.players ≡ 4) }
    ensures keys { IfOk result (λ r. AreKeysOfPlayers 4 r.1) }
{
    keys_of_players(&setup, &keys);
    if setup.players.items().len() == 4 {
        Ok((setup, keys))
    } else {
        Err(AllocError)
    }
}

/// The setup of alice, bob, carol and dave, and their keys.
pub fn evening(alloc: Global) -> Result<(Setup, Keys), AllocError>
    ensures good { IfOk result (λ r. IsGood r.0) }
    ensures four { IfOk result (λ r. length r.0.players ≡ 4) }
    ensures keys { IfOk result (λ r. AreKeysOfPlayers 4 r.1) }
{
    match read_setup(alloc, SETUP) {
        Ok((setup, keys)) => of_four(setup, keys),
        Err(_) => Err(AllocError),
    }
}

/// Whether the first wave, at 1000, starts one game.
fn start_one<R: Threads + Wait + Sync>(
    rt: &R,
    alloc: Global,
    lobby: &Lobby,
    pass: &mut Pass,
) -> Result<bool, AllocError>
    requires good { IsGood lobby.now.fixed }
    requires ready { IsReady lobby.now pass.old }
    ensures ready { IsReady lobby.now pass.new }
{
    let plan = planned(rt, alloc, lobby, pass)?;
    let started = lobby.commit(rt, alloc, pass, 1_000, &plan);
    Ok(started == Ok(1))
}

/// Alice and bob enter at 0, and the first wave begins their game, alice with White, at 1000. That are three entries.
pub fn begin_game<R: Threads + Wait + Sync>(
    rt: &R,
    alloc: Global,
    lobby: &Lobby,
    pass: &mut Pass,
) -> Result<bool, AllocError>
    requires good { IsGood lobby.now.fixed }
    requires four { length lobby.now.fixed.players ≡ 4 }
    requires ready { IsReady lobby.now pass.old }
    ensures ready { IsReady lobby.now pass.new }
{
    let alice = enter(rt, lobby, pass, 0, 0);
    let bob = enter(rt, lobby, pass, 0, 1);
    let started = start_one(rt, alloc, lobby, pass)?;
    Ok(alice && bob && started)
}
