//! What a request comes to: its error, or what one turn of the lobby makes of its call.

ghost use Rattle.std.specs.Prelude.{◌≡◌, List, ℕ, length, Ok, Some, IfOk};
ghost use Rattle.entries.specs.Ranges.{IsGood};
ghost use Rattle.arena_lock.specs.Turns.{IsReady};
ghost use Rattle.arena_rules.specs.Queries.{IsQueryOf};
ghost use Rattle.arena_rules.specs.declared.command.Command.{Command as Order};
ghost use Rattle.api.specs.Bodies.{IsShownAnswer, IsShownReply};
ghost use Rattle.api.specs.Calls.{call_of};
ghost use Rattle.api.specs.declared.call.Call.TheVariants as call;
ghost use Rattle.http_lines.specs.declared.request.RequestHead.{RequestHead as Request};
ghost use Rattle.host.specs.Asked.{AreKeysOfPlayers};
ghost use Rattle.host.specs.Responses.{said};
ghost use Rattle.host.specs.Steps.{ComesTo, IsPlayers, deed_of_answer, deed_of_reply};

use crate::desk::Desk;
use crate::laws::{laws_of_shown, laws_of_turns};
use crate::said::{Said, error_said, well_said};
use api::{ApiError, Call, answer_body, reply_body};
use arena_core::{Answer, ApplyFault, Command, Query, QueryFault, Reply};
use arena_lock::{Lobby, Pass};
use conn::Clock;
use entries::Setup;
use http_lines::RequestHead;
use std::alloc::{AllocError, Global};
use std::sync::Wait;

/// What is said of a request: of its error, or else of its call, for which the clock is looked at once and one turn is taken.
pub(crate) fn answer<R: Wait, C: Clock>(
    rt: &R,
    alloc: Global,
    desk: &Desk,
    pass: &mut Pass,
    clock: &mut C,
    head: &RequestHead,
) -> Result<Said, AllocError>
    requires ready { IsReady desk.now.lobby.now pass.old }
    requires players { AreKeysOfPlayers (length desk.now.lobby.now.fixed.players) desk.now.keys.now }
    ensures ready { IsReady desk.now.lobby.now pass.new }
    ensures comes { ComesTo desk.now.lobby.now.fixed desk.now.keys.now (C.moments clock.old) (C.moments clock.new)
        pass.old pass.new head.now result }
{
    match desk.routes.route(desk.keys, head) {
        Ok(Call::Command(command)) => obey(rt, alloc, desk.lobby, pass, clock, command),
        Ok(Call::Query(query)) => tell(rt, alloc, desk.lobby, pass, clock, query),
        Err(error) => error_said(alloc, &error),
    }
}

// What is said of a command, which is given to the lobby.
fn obey<R: Wait, C: Clock>(
    rt: &R,
    alloc: Global,
    lobby: &Lobby,
    pass: &mut Pass,
    clock: &mut C,
    command: Command,
) -> Result<Said, AllocError>
    requires ready { IsReady lobby.now pass.old }
    requires player { IsPlayers (length lobby.now.fixed.players) command }
    ensures ready { IsReady lobby.now pass.new }
    ensures comes { (keys : List (List ℕ)) (request : Request) → call_of keys request ≡ Ok (call.Command command)
        → ComesTo lobby.now.fixed keys (C.moments clock.old) (C.moments clock.new) pass.old pass.new request result }
{
    laws_of_turns();
    laws_of_shown();
    let now = clock.now();
    let outcome = lobby.command(rt, pass, now, command);
    say_reply(alloc, lobby.setup(), &outcome)
}

// What is said of a question, which is given to the lobby.
fn tell<R: Wait, C: Clock>(
    rt: &R,
    alloc: Global,
    lobby: &Lobby,
    pass: &mut Pass,
    clock: &mut C,
    query: Query,
) -> Result<Said, AllocError>
    requires ready { IsReady lobby.now pass.old }
    requires player { IsQueryOf (length lobby.now.fixed.players) query }
    ensures ready { IsReady lobby.now pass.new }
    ensures comes { (keys : List (List ℕ)) (request : Request) → call_of keys request ≡ Ok (call.Query query)
        → ComesTo lobby.now.fixed keys (C.moments clock.old) (C.moments clock.new) pass.old pass.new request result }
{
    laws_of_turns();
    laws_of_shown();
    let now = clock.now();
    let outcome = lobby.query(rt, alloc, pass, now, query);
    say_answer(alloc, lobby.setup(), &query, &outcome)
}

// What is said of a command by what the lobby made of it.
fn say_reply(
    alloc: Global,
    setup: &Setup,
    outcome: &Result<Reply, ApplyFault>,
) -> Result<Said, AllocError>
    requires good { IsGood setup.now }
    requires shown { IfOk outcome.now (IsShownReply setup.now) }
    ensures { (t : ℕ) (c : Order) → IfOk result (λ x. said setup.now (deed_of_reply t c outcome.now) ≡ Some x) }
{
    match outcome {
        Ok(reply) => {
            let body = reply_body(alloc, setup, reply)?;
            Ok(well_said(body))
        }
        Err(ApplyFault::Refused(refusal)) => error_said(alloc, &ApiError::Refused(*refusal)),
        Err(ApplyFault::OutOfMemory) => Err(AllocError),
    }
}

// What is said of a question by what the lobby made of it.
fn say_answer(
    alloc: Global,
    setup: &Setup,
    query: &Query,
    outcome: &Result<Answer, QueryFault>,
) -> Result<Said, AllocError>
    requires good { IsGood setup.now }
    requires shown { IfOk outcome.now (IsShownAnswer setup.now) }
    ensures { (t : ℕ) → IfOk result (λ x. said setup.now (deed_of_answer t query.now outcome.now) ≡ Some x) }
{
    match outcome {
        Ok(answer) => {
            let body = answer_body(alloc, setup, query, answer)?;
            Ok(well_said(body))
        }
        Err(QueryFault::NoGame) => error_said(alloc, &ApiError::NoGame),
        Err(QueryFault::OutOfMemory) => Err(AllocError),
    }
}
