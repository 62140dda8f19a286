//! A connection, request by request.

ghost use Rattle.std.specs.Prelude.{◌≡◌, ◌+◌, ◌==◌, ◌||◌, ◌<◌, ◌≤◌, [], length};
ghost use Rattle.conn.specs.Faults.{Rose};
ghost use Rattle.conn.specs.Told.{GaveAtMost};
ghost use Rattle.http_lines.specs.Reader.{TakesAtMost};
ghost use Rattle.arena_lock.specs.Turns.{IsReady};
ghost use Rattle.arena_rules.specs.FairLaws.{IsFair};
ghost use Rattle.host.specs.Asked.{AreKeysOfPlayers};
ghost use Rattle.host.specs.Steps.{Replies, Steps, ended_behind};
ghost use Rattle.host.specs.Talk.{Completes, Talk, around};

use crate::answering::answer;
use crate::desk::Desk;
use crate::ended::Ended;
use crate::laws::laws_of_requests;
use crate::sending::{answer_fault, send};
use api::Routes;
use arena_lock::{Lobby, Pass};
use arena_rules::legal_lists_are_fair;
use conn::{Clock, Sink, Source};
use http_lines::{BODY_LIMIT, HEAD_LIMIT, Next, RequestHead, Requests, SendFault};
use setup_file::Keys;
use std::alloc::Global;
use std::sync::Wait;

/// How many requests of one connection are answered at most.
const MOST_REQUESTS: u32 = 100;

/// How many stand before the last of them.
const BEFORE_LAST: u32 = MOST_REQUESTS - 1;

// Whether nothing is read behind a request that comes behind so many others.
fn is_last(head: &RequestHead, before: u32) -> bool
    ensures { result ≡ (head.now.closes || (before == 99)) }
{
    head.closes || before == BEFORE_LAST
}

// Asks what a request comes to, and sends the response.
fn respond<R: Wait, K: Sink, C: Clock>(
    rt: &R,
    alloc: Global,
    desk: &Desk,
    pass: &mut Pass,
    sink: &mut K,
    clock: &mut C,
    head: &RequestHead,
    close: bool,
) -> Result<(), SendFault>
    requires ready { IsReady desk.now.lobby.now pass.old }
    requires players { AreKeysOfPlayers (length desk.now.lobby.now.fixed.players) desk.now.keys.now }
    ensures ready { IsReady desk.now.lobby.now pass.new }
    ensures replies { Replies desk.now.lobby.now.fixed desk.now.keys.now close head.now (C.moments clock.old) (C.moments clock.new)
        pass.old pass.new (K.held sink.old) (K.held sink.new) (K.faults sink.old) (K.faults sink.new) result }
    ensures kept { K.faults sink.old ≤ K.faults sink.new }
{
    match answer(rt, alloc, desk, pass, clock, head) {
        Ok(said) => send(alloc, sink, said, pass.seen(), close),
        Err(_) => Err(SendFault::OutOfMemory),
    }
}

// How the connection ends behind a request, if it does.
fn ended_behind(closes: bool, outcome: Result<(), SendFault>) -> Option<Ended>
    ensures { result ≡ ended_behind closes outcome }
{
    match outcome {
        Ok(()) if closes => Some(Ended::Served),
        Ok(()) => None,
        Err(SendFault::WriteFault) => Some(Ended::WriteFault),
        Err(SendFault::OutOfMemory) => Some(Ended::OutOfMemory),
    }
}

// Reads and answers what comes behind so many answered requests, and says how the connection ends, if it ends with it.
fn serve_next<R: Wait, S: Source, K: Sink, C: Clock>(
    rt: &R,
    alloc: Global,
    desk: &Desk,
    pass: &mut Pass,
    requests: &mut Requests,
    source: &mut S,
    sink: &mut K,
    clock: &mut C,
    before: u32,
) -> Option<Ended>
    requires ready { IsReady desk.now.lobby.now pass.old }
    requires players { AreKeysOfPlayers (length desk.now.lobby.now.fixed.players) desk.now.keys.now }
    requires fewer { before < MOST_REQUESTS }
    ensures ready { IsReady desk.now.lobby.now pass.new }
    ensures steps { Steps desk.now.lobby.now.fixed desk.now.keys.now before requests.old requests.new
        (around pass.old (C.moments clock.old) (S.left source.old) (S.faults source.old) (K.held sink.old) (K.faults sink.old))
        (around pass.new (C.moments clock.new) (S.left source.new) (S.faults source.new) (K.held sink.new) (K.faults sink.new)) result }
    ensures held { length requests.new ≤ HEAD_LIMIT }
    ensures taken { TakesAtMost (HEAD_LIMIT + BODY_LIMIT) requests.old requests.new (S.left source.old) (S.left source.new) }
{
    laws_of_requests();
    match requests.next(alloc, source) {
        Ok(Next::Request(head)) => {
            let close = is_last(&head, before);
            let outcome = respond(rt, alloc, desk, pass, sink, clock, &head, close);
            ended_behind(head.closes, outcome)
        }
        Ok(Next::End) => Some(Ended::Served),
        Err(fault) => Some(answer_fault(alloc, sink, pass.seen(), fault)),
    }
}

// Reads and answers requests, a hundred at most, and says how the connection ended.
fn serve_requests<R: Wait, S: Source, K: Sink, C: Clock>(
    rt: &R,
    alloc: Global,
    desk: &Desk,
    pass: &mut Pass,
    requests: &mut Requests,
    source: &mut S,
    sink: &mut K,
    clock: &mut C,
) -> Ended
    requires ready { IsReady desk.now.lobby.now pass.old }
    requires players { AreKeysOfPlayers (length desk.now.lobby.now.fixed.players) desk.now.keys.now }
    requires none { requests.old ≡ [] }
    ensures ready { IsReady desk.now.lobby.now pass.new }
    ensures talk { Talk desk.now.lobby.now.fixed desk.now.keys.now
        (around pass.old (C.moments clock.old) (S.left source.old) (S.faults source.old) (K.held sink.old) (K.faults sink.old))
        (around pass.new (C.moments clock.new) (S.left source.new) (S.faults source.new) (K.held sink.new) (K.faults sink.new)) result }
    ensures taken { GaveAtMost (S.left source.old) (S.left source.new) 1236992 }
{
    laws_of_requests();
    for before in 0..MOST_REQUESTS {
        match serve_next(rt, alloc, desk, pass, requests, source, sink, clock, before) {
            None => {}
            Some(ended) => return ended,
        }
    }
    Ended::Limit
}

// Serves one connection.
fn serve<R: Wait, S: Source, K: Sink, C: Clock>(
    rt: &R,
    alloc: Global,
    lobby: &Lobby,
    keys: &Keys,
    pass: &mut Pass,
    source: &mut S,
    sink: &mut K,
    clock: &mut C,
) -> Ended
    requires ready { IsReady lobby.now pass.old }
    requires players { AreKeysOfPlayers (length lobby.now.fixed.players) keys.now }
    ensures ready { IsReady lobby.now pass.new }
    ensures talk { Talk lobby.now.fixed keys.now
        (around pass.old (C.moments clock.old) (S.left source.old) (S.faults source.old) (K.held sink.old) (K.faults sink.old))
        (around pass.new (C.moments clock.new) (S.left source.new) (S.faults source.new) (K.held sink.new) (K.faults sink.new)) result }
    ensures taken { GaveAtMost (S.left source.old) (S.left source.new) 1236992 }
{
    laws_of_requests();
    let Ok(routes) = Routes::new(alloc) else {
        return Ended::OutOfMemory;
    };
    let Ok(mut requests) = Requests::new(alloc) else {
        return Ended::OutOfMemory;
    };
    let desk = Desk {
        lobby,
        keys,
        routes: &routes,
    };
    serve_requests(rt, alloc, &desk, pass, &mut requests, source, sink, clock)
}

/// Serves one connection on a pass of the lobby. It reads a request, finds its call, looks at the clock once and takes one turn
/// of the lobby where the request has a call, and writes the response; and so on, until the source ends, a request closes, 100 requests
/// are answered, or a fault. An error of a request is an answer like others. It may wait at the lobby.
///
/// The keys are those of players of the lobby's setup.
pub fn serve_connection<R: Wait, S: Source, K: Sink, C: Clock>(
    rt: &R,
    alloc: Global,
    lobby: &Lobby,
    keys: &Keys,
    pass: &mut Pass,
    source: &mut S,
    sink: &mut K,
    clock: &mut C,
) -> Ended
    requires ready { IsReady lobby.now pass.old }
    requires players { AreKeysOfPlayers (length lobby.now.fixed.players) keys.now }

    // The pass has seen a legal history over the lobby's setup and may take further turns. In that history nobody plays two games
    // at once, each game that ended before the close counts once, and each wave started exactly the pairs of its plan that
    // were still idle.
    ensures ready { IsReady lobby.now pass.new }
    ensures fair { IsFair lobby.now.fixed pass.new.seen }

    // Which requests were answered, with what, at which growing lengths of that history, and what was written.
    ensures talk { Talk lobby.now.fixed keys.now
        (around pass.old (C.moments clock.old) (S.left source.old) (S.faults source.old) (K.held sink.old) (K.faults sink.old))
        (around pass.new (C.moments clock.new) (S.left source.new) (S.faults source.new) (K.held sink.new) (K.faults sink.new)) result }

    // Where the source's bytes spell some requests and neither count rose, all of them were answered, and the answer is the one to
    // how they end; or memory was wanting.
    ensures complete { Completes lobby.now.fixed keys.now
        (around pass.old (C.moments clock.old) (S.left source.old) (S.faults source.old) (K.held sink.old) (K.faults sink.old))
        (around pass.new (C.moments clock.new) (S.left source.new) (S.faults source.new) (K.held sink.new) (K.faults sink.new)) result }

    // A fault comes only where that object's count of faults rose, and of the source's bytes at most so many are taken.
    ensures read_fault { result ≡ Ended.ReadFault → Rose (S.faults source.old) (S.faults source.new) }
    ensures write_fault { result ≡ Ended.WriteFault → Rose (K.faults sink.old) (K.faults sink.new) }
    ensures taken { GaveAtMost (S.left source.old) (S.left source.new) 1236992 }
{
    laws_of_requests();
    legal_lists_are_fair();
    serve(rt, alloc, lobby, keys, pass, source, sink, clock)
}
