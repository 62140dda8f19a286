//! The reader of requests.

ghost use Rattle.std.specs.Prelude.{◌≡◌, ◌+◌, ◌<◌, ◌≤◌, [], length, take, IfOk, OnOk, OnErr, Ok, Err};
ghost use Rattle.std.specs.Io.KnownBytes.{IsAtEnd};
ghost use Rattle.conn.specs.Faults.{Rose};
ghost use Rattle.http_lines.specs.declared.place.Place.TheVariants.{Before};
ghost use Rattle.http_lines.specs.HeadEnd.{head_end, found_from};
ghost use Rattle.http_lines.specs.Reader.{still_ahead, AnswersFirst, GaveNoRequest, TakesAtMost};
ghost use Rattle.http_lines.specs.Steps.{Grew, FillsTo, Skips, SkipsPart, EndsOnly, CutOrFault};

use crate::head::read_head;
use crate::place::Place;
use crate::read_ahead::ReadAhead;
use crate::request::{BODY_LIMIT, HEAD_LIMIT, Next, NextFault, RequestHead};
use conn::Source;
use std::alloc::{AllocError, Global};
use std::marker::Model;

// Where the head at the front of these bytes ends, the first of which were searched before and ended in this place.
fn search_on(bytes: &[u8], searched: usize, place: Place) -> Result<usize, Place>
    requires within { searched ≤ length bytes.now }
    requires so_far { head_end (take searched bytes.now) ≡ Err place }
    ensures { result ≡ head_end bytes.now }
{
    match place.find_end(&bytes[searched..]) {
        Ok(count) => Ok(searched + count),
        Err(place) => Err(place),
    }
}

// What it means that the bytes end in this place.
fn at_end(place: Place) -> Result<Option<usize>, NextFault>
    ensures { EndsOnly place result }
{
    match place {
        Place::Before => Ok(None),
        _ => Err(NextFault::CutOff),
    }
}

// Reads on until a whole head is held, and says how long it is; `None` where the source ended behind empty lines. The bytes
// that were searched are not searched again.
fn fill_head<S: Source>(ahead: &mut ReadAhead, source: &mut S) -> Result<Option<usize>, NextFault>
    ensures grew { Grew ahead.old ahead.new (S.left source.old) (S.left source.new) }
    ensures comes { FillsTo result ahead.new (S.left source.new) }
    ensures few { length ahead.new ≤ HEAD_LIMIT }
    ensures fault { result ≡ Err NextFault.ReadFault → Rose (S.faults source.old) (S.faults source.new) }
    ensures kept { S.faults source.old ≤ S.faults source.new }
{
    let mut place = Place::Before;
    let mut searched = 0;
    'reads: loop {
        match search_on(ahead.held(), searched, place) {
            Ok(len) => return Ok(Some(len)),
            Err(next) => place = next,
        }
        searched = ahead.held().len();
        if searched == HEAD_LIMIT {
            return Err(NextFault::HeadTooLong);
        }
        match ahead.read_more(source) {
            Ok(0) => return at_end(place),
            Ok(_) => {}
            Err(_) => return Err(NextFault::ReadFault),
        }
    }
}

// Lets go of all that is held, reads once, and says how many bytes it let go.
fn drop_held<S: Source>(ahead: &mut ReadAhead, source: &mut S) -> Result<usize, NextFault>
    ensures skips { IfOk result (λ count. (count ≡ length ahead.old) × (0 < length ahead.new)
        × Skips count ahead.old ahead.new (S.left source.old) (S.left source.new)) }
    ensures all { OnErr result ((ahead.new ≡ [])
        × Skips (length ahead.old) ahead.old ahead.new (S.left source.old) (S.left source.new)) }
    ensures cause { CutOrFault result (S.left source.new) (S.faults source.old) (S.faults source.new) }
    ensures kept { S.faults source.old ≤ S.faults source.new }
{
    let count = ahead.held().len();
    ahead.let_go(count);
    match ahead.read_more(source) {
        Ok(0) => Err(NextFault::CutOff),
        Ok(_) => Ok(count),
        Err(_) => Err(NextFault::ReadFault),
    }
}

// Reads a body of so many bytes and drops it.
fn skip_body<S: Source>(ahead: &mut ReadAhead, source: &mut S, body: usize) -> Result<(), NextFault>
    ensures skips { OnOk result (Skips body ahead.old ahead.new (S.left source.old) (S.left source.new)) }
    ensures part { OnErr result (SkipsPart body ahead.old ahead.new (S.left source.old) (S.left source.new)) }
    ensures cause { CutOrFault result (S.left source.new) (S.faults source.old) (S.faults source.new) }
    ensures few { length ahead.new ≤ HEAD_LIMIT }
    ensures kept { S.faults source.old ≤ S.faults source.new }
{
    let mut left = body;
    'reads: while ahead.held().len() < left {
        match drop_held(ahead, source) {
            Ok(count) => left -= count,
            Err(fault) => return Err(fault),
        }
    }
    ahead.let_go(left);
    Ok(())
}

// The request, once its body of so many bytes is dropped.
fn after_body<S: Source>(
    ahead: &mut ReadAhead,
    source: &mut S,
    request: RequestHead,
    body: usize,
) -> Result<Next, NextFault>
    ensures skips { IfOk result (λ next. (next ≡ Next.Request request)
        × Skips body ahead.old ahead.new (S.left source.old) (S.left source.new)) }
    ensures part { OnErr result (SkipsPart body ahead.old ahead.new (S.left source.old) (S.left source.new)) }
    ensures cause { CutOrFault result (S.left source.new) (S.faults source.old) (S.faults source.new) }
    ensures few { length ahead.new ≤ HEAD_LIMIT }
    ensures kept { S.faults source.old ≤ S.faults source.new }
{
    match skip_body(ahead, source, body) {
        Ok(()) => Ok(Next::Request(request)),
        Err(fault) => Err(fault),
    }
}

// The request of the head of this length that is held, or the first fault of it or of its body.
fn read_request<S: Source>(
    ahead: &mut ReadAhead,
    alloc: Global,
    source: &mut S,
    len: usize,
) -> Result<Next, NextFault>
    requires head { head_end ahead.old ≡ Ok len }
    requires room { length ahead.old ≤ HEAD_LIMIT }
    ensures first { AnswersFirst (still_ahead ahead.old (S.left source.old))
        (still_ahead ahead.new (S.left source.new)) result }
    ensures asks { result ≡ Ok Next.End → ⊥ }
    ensures fault { result ≡ Err NextFault.ReadFault → Rose (S.faults source.old) (S.faults source.new) }
    ensures none { result ≡ Err NextFault.ReadFault
        → GaveNoRequest ahead.old (S.left source.old) (S.left source.new) }
    ensures few { length ahead.new ≤ HEAD_LIMIT }
    ensures taken { TakesAtMost (HEAD_LIMIT + BODY_LIMIT) ahead.old ahead.new
        (S.left source.old) (S.left source.new) }
    ensures kept { S.faults source.old ≤ S.faults source.new }
{
    match read_head(alloc, &ahead.held()[..len]) {
        Ok((request, body)) => {
            ahead.let_go(len);
            after_body(ahead, source, request, body)
        }
        Err(fault) => Err(fault),
    }
}

/// Reads the requests of one connection, one after the other. Contracts see the bytes that it has read and not used yet, at
/// most 8,192.
#[derive(Debug, Drop)]
pub struct Requests {
    ahead: ReadAhead,
}

impl Model for Requests {
    ghost use Rattle.std.specs.Prelude.{ℕ, List};

    ghost Value = { List ℕ };

    ghost view = { λ requests. requests.ahead };
}

impl Requests {
    /// A reader that holds no bytes. Takes its buffer of 8,192 bytes.
    pub fn new(alloc: Global) -> Result<Requests, AllocError>
        ensures { IfOk result (λ requests. requests ≡ []) }
    {
        let ahead = ReadAhead::new(alloc)?;
        Ok(Requests { ahead })
    }

    /// Reads the next request, drops its body and keeps what follows. A head is searched and parsed once, however the source
    /// cuts it. After `End` or a fault the connection has no further request, and a call is of no use.
    pub fn next<S: Source>(&mut self, alloc: Global, source: &mut S) -> Result<Next, NextFault>
        // The answer is what the bytes held and those that the source has left come to first.
        ensures first { AnswersFirst (still_ahead self.old (S.left source.old))
            (still_ahead self.new (S.left source.new)) result }
        ensures end { result ≡ Ok Next.End → IsAtEnd (S.left source.new) }

        // A fault of the source, and what came before it.
        ensures fault { result ≡ Err NextFault.ReadFault
            → Rose (S.faults source.old) (S.faults source.new) }
        ensures no_request { result ≡ Err NextFault.ReadFault
            → GaveNoRequest self.old (S.left source.old) (S.left source.new) }

        // Whatever it answers.
        ensures held { length self.new ≤ HEAD_LIMIT }
        ensures taken { TakesAtMost (HEAD_LIMIT + BODY_LIMIT) self.old self.new
            (S.left source.old) (S.left source.new) }
        ensures kept { S.faults source.old ≤ S.faults source.new }
    {
        match fill_head(&mut self.ahead, source) {
            Ok(Some(len)) => read_request(&mut self.ahead, alloc, source, len),
            Ok(None) => Ok(Next::End),
            Err(fault) => Err(fault),
        }
    }
}
