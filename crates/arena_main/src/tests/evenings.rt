//! Whole evenings, and the test that workers work beside each other.

ghost use Rattle.std.specs.Prelude.{◌≡◌, ◌≤◌, ◌<◌, All, IfOk, length, vec_len};

mod beside;

use conn::{Door, MemClock, MemDoor, MemSink, MemSource};
use group_pairing::{Bench, Solve};
use server::{LoadFault, ServeEnd, Worker, load_setup, serve_arena};
use setup_file::{Member, SetupCause, SetupFault};
use std::alloc::{AllocError, Global};
use std::process::Abort;
use std::sync::Wait;
use std::test::Fail;
use std::thread::Threads;

/// Alice and bob, for an hour.
const TWO: &str =
    r#"{"control":{"initial":180,"increment":2},"starts":0,"ends":3600000,"leaders":1,"players":[{"name":"alice","rating":2000,"key":"alicekey00000001"},{"name":"bob","rating":1900,"key":"bobkey0000000002"}]}"#;

/// The journal of their evening if nobody comes.
const TWO_JOURNAL: &str =
    "arena 2\nrule 1\ncontrol 180 2 20000\nwindow 0 3600000\nwave 5000\nleaders 1\nplayer 2000 - alice\nplayer 1900 - bob\nbegin\nend\n";

/// The same with a rating that is out of its range.
const RATED: &str =
    r#"{"control":{"initial":180,"increment":2},"starts":0,"ends":3600000,"leaders":1,"players":[{"name":"alice","rating":5000,"key":"alicekey00000001"},{"name":"bob","rating":1900,"key":"bobkey0000000002"}]}"#;

/// A source of these bytes, one at each read, of which those with these numbers fail.
fn slow(alloc: Global, bytes: &[u8], fail: &[u64]) -> Result<MemSource, AllocError> {
    let fails = Vec::from_slice(alloc, fail)?;
    let copy = Vec::from_slice(alloc, bytes)?;
    Ok(MemSource::new(copy, 1, fails))
}

/// A file of these bytes holds a setup, or has this fault.
fn comes_to<R: Abort>(
    rt: &R,
    alloc: Global,
    bytes: &[u8],
    fail: &[u64],
    fault: Option<LoadFault>,
) -> Result<(), AllocError> {
    let mut source = slow(alloc, bytes, fail)?;
    assert_eq!(rt; load_setup(alloc, &mut source).err(), fault);
    Ok(())
}

fn bad(member: Member, cause: SetupCause) -> Option<LoadFault> {
    Some(LoadFault::Bad(SetupFault {
        member,
        index: 0,
        cause,
    }))
}

/// A file of a million bytes and one more.
fn too_long<R: Abort>(rt: &R, alloc: Global) -> Result<(), AllocError> {
    let spaces = Vec::from_elem(alloc, b' ', 1_000_001)?;
    comes_to(rt, alloc, &spaces, &[], Some(LoadFault::TooLong))
}

fn files<R: Abort>(rt: &R, alloc: Global) -> Result<(), AllocError> {
    let range = bad(Member::Rating, SetupCause::Range);
    let not_json = bad(Member::Whole, SetupCause::NotJson);
    let read_fault = Some(LoadFault::ReadFault);
    comes_to(rt, alloc, TWO.as_bytes(), &[], None)?;
    comes_to(rt, alloc, RATED.as_bytes(), &[], range)?;
    comes_to(rt, alloc, b"{", &[], not_json)?;
    too_long(rt, alloc)?;
    comes_to(rt, alloc, TWO.as_bytes(), &[9], read_fault)
}

#[test]
fn a_file_holds_a_setup_or_names_its_fault(rt: HostRuntime) -> Result<(), Fail> {
    Ok(files(&rt, rt.alloc())?)
}

/// An empty sink with room for a journal or a table, whose calls with these numbers fail.
fn sink(alloc: Global, fail: &[u64]) -> Result<MemSink, AllocError> {
    MemSink::new(alloc, 4096, 7, Vec::from_slice(alloc, fail)?)
}

/// Serves the evening of a source's setup, and writes to these sinks.
fn serve_source<R: Wait + Threads + Sync, D: Door + Send + Drop, V: Solve + Send + Drop>(
    rt: &R,
    alloc: Global,
    source: &mut MemSource,
    workers: Vec<Worker<D, MemClock, V>>,
    journal: &mut MemSink,
    table: &mut MemSink,
) -> Result<ServeEnd, LoadFault>
    requires some { (1 ≤ length workers.items) × (length workers.items ≤ 256) }
    requires solvers { All (λ w. 0 < vec_len w.solvers) workers.items }
{
    match load_setup(alloc, source) {
        Ok((setup, keys)) => Ok(serve_arena(rt, alloc, setup, &keys, workers, journal, table)),
        Err(fault) => Err(fault),
    }
}

/// Serves the evening of a file, and writes to these sinks.
fn serve<R: Wait + Threads + Sync, D: Door + Send + Drop, V: Solve + Send + Drop>(
    rt: &R,
    alloc: Global,
    file: &str,
    workers: Vec<Worker<D, MemClock, V>>,
    journal: &mut MemSink,
    table: &mut MemSink,
) -> Result<Result<ServeEnd, LoadFault>, AllocError>
    requires some { (1 ≤ length workers.items) × (length workers.items ≤ 256) }
    requires solvers { All (λ w. 0 < vec_len w.solvers) workers.items }
{
    let mut source = slow(alloc, file.as_bytes(), &[])?;
    Ok(serve_source(rt, alloc, &mut source, workers, journal, table))
}

/// One solver.
fn solvers(alloc: Global) -> Result<Vec<Bench>, AllocError>
    ensures one { IfOk result (λ solvers. 0 < vec_len solvers) }
{
    Ok(vec![in alloc; Bench::new(alloc)?]?)
}

/// One worker to whom nobody comes, and whose clock stands at the end of the hour.
fn idle_worker(alloc: Global) -> Result<Vec<Worker<MemDoor, MemClock, Bench>>, AllocError>
    ensures one { IfOk result (λ workers. length workers.items ≡ 1) }
    ensures solver { IfOk result (λ workers. All (λ w. 0 < vec_len w.solvers) workers.items) }
{
    let moments = vec![in alloc; 3_600_000]?;
    let worker = Worker {
        solvers: solvers(alloc)?,
        door: MemDoor::new(Vec::new(alloc)),
        clock: MemClock::new(moments),
    };
    Ok(vec![in alloc; worker]?)
}

/// An evening to which nobody comes ends like this, with its journal and as much of its table as the sink takes.
fn nobody_comes<R: Wait + Threads + Sync + Abort>(
    rt: &R,
    alloc: Global,
    journal: &mut MemSink,
    table: &mut MemSink,
    end: ServeEnd,
) -> Result<(), AllocError> {
    let workers = idle_worker(alloc)?;
    let ended = serve(rt, alloc, TWO, workers, journal, table)?;
    assert_eq!(rt; ended, Ok(end));
    assert!(rt; journal.bytes() == TWO_JOURNAL.as_bytes());
    assert!(rt; b"games 0 entries 0\n".starts_with(table.bytes()));
    Ok(())
}

/// The same with a table of which these writes fail.
fn nobody_comes_with<R: Wait + Threads + Sync + Abort>(
    rt: &R,
    alloc: Global,
    fail: &[u64],
    end: ServeEnd,
) -> Result<(), AllocError> {
    let mut journal = sink(alloc, &[])?;
    let mut table = sink(alloc, fail)?;
    nobody_comes(rt, alloc, &mut journal, &mut table, end)
}

fn evenings<R: Wait + Threads + Sync + Abort>(rt: &R, alloc: Global) -> Result<(), AllocError> {
    nobody_comes_with(rt, alloc, &[], ServeEnd::Done)?;
    nobody_comes_with(rt, alloc, &[1], ServeEnd::WriteFault)
}

#[test]
fn an_evening_to_which_nobody_comes_is_written(rt: HostRuntime) -> Result<(), Fail> {
    Ok(evenings(&rt, rt.alloc())?)
}
