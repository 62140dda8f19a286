//! A wave is planned by one worker while another serves a connection.

ghost use Rattle.std.specs.Prelude.{◌≡◌, ◌<◌, ◌≤◌, Some, None, All, IfOk, length, vec_len};

use super::{serve, sink};
use conn::{Door, Failed, MemClock, MemSink, MemSource, Sink};
use group_pairing::{Bench, Partners, Solve};
use pair_cost::{Candidate, Frame};
use server::{ServeEnd, Worker};
use std::alloc::{AllocError, Global};
use std::process::Abort;
use std::sync::Wait;
use std::sync::atomic::{AtomicBool, Ordering};
use std::test::Fail;
use std::thread::Threads;

/// Alice, bob and carol, for an hour.
const THREE: &str =
    r#"{"control":{"initial":180,"increment":2},"starts":0,"ends":3600000,"leaders":1,"players":[{"name":"alice","rating":2000,"key":"alicekey00000001"},{"name":"bob","rating":1900,"key":"bobkey0000000002"},{"name":"carol","rating":2100,"key":"carolkey00000003"}]}"#;

/// The journal up to the fourth entry: the wave is planned before carol enters, and commits behind it.
const FOUR_ENTRIES: &str =
    "arena 2\nrule 1\ncontrol 180 2 20000\nwindow 0 3600000\nwave 5000\nleaders 1\nplayer 2000 - alice\nplayer 1900 - bob\nplayer 2100 - carol\nbegin\n0 0 enter 0\n0 0 enter 1\n0 1 enter 2\n0 0 wave 2 0-1\n";

const ALICE_AND_BOB: &str =
    "POST /api/enter HTTP/1.1\r\nAuthorization: Bearer alicekey00000001\r\n\r\nPOST /api/enter HTTP/1.1\r\nAuthorization: Bearer bobkey0000000002\r\n\r\n";

const CAROL: &str = "POST /api/enter HTTP/1.1\r\nAuthorization: Bearer carolkey00000003\r\n\r\n";

/// What has happened so far: a plan is being made, and carol's answer is being written.
#[derive(Drop)]
struct Flags {
    planning: AtomicBool,
    answered: AtomicBool,
}

/// Looks at a flag until it is up, but not for ever.
fn wait_for(flag: &AtomicBool) {
    for _ in 0..500_000_000u32 {
        if flag.load(Ordering::SeqCst) {
            return;
        }
    }
}

/// Plans only once carol was answered.
#[derive(Drop)]
struct LateBench<'a> {
    bench: Bench,
    flags: &'a Flags,
}

impl<'a> Solve for LateBench<'a> {
    fn solve(&mut self, rows: &[Candidate], f: &Frame) -> Partners {
        self.flags.planning.store(true, Ordering::SeqCst);
        wait_for(&self.flags.answered);
        self.bench.solve(rows, f)
    }
}

/// A sink that tells when it is written to, if it has somewhere to tell it.
#[derive(Drop)]
struct TellingSink<'a> {
    inner: MemSink,
    written: Option<&'a AtomicBool>,
}

impl<'a> Sink for TellingSink<'a> {
    ghost held = { λ s. Some s.inner.held };

    ghost faults = { λ s. s.inner.faults };

    fn write(&mut self, bytes: &[u8]) -> Result<usize, Failed> {
        if let Some(written) = self.written {
            written.store(true, Ordering::SeqCst);
        }
        self.inner.write(bytes)
    }
}

/// A door with one connection, which comes only once a flag is up, if there is one.
#[derive(Drop)]
struct LateDoor<'a> {
    link: Option<(MemSource, TellingSink<'a>)>,
    after: Option<&'a AtomicBool>,
}

impl<'a> Door for LateDoor<'a> {
    type In = MemSource;

    type Out = TellingSink<'a>;

    fn next(&mut self) -> Option<(MemSource, TellingSink<'a>)> {
        if let Some(after) = self.after {
            wait_for(after);
        }
        self.link.take()
    }
}

/// A connection that brings these requests, and raises a flag when it is answered.
fn link<'a>(
    alloc: Global,
    requests: &str,
    written: Option<&'a AtomicBool>,
) -> Result<(MemSource, TellingSink<'a>), AllocError> {
    let inner = sink(alloc, &[])?;
    let bytes = Vec::from_slice(alloc, requests.as_bytes())?;
    Ok((
        MemSource::new(bytes, 4096, Vec::new(alloc)),
        TellingSink { inner, written },
    ))
}

/// A clock at moment 0 so often and then at the end of the hour.
fn clock(alloc: Global, zeros: usize) -> Result<MemClock, AllocError> {
    let mut moments = Vec::from_elem(alloc, 0, zeros)?;
    moments.push(3_600_000)?;
    Ok(MemClock::new(moments))
}

/// One solver.
fn solvers<'a>(alloc: Global, flags: &'a Flags) -> Result<Vec<LateBench<'a>>, AllocError>
    ensures one { IfOk result (λ solvers. 0 < vec_len solvers) }
{
    let bench = Bench::new(alloc)?;
    Ok(vec![in alloc; LateBench { bench, flags }]?)
}

/// A worker whose one connection brings these requests behind a flag, and raises another when it is answered; at moment 0 so often
/// and then at the end of the hour.
fn worker_with<'a>(
    alloc: Global,
    requests: &str,
    after: Option<&'a AtomicBool>,
    written: Option<&'a AtomicBool>,
    zeros: usize,
    flags: &'a Flags,
) -> Result<Worker<LateDoor<'a>, MemClock, LateBench<'a>>, AllocError>
    ensures { IfOk result (λ w. 0 < vec_len w.solvers) }
{
    let clock = clock(alloc, zeros)?;
    let link = Some(link(alloc, requests, written)?);
    let solvers = solvers(alloc, flags)?;
    Ok(Worker {
        door: LateDoor { link, after },
        clock,
        solvers,
    })
}

/// The first worker has alice and bob, and plans once carol was answered; the second has carol once the first plans.
fn two_workers<'a>(
    alloc: Global,
    flags: &'a Flags,
) -> Result<Vec<Worker<LateDoor<'a>, MemClock, LateBench<'a>>>, AllocError>
    ensures two { IfOk result (λ workers. length workers.items ≡ 2) }
    ensures solvers { IfOk result (λ workers. All (λ w. 0 < vec_len w.solvers) workers.items) }
{
    let first = worker_with(alloc, ALICE_AND_BOB, None, None, 5, flags)?;
    let after = Some(&flags.planning);
    let second = worker_with(alloc, CAROL, after, Some(&flags.answered), 1, flags)?;
    Ok(vec![in alloc; first, second]?)
}

/// The evening of three players, the journal of which begins with the four entries.
fn four_entries<R: Wait + Threads + Sync + Abort>(
    rt: &R,
    alloc: Global,
    flags: &Flags,
    journal: &mut MemSink,
    table: &mut MemSink,
) -> Result<(), AllocError> {
    let workers = two_workers(alloc, flags)?;
    let end = serve(rt, alloc, THREE, workers, journal, table)?;
    assert_eq!(rt; end, Ok(ServeEnd::Done));
    assert!(rt; journal.bytes().starts_with(FOUR_ENTRIES.as_bytes()));
    Ok(())
}

fn evening<R: Wait + Threads + Sync + Abort>(rt: &R, alloc: Global) -> Result<(), AllocError> {
    let flags = Flags {
        planning: AtomicBool::new(false),
        answered: AtomicBool::new(false),
    };
    let mut journal = sink(alloc, &[])?;
    let mut table = sink(alloc, &[])?;
    four_entries(rt, alloc, &flags, &mut journal, &mut table)
}

#[test]
fn wave_beside_enter(rt: HostRuntime) -> Result<(), Fail> {
    Ok(evening(&rt, rt.alloc())?)
}
