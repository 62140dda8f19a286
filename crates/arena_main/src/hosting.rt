//! An evening hosted over the machine's files, port and clock. What is promised of an evening stands at `server::serve_arena`; no
//! contract can say what files, ports and clocks give and take, so none stands here but what that call asks for. Why an evening
//! could not start, that it has, and how it ended is said on standard error.

ghost use Rattle.std.specs.Prelude.{◌≡◌, ◌≤◌, ◌<◌, All, IfOk, length, vec_len};
ghost use Rattle.entries.specs.Ranges.{IsGood};
ghost use Rattle.host.specs.Asked.{AreKeysOfPlayers};

use crate::evening::Evening;
use crate::setup_words::SetupWords;
use crate::status::Status;
use conn::{MachineClock, Reading, TcpDoor, Writing};
use entries::Setup;
use group_pairing::Bench;
use server::{LoadFault, ServeEnd, Worker, load_setup, serve_arena};
use setup_file::Keys;
use std::alloc::AllocError;
use std::fmt::Display;
use std::fs::{File, OpenOptions};
use std::net::TcpListener;
use std::sync::Wait;
use std::thread::Threads;
use std::time::Instant;
use std::{io, thread};

/// The status with which the program ends where the setup's file holds no setup.
const BAD_SETUP: u8 = 8;

/// The status with which the program ends where a file or the port could not be had.
const NOT_HAD: u8 = 9;

/// A worker of the machine: connections of its port, its clock, and solvers over its memory.
type HostWorker<'r> = Worker<TcpDoor<'r, HostRuntime>, MachineClock<'r, HostRuntime>, Bench>;

// Says this on standard error. Where that fails there is nobody to tell.
fn say<W: Display + Drop>(rt: &HostRuntime, words: W) {
    let _ = eprintln!(rt; "arena_main: {words}");
}

// Says why there is no setup, and gives the status.
fn refuse_setup(rt: &HostRuntime, name: &str, fault: LoadFault) -> u8 {
    let status = match fault {
        LoadFault::Bad(fault) => {
            say(rt, format_args!("{name}: {}", SetupWords(fault)));
            return BAD_SETUP;
        }
        LoadFault::TooLong => Status::TooLong,
        LoadFault::ReadFault => Status::ReadFault,
        LoadFault::OutOfMemory => Status::OutOfMemory,
    };
    say(rt, format_args!("{name}: {fault}"));
    status.code()
}

// The setup and the keys of the file, or the status.
fn open_setup(rt: &HostRuntime, name: &str) -> Result<(Setup, Keys), u8>
    ensures good { IfOk result (λ read. IsGood read.0) }
    ensures players { IfOk result (λ read. AreKeysOfPlayers (length read.0.players) read.1) }
{
    let file = match File::open(rt, name) {
        Ok(file) => file,
        Err(cause) => {
            say(
                rt,
                format_args!("the setup {name} cannot be opened: {cause}"),
            );
            return Err(NOT_HAD);
        }
    };
    match load_setup(rt.alloc(), &mut Reading::new(file)) {
        Ok(read) => Ok(read),
        Err(fault) => Err(refuse_setup(rt, name, fault)),
    }
}

// The port on this machine, or the status.
fn open_port(rt: &HostRuntime, port: u16) -> Result<TcpListener, u8> {
    match TcpListener::bind(rt, ("127.0.0.1", port)) {
        Ok(listener) => Ok(listener),
        Err(cause) => {
            say(
                rt,
                format_args!("port {port} on 127.0.0.1 cannot be had: {cause}"),
            );
            Err(NOT_HAD)
        }
    }
}

// An empty file with this name, opened for writing. A file that has something in it is left as it is.
fn empty_file(rt: &HostRuntime, name: &str) -> io::Result<File> {
    let file = OpenOptions::new().write(true).create(true).open(rt, name)?;
    if file.metadata()?.len() > 0 {
        return Err(io::Error::from(io::ErrorKind::AlreadyExists));
    }
    Ok(file)
}

// The file of the journal, and a second handle of it, or the status.
fn open_journal(rt: &HostRuntime, name: &str) -> Result<(File, File), u8> {
    let handles = match empty_file(rt, name) {
        Ok(file) => file.try_clone().map(|twin| (file, twin)),
        Err(cause) => Err(cause),
    };
    handles.map_err(|cause| {
        if cause.kind() == io::ErrorKind::AlreadyExists {
            say(
                rt,
                format_args!("the journal {name} has something in it, and is not written over"),
            );
        } else {
            say(
                rt,
                format_args!("the journal {name} cannot be written: {cause}"),
            );
        }
        NOT_HAD
    })
}

// As many solvers as a worker can have work at once, where so many workers share the processors.
fn solvers_of<T: Threads>(
    rt: &HostRuntime,
    threads: &T,
    workers: u32,
) -> Result<Vec<Bench>, AllocError>
    requires { 1 ≤ workers }
    ensures { IfOk result (λ solvers. 0 < vec_len solvers) }
{
    let processors = thread::available_parallelism(threads).map_or(1, |count| count.get());
    let mut solvers = vec![in rt.alloc(); Bench::new(rt.alloc())?]?;
    'adding: for _ in 1..processors / (workers as usize) {
        solvers.push(Bench::new(rt.alloc())?)?;
    }
    Ok(solvers)
}

// A worker at a door of its own over the port.
fn worker_at<'r>(
    rt: &'r HostRuntime,
    listener: &TcpListener,
    start: Instant,
    solvers: Vec<Bench>,
) -> io::Result<HostWorker<'r>>
    requires { 0 < vec_len solvers }
    ensures { IfOk result (λ worker. 0 < vec_len worker.solvers) }
{
    Ok(Worker {
        door: TcpDoor::new(rt, listener.try_clone()?)?,
        clock: MachineClock::since(rt, start),
        solvers,
    })
}

// So many workers, 1 to 256, at the port, whose clocks agree.
fn workers_at<'r, T: Threads>(
    rt: &'r HostRuntime,
    threads: &T,
    listener: &TcpListener,
    count: u32,
) -> io::Result<Vec<HostWorker<'r>>>
    requires { (1 ≤ count) × (count ≤ 256) }
    ensures count { IfOk result (λ workers. length workers.items ≡ count) }
    ensures solvers { IfOk result (λ workers. All (λ worker. 0 < vec_len worker.solvers) workers.items) }
{
    let start = Instant::now(rt)?;
    let mut workers = Vec::new(rt.alloc());
    'making: for _ in 0..count {
        workers.push(worker_at(rt, listener, start, solvers_of(rt, threads, count)?)?)?;
    }
    Ok(workers)
}

// The same, or the status.
fn open_workers<'r, T: Threads>(
    rt: &'r HostRuntime,
    threads: &T,
    listener: &TcpListener,
    count: u32,
) -> Result<Vec<HostWorker<'r>>, u8>
    requires { (1 ≤ count) × (count ≤ 256) }
    ensures count { IfOk result (λ workers. length workers.items ≡ count) }
    ensures solvers { IfOk result (λ workers. All (λ worker. 0 < vec_len worker.solvers) workers.items) }
{
    match workers_at(rt, threads, listener, count) {
        Ok(workers) => Ok(workers),
        Err(cause) => {
            say(rt, format_args!("{count} workers cannot be made: {cause}"));
            Err(if cause.kind() == io::ErrorKind::OutOfMemory {
                Status::OutOfMemory.code()
            } else {
                NOT_HAD
            })
        }
    }
}

// Says how the evening ended, and gives the status. A journal that was written is on the disk before this says so.
fn close(rt: &HostRuntime, name: &str, journal: &File, end: ServeEnd) -> Status {
    match (end, journal.sync_all()) {
        (ServeEnd::Done, Ok(())) => {
            say(
                rt,
                format_args!("the evening is over, and {name} has its journal"),
            );
            Status::Done
        }
        (ServeEnd::OutOfMemory, _) => {
            say(
                rt,
                format_args!("there was not memory enough: the journal or the table is missing"),
            );
            Status::OutOfMemory
        }
        _ => {
            say(
                rt,
                format_args!("the journal or the table could not be written whole"),
            );
            Status::WriteFault
        }
    }
}

// The evening by these workers, from the line that says where it listens to its end.
fn run<T: Threads + Wait + Sync>(
    rt: &HostRuntime,
    threads: &T,
    evening: Evening<'_>,
    setup: Setup,
    keys: &Keys,
    workers: Vec<HostWorker<'_>>,
    journal: (File, File),
) -> Status
    requires good { IsGood setup }
    requires players { AreKeysOfPlayers (length setup.players) keys.now }
    requires some { (1 ≤ length workers.items) × (length workers.items ≤ 256) }
    requires solvers { All (λ worker. 0 < vec_len worker.solvers) workers.items }
{
    let (players, count, port) = (setup.players.items().len(), evening.workers, evening.port);
    say(
        rt,
        format_args!("listening on 127.0.0.1:{port} for {players} players, with {count} workers"),
    );
    let (journal, twin) = journal;
    let (mut journal, mut table) = (Writing::new(journal), Writing::new(rt.stdout()));
    let end = serve_arena(
        threads,
        rt.alloc(),
        setup,
        keys,
        workers,
        &mut journal,
        &mut table,
    );
    close(rt, evening.journal, &twin, end)
}

// The evening from its start to its end, or the status with which it could not start.
fn play<T: Threads + Wait + Sync>(
    rt: &HostRuntime,
    threads: &T,
    evening: Evening<'_>,
) -> Result<Status, u8>
    requires { (1 ≤ evening.workers) × (evening.workers ≤ 256) }
{
    let (setup, keys) = open_setup(rt, evening.setup)?;
    let listener = open_port(rt, evening.port)?;
    let journal = open_journal(rt, evening.journal)?;
    let workers = open_workers(rt, threads, &listener, evening.workers)?;
    Ok(run(rt, threads, evening, setup, &keys, workers, journal))
}

/// Hosts an evening until its arena is over or full, and gives the status with which the program ends: that of `Status`, or 8 where
/// the setup's file holds no setup, or 9 where a file or the port could not be had, or the journal's file has something in it.
pub fn host<T: Threads + Wait + Sync>(rt: &HostRuntime, threads: &T, evening: Evening<'_>) -> u8
    requires { (1 ≤ evening.workers) × (evening.workers ≤ 256) }
{
    match play(rt, threads, evening) {
        Ok(status) => status.code(),
        Err(code) => code,
    }
}
