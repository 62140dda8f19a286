//! The program: `replay` reads the journal of an arena from standard input and writes its table, `upgrade` writes the journal
//! itself in version 2, `pgn` its games in PGN, and all three write the line that says where and why it is none, or not legal.
//! `gen` writes the beginning and the end of the table of a large evening from a number. These stand in `run`, over any source and
//! any sink. `serve` hosts an evening; what is promised of it stands at `server::serve_arena`. `main` hands them the words of the
//! command line and the machine's input, output, files, port and clock.
#![tactic(auto)]

mod evening;
mod forms;
mod hosting;
mod running;
mod setup_words;
mod status;
mod telling;
mod words;

use crate::evening::evening_of;
use crate::hosting::host;
use conn::{Reading, Text, Writing};
pub use forms::Form;
pub use running::run;
pub use status::Status;
use std::process::ExitCode;
use std::rt::Env;
use std::sync::Wait;
use std::thread::Threads;
use std::{env, io};
pub use words::form;

/// The words of the command line behind the program's name. A word that is not UTF-8 is an error of the kind
/// `InvalidData`.
fn words_of<R: Env + AllocGlobal>(rt: &R) -> io::Result<Vec<Text>> {
    let mut words = Vec::new(rt.alloc());
    for word in env::args(rt)?.skip(1) {
        words.push(Text::of(word.into_bytes()))?;
    }
    Ok(words)
}

// Does what the words ask for, and gives the status with which the program ends.
fn obey<T: Threads + Wait + Sync>(rt: &HostRuntime, threads: &T, words: &[Text]) -> u8 {
    match evening_of(words) {
        Some(evening) => host(rt, threads, evening),
        None => {
            let (mut source, mut sink) = (Reading::new(rt.stdin()), Writing::new(rt.stdout()));
            run(threads, rt.alloc(), words, &mut source, &mut sink).code()
        }
    }
}

fn main(rt: HostRuntime) -> ExitCode {
    ExitCode::from(match words_of(&rt) {
        Ok(words) => obey(&rt, &rt, &words),
        // No words are none of the program's forms, and neither is a word that is no text.
        Err(fault) if fault.kind() == io::ErrorKind::InvalidData => obey(&rt, &rt, &[]),
        Err(_) => Status::OutOfMemory.code(),
    })
}

#[cfg(test)]
mod tests;
