//! The outside: texts, lists, clocks, doors, and where bytes come from and go to, with forms of these in memory and adapters
//! over the readers and writers of the standard library (standard input and output, files, streams), over a port and over the
//! machine's clock. The layers above rely on three things: the bytes that a source gives and a sink takes, where these are
//! told; that `Failed` comes only where the object's own count of faults rose or stands at its last value; the moments that a
//! clock gives, where it tells them. Of a door they rely on nothing.
#![tactic(auto)]

mod clock;
mod door;
mod list;
mod machine_clock;
mod mem_door;
mod mem_sink;
mod mem_source;
mod read_whole;
mod reading;
mod source;
mod tcp_door;
mod text;
mod write_whole;
mod writing;

pub use clock::{Clock, MemClock};
pub use door::Door;
pub use list::List;
pub use machine_clock::MachineClock;
pub use mem_door::MemDoor;
pub use mem_sink::MemSink;
pub use mem_source::MemSource;
pub use read_whole::{ReadAllFault, read_all};
pub use reading::Reading;
pub use source::{Failed, Sink, Source};
pub use tcp_door::TcpDoor;
pub use text::Text;
pub use write_whole::write_all;
pub use writing::Writing;

#[cfg(test)]
mod file_tests;
#[cfg(test)]
mod tests;
