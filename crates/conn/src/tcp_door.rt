use crate::door::Door;
use crate::reading::Reading;
use crate::writing::Writing;
use std::net::{TcpListener, TcpStream};
use std::rt::Clock;
use std::time::Duration;
use std::{io, thread};

/// How many seconds a read or a write of an accepted stream waits at most.
const TIME_OUT_SECONDS: u64 = 5;

/// How many milliseconds a door pauses that has no connection to give.
const PAUSE_MILLIS: u64 = 10;

/// A port of the machine as a door. A stream that it gives sends without delay (Nagle's algorithm, RFC 896, is off), and a
/// read or a write that waits longer than five seconds fails: a silent client is a fault like any other.
#[derive(Drop)]
pub struct TcpDoor<'r, R> {
    rt: &'r R,
    listener: TcpListener,
    time_out: Duration,
}

impl<'r, R: Clock> TcpDoor<'r, R> {
    /// The door at which this listener's connections come in. The listener no longer blocks from then on. Doors over clones
    /// of one listener share its port. Fails where the system refuses the listener's new mode.
    pub fn new(rt: &'r R, listener: TcpListener) -> io::Result<TcpDoor<'r, R>> {
        TcpDoor::with_time_out(rt, listener, Duration::from_secs(TIME_OUT_SECONDS))
    }

    fn with_time_out(
        rt: &'r R,
        listener: TcpListener,
        time_out: Duration,
    ) -> io::Result<TcpDoor<'r, R>> {
        listener.set_nonblocking(true)?;
        Ok(TcpDoor {
            rt,
            listener,
            time_out,
        })
    }

    // The stream that waits, made ready. An error where none waits, or the system refuses one of the calls.
    fn accept(&self) -> io::Result<(TcpStream, TcpStream)> {
        let (stream, _) = self.listener.accept()?;
        stream.set_nodelay(true)?;
        stream.set_read_timeout(Some(self.time_out))?;
        stream.set_write_timeout(Some(self.time_out))?;
        let twin = stream.try_clone()?;
        Ok((stream, twin))
    }
}

impl<'r, R: Clock> Door for TcpDoor<'r, R> {
    type In = Reading<TcpStream>;

    type Out = Writing<TcpStream>;

    // Where none waits, or one could not be made ready, it pauses for ten milliseconds and then says so.
    fn next(&mut self) -> Option<(Reading<TcpStream>, Writing<TcpStream>)> {
        match self.accept() {
            Ok((stream, twin)) => Some((Reading::new(stream), Writing::new(twin))),
            Err(_) => {
                thread::sleep(self.rt, Duration::from_millis(PAUSE_MILLIS));
                None
            }
        }
    }
}

#[cfg(test)]
mod tests {
    use super::*;
    use crate::{Failed, Sink, Source};
    use std::io::{Read, Write};
    use std::test::Fail;
    use std::time::Instant;

    fn can_be_sent<T: Send>(_value: &T) {}

    fn doors_can_be_sent<R: Sync>(door: &TcpDoor<'_, R>) {
        can_be_sent(door);
    }

    // A listener on a free port of this machine.
    fn listen(rt: &HostRuntime) -> io::Result<TcpListener> {
        TcpListener::bind(rt, ("127.0.0.1", 0u16))
    }

    // Asks the door until a connection comes, at most a hundred times.
    fn next_link<D: Door>(door: &mut D) -> Option<(D::In, D::Out)> {
        for _ in 0..100 {
            if let Some(link) = door.next() {
                return Some(link);
            }
        }
        None
    }

    // As `next_link`, the two handles of the stream.
    fn next_stream(door: &TcpDoor<'_, HostRuntime>) -> io::Result<(TcpStream, TcpStream)> {
        for _ in 0..100 {
            if let Ok(handles) = door.accept() {
                return Ok(handles);
            }
            thread::sleep(door.rt, Duration::from_millis(PAUSE_MILLIS));
        }
        Err(io::Error::from(io::ErrorKind::TimedOut))
    }

    // How many pieces the sink takes before it fails, of at most so many.
    fn pieces_before_failure<K: Sink>(sink: &mut K, most: u32) -> Option<u32> {
        let piece = [7u8; 65536];
        for taken in 0..most {
            if sink.write(&piece).is_err() {
                return Some(taken);
            }
        }
        None
    }

    #[test]
    fn nobody_waits_and_then_somebody_is_let_in(rt: HostRuntime) -> Result<(), Fail> {
        let listener = listen(&rt)?;
        let address = listener.local_addr()?;
        let mut door = TcpDoor::new(&rt, listener)?;
        doors_can_be_sent(&door);

        let start = Instant::now(&rt)?;
        assert!(rt; door.next().is_none());
        let waited = start.elapsed(&rt)?;
        assert!(rt; waited >= Duration::from_millis(10) && waited < Duration::from_secs(2));

        let _client = TcpStream::connect(&rt, address)?;
        let (stream, twin) = next_stream(&door)?;
        let five_seconds = Some(Duration::from_secs(5));
        for handle in [&stream, &twin] {
            assert!(rt; handle.nodelay()?);
            assert_eq!(rt; handle.read_timeout()?, five_seconds);
            assert_eq!(rt; handle.write_timeout()?, five_seconds);
        }
        Ok(())
    }

    #[test]
    fn bytes_go_both_ways_and_who_is_silent_is_a_fault(rt: HostRuntime) -> Result<(), Fail> {
        let listener = listen(&rt)?;
        let address = listener.local_addr()?;
        let mut door = TcpDoor::with_time_out(&rt, listener, Duration::from_millis(50))?;
        let mut client = TcpStream::connect(&rt, address)?;
        let Some((mut source, mut sink)) = next_link(&mut door) else {
            return Err("no connection")?;
        };
        let mut buf = [0u8; 8];
        assert_eq!(rt; client.write(b"move")?, 4);
        assert_eq!(rt; source.read(&mut buf), Ok(4));
        assert_eq!(rt; &buf, b"move\0\0\0\0");
        assert_eq!(rt; sink.write(b"answer"), Ok(6));
        assert_eq!(rt; client.read(&mut buf)?, 6);
        assert_eq!(rt; &buf, b"answer\0\0");

        // The client sends nothing more, takes nothing more, and goes.
        let start = Instant::now(&rt)?;
        assert_eq!(rt; source.read(&mut buf), Err(Failed));
        assert!(rt; start.elapsed(&rt)? >= Duration::from_millis(40));
        assert!(rt; pieces_before_failure(&mut sink, 10_000).is_some());
        assert!(rt; start.elapsed(&rt)? < Duration::from_secs(5));
        Ok(())
    }
}
