ghost use Rattle.std.specs.Prelude.{◌≡◌};

use crate::source::{Failed, Source};
use std::io::Read;

/// A reader of the standard library as a source: standard input, a file, a stream. It tells its bytes where the reader
/// does, and counts a fault at each error of the reader.
#[derive(Debug, Drop)]
pub struct Reading<R> {
    inner: R,
    faults: u64,
}

impl<R: Read> Reading<R> {
    /// A source over this reader, with no fault so far.
    pub fn new(inner: R) -> Reading<R>
        ensures left { ⟦<Reading<R> as Source>⟧.left result ≡ R.remaining inner }
        ensures faults { ⟦<Reading<R> as Source>⟧.faults result ≡ 0 }
    {
        Reading { inner, faults: 0 }
    }
}

impl<R: Read> Source for Reading<R> {
    ghost left = { λ s. R.remaining s.inner };

    ghost faults = { λ s. s.faults };

    fn read(&mut self, buf: &mut [u8]) -> Result<usize, Failed> {
        match self.inner.read(buf) {
            Ok(count) => Ok(count),
            Err(_) => {
                self.faults = self.faults.saturating_add(1);
                Err(Failed)
            }
        }
    }
}

#[cfg(test)]
mod tests {
    use super::*;
    use std::io;

    // Gives one byte, then an error, then the end.
    #[derive(Drop)]
    struct Shaky {
        calls: u8,
    }

    impl Read for Shaky {
        fn read(&mut self, buf: &mut [u8]) -> io::Result<usize> {
            self.calls = self.calls.saturating_add(1);
            match self.calls {
                1 if !buf.is_empty() => {
                    buf[0] = b'x';
                    Ok(1)
                }
                2 => Err(io::Error::from(io::ErrorKind::ConnectionReset)),
                _ => Ok(0),
            }
        }
    }

    #[test]
    fn an_error_of_the_reader_is_a_fault_that_is_counted(rt: HostRuntime) {
        let mut source = Reading::new(Shaky { calls: 0 });
        let mut buf = [0u8; 4];
        for (answer, faults) in [(Ok(1), 0), (Err(Failed), 1), (Ok(0), 1)] {
            assert_eq!(rt; source.read(&mut buf), answer);
            assert_eq!(rt; source.faults, faults);
        }
        assert_eq!(rt; buf[0], b'x');
    }
}
