ghost use Rattle.std.specs.Prelude.{◌≡◌, None};

use crate::source::{Failed, Sink};
use std::io::Write;

/// A writer of the standard library as a sink: standard output, a file, a stream. It does not tell what it holds. It counts
/// a fault at each error of the writer, and where a write took nothing of a piece that is not empty.
#[derive(Debug, Drop)]
pub struct Writing<W> {
    inner: W,
    faults: u64,
}

impl<W: Write> Writing<W> {
    /// A sink over this writer, with no fault so far.
    pub fn new(inner: W) -> Writing<W>
        ensures { ⟦<Writing<W> as Sink>⟧.faults result ≡ 0 }
    {
        Writing { inner, faults: 0 }
    }
}

impl<W: Write> Sink for Writing<W> {
    ghost held = { λ _. None };

    ghost faults = { λ s. s.faults };

    fn write(&mut self, bytes: &[u8]) -> Result<usize, Failed> {
        match self.inner.write(bytes) {
            Ok(count) if count > 0 || bytes.is_empty() => Ok(count),
            _ => {
                self.faults = self.faults.saturating_add(1);
                Err(Failed)
            }
        }
    }
}

#[cfg(test)]
mod tests {
    use super::*;
    use std::io;

    // Takes one byte, then nothing, then answers an error.
    #[derive(Drop)]
    struct Shaky {
        calls: u8,
        last: u8,
    }

    impl Write for Shaky {
        fn write(&mut self, bytes: &[u8]) -> io::Result<usize> {
            self.calls = self.calls.saturating_add(1);
            match self.calls {
                1 if !bytes.is_empty() => {
                    self.last = bytes[0];
                    Ok(1)
                }
                2 => Ok(0),
                _ => Err(io::Error::from(io::ErrorKind::BrokenPipe)),
            }
        }

        fn flush(&mut self) -> io::Result<()> {
            Ok(())
        }
    }

    #[test]
    fn an_error_and_a_write_that_took_nothing_are_faults_that_are_counted(rt: HostRuntime) {
        let mut sink = Writing::new(Shaky { calls: 0, last: 0 });
        for (answer, faults) in [(Ok(1), 0), (Err(Failed), 1), (Err(Failed), 2)] {
            assert_eq!(rt; sink.write(b"xy"), answer);
            assert_eq!(rt; sink.faults, faults);
        }
        assert_eq!(rt; sink.inner.last, b'x');
    }
}
