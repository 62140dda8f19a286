ghost use Rattle.std.specs.Prelude.{None};

use crate::clock::Clock;
use std::rt;
use std::time::Instant;

/// The machine's clock: the milliseconds since an instant, as since the start of an evening. It does not tell its moments.
/// Where the machine's clock can't be read it gives its last moment again, which is 0 before the first.
#[derive(Drop)]
pub struct MachineClock<'r, R> {
    rt: &'r R,
    start: Instant,
    last: u64,
}

impl<'r, R: rt::Clock> MachineClock<'r, R> {
    /// A clock that counts from this instant. Clocks from one instant agree.
    pub fn since(rt: &'r R, start: Instant) -> MachineClock<'r, R> {
        MachineClock { rt, start, last: 0 }
    }
}

impl<'r, R: rt::Clock> Clock for MachineClock<'r, R> {
    ghost moments = { λ _. None };

    fn now(&mut self) -> u64 {
        if let Ok(passed) = self.start.elapsed(self.rt) {
            self.last = u64::try_from(passed.as_millis()).unwrap_or(self.last);
        }
        self.last
    }
}

#[cfg(test)]
mod tests {
    use super::*;
    use std::cell::Cell;
    use std::test::Fail;
    use std::time::Duration;
    use std::{io, thread};

    // Shows these microseconds one after another, and can't be read where there is no number.
    #[derive(Drop)]
    struct Shown<'a> {
        micros: &'a [Option<u64>],
        at: Cell<usize>,
    }

    impl<'a> rt::Clock for Shown<'a> {
        fn monotonic(&self) -> io::Result<Duration> {
            let at = self.at.get();
            self.at.set(at.saturating_add(1));
            match self.micros.get(at) {
                Some(Some(micros)) => Ok(Duration::from_micros(*micros)),
                _ => Err(io::Error::from(io::ErrorKind::Unsupported)),
            }
        }

        fn since_1970(&self) -> io::Result<Duration> {
            Err(io::Error::from(io::ErrorKind::Unsupported))
        }
    }

    fn can_be_sent<T: Send>(_value: &T) {}

    fn clocks_can_be_sent<R: Sync>(clock: &MachineClock<'_, R>) {
        can_be_sent(clock);
    }

    #[test]
    fn milliseconds_pass_and_the_last_stays_where_none_can_be_read(
        rt: HostRuntime,
    ) -> Result<(), Fail> {
        let shown = Shown {
            micros: &[Some(7_000), None, Some(7_999), Some(20_500), None],
            at: Cell::new(0),
        };
        let mut clock = MachineClock::since(&shown, Instant::now(&shown)?);
        for moment in [0, 0, 13, 13] {
            assert_eq!(rt; clock.now(), moment);
        }

        let mut machine = MachineClock::since(&rt, Instant::now(&rt)?);
        clocks_can_be_sent(&machine);
        let before = machine.now();
        thread::sleep(&rt, Duration::from_millis(20));
        let after = machine.now();
        assert!(rt; before < after && (20..10_000).contains(&after));
        Ok(())
    }
}
