//! A source that never ends, of which no journal is made.

ghost use Rattle.std.specs.Prelude.{None};

use crate::{ReplayEnd, replay};
use conn::{Failed, MemSink, Source};
use std::test::Fail;

// Has as many bytes as are asked for, whichever the buffer holds.
#[derive(Drop)]
struct Endless;

impl Source for Endless {
    ghost left = { λ _. None };

    ghost faults = { λ _. 0 };

    fn read(&mut self, buf: &mut [u8]) -> Result<usize, Failed> {
        Ok(buf.len())
    }
}

#[test]
fn what_does_not_end_is_too_long(rt: HostRuntime) -> Result<(), Fail> {
    let mut sink = MemSink::new(rt.alloc(), 100, 50, Vec::new(rt.alloc()))?;
    let end = replay(&rt, rt.alloc(), &mut Endless, &mut sink);
    assert_eq!(rt; end, ReplayEnd::TooLong);
    assert!(rt; sink.bytes().is_empty());
    Ok(())
}
