ghost use Rattle.std.specs.Prelude.{◌≡◌, ◌<◌, ◌↔◌, ◌++◌, length, IsSome, option_to_list};

use crate::door::Door;
use crate::mem_sink::MemSink;
use crate::mem_source::MemSource;
use std::collections::VecDeque;
use std::marker::Model;

/// A door behind which connections in memory wait. Contracts see it as the list of those that it still gives.
#[derive(Debug, Drop)]
pub struct MemDoor {
    links: VecDeque<(MemSource, MemSink)>,
}

impl Model for MemDoor {
    ghost use Rattle.std.specs.Prelude.{List};
    ghost use Rattle.conn.specs.Memory.{Supply, Store};

    ghost Value = { List (Supply × Store) };

    ghost view = { λ door. door.links.items };
}

impl MemDoor {
    /// A door that gives these connections. Takes no memory.
    pub fn new(links: Vec<(MemSource, MemSink)>) -> MemDoor
        ensures { result ≡ links.items }
    {
        MemDoor {
            links: VecDeque::from(links),
        }
    }
}

impl Door for MemDoor {
    type In = MemSource;

    type Out = MemSink;

    // They come in their order, and then comes none.
    fn next(&mut self) -> Option<(MemSource, MemSink)>
        ensures first { self.old ≡ option_to_list result ++ self.new }
        ensures while_some_are_left { IsSome result ↔ (0 < length self.old) }
    {
        self.links.pop_front()
    }
}

#[cfg(test)]
mod tests {
    use super::*;
    use crate::{Sink, Source};
    use std::alloc::{AllocError, Global};
    use std::test::Fail;

    fn can_be_sent<T: Send>(_value: &T) {}

    // A connection that brings this byte.
    fn link(alloc: Global, byte: u8) -> Result<(MemSource, MemSink), AllocError> {
        let source = MemSource::new(Vec::from_elem(alloc, byte, 1)?, 1, Vec::new(alloc));
        Ok((source, MemSink::new(alloc, 1, 1, Vec::new(alloc))?))
    }

    #[test]
    fn connections_come_in_order_and_then_none(rt: HostRuntime) -> Result<(), Fail> {
        let mut links = Vec::new(rt.alloc());
        for byte in *b"ab" {
            links.push(link(rt.alloc(), byte)?)?;
        }
        let mut door = MemDoor::new(links);
        can_be_sent(&door);
        for byte in *b"ab" {
            let Some((mut source, mut sink)) = door.next() else {
                return Err("no connection")?;
            };
            let mut buf = [0u8; 1];
            assert_eq!(rt; source.read(&mut buf), Ok(1));
            assert_eq!(rt; buf, [byte]);
            assert_eq!(rt; sink.write(&buf), Ok(1));
        }
        for _ in 0..2 {
            assert!(rt; door.next().is_none());
        }
        Ok(())
    }
}
