use crate::{
    Clock, List, MemClock, MemSink, MemSource, ReadAllFault, Reading, Sink, Source, Text, Writing,
    read_all, write_all,
};
use std::io::{Read, Write};
use std::test::Fail;

#[test]
fn bytes_come_to_their_end_in_any_pieces(rt: HostRuntime) -> Result<(), Fail> {
    let alloc = rt.alloc();
    // a limit, a piece, the call that fails, and what comes of ten bytes
    let cases = [
        (10, 1, None, Ok(())),
        (10, 3, None, Ok(())),
        (10, 100, None, Ok(())),
        (9, 3, None, Err(ReadAllFault::TooLong)),
        (0, 100, None, Err(ReadAllFault::TooLong)),
        (10, 3, Some(0), Err(ReadAllFault::ReadFault)),
        (10, 3, Some(3), Err(ReadAllFault::ReadFault)),
        // the read that would have found the end
        (10, 3, Some(4), Err(ReadAllFault::ReadFault)),
        (10, 3, Some(5), Ok(())),
    ];
    for (limit, piece, failing, want) in cases {
        let mut fail = Vec::new(alloc);
        if let Some(call) = failing {
            fail.push(call)?;
        }
        let bytes = Vec::from_slice(alloc, b"0123456789")?;
        let mut source = MemSource::new(bytes, piece, fail);
        match read_all(alloc, &mut source, limit) {
            Ok(all) => {
                assert_eq!(rt; Ok(()), want);
                assert_eq!(rt; all.as_slice(), b"0123456789".as_slice());
                assert_eq!(rt; source.rest().len(), 0);
            }
            Err(fault) => assert_eq!(rt; Err(fault), want),
        }
    }
    Ok(())
}

#[test]
fn a_long_text_comes_whole(rt: HostRuntime) -> Result<(), Fail> {
    let alloc = rt.alloc();
    let bytes = Vec::from_elem(alloc, 7u8, 1_000_000)?;
    let mut source = MemSource::new(bytes, 1_000_000, Vec::new(alloc));
    let Ok(all) = read_all(alloc, &mut source, 1_000_000) else {
        return Err("a fault")?;
    };
    assert_eq!(rt; all.len(), 1_000_000);
    Ok(())
}

#[test]
fn a_write_ends_whole_or_with_what_came_before_the_fault(rt: HostRuntime) -> Result<(), Fail> {
    let alloc = rt.alloc();
    // room, piece, the call that fails, and what the sink holds in the end
    let cases = [
        (10, 3, None, true, "0123456789"),
        (10, 100, None, true, "0123456789"),
        (9, 4, None, false, "012345678"),
        (0, 4, None, false, ""),
        (10, 3, Some(2), false, "012345"),
        (10, 3, Some(4), true, "0123456789"),
    ];
    for (room, piece, failing, whole, held) in cases {
        let mut fail = Vec::new(alloc);
        if let Some(call) = failing {
            fail.push(call)?;
        }
        let mut sink = MemSink::new(alloc, room, piece, fail)?;
        assert_eq!(rt; write_all(&mut sink, b"0123456789").is_ok(), whole);
        assert_eq!(rt; sink.bytes(), held.as_bytes());
    }
    Ok(())
}

#[test]
fn a_clock_gives_its_moments_and_then_the_last_again(rt: HostRuntime) -> Result<(), Fail> {
    let alloc = rt.alloc();
    let mut clock = MemClock::new(Vec::from_slice(alloc, [5, 9].as_slice())?);
    for moment in [5, 9, 9] {
        assert_eq!(rt; clock.now(), moment);
    }
    let mut silent = MemClock::new(Vec::new(alloc));
    assert_eq!(rt; silent.now(), 0);
    Ok(())
}

fn can_be_sent<T: Send>(_value: &T) {}

// Each type of this crate can be sent between threads where its parts can.
fn all_can_be_sent<T: Send, R: Read + Send, W: Write + Send>(
    list: &List<T>,
    text: &Text,
    source: &MemSource,
    sink: &MemSink,
    reading: &Reading<R>,
    writing: &Writing<W>,
    clock: &MemClock,
) {
    can_be_sent(list);
    can_be_sent(text);
    can_be_sent(source);
    can_be_sent(sink);
    can_be_sent(reading);
    can_be_sent(writing);
    can_be_sent(clock);
}

#[test]
fn what_this_crate_makes_can_be_sent(rt: HostRuntime) -> Result<(), Fail> {
    let alloc = rt.alloc();
    let list = List::of(Vec::from_slice(alloc, [1, 2].as_slice())?);
    let text = Text::of(Vec::from_slice(alloc, b"text")?);
    let source = MemSource::new(Vec::new(alloc), 1, Vec::new(alloc));
    let sink = MemSink::new(alloc, 0, 1, Vec::new(alloc))?;
    let (reading, writing) = (Reading::new(rt.stdin()), Writing::new(rt.stdout()));
    let clock = MemClock::new(Vec::new(alloc));
    all_can_be_sent(&list, &text, &source, &sink, &reading, &writing, &clock);
    assert_eq!(rt; list.into_vec().as_slice(), [1, 2].as_slice());
    assert_eq!(rt; text.bytes(), b"text".as_slice());
    Ok(())
}
