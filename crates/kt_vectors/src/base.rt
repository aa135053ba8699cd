//! What the outside in memory does at its edges.
use kt_base::{CallList, Clock, MemClock, MemSink, MemSource, Octets, ReadingList, Sink, Source};
use std::alloc::{AllocError, Global};

/// A source of the bytes abc, whose second call fails.
fn source(alloc: Global) -> Result<MemSource, AllocError> {
    let bytes = Octets::of(Vec::from_slice(alloc, b"abc")?);
    Ok(MemSource::of(bytes, CallList::of(vec![in alloc; 2]?)))
}

#[test]
fn a_source_gives_its_bytes_and_fails_where_it_is_told(rt: HostRuntime) {
    let mut source = source(rt.alloc()).expect(&rt, "memory");
    let mut piece = [0u8; 2];
    assert!(rt; source.take(&mut piece).ok() == Some(2) && piece == *b"ab");
    let told = [
        source.take(&mut piece).ok(),
        source.take(&mut piece).ok(),
        source.take(&mut piece).ok(),
    ];
    assert!(rt; told == [None, Some(1), Some(0)] && piece == *b"cb");
}

/// A sink with room for eight bytes, whose first call fails.
fn sink(alloc: Global) -> Result<MemSink, AllocError> {
    let mut sink = MemSink::new(alloc, CallList::of(vec![in alloc; 1]?));
    match sink.reserve(8) {
        Ok(()) => Ok(sink),
        Err(_) => Err(AllocError),
    }
}

#[test]
fn a_sink_keeps_what_was_put(rt: HostRuntime) {
    let mut sink = sink(rt.alloc()).expect(&rt, "memory");
    let told = [
        sink.put(b"lost").ok(),
        sink.put(b"kept").ok(),
        sink.put(b"too long").ok(),
        sink.put(b"room").ok(),
        sink.put(b"!").ok(),
    ];
    assert!(rt; told == [None, Some(4), None, Some(4), None]);
    assert!(rt; sink.bytes() == b"keptroom".as_slice());
}

#[test]
fn a_clock_repeats_its_last_reading(rt: HostRuntime) {
    let alloc = rt.alloc();
    let readings = vec![in alloc; 5, 3].expect(&rt, "memory");
    let mut clock = MemClock::of(ReadingList::of(readings));
    let told = [clock.now(), clock.now(), clock.now()];
    assert!(rt; told == [5, 3, 3]);
    let mut none = MemClock::of(ReadingList::of(Vec::new(alloc)));
    assert!(rt; none.now() == 0);
}
