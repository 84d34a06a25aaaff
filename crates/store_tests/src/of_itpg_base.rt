//! A source and a sink over std's streams.
use itpg_base::{Sink, Source, StdSink, StdSource};

#[test]
fn a_reader_is_read_to_its_end(rt: HostRuntime) {
    let mut source = StdSource::new(b"abc".as_slice());
    let mut buf = [0; 2];
    assert!(rt; source.read(&mut buf) == Ok(2));
    assert!(rt; buf == *b"ab");
    assert!(rt; source.read(&mut buf) == Ok(1));
    assert!(rt; source.read(&mut buf) == Ok(0));
}

#[test]
fn all_is_written(rt: HostRuntime) {
    let mut held = Vec::new(rt.alloc());
    let mut sink = StdSink::new(&mut held);
    assert!(rt; sink.write(b"abc").is_ok());
    assert!(rt; sink.write(b"d").is_ok());
    assert!(rt; held.as_slice() == b"abcd".as_slice());
}
