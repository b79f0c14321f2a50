// Sources and sinks over readers and writers of the standard library. No clause says which bytes these have.
use cpe_io::{Failed, Sink, SinkFault, Source, StdSink, StdSource, write_all};
use std::io::{self, Read, Write};

// Whether a read into a buffer of two bytes gives these bytes.
fn gives<S: Source>(source: &mut S, bytes: &[u8]) -> bool {
    let mut room = [b'-'; 2];
    match source.read(&mut room) {
        Ok(count) => room.get(..count) == Some(bytes),
        Err(_) => false,
    }
}

fn gives_no_more<S: Source>(source: &mut S) -> bool {
    let mut room = [b'-'; 2];
    source.read(&mut room) == Err(Failed)
}

fn takes<K: Sink>(sink: &mut K, bytes: &[u8]) -> bool {
    write_all(sink, bytes).is_ok()
}

fn takes_no_more<K: Sink>(sink: &mut K, bytes: &[u8]) -> bool {
    write_all(sink, bytes) == Err(SinkFault::Failed)
}

#[test]
fn a_reader_is_read(rt: HostRuntime) {
    let mut source = StdSource::new(b"abc".as_slice());
    assert!(rt; gives(&mut source, b"ab"));
    assert!(rt; gives(&mut source, b"c"));
    assert!(rt; gives(&mut source, b""));
}

#[test]
fn a_writer_is_written(rt: HostRuntime) {
    let mut held = Vec::new(rt.alloc());
    let mut sink = StdSink::new(&mut held);
    assert!(rt; takes(&mut sink, b"one "));
    assert!(rt; takes(&mut sink, b""));
    assert!(rt; takes(&mut sink, b"two"));
    assert!(rt; held.as_slice() == b"one two".as_slice());
}

#[test]
fn a_write_that_takes_nothing_has_failed(rt: HostRuntime) {
    let mut room = [b'-'; 2];
    let mut sink = StdSink::new(room.as_mut_slice());
    assert!(rt; takes_no_more(&mut sink, b"abc"));
    assert!(rt; takes_no_more(&mut sink, b"d"));
    assert!(rt; room == *b"ab");
}

// A stream whose reads and flushes fail, and whose writes accept all bytes.
#[derive(Drop)]
struct Stuck;

impl Read for Stuck {
    fn read(&mut self, _buf: &mut [u8]) -> io::Result<usize> {
        Err(io::Error::from(io::ErrorKind::Other))
    }
}

impl Write for Stuck {
    fn write(&mut self, buf: &[u8]) -> io::Result<usize> {
        Ok(buf.len())
    }

    fn flush(&mut self) -> io::Result<()> {
        Err(io::Error::from(io::ErrorKind::Other))
    }
}

#[test]
fn what_fails_in_std_has_failed(rt: HostRuntime) {
    assert!(rt; gives_no_more(&mut StdSource::new(Stuck)));
    assert!(rt; takes_no_more(&mut StdSink::new(Stuck), b"a"));
}
