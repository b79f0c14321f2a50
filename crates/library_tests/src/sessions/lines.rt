// A reader of lines over bytes in memory.
use cpe_io::{Found, LineReader, MemSource, Source};
use std::alloc::Global;

// Whether the reader finds this line, and the next read then gives this number of bytes.
fn finds(reader: &mut LineReader, source: &mut MemSource, line: &[u8], left: usize) -> bool {
    reader.find_line(source) == Ok(Found::Text)
        && reader.text() == line
        && source.read(&mut [0; 8]) == Ok(left)
}

fn finds_first(alloc: Global, source: &mut MemSource) -> bool {
    match LineReader::new(alloc, 100) {
        Ok(mut reader) => finds(&mut reader, source, b"a", 3),
        Err(_) => false,
    }
}

#[test]
fn a_line_is_found_before_more_is_read(rt: HostRuntime) {
    let is_so = match MemSource::new(rt.alloc(), b"a\nb\nc", &[2, 8], &[]) {
        Ok(mut source) => finds_first(rt.alloc(), &mut source),
        Err(_) => false,
    };
    assert!(rt; is_so);
}
