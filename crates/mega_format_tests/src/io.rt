//! Sources and sinks in memory, a buffer before a sink, and the edges of the system.
use crate::asserted::same;
use mega_io::{
    Failed, MemSink, MemSource, Sink, SinkError, Source, StdSink, StdSource, WriteBuffer, put,
};

fn read_some<S: Source>(source: &mut S) -> Option<(usize, [u8; 4])> {
    let mut into = [0u8; 4];
    match source.read(&mut into) {
        Ok(count) => Some((count, into)),
        Err(Failed) => None,
    }
}

#[test]
fn a_source_in_memory_gives_its_bytes_and_fails_where_named(rt: HostRuntime) {
    let bytes = vec![in rt.alloc(); 1, 2, 3, 4, 5].expect(&rt, "refused");
    let fails = vec![in rt.alloc(); 2].expect(&rt, "refused");
    let mut source = MemSource::new(bytes, fails);
    same(&rt, read_some(&mut source), Some((4, [1, 2, 3, 4])));
    same(&rt, read_some(&mut source), None);
    same(&rt, read_some(&mut source), Some((1, [5, 0, 0, 0])));
    same(&rt, read_some(&mut source), Some((0, [0, 0, 0, 0])));
}

#[test]
fn a_buffer_writes_on_when_flushed(rt: HostRuntime) {
    let fails = vec![in rt.alloc(); 2].expect(&rt, "refused");
    let mut sink = MemSink::new(rt.alloc(), fails);
    let mut buffer = WriteBuffer::new(rt.alloc());
    buffer.put(&mut sink, b"ab").expect(&rt, "refused");
    buffer.flush(&mut sink).expect(&rt, "refused");
    buffer.put(&mut sink, b"cd").expect(&rt, "refused");
    same(&rt, buffer.flush(&mut sink).err(), Some(SinkError::Failed));
    buffer.flush(&mut sink).expect(&rt, "refused");
    same(&rt, sink.bytes(), b"abcd".as_slice());
}

#[test]
fn the_edges_pass_on_what_the_system_gives_and_takes(rt: HostRuntime) {
    let bytes = [7u8, 8, 9];
    let mut source = StdSource::new(bytes.as_slice());
    same(&rt, read_some(&mut source), Some((3, [7, 8, 9, 0])));
    let written: Vec<u8> = Vec::new(rt.alloc());
    let mut sink = StdSink::new(written);
    put(&mut sink, b"xyz").expect(&rt, "refused");
}
