use hx_io::*;

#[test]
fn memory_is_read_and_written_in_pieces(rt: HostRuntime) {
    let text = b"fourteen bytes".as_slice();
    let bytes = text.to_vec(rt.alloc()).expect(&rt, "memory");
    let mut source = MemorySource::new(rt.alloc(), bytes, 3, Vec::new(rt.alloc()));
    let read = read_all(rt.alloc(), &mut source, 14).expect(&rt, "all bytes");
    drop(source);
    let mut sink = MemorySink::new(rt.alloc(), 20, 4, Vec::new(rt.alloc())).expect(&rt, "memory");
    let written = write_all(&mut sink, read.as_slice());
    drop(read);
    let is_held = sink.bytes() == text;
    drop(sink);
    assert!(rt; written == Ok(()) && is_held);
}
