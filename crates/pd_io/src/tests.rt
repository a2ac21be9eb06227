use crate::{
    Failed, MemSink, MemSource, PutFault, Sink, Source, StdSink, StdSource, SureSink, SureSource,
};
use std::alloc::Global;
use std::process::Abort;
use std::test::Fail;

// Takes once through the bound, and says what was given.
fn take_once<S: Source>(rt: &impl Abort, source: &mut S, wanted: &[u8]) {
    let mut buf = [0u8; 4];
    match source.take(&mut buf) {
        Ok(count) => assert_eq!(rt; &buf[..count], wanted),
        Err(_) => assert!(rt; false, "the source failed"),
    }
}

#[test]
fn a_source_gives_pieces_and_fails_where_listed(rt: HostRuntime) -> Result<(), Fail> {
    let alloc = rt.alloc();
    let mut source = MemSource::new(b"abcde".to_vec(alloc)?, 3, vec![in alloc; 2u32]?);
    let mut buf = [0u8; 2];
    take_once(&rt, &mut source, b"abc");
    assert_eq!(rt; source.take(&mut buf), Err(Failed));
    assert_eq!(rt; source.take(&mut buf), Ok(2));
    assert_eq!(rt; &buf, b"de");
    assert_eq!(rt; source.take(&mut buf), Ok(0));
    let mut sure = SureSource::new(b"abcde".to_vec(alloc)?);
    take_once(&rt, &mut sure, b"abcd");
    take_once(&rt, &mut sure, b"e");
    take_once(&rt, &mut sure, b"");
    Ok(())
}

// Puts once through the bound.
fn put_once<K: Sink>(sink: &mut K, bytes: &[u8]) -> Result<usize, PutFault> {
    if bytes.is_empty() {
        return Ok(0);
    }
    sink.put(bytes)
}

#[test]
fn a_sink_takes_pieces_and_fails_where_listed(rt: HostRuntime) -> Result<(), Fail> {
    let alloc = rt.alloc();
    let mut sink = MemSink::new(alloc, 2, vec![in alloc; 1u32]?);
    assert_eq!(rt; put_once(&mut sink, b"abc"), Err(PutFault::Failed));
    assert_eq!(rt; put_once(&mut sink, b"abc"), Ok(2));
    assert_eq!(rt; put_once(&mut sink, b"c"), Ok(1));
    assert_eq!(rt; sink.bytes(), b"abc".as_slice());
    let mut sure = SureSink::new(alloc);
    assert_eq!(rt; put_once(&mut sure, b"abc"), Ok(3));
    assert_eq!(rt; sure.bytes(), b"abc".as_slice());
    Ok(())
}

#[test]
fn adapters_pass_on_what_a_reader_gives_and_a_writer_takes(rt: HostRuntime) -> Result<(), Fail> {
    let text = b"abcdef";
    let mut source = StdSource::new(text.as_slice());
    take_once(&rt, &mut source, b"abcd");
    take_once(&rt, &mut source, b"ef");
    take_once(&rt, &mut source, b"");
    let mut room = [0u8; 3];
    let mut sink = StdSink::new(room.as_mut_slice());
    assert_eq!(rt; put_once(&mut sink, b"ab"), Ok(2));
    assert_eq!(rt; put_once(&mut sink, b"cd"), Ok(1));
    // The slice is full, and a writer that takes nothing has failed.
    assert_eq!(rt; put_once(&mut sink, b"d"), Err(PutFault::Failed));
    Ok(())
}
