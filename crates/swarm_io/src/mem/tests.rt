//! Tests of the forms that can be told to fail.
use super::*;
use crate::{ReadAllError, WriteAllError, read_all, write_all_of};
use std::test::Fail;

fn list<T: Copy>(alloc: Global, items: &[T]) -> Result<List<T>, gf16::Memory> {
    let mut list = List::new(alloc);
    list.extend_from_slice(items)?;
    Ok(list)
}

// One byte a read: five bytes are five reads, and the sixth finds the end.
#[test]
fn a_source_fails_at_each_read(rt: HostRuntime) -> Result<(), Fail> {
    let alloc = rt.alloc();
    for at in 0..6 {
        let mut source = MemSource::new(list(alloc, b"hello")?, 1, list(alloc, &[at as u64])?);
        let failed = read_all(alloc, &mut source, 5);
        assert_eq!(rt; failed.err(), Some(ReadAllError::ReadFault));
        assert_eq!(rt; source.calls.failed, 1);
        let rest = read_all(alloc, &mut source, 5)?;
        assert_eq!(rt; Some(rest.as_slice()), b"hello".get(at..));
    }
    let mut source = MemSource::new(list(alloc, b"hello")?, 1, list(alloc, &[6])?);
    let whole = read_all(alloc, &mut source, 5)?;
    assert_eq!(rt; whole.as_slice(), b"hello".as_slice());
    Ok(())
}

// One byte a write: three bytes are three writes.
#[test]
fn a_sink_fails_at_each_write(rt: HostRuntime) -> Result<(), Fail> {
    let alloc = rt.alloc();
    for at in 0..3 {
        let mut sink = MemSink::new(alloc, 1, list(alloc, &[at as u64])?);
        let failed = write_all_of(&mut sink, b"abc");
        assert_eq!(rt; failed.err(), Some(WriteAllError::WriteFault));
        assert_eq!(rt; sink.calls.failed, 1);
        assert_eq!(rt; sink.wants, 0);
        assert_eq!(rt; Some(sink.bytes()), b"abc".get(..at));
    }
    let mut sink = MemSink::new(alloc, 1, list(alloc, &[3])?);
    write_all_of(&mut sink, b"abc")?;
    assert_eq!(rt; sink.bytes(), b"abc".as_slice());
    let failed = write_all_of(&mut sink, b"d");
    assert_eq!(rt; failed.err(), Some(WriteAllError::WriteFault));
    Ok(())
}

#[test]
fn the_calls_that_are_told_fail(rt: HostRuntime) -> Result<(), Fail> {
    let alloc = rt.alloc();
    let mut source = MemSource::new(list(alloc, b"abcde")?, 2, list(alloc, &[2, 0, 2])?);
    let mut sink = MemSink::new(alloc, 2, list(alloc, &[2, 0, 2])?);
    let mut buf = [0; 5];
    for (read, written) in [
        (Err(Failed), Err(SinkRefusal::Failed)),
        (Ok(2), Ok(2)),
        (Err(Failed), Err(SinkRefusal::Failed)),
        (Ok(2), Ok(2)),
        (Ok(1), Ok(2)),
        (Ok(0), Ok(2)),
    ] {
        assert_eq!(rt; source.read(&mut buf), read);
        assert_eq!(rt; sink.write(b"xyz"), written);
    }
    assert_eq!(rt; sink.bytes(), b"xyxyxyxy".as_slice());
    Ok(())
}

#[test]
fn counts_stand_still_at_their_end(rt: HostRuntime) -> Result<(), Fail> {
    let mut calls = Calls {
        fails: list(rt.alloc(), &[u64::MAX])?,
        made: u64::MAX - 1,
        failed: u64::MAX - 1,
    };
    for (fails, failed) in [(false, u64::MAX - 1), (true, u64::MAX), (true, u64::MAX)] {
        assert_eq!(rt; calls.next_fails(), fails);
        assert_eq!(rt; calls.made, u64::MAX);
        assert_eq!(rt; calls.failed, failed);
    }
    Ok(())
}
