//! Tests of the forms over std.
use super::*;
use crate::{ReadAllError, WriteAllError, read_all, write_all_of};
use std::io;
use std::io::ErrorKind;
use std::test::Fail;

// Gives one byte a call, and fails once `good` are given.
#[derive(Drop)]
struct Broken {
    good: u8,
}

impl Read for Broken {
    fn read(&mut self, buf: &mut [u8]) -> io::Result<usize> {
        match (self.good, buf) {
            (1.., [first, ..]) => {
                *first = b'x';
                self.good -= 1;
                Ok(1)
            }
            _ => Err(ErrorKind::BrokenPipe.into()),
        }
    }
}

// What a writer does at its second call.
#[derive(Clone, Copy)]
enum Second {
    WriteFails,
    TakesNothing,
    FlushFails,
}

// Takes one byte a call; the second call goes wrong.
#[derive(Drop)]
struct Stubborn {
    calls: u8,
    second: Second,
}

impl Write for Stubborn {
    fn write(&mut self, buf: &[u8]) -> io::Result<usize> {
        self.calls = self.calls.saturating_add(1);
        match self.second {
            Second::WriteFails if self.calls == 2 => Err(ErrorKind::BrokenPipe.into()),
            Second::TakesNothing if self.calls == 2 => Ok(0),
            _ => Ok(buf.len().min(1)),
        }
    }

    fn flush(&mut self) -> io::Result<()> {
        match self.second {
            Second::FlushFails if self.calls == 2 => Err(ErrorKind::BrokenPipe.into()),
            _ => Ok(()),
        }
    }
}

#[test]
fn reads_all_of_a_reader(rt: HostRuntime) -> Result<(), Fail> {
    let mut source = StdSource::new(b"abc".as_slice());
    let read = read_all(rt.alloc(), &mut source, 3)?;
    assert_eq!(rt; read.as_slice(), b"abc".as_slice());
    assert_eq!(rt; source.faults, 0);
    Ok(())
}

#[test]
fn a_failing_reader_is_a_fault(rt: HostRuntime) {
    let mut source = StdSource::new(Broken { good: 2 });
    let read = read_all(rt.alloc(), &mut source, 9);
    assert_eq!(rt; read.err(), Some(ReadAllError::ReadFault));
    assert_eq!(rt; source.faults, 1);
}

#[test]
fn writes_all_to_a_writer(rt: HostRuntime) -> Result<(), Fail> {
    let mut held = Vec::new(rt.alloc());
    let mut sink = StdSink::new(&mut held);
    write_all_of(&mut sink, b"abc")?;
    assert_eq!(rt; sink.faults, 0);
    assert_eq!(rt; held.as_slice(), b"abc".as_slice());
    Ok(())
}

#[test]
fn a_failing_writer_is_a_fault(rt: HostRuntime) {
    for second in [Second::WriteFails, Second::TakesNothing, Second::FlushFails] {
        let mut sink = StdSink::new(Stubborn { calls: 0, second });
        let written = write_all_of(&mut sink, b"abc");
        assert_eq!(rt; written.err(), Some(WriteAllError::WriteFault));
        assert_eq!(rt; sink.faults, 1);
    }
}
