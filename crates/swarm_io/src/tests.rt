//! Tests of whole reads and writes, and of the steady forms.
ghost use Rattle.std.specs.Prelude.{None};

use super::*;
use linear_spec::List;
use std::test::Fail;

// A source that tells no bytes and never ends.
#[derive(Drop)]
struct Endless {
    given: u64,
}

impl Source for Endless {
    ghost remaining = { λ _. None };

    ghost faults = { λ _. 0 };

    fn read(&mut self, buf: &mut [u8]) -> Result<usize, Failed> {
        self.given = self.given.saturating_add(buf.len() as u64);
        Ok(buf.len())
    }
}

// Takes one byte a write while there is room, and then refuses.
#[derive(Drop)]
struct Refusing {
    room: usize,
    refusal: SinkRefusal,
    faults: u64,
    wants: u64,
}

impl Sink for Refusing {
    ghost contents = { λ _. None };

    ghost faults = { λ s. s.faults };

    ghost wants = { λ s. s.wants };

    fn write(&mut self, _piece: &[u8]) -> Result<usize, SinkRefusal> {
        if self.room > 0 {
            self.room -= 1;
            return Ok(1);
        }
        match self.refusal {
            SinkRefusal::Failed => self.faults = self.faults.saturating_add(1),
            SinkRefusal::Memory => self.wants = self.wants.saturating_add(1),
        }
        Err(self.refusal)
    }
}

#[test]
fn a_refusal_is_counted_once(rt: HostRuntime) {
    for (refusal, error, faults, wants) in [
        (SinkRefusal::Failed, WriteAllError::WriteFault, 1, 0),
        (SinkRefusal::Memory, WriteAllError::Memory, 0, 1),
    ] {
        let mut sink = Refusing {
            room: 1,
            refusal,
            faults: 0,
            wants: 0,
        };
        let written = write_all_of(&mut sink, b"abc");
        assert_eq!(rt; written.err(), Some(error));
        assert_eq!(rt; sink.faults, faults);
        assert_eq!(rt; sink.wants, wants);
    }
}

#[test]
fn reads_up_to_the_limit(rt: HostRuntime) -> Result<(), Fail> {
    for (limit, whole) in [(5, true), (6, true), (4, false), (0, false)] {
        let mut bytes = List::new(rt.alloc());
        bytes.extend_from_slice(b"hello")?;
        let mut source = SteadySource::new(bytes, 2);
        match read_all(rt.alloc(), &mut source, limit) {
            Ok(read) => {
                assert!(rt; whole, "at {limit}");
                assert_eq!(rt; read.as_slice(), b"hello".as_slice());
            }
            Err(error) => {
                assert!(rt; !whole, "at {limit}");
                assert_eq!(rt; error, ReadAllError::TooLarge);
            }
        }
    }
    Ok(())
}

#[test]
fn takes_one_byte_more_than_the_limit(rt: HostRuntime) -> Result<(), Fail> {
    let mut source = Endless { given: 0 };
    let read = read_all(rt.alloc(), &mut source, 67_108_864);
    assert_eq!(rt; read.err(), Some(ReadAllError::TooLarge));
    assert_eq!(rt; source.given, 67_108_865);
    Ok(())
}

#[test]
fn writes_piece_by_piece(rt: HostRuntime) -> Result<(), Fail> {
    let mut sink = SteadySink::new(rt.alloc(), 1);
    write_all_of(&mut sink, b"abc")?;
    write_all_of(&mut sink, b"")?;
    assert_eq!(rt; sink.bytes(), b"abc".as_slice());
    Ok(())
}

#[test]
fn steady_forms_move_at_most_their_piece(rt: HostRuntime) -> Result<(), Fail> {
    let mut bytes = List::new(rt.alloc());
    bytes.extend_from_slice(b"abcde")?;
    let mut source = SteadySource::new(bytes, 2);
    let mut buf = [0; 5];
    assert_eq!(rt; source.read(&mut buf), Ok(2));
    let mut sink = SteadySink::new(rt.alloc(), 2);
    assert_eq!(rt; sink.write(b"abcde"), Ok(2));
    assert_eq!(rt; sink.bytes(), b"ab".as_slice());
    Ok(())
}
