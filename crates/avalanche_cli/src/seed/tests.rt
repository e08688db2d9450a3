//! Seeded streams: their lengths, tickets and refusals.
ghost use Rattle.std.specs.Prelude.{◌≡◌};

use super::*;
use crate::tests::ABC_STREAM;
use std::test::Fail;
use swarm_io::{MemSink, MemSource};

/// The words of a seed with no checks, for peer 1 with the key number 1.
fn words_of(k: u16, block: u16) -> SeedWords
    ensures k { result.k ≡ k }
    ensures block { result.block ≡ block }
    ensures checks { result.checks ≡ 0 }
    ensures peer { result.peer ≡ 1 }
    ensures coded { result.coded ≡ 0 }
{
    SeedWords {
        k,
        block,
        checks: 0,
        key: 1,
        peer: 1,
        coded: 0,
        bare: false,
    }
}

fn list<T: Copy>(alloc: Global, items: &[T]) -> Result<List<T>, Memory> {
    let mut list = List::new(alloc);
    list.extend_from_slice(items)?;
    Ok(list)
}

#[test]
fn a_bare_stream_has_no_packets(rt: HostRuntime) -> Result<(), Fail> {
    let alloc = rt.alloc();
    let mut words = words_of(2, 2);
    words.bare = true;
    let mut input = MemSource::new(list(alloc, b"abc")?, 2, List::new(alloc));
    let mut output = MemSink::new(alloc, 50, List::new(alloc));
    let end = seed(alloc, &words, &mut input, &mut output);
    assert_eq!(rt; end, End::Done);
    assert_eq!(rt; output.bytes().len(), 107);
    assert_eq!(rt; output.bytes().get(..97), ABC_STREAM.get(..97));
    assert_eq!(rt; output.bytes().get(97..), ABC_STREAM.get(133..));
    Ok(())
}

#[test]
fn the_ticket_is_that_of_the_key_and_the_peer(rt: HostRuntime) -> Result<(), Fail> {
    let alloc = rt.alloc();
    let mut words = words_of(2, 2);
    words.key = 5;
    words.peer = 3;
    let mut input = MemSource::new(list(alloc, b"abc")?, 2, List::new(alloc));
    let mut output = MemSink::new(alloc, 50, List::new(alloc));
    let end = seed(alloc, &words, &mut input, &mut output);
    assert_eq!(rt; end, End::Done);
    let key = [0, 0, 0, 0, 0, 0, 0, 5, 0, 0, 0, 0, 0, 0, 0, 3];
    assert_eq!(rt; output.bytes().get(64..80), Some(key.as_slice()));
    Ok(())
}

// Two bytes a read, and the third read fails.
#[test]
fn a_failing_read_leaves_no_output(rt: HostRuntime) -> Result<(), Fail> {
    let alloc = rt.alloc();
    let mut input = MemSource::new(list(alloc, b"abcdef")?, 2, list(alloc, &[2])?);
    let mut output = MemSink::new(alloc, 50, List::new(alloc));
    let end = seed(alloc, &words_of(2, 2), &mut input, &mut output);
    assert_eq!(rt; end, End::ReadFault);
    assert!(rt; output.bytes().is_empty());
    Ok(())
}

// One byte a write, and the second write fails.
#[test]
fn a_failing_write_leaves_the_front(rt: HostRuntime) -> Result<(), Fail> {
    let alloc = rt.alloc();
    let mut input = MemSource::new(list(alloc, b"abc")?, 2, List::new(alloc));
    let mut output = MemSink::new(alloc, 1, list(alloc, &[1])?);
    let end = seed(alloc, &words_of(2, 2), &mut input, &mut output);
    assert_eq!(rt; end, End::WriteFault);
    assert_eq!(rt; output.bytes(), b"A".as_slice());
    Ok(())
}
