//! Runs of `fetch`.
ghost use Rattle.std.specs.Prelude.{None};

use super::*;

/// The stream with the manifest and the ticket of `ABC_STREAM` and these packets, each two coefficients and a payload.
pub(super) fn stream_of(alloc: Global, packets: &[[u16; 3]]) -> Result<List<u8>, Memory> {
    let mut bytes = List::new(alloc);
    bytes.extend_from_slice(&ABC_STREAM[..97])?;
    for symbols in packets {
        bytes.extend_from_slice(&ABC_STREAM[97..107])?;
        bytes.extend_from_slice(&[0, 0])?;
        for symbol in symbols {
            bytes.extend_from_slice(&symbol.to_be_bytes())?;
        }
    }
    bytes.extend_from_slice(&ABC_STREAM[133..])?;
    Ok(bytes)
}

/// The calls of a receiver on the basis of generation 0, as the outcome has them.
fn calls_of(outcome: &Outcome, receiver: usize) -> &[Call] {
    let Some(basis) = outcome.trace.bases.get(0) else {
        return &[];
    };
    match basis.callers.get(receiver) {
        Some(caller) => caller.calls.as_slice(),
        None => &[],
    }
}

fn offered(tag: u64, reply: Reply) -> Call {
    Call {
        tag,
        answer: Answer::Offered(reply),
    }
}

/// The caller, the call and the coefficients and payload of a record of packets of two coefficients and one symbol.
fn record_of(outcome: &Outcome, at: usize) -> Option<(u32, u32, [u16; 3])> {
    let record = outcome.trace.bases.get(0)?.records.get(at)?;
    let packet = &record.packet;
    let first = packet.coeffs.as_slice().first()?;
    let second = packet.coeffs.as_slice().get(1)?;
    let payload = packet.payload.as_slice().first()?;
    Some((record.caller, record.call, [*first, *second, *payload]))
}

#[test]
fn fetches_abc_from_two_packets(rt: HostRuntime) -> Result<(), Fail> {
    let ran = run_line(&rt, rt.alloc(), "fetch --receivers 1", &ABC_STREAM)?;
    assert_eq!(rt; ran.outcome.end, End::Done);
    assert_eq!(rt; ran.output.bytes(), b"abc".as_slice());
    assert!(rt; ran.errors.bytes().is_empty());
    let calls = [
        offered(0, Reply::Innovative { at: 0 }),
        offered(1, Reply::Innovative { at: 1 }),
    ];
    assert_eq!(rt; calls_of(&ran.outcome, 0), calls.as_slice());
    assert_eq!(rt; record_of(&ran.outcome, 0), Some((0, 0, [1, 0, 0x6162])));
    assert_eq!(rt; record_of(&ran.outcome, 1), Some((0, 1, [0, 1, 0x6300])));
    assert_eq!(rt; ran.outcome.trace.bases.len(), 1);
    assert!(rt; ran.outcome.trace.sends.as_slice().is_empty());
    Ok(())
}

#[test]
fn any_number_of_receivers_gives_the_same_file(rt: HostRuntime) -> Result<(), Fail> {
    let lines = [
        "fetch",
        "fetch --receivers=2",
        "fetch --receivers 02",
        "fetch --receivers 8",
    ];
    for line in lines {
        let ran = run_line(&rt, rt.alloc(), line, &ABC_STREAM)?;
        assert_eq!(rt; ran.outcome.end, End::Done);
        assert_eq!(rt; ran.output.bytes(), b"abc".as_slice());
        assert_eq!(rt; calls_of(&ran.outcome, 0).len(), 1);
        assert_eq!(rt; calls_of(&ran.outcome, 1).len(), 1);
    }
    Ok(())
}

#[test]
fn fetches_abc_from_dense_packets(rt: HostRuntime) -> Result<(), Fail> {
    let stream = stream_of(rt.alloc(), &[[1, 1, 0x0262], [0, 1, 0x6300]])?;
    let ran = run_line(&rt, rt.alloc(), "fetch --receivers 8", stream.as_slice())?;
    assert_eq!(rt; ran.outcome.end, End::Done);
    assert_eq!(rt; ran.output.bytes(), b"abc".as_slice());
    Ok(())
}

#[test]
fn a_third_packet_tells_nothing_new(rt: HostRuntime) -> Result<(), Fail> {
    let cases = [
        (0x0262, Reply::NotInnovative { front: 2 }),
        (0x0263, Reply::Conflicting { front: 2 }),
    ];
    for (payload, reply) in cases {
        let packets = [[1, 0, 0x6162], [0, 1, 0x6300], [1, 1, payload]];
        let stream = stream_of(rt.alloc(), &packets)?;
        let ran = run_line(&rt, rt.alloc(), "fetch --receivers 1", stream.as_slice())?;
        assert_eq!(rt; ran.outcome.end, End::Done);
        assert_eq!(rt; ran.output.bytes(), b"abc".as_slice());
        let calls = [
            offered(0, Reply::Innovative { at: 0 }),
            offered(1, Reply::Innovative { at: 1 }),
            offered(2, reply),
        ];
        assert_eq!(rt; calls_of(&ran.outcome, 0), calls.as_slice());
        assert_eq!(rt; record_of(&ran.outcome, 2), None);
    }
    Ok(())
}

#[test]
fn a_first_packet_of_no_coefficients_tells_nothing_new(rt: HostRuntime) -> Result<(), Fail> {
    let cases = [
        (0, Reply::NotInnovative { front: 0 }),
        (1, Reply::Conflicting { front: 0 }),
    ];
    for (payload, reply) in cases {
        let packets = [[0, 0, payload], [1, 0, 0x6162], [0, 1, 0x6300]];
        let stream = stream_of(rt.alloc(), &packets)?;
        let ran = run_line(&rt, rt.alloc(), "fetch --receivers 1", stream.as_slice())?;
        assert_eq!(rt; ran.outcome.end, End::Done);
        assert_eq!(rt; ran.output.bytes(), b"abc".as_slice());
        let calls = [
            offered(0, reply),
            offered(1, Reply::Innovative { at: 0 }),
            offered(2, Reply::Innovative { at: 1 }),
        ];
        assert_eq!(rt; calls_of(&ran.outcome, 0), calls.as_slice());
        assert_eq!(rt; record_of(&ran.outcome, 1), Some((0, 2, [0, 1, 0x6300])));
    }
    Ok(())
}

#[test]
fn packets_of_rank_one_are_incomplete(rt: HostRuntime) -> Result<(), Fail> {
    let stream = stream_of(rt.alloc(), &[[1, 0, 0x6162], [2, 0, 0xC2C4]])?;
    let end = End::Incomplete {
        generation: 0,
        rank: 1,
    };
    for line in ["fetch", "fetch --receivers 1"] {
        let ran = run_line(&rt, rt.alloc(), line, stream.as_slice())?;
        assert_eq!(rt; ran.outcome.end, end);
        assert!(rt; ran.output.bytes().is_empty());
        let text = b"avalanche: incomplete: generation 0 rank 1\n";
        assert_eq!(rt; ran.errors.bytes(), text.as_slice());
    }
    let ran = run_line(&rt, rt.alloc(), "fetch --receivers 1", stream.as_slice())?;
    let calls = [
        offered(0, Reply::Innovative { at: 0 }),
        offered(1, Reply::NotInnovative { front: 1 }),
    ];
    assert_eq!(rt; calls_of(&ran.outcome, 0), calls.as_slice());
    Ok(())
}

#[test]
fn a_stream_of_no_packets_lists_all_receivers(rt: HostRuntime) -> Result<(), Fail> {
    let stream = stream_of(rt.alloc(), &[])?;
    let ran = run_line(&rt, rt.alloc(), "fetch --receivers 5", stream.as_slice())?;
    let end = End::Incomplete {
        generation: 0,
        rank: 0,
    };
    assert_eq!(rt; ran.outcome.end, end);
    let bases = &ran.outcome.trace.bases;
    assert_eq!(rt; bases.get(0).map(|basis| basis.callers.len()), Some(5));
    Ok(())
}

// The SHA-256 of `acc`, by the command `sha256sum`.
const ACC_DIGEST: [u8; 32] = [
    0x41, 0x43, 0x22, 0x30, 0x9d, 0xb5, 0xc0, 0x6d, 0x09, 0x0a, 0x2e, 0x92, 0x2c, 0xcc, 0x3e, 0x00,
    0x70, 0x8c, 0x99, 0x3b, 0x9b, 0x96, 0x40, 0x5d, 0xe1, 0x27, 0xb7, 0xfd, 0x8d, 0xa2, 0xdd, 0x21,
];

#[test]
fn another_payload_is_a_mismatch(rt: HostRuntime) -> Result<(), Fail> {
    let stream = stream_of(rt.alloc(), &[[1, 0, 0x6163], [0, 1, 0x6300]])?;
    let ran = run_line(&rt, rt.alloc(), "fetch --receivers 1", stream.as_slice())?;
    assert_eq!(rt; ran.outcome.end, End::Mismatch { found: ACC_DIGEST });
    assert!(rt; ran.output.bytes().is_empty());
    let line =
        b"avalanche: mismatch: found 414322309db5c06d090a2e922ccc3e00708c993b9b96405de127b7fd8da2dd21\n";
    assert_eq!(rt; ran.errors.bytes(), line.as_slice());
    assert_eq!(rt; record_of(&ran.outcome, 1), Some((0, 1, [0, 1, 0x6300])));
    Ok(())
}

#[test]
fn a_stream_cut_short_is_bad(rt: HostRuntime) -> Result<(), Fail> {
    let ran = run_line(&rt, rt.alloc(), "fetch", &ABC_STREAM[..142])?;
    let fault = WireFault {
        offset: 142,
        kind: FaultKind::Truncated,
    };
    assert_eq!(rt; ran.outcome.end, End::BadStream(fault));
    assert!(rt; ran.output.bytes().is_empty());
    let line = b"avalanche: bad stream: Truncated at 142\n";
    assert_eq!(rt; ran.errors.bytes(), line.as_slice());
    assert!(rt; ran.outcome.trace.bases.as_slice().is_empty());
    Ok(())
}

// An empty file, in blocks of two bytes of which one makes a generation: there is none.
const EMPTY_DIGEST: [u8; 32] = [
    0xe3, 0xb0, 0xc4, 0x42, 0x98, 0xfc, 0x1c, 0x14, 0x9a, 0xfb, 0xf4, 0xc8, 0x99, 0x6f, 0xb9, 0x24,
    0x27, 0xae, 0x41, 0xe4, 0x64, 0x9b, 0x93, 0x4c, 0xa4, 0x95, 0x99, 0x1b, 0x78, 0x52, 0xb8, 0x55,
];

/// The stream of no packets of an empty file, whose manifest has this digest.
fn stream_of_nothing(alloc: Global, digest: &[u8; 32]) -> Result<List<u8>, Memory> {
    let mut bytes = List::new(alloc);
    bytes.extend_from_slice(&ABC_STREAM[..10])?;
    bytes.extend_from_slice(&[0, 0, 0, 0, 0, 0, 0, 0, 0, 1, 0, 2])?;
    bytes.extend_from_slice(digest)?;
    bytes.extend_from_slice(&ABC_STREAM[54..97])?;
    bytes.extend_from_slice(&ABC_STREAM[133..])?;
    Ok(bytes)
}

#[test]
fn an_empty_file_has_no_generation(rt: HostRuntime) -> Result<(), Fail> {
    let stream = stream_of_nothing(rt.alloc(), &EMPTY_DIGEST)?;
    assert_eq!(rt; stream.len(), 107);
    let good = run_line(&rt, rt.alloc(), "fetch", stream.as_slice())?;
    assert_eq!(rt; good.outcome.end, End::Done);
    assert!(rt; good.output.bytes().is_empty());
    assert!(rt; good.outcome.trace.bases.as_slice().is_empty());
    let mut abc_digest = [0; 32];
    abc_digest.copy_from_slice(&ABC_STREAM[22..54]);
    let stream = stream_of_nothing(rt.alloc(), &abc_digest)?;
    let bad = run_line(&rt, rt.alloc(), "fetch", stream.as_slice())?;
    assert_eq!(rt;
        bad.outcome.end,
        End::Mismatch {
            found: EMPTY_DIGEST
        }
    );
    Ok(())
}

#[test]
fn a_failing_read_is_a_read_fault(rt: HostRuntime) -> Result<(), Fail> {
    let alloc = rt.alloc();
    let mut fails = List::new(alloc);
    fails.push(2)?;
    let mut input = MemSource::new(list_of(alloc, &ABC_STREAM)?, 50, fails);
    let mut output = SteadySink::new(alloc, 1);
    let mut errors = SteadySink::new(alloc, 100);
    let outcome = run_with(
        &rt,
        alloc,
        &NoGate,
        "fetch",
        &mut input,
        &mut output,
        &mut errors,
    )?;
    assert_eq!(rt; outcome.end, End::ReadFault);
    assert!(rt; output.bytes().is_empty());
    assert_eq!(rt; errors.bytes(), b"avalanche: read fault\n".as_slice());
    Ok(())
}

#[test]
fn a_fault_comes_before_a_failing_read(rt: HostRuntime) -> Result<(), Fail> {
    let alloc = rt.alloc();
    let mut fails = List::new(alloc);
    fails.push(1)?;
    let mut input = MemSource::new(list_of(alloc, b"AVLX")?, 50, fails);
    let mut output = SteadySink::new(alloc, 1);
    let mut errors = SteadySink::new(alloc, 100);
    let outcome = run_with(
        &rt,
        alloc,
        &NoGate,
        "fetch",
        &mut input,
        &mut output,
        &mut errors,
    )?;
    let fault = WireFault {
        offset: 3,
        kind: FaultKind::BadMagic,
    };
    assert_eq!(rt; outcome.end, End::BadStream(fault));
    Ok(())
}

#[test]
fn a_failing_write_is_a_write_fault(rt: HostRuntime) -> Result<(), Fail> {
    let alloc = rt.alloc();
    let mut fails = List::new(alloc);
    fails.push(1)?;
    let mut input = SteadySource::new(list_of(alloc, &ABC_STREAM)?, 143);
    let mut output = MemSink::new(alloc, 1, fails);
    let mut errors = SteadySink::new(alloc, 100);
    let outcome = run_with(
        &rt,
        alloc,
        &NoGate,
        "fetch",
        &mut input,
        &mut output,
        &mut errors,
    )?;
    assert_eq!(rt; outcome.end, End::WriteFault);
    assert_eq!(rt; output.bytes(), b"a".as_slice());
    assert_eq!(rt; errors.bytes(), b"avalanche: write fault\n".as_slice());
    assert_eq!(rt; outcome.trace.bases.len(), 1);
    Ok(())
}

#[test]
fn a_refusing_error_output_changes_nothing(rt: HostRuntime) -> Result<(), Fail> {
    let alloc = rt.alloc();
    let mut fails = List::new(alloc);
    fails.push(0)?;
    let mut input = SteadySource::new(list_of(alloc, &ABC_STREAM[..9])?, 143);
    let mut output = SteadySink::new(alloc, 1);
    let mut errors = MemSink::new(alloc, 100, fails);
    let outcome = run_with(
        &rt,
        alloc,
        &NoGate,
        "fetch",
        &mut input,
        &mut output,
        &mut errors,
    )?;
    let fault = WireFault {
        offset: 9,
        kind: FaultKind::Truncated,
    };
    assert_eq!(rt; outcome.end, End::BadStream(fault));
    assert!(rt; errors.bytes().is_empty());
    Ok(())
}

/// A sink that takes bytes while it has room, one a call, and then wants memory.
#[derive(Drop)]
struct Wanting {
    room: usize,
    wants: u64,
}

impl Sink for Wanting {
    ghost contents = { λ _. None };

    ghost faults = { λ _. 0 };

    ghost wants = { λ s. s.wants };

    fn write(&mut self, _piece: &[u8]) -> Result<usize, SinkRefusal> {
        if self.room == 0 {
            self.wants = self.wants.saturating_add(1);
            return Err(SinkRefusal::Memory);
        }
        self.room -= 1;
        Ok(1)
    }
}

#[test]
fn a_trace_is_kept_where_the_output_took_a_byte(rt: HostRuntime) -> Result<(), Fail> {
    let alloc = rt.alloc();
    for (room, bases) in [(0, 0), (1, 1)] {
        let mut input = SteadySource::new(list_of(alloc, &ABC_STREAM)?, 143);
        let mut output = Wanting { room, wants: 0 };
        let mut errors = SteadySink::new(alloc, 100);
        let outcome = run_with(
            &rt,
            alloc,
            &NoGate,
            "fetch",
            &mut input,
            &mut output,
            &mut errors,
        )?;
        assert_eq!(rt; outcome.end, End::Memory);
        assert_eq!(rt; output.wants, 1);
        assert_eq!(rt; outcome.trace.bases.len(), bases);
        assert_eq!(rt; errors.bytes(), b"avalanche: out of memory\n".as_slice());
    }
    Ok(())
}

// One generation of one block of two bytes, and one check: its weight is B876, so the block 0002 has the sum 60E7.
#[test]
fn a_packet_that_fails_a_check_is_not_recorded(rt: HostRuntime) -> Result<(), Fail> {
    let alloc = rt.alloc();
    let seeded = run_line(
        &rt,
        alloc,
        "seed --blocks 1 --block 2 --checks 1",
        &[0x00, 0x02],
    )?;
    assert_eq!(rt; seeded.outcome.end, End::Done);
    let mut stream = list_of(alloc, seeded.output.bytes())?;
    // The last byte of the packet's payload: the end is 10 bytes.
    let at = stream.len().saturating_sub(11);
    *stream.get_mut(at).ok_or("a byte")? = 3;
    let ran = run_line(&rt, alloc, "fetch", stream.as_slice())?;
    let end = End::Incomplete {
        generation: 0,
        rank: 0,
    };
    assert_eq!(rt; ran.outcome.end, end);
    let calls = [offered(0, Reply::FailedCheck { check: 0, front: 0 })];
    assert_eq!(rt; calls_of(&ran.outcome, 0), calls.as_slice());
    Ok(())
}
