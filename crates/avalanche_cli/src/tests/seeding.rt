//! Runs of `seed`, and of `fetch` over what it wrote.
use super::*;

// The file `abc` in blocks of two bytes, each a generation of its own, with one check and a draw of each generation. With the key
// of number 1 the words of stream 16 at places 0 and 256 are 571A361F and 1D1DBB0D, and with the ticket's key that of stream 0 at
// place 0 is 4F353B98: from a Python script after the block function of RFC 8439, with the number of the block in the last row's
// 64 low bits and the stream in the 64 high ones. Products are from a script that divides polynomials.
const CODED_STREAM: [u8; 175] = [
    0x41, 0x56, 0x4c, 0x4e, 0x01, 0x01, 0x00, 0x00, 0x00, 0x2c, 0x00, 0x00, 0x00, 0x00, 0x00, 0x00,
    0x00, 0x03, 0x00, 0x01, 0x00, 0x02, 0xba, 0x78, 0x16, 0xbf, 0x8f, 0x01, 0xcf, 0xea, 0x41, 0x41,
    0x40, 0xde, 0x5d, 0xae, 0x22, 0x23, 0xb0, 0x03, 0x61, 0xa3, 0x96, 0x17, 0x7a, 0x9c, 0xb4, 0x10,
    0xff, 0x61, 0xf2, 0x00, 0x15, 0xad, 0x41, 0x56, 0x4c, 0x4e, 0x01, 0x02, 0x00, 0x00, 0x00, 0x25,
    0x00, 0x00, 0x00, 0x00, 0x00, 0x00, 0x00, 0x01, 0x00, 0x00, 0x00, 0x00, 0x00, 0x00, 0x00, 0x01,
    0x00, 0x00, 0x00, 0x00, 0x00, 0x00, 0x00, 0x00, 0x00, 0x00, 0x00, 0x00, 0x00, 0x00, 0x00, 0x00,
    0x01, 0x68, 0xcc, 0x29, 0xbf, 0x41, 0x56, 0x4c, 0x4e, 0x01, 0x03, 0x00, 0x00, 0x00, 0x06, 0x00,
    0x00, 0x00, 0x01, 0x61, 0x62, 0x41, 0x56, 0x4c, 0x4e, 0x01, 0x03, 0x00, 0x00, 0x00, 0x06, 0x00,
    0x00, 0x36, 0x1f, 0x05, 0x79, 0x41, 0x56, 0x4c, 0x4e, 0x01, 0x03, 0x00, 0x00, 0x00, 0x06, 0x00,
    0x01, 0x00, 0x01, 0x63, 0x00, 0x41, 0x56, 0x4c, 0x4e, 0x01, 0x03, 0x00, 0x00, 0x00, 0x06, 0x00,
    0x01, 0xbb, 0x0d, 0x55, 0xed, 0x41, 0x56, 0x4c, 0x4e, 0x01, 0x04, 0x00, 0x00, 0x00, 0x00,
];

#[test]
fn seeds_abc_in_two_packets(rt: HostRuntime) -> Result<(), Fail> {
    let line = "seed --blocks 2 --block 2 --checks 0";
    let ran = run_line(&rt, rt.alloc(), line, b"abc")?;
    assert_eq!(rt; ran.outcome.end, End::Done);
    assert_eq!(rt; ran.output.bytes(), ABC_STREAM.as_slice());
    assert!(rt; ran.errors.bytes().is_empty());
    assert!(rt; ran.outcome.trace.bases.as_slice().is_empty());
    Ok(())
}

#[test]
fn fetches_two_generations_with_checks(rt: HostRuntime) -> Result<(), Fail> {
    let alloc = rt.alloc();
    let seeded = run_line(&rt, alloc, "seed --blocks 1 --block 2 --checks 2", b"abc")?;
    assert_eq!(rt; seeded.outcome.end, End::Done);
    let fetched = run_line(&rt, alloc, "fetch", seeded.output.bytes())?;
    assert_eq!(rt; fetched.outcome.end, End::Done);
    assert_eq!(rt; fetched.output.bytes(), b"abc".as_slice());
    let bases = &fetched.outcome.trace.bases;
    assert_eq!(rt; bases.len(), 2);
    assert_eq!(rt; bases.get(0).map(|basis| basis.records.len()), Some(1));
    assert_eq!(rt; bases.get(1).map(|basis| basis.records.len()), Some(1));
    Ok(())
}

#[test]
fn a_stream_without_its_blocks_is_incomplete(rt: HostRuntime) -> Result<(), Fail> {
    let alloc = rt.alloc();
    let line = "seed --blocks 2 --block 2 --checks 0 --bare 1";
    let seeded = run_line(&rt, alloc, line, b"abc")?;
    assert_eq!(rt; seeded.outcome.end, End::Done);
    assert_eq!(rt; seeded.output.bytes().len(), 107);
    let fetched = run_line(&rt, alloc, "fetch", seeded.output.bytes())?;
    let end = End::Incomplete {
        generation: 0,
        rank: 0,
    };
    assert_eq!(rt; fetched.outcome.end, end);
    Ok(())
}

#[test]
fn an_empty_file_is_seeded_and_fetched(rt: HostRuntime) -> Result<(), Fail> {
    let alloc = rt.alloc();
    let seeded = run_line(&rt, alloc, "seed --blocks 1 --block 2 --checks 0", &[])?;
    assert_eq!(rt; seeded.outcome.end, End::Done);
    assert_eq!(rt; seeded.output.bytes().len(), 107);
    let fetched = run_line(&rt, alloc, "fetch", seeded.output.bytes())?;
    assert_eq!(rt; fetched.outcome.end, End::Done);
    assert!(rt; fetched.output.bytes().is_empty());
    Ok(())
}

#[test]
fn seeds_abc_with_a_draw_of_each_generation(rt: HostRuntime) -> Result<(), Fail> {
    let line = "seed --blocks 1 --block 2 --checks 1 --coded 1";
    let ran = run_line(&rt, rt.alloc(), line, b"abc")?;
    assert_eq!(rt; ran.outcome.end, End::Done);
    assert_eq!(rt; ran.output.bytes(), CODED_STREAM.as_slice());
    Ok(())
}

/// The bytes 0 to 127.
fn first_bytes(alloc: Global) -> Result<List<u8>, Memory> {
    let mut bytes = List::new(alloc);
    for byte in 0..128 {
        bytes.push(byte)?;
    }
    Ok(bytes)
}

#[test]
fn draws_alone_give_the_file(rt: HostRuntime) -> Result<(), Fail> {
    let alloc = rt.alloc();
    let file = first_bytes(alloc)?;
    let line = "seed --blocks 64 --block 2 --checks 0 --bare 1 --coded 70";
    let seeded = run_line(&rt, alloc, line, file.as_slice())?;
    assert_eq!(rt; seeded.outcome.end, End::Done);
    assert_eq!(rt; seeded.output.bytes().len(), 107 + 70 * 142);
    let fetched = run_line(&rt, alloc, "fetch", seeded.output.bytes())?;
    assert_eq!(rt; fetched.outcome.end, End::Done);
    assert_eq!(rt; fetched.output.bytes(), file.as_slice());
    Ok(())
}

#[test]
fn the_largest_packets_are_drawn(rt: HostRuntime) -> Result<(), Fail> {
    let alloc = rt.alloc();
    let line = "seed --blocks 64 --block 4096 --checks 0 --coded 1024";
    let mut input = SteadySource::new(list_of(alloc, b"a")?, 1);
    let mut output = SteadySink::new(alloc, 65_536);
    let mut errors = SteadySink::new(alloc, 1);
    let outcome = run_with(
        &rt,
        alloc,
        &NoGate,
        line,
        &mut input,
        &mut output,
        &mut errors,
    )?;
    assert_eq!(rt; outcome.end, End::Done);
    assert_eq!(rt; output.bytes().len(), 107 + 1088 * 4236);
    Ok(())
}
