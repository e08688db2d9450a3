//! Runs over inputs at their limits.
ghost use Rattle.std.specs.Prelude.{None};

use super::*;
use table_rows::words_of_basis;

/// The end of a run of the words of a line over a source that tells no bytes, and its line.
fn end_over<R: Threads + Sync, I: Source + Drop>(
    rt: &R,
    alloc: Global,
    line: &str,
    mut input: I,
) -> Result<(End, SteadySink), Memory> {
    let mut output = SteadySink::new(alloc, 65_536);
    let mut errors = SteadySink::new(alloc, 100);
    let outcome = run_with(
        rt,
        alloc,
        &NoGate,
        line,
        &mut input,
        &mut output,
        &mut errors,
    )?;
    Ok((outcome.end, errors))
}

/// A source of so many zero bytes.
#[derive(Drop)]
struct Zeros {
    left: u64,
}

impl Source for Zeros {
    ghost remaining = { λ _. None };

    ghost faults = { λ _. 0 };

    fn read(&mut self, buf: &mut [u8]) -> Result<usize, Failed> {
        let count = self.left.min(buf.len() as u64);
        self.left -= count;
        for byte in buf.iter_mut() {
            *byte = 0;
        }
        Ok(count as usize)
    }
}

#[test]
fn a_file_has_a_limit(rt: HostRuntime) -> Result<(), Fail> {
    let cases = [
        ("seed", 16_777_217, 16_777_216),
        ("seed --blocks 1 --block 2", 513, 512),
    ];
    for (line, left, limit) in cases {
        let (end, _) = end_over(&rt, rt.alloc(), line, Zeros { left })?;
        assert_eq!(rt; end, End::TooLarge { limit });
    }
    let (end, _) = end_over(
        &rt,
        rt.alloc(),
        "seed --blocks 1 --block 2",
        Zeros { left: 512 },
    )?;
    assert_eq!(rt; end, End::Done);
    Ok(())
}

// The largest file has 256 generations of 64 blocks of 1,024 bytes. Beside 107 bytes and the sums there are 1,088 packets of 1,164
// bytes of each.
#[test]
fn the_largest_file_is_seeded_with_the_most_draws(rt: HostRuntime) -> Result<(), Fail> {
    let mut input = Zeros { left: 16_777_216 };
    let mut output = SteadySink::new(rt.alloc(), 65_536);
    let mut errors = SteadySink::new(rt.alloc(), 1);
    let outcome = run_with(
        &rt,
        rt.alloc(),
        &NoGate,
        "seed --checks 8 --coded 1024",
        &mut input,
        &mut output,
        &mut errors,
    )?;
    assert_eq!(rt; outcome.end, End::Done);
    let sums = 2 * 256 * 8 * 64;
    assert_eq!(rt; output.bytes().len(), 107 + sums + 256 * 1088 * 1164);
    Ok(())
}

// The manifest of a file of 3 bytes in one generation of two blocks of 4,096 bytes, and a ticket of no checks.
const FRONT: [u8; 97] = [
    0x41, 0x56, 0x4C, 0x4E, 1, 1, 0, 0, 0, 0x2C, 0, 0, 0, 0, 0, 0, 0, 3, 0, 2, 0x10, 0, 0xba, 0x78,
    0x16, 0xbf, 0x8f, 0x01, 0xcf, 0xea, 0x41, 0x41, 0x40, 0xde, 0x5d, 0xae, 0x22, 0x23, 0xb0, 0x03,
    0x61, 0xa3, 0x96, 0x17, 0x7a, 0x9c, 0xb4, 0x10, 0xff, 0x61, 0xf2, 0x00, 0x15, 0xad, 0x41, 0x56,
    0x4C, 0x4E, 1, 2, 0, 0, 0, 0x21, 0, 0, 0, 0, 0, 0, 0, 1, 0, 0, 0, 0, 0, 0, 0, 1, 0, 0, 0, 0, 0,
    0, 0, 0, 0, 0, 0, 0, 0, 0, 0, 0, 0,
];

// The head of a packet's frame, whose body has 2 + 4 + 4,096 bytes.
const HEAD: [u8; 10] = [0x41, 0x56, 0x4C, 0x4E, 1, 3, 0, 0, 0x10, 0x06];

/// A source of so many bytes of a stream that never ends: its front, and then frames of zero packets.
#[derive(Drop)]
struct ZeroPackets {
    at: u64,
    len: u64,
}

/// The byte at a place of that stream.
fn byte_at(place: u64) -> u8 {
    let place = place as usize;
    match FRONT.get(place) {
        Some(byte) => *byte,
        None => {
            let at = place.saturating_sub(FRONT.len()) % 4112;
            HEAD.get(at).copied().unwrap_or(0)
        }
    }
}

impl Source for ZeroPackets {
    ghost remaining = { λ _. None };

    ghost faults = { λ _. 0 };

    fn read(&mut self, buf: &mut [u8]) -> Result<usize, Failed> {
        let count = self.len.saturating_sub(self.at).min(buf.len() as u64);
        let mut place = self.at;
        for byte in buf.iter_mut() {
            *byte = byte_at(place);
            place = place.saturating_add(1);
        }
        self.at = self.at.saturating_add(count);
        Ok(count as usize)
    }
}

#[test]
fn a_stream_has_a_limit(rt: HostRuntime) -> Result<(), Fail> {
    let longer = ZeroPackets {
        at: 0,
        len: 67_108_865,
    };
    let (end, errors) = end_over(&rt, rt.alloc(), "fetch", longer)?;
    assert_eq!(rt; end, End::TooLarge { limit: 67_108_864 });
    let line = b"avalanche: too large: limit 67108864 bytes\n";
    assert_eq!(rt; errors.bytes(), line.as_slice());
    let whole = ZeroPackets {
        at: 0,
        len: 67_108_864,
    };
    let (end, _) = end_over(&rt, rt.alloc(), "fetch", whole)?;
    let fault = WireFault {
        offset: 67_108_864,
        kind: FaultKind::Truncated,
    };
    assert_eq!(rt; end, End::BadStream(fault));
    Ok(())
}

// The first byte is no letter: that is told, and not that there are too many bytes.
#[test]
fn a_fault_comes_before_the_limit(rt: HostRuntime) -> Result<(), Fail> {
    let zeros = Zeros { left: 67_108_865 };
    let (end, _) = end_over(&rt, rt.alloc(), "fetch", zeros)?;
    let fault = WireFault {
        offset: 0,
        kind: FaultKind::BadMagic,
    };
    assert_eq!(rt; end, End::BadStream(fault));
    Ok(())
}

/// Bytes of a linear congruential generator.
fn random_bytes(alloc: Global, count: usize) -> Result<List<u8>, Memory> {
    let mut bytes = List::new(alloc);
    bytes.reserve(count)?;
    let mut state: u32 = 2026;
    for _place in 0..count {
        state = state.wrapping_mul(1_664_525).wrapping_add(1_013_904_223);
        bytes.push((state >> 24) as u8)?;
    }
    Ok(bytes)
}

/// What a run of the words of a line over these bytes wrote, in large pieces, and its end.
fn run_large<R: Threads + Sync>(
    rt: &R,
    alloc: Global,
    line: &str,
    input: &[u8],
) -> Result<(End, SteadySink), Memory> {
    let mut input = SteadySource::new(list_of(alloc, input)?, 65_536);
    let mut output = SteadySink::new(alloc, 65_536);
    let mut errors = SteadySink::new(alloc, 100);
    let outcome = run_with(
        rt,
        alloc,
        &NoGate,
        line,
        &mut input,
        &mut output,
        &mut errors,
    )?;
    Ok((outcome.end, output))
}

// With the default options the file has 256 generations of 64 blocks of 512 symbols.
#[test]
fn a_large_file_comes_back_through_eight_receivers(rt: HostRuntime) -> Result<(), Fail> {
    let alloc = rt.alloc();
    assert_eq!(rt; words_of_basis(64, 512, 8).saturating_mul(256), 5_361_664);
    let file = random_bytes(alloc, 16_777_216)?;
    let (end, stream) = run_large(&rt, alloc, "seed", file.as_slice())?;
    assert_eq!(rt; end, End::Done);
    for _round in 0..8 {
        let (end, copy) = run_large(&rt, alloc, "fetch --receivers 8", stream.bytes())?;
        assert_eq!(rt; end, End::Done);
        assert!(rt; copy.bytes() == file.as_slice());
    }
    Ok(())
}
