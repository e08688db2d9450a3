//! Error lines, each as it is printed.
ghost use Rattle.std.specs.Prelude.{◌≤◌};

use super::*;
use avalanche_args::OptionName;
use linear_spec::List;
use std::alloc::Global;
use std::test::Fail;
use swarm_io::MemSink;

/// What a sink of `piece` bytes a write holds after the line of an end, where the writes of these numbers fail.
fn written(alloc: Global, end: &End, piece: usize, fails: &[u64]) -> Result<MemSink, Fail>
    requires { 1 ≤ piece }
{
    let mut told = List::new(alloc);
    told.extend_from_slice(fails)?;
    let mut errors = MemSink::new(alloc, piece, told);
    write_line(end, &mut errors);
    Ok(errors)
}

// The SHA-256 of no bytes, by the command `sha256sum`.
const EMPTY_DIGEST: [u8; 32] = [
    0xe3, 0xb0, 0xc4, 0x42, 0x98, 0xfc, 0x1c, 0x14, 0x9a, 0xfb, 0xf4, 0xc8, 0x99, 0x6f, 0xb9, 0x24,
    0x27, 0xae, 0x41, 0xe4, 0x64, 0x9b, 0x93, 0x4c, 0xa4, 0x95, 0x99, 0x1b, 0x78, 0x52, 0xb8, 0x55,
];

#[test]
fn each_end_has_its_line(rt: HostRuntime) -> Result<(), Fail> {
    let alloc = rt.alloc();
    let rank = End::Incomplete {
        generation: 255,
        rank: 63,
    };
    let digest = End::Mismatch {
        found: EMPTY_DIGEST,
    };
    let limit = End::TooLarge { limit: 67_108_864 };
    let lines: [(End, &[u8]); 14] = [
        (End::Done, b""),
        (
            End::Usage(WordClass::NoCommand),
            b"avalanche: usage: no command\n",
        ),
        (
            End::Usage(WordClass::UnknownCommand),
            b"avalanche: usage: unknown command\n",
        ),
        (
            End::Usage(WordClass::BadWords),
            b"avalanche: usage: bad words\n",
        ),
        (
            End::Usage(WordClass::BadNumber(OptionName::Blocks)),
            b"avalanche: usage: bad number blocks\n",
        ),
        (
            End::Usage(WordClass::BadChoice(OptionName::OverlayName)),
            b"avalanche: usage: bad choice overlay\n",
        ),
        (
            End::Usage(WordClass::BadPair(OptionName::Degree)),
            b"avalanche: usage: bad pair degree\n",
        ),
        (End::ReadFault, b"avalanche: read fault\n"),
        (End::WriteFault, b"avalanche: write fault\n"),
        (limit, b"avalanche: too large: limit 67108864 bytes\n"),
        (rank, b"avalanche: incomplete: generation 255 rank 63\n"),
        (
            digest,
            b"avalanche: mismatch: found e3b0c44298fc1c149afbf4c8996fb92427ae41e4649b934ca495991b7852b855\n",
        ),
        (
            fault_at(FaultKind::Truncated, 0),
            b"avalanche: bad stream: Truncated at 0\n",
        ),
        (End::Memory, b"avalanche: out of memory\n"),
    ];
    for (end, line) in &lines {
        let errors = written(alloc, end, 7, &[])?;
        assert_eq!(rt; errors.bytes(), *line);
    }
    Ok(())
}

fn fault_at(kind: FaultKind, offset: u64) -> End {
    End::BadStream(WireFault { offset, kind })
}

#[test]
fn each_kind_of_fault_has_its_name(rt: HostRuntime) -> Result<(), Fail> {
    let lines: [(FaultKind, &[u8]); 8] = [
        (
            FaultKind::BadMagic,
            b"avalanche: bad stream: BadMagic at 142\n",
        ),
        (
            FaultKind::BadVersion,
            b"avalanche: bad stream: BadVersion at 142\n",
        ),
        (
            FaultKind::BadKind,
            b"avalanche: bad stream: BadKind at 142\n",
        ),
        (
            FaultKind::BadLength,
            b"avalanche: bad stream: BadLength at 142\n",
        ),
        (
            FaultKind::BadField,
            b"avalanche: bad stream: BadField at 142\n",
        ),
        (
            FaultKind::OutOfOrder,
            b"avalanche: bad stream: OutOfOrder at 142\n",
        ),
        (
            FaultKind::Truncated,
            b"avalanche: bad stream: Truncated at 142\n",
        ),
        (
            FaultKind::AfterEnd,
            b"avalanche: bad stream: AfterEnd at 142\n",
        ),
    ];
    for (kind, line) in &lines {
        let errors = written(rt.alloc(), &fault_at(*kind, 142), 50, &[])?;
        assert_eq!(rt; errors.bytes(), *line);
    }
    Ok(())
}

#[test]
fn a_refusal_is_passed_over(rt: HostRuntime) -> Result<(), Fail> {
    let none = written(rt.alloc(), &End::ReadFault, 7, &[0])?;
    assert!(rt; none.bytes().is_empty());
    let front = written(rt.alloc(), &End::ReadFault, 7, &[1])?;
    assert_eq!(rt; front.bytes(), b"avalanc".as_slice());
    Ok(())
}
