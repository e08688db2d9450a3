//! What the tests of the program share: streams, and runs in memory.
ghost use Rattle.std.specs.Prelude.{◌≡◌, ◌≤◌, None, length, IfOk};

use super::*;
use avalanche_args::OptionName;
use basis_core::{Answer, Call};
use gf16::Memory;
use linear_spec::{List, Reply};
use packet_wire::{FaultKind, WireFault};
use receive_pass::{Gate, NoGate};
use std::alloc::Global;
use std::test::Fail;
use std::thread::Threads;
use swarm_io::{Failed, MemSink, MemSource, Sink, SinkRefusal, Source, SteadySink, SteadySource};

mod fetching;
mod history;
mod large;
mod relaying;
mod seeding;

// The file `abc` in two blocks of two bytes, as its two blocks.
pub(crate) const ABC_STREAM: [u8; 143] = [
    0x41, 0x56, 0x4C, 0x4E, 1, 1, 0, 0, 0, 0x2C, 0, 0, 0, 0, 0, 0, 0, 3, 0, 2, 0, 2, 0xba, 0x78,
    0x16, 0xbf, 0x8f, 0x01, 0xcf, 0xea, 0x41, 0x41, 0x40, 0xde, 0x5d, 0xae, 0x22, 0x23, 0xb0, 0x03,
    0x61, 0xa3, 0x96, 0x17, 0x7a, 0x9c, 0xb4, 0x10, 0xff, 0x61, 0xf2, 0x00, 0x15, 0xad, 0x41, 0x56,
    0x4C, 0x4E, 1, 2, 0, 0, 0, 0x21, 0, 0, 0, 0, 0, 0, 0, 1, 0, 0, 0, 0, 0, 0, 0, 1, 0, 0, 0, 0, 0,
    0, 0, 0, 0, 0, 0, 0, 0, 0, 0, 0, 0, 0x41, 0x56, 0x4C, 0x4E, 1, 3, 0, 0, 0, 8, 0, 0, 0, 1, 0, 0,
    0x61, 0x62, 0x41, 0x56, 0x4C, 0x4E, 1, 3, 0, 0, 0, 8, 0, 0, 0, 0, 0, 1, 0x63, 0x00, 0x41, 0x56,
    0x4C, 0x4E, 1, 4, 0, 0, 0, 0,
];

/// The words of a line.
fn words_in(alloc: Global, line: &str) -> Result<Words, Memory> {
    let mut words = Words::new(alloc);
    for word in line.split_whitespace() {
        words.push(word)?;
    }
    Ok(words)
}

/// A list of these bytes.
fn list_of(alloc: Global, bytes: &[u8]) -> Result<List<u8>, Memory>
    ensures { IfOk result (λ list. list.items ≡ bytes.now) }
{
    let mut list = List::new(alloc);
    list.extend_from_slice(bytes)?;
    Ok(list)
}

/// What a run did, what it wrote, and its line on the error output.
#[derive(Drop)]
struct Ran {
    outcome: Outcome,
    output: SteadySink,
    errors: SteadySink,
}

/// What a run of the words of a line did.
fn run_with<R: Threads + Sync, G: Gate, I: Source, O: Sink, E: Sink>(
    rt: &R,
    alloc: Global,
    gate: &G,
    line: &str,
    input: &mut I,
    output: &mut O,
    errors: &mut E,
) -> Result<Outcome, Memory> {
    let words = words_in(alloc, line)?;
    Ok(run(rt, alloc, gate, &words, input, output, errors))
}

/// A run of the words of a line over these bytes.
fn run_line<R: Threads + Sync>(
    rt: &R,
    alloc: Global,
    line: &str,
    input: &[u8],
) -> Result<Ran, Memory> {
    let mut input = SteadySource::new(list_of(alloc, input)?, 50);
    let mut output = SteadySink::new(alloc, 2);
    let mut errors = SteadySink::new(alloc, 1);
    let outcome = run_with(
        rt,
        alloc,
        &NoGate,
        line,
        &mut input,
        &mut output,
        &mut errors,
    )?;
    Ok(Ran {
        outcome,
        output,
        errors,
    })
}

#[test]
fn each_end_has_its_status(rt: HostRuntime) {
    let fault = WireFault {
        offset: 9,
        kind: FaultKind::Truncated,
    };
    let incomplete = End::Incomplete {
        generation: 0,
        rank: 1,
    };
    let statuses = [
        (End::Done, 0),
        (End::Usage(WordClass::NoCommand), 1),
        (End::ReadFault, 2),
        (End::WriteFault, 3),
        (End::TooLarge { limit: 512 }, 4),
        (End::BadStream(fault), 5),
        (incomplete, 6),
        (End::Mismatch { found: [0; 32] }, 7),
        (End::Memory, 8),
    ];
    for (end, status) in statuses {
        assert_eq!(rt; end.status(), status);
    }
}

/// A source that counts its reads, and tells no bytes.
#[derive(Drop)]
struct Counting {
    reads: u64,
}

impl Source for Counting {
    ghost remaining = { λ _. None };

    ghost faults = { λ _. 0 };

    fn read(&mut self, _buf: &mut [u8]) -> Result<usize, Failed> {
        self.reads = self.reads.saturating_add(1);
        Ok(0)
    }
}

/// Lines that say no command, what is wrong with each, and its line on the error output.
fn refused_lines<'a>() -> [(&'a str, WordClass, &'a str); 8] {
    let receivers = WordClass::BadNumber(OptionName::Receivers);
    let bad_receivers = "avalanche: usage: bad number receivers\n";
    [
        ("", WordClass::NoCommand, "avalanche: usage: no command\n"),
        (
            "bake",
            WordClass::UnknownCommand,
            "avalanche: usage: unknown command\n",
        ),
        (
            "fetch --nosuch 1",
            WordClass::BadWords,
            "avalanche: usage: bad words\n",
        ),
        (
            "relay --bare yes",
            WordClass::BadWords,
            "avalanche: usage: bad words\n",
        ),
        (
            "relay --link 65536",
            WordClass::BadNumber(OptionName::LinkNumber),
            "avalanche: usage: bad number link\n",
        ),
        ("relay --receivers 9", receivers, bad_receivers),
        ("fetch --receivers 0", receivers, bad_receivers),
        ("fetch --receivers x", receivers, bad_receivers),
    ]
}

#[test]
fn words_that_say_no_command_read_nothing(rt: HostRuntime) -> Result<(), Fail> {
    let alloc = rt.alloc();
    for (line, class, text) in refused_lines() {
        let mut input = Counting { reads: 0 };
        let mut output = SteadySink::new(alloc, 1);
        let mut errors = SteadySink::new(alloc, 7);
        let outcome = run_with(
            &rt,
            alloc,
            &NoGate,
            line,
            &mut input,
            &mut output,
            &mut errors,
        )?;
        assert_eq!(rt; outcome.end, End::Usage(class), "{line}");
        assert_eq!(rt; input.reads, 0);
        assert!(rt; output.bytes().is_empty());
        assert_eq!(rt; errors.bytes(), text.as_bytes());
    }
    Ok(())
}
