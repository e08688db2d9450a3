//! Runs of `relay`, and of `fetch` over what it wrote.
use super::fetching::stream_of;
use super::*;
use linear_spec::Drawn;

#[test]
fn nothing_is_drawn_of_no_packets(rt: HostRuntime) -> Result<(), Fail> {
    let alloc = rt.alloc();
    let stream = stream_of(alloc, &[])?;
    assert_eq!(rt; stream.len(), 107);
    let ran = run_line(&rt, alloc, "relay", stream.as_slice())?;
    assert_eq!(rt; ran.outcome.end, End::Done);
    assert_eq!(rt; ran.output.bytes(), stream.as_slice());
    assert!(rt; ran.errors.bytes().is_empty());
    let sends = ran.outcome.trace.sends.as_slice();
    assert_eq!(rt; sends.len(), 64);
    for send in sends {
        assert_eq!(rt; send.drawn, Drawn::Nothing);
    }
    Ok(())
}

#[test]
fn one_draw_of_each_block_gives_the_file(rt: HostRuntime) -> Result<(), Fail> {
    let alloc = rt.alloc();
    let seeded = run_line(&rt, alloc, "seed --blocks 1 --block 2 --checks 1", b"abc")?;
    assert_eq!(rt; seeded.outcome.end, End::Done);
    for line in [
        "relay --coded 1",
        "relay --coded 1 --receivers 8 --link 65535",
    ] {
        let relayed = run_line(&rt, alloc, line, seeded.output.bytes())?;
        assert_eq!(rt; relayed.outcome.end, End::Done);
        assert_eq!(rt; relayed.output.bytes().len(), seeded.output.bytes().len());
        let fetched = run_line(&rt, alloc, "fetch", relayed.output.bytes())?;
        assert_eq!(rt; fetched.outcome.end, End::Done);
        assert_eq!(rt; fetched.output.bytes(), b"abc".as_slice());
    }
    Ok(())
}

// One generation of 64 blocks of two bytes.
const TEXT: &[u8; 128] = b"Each relay of a chain receives what the one before it sent, and sends \
new packets that it draws from what it has: all of a file.";

// Each relay of the chain draws by a key of its own.
const CHAIN: [&str; 10] = [
    "relay --coded 70 --key 2",
    "relay --coded 70 --key 3",
    "relay --coded 70 --key 4",
    "relay --coded 70 --key 5",
    "relay --coded 70 --key 6",
    "relay --coded 70 --key 7",
    "relay --coded 70 --key 8",
    "relay --coded 70 --key 9",
    "relay --coded 70 --key 10",
    "relay --coded 70 --key 11",
];

#[test]
fn a_file_comes_through_a_chain_of_relays(rt: HostRuntime) -> Result<(), Fail> {
    let alloc = rt.alloc();
    let line = "seed --blocks 64 --block 2 --checks 0 --bare 1 --coded 70";
    let mut sent = run_line(&rt, alloc, line, TEXT.as_slice())?;
    for line in CHAIN {
        assert_eq!(rt; sent.outcome.end, End::Done);
        sent = run_line(&rt, alloc, line, sent.output.bytes())?;
        assert_eq!(rt; sent.outcome.trace.sends.len(), 70);
    }
    let fetched = run_line(&rt, alloc, "fetch", sent.output.bytes())?;
    assert_eq!(rt; fetched.outcome.end, End::Done);
    assert_eq!(rt; fetched.output.bytes(), TEXT.as_slice());
    Ok(())
}

/// A send over link 3 of a draw over one record.
fn sent_over_three(generation: u16, q: u32) -> SendEntry {
    SendEntry {
        round: 1,
        link: 3,
        peer: 0,
        generation,
        q,
        drawn: Drawn::Sent { front: 1 },
    }
}

/// The same draw as a call.
fn drawn_over_three(q: u32) -> Call {
    Call {
        tag: 3 * 4_294_967_296 + u64::from(q),
        answer: Answer::Drew(Drawn::Sent { front: 1 }),
    }
}

#[test]
fn sends_are_by_generation_and_number(rt: HostRuntime) -> Result<(), Fail> {
    let alloc = rt.alloc();
    let seeded = run_line(&rt, alloc, "seed --blocks 1 --block 2 --checks 0", b"abc")?;
    let ran = run_line(
        &rt,
        alloc,
        "relay --link 3 --coded 2",
        seeded.output.bytes(),
    )?;
    assert_eq!(rt; ran.outcome.end, End::Done);
    let sends = [
        sent_over_three(0, 0),
        sent_over_three(0, 1),
        sent_over_three(1, 2),
        sent_over_three(1, 3),
    ];
    assert_eq!(rt; ran.outcome.trace.sends.as_slice(), sends.as_slice());
    let bases = ran.outcome.trace.bases.as_slice();
    assert_eq!(rt; bases.len(), 2);
    let last = bases.get(1).ok_or("a basis")?;
    let sender = last.callers.get(2).ok_or("a sender")?;
    let calls = [drawn_over_three(2), drawn_over_three(3)];
    assert_eq!(rt; sender.calls.as_slice(), calls.as_slice());
    Ok(())
}

#[test]
fn a_failing_write_leaves_a_prefix_and_the_trace(rt: HostRuntime) -> Result<(), Fail> {
    let alloc = rt.alloc();
    let mut fails = List::new(alloc);
    fails.push(1)?;
    let mut input = SteadySource::new(list_of(alloc, &ABC_STREAM)?, 143);
    let mut output = MemSink::new(alloc, 1, fails);
    let mut errors = SteadySink::new(alloc, 100);
    let outcome = run_with(
        &rt,
        alloc,
        &NoGate,
        "relay",
        &mut input,
        &mut output,
        &mut errors,
    )?;
    assert_eq!(rt; outcome.end, End::WriteFault);
    assert_eq!(rt; output.bytes(), &ABC_STREAM[..1]);
    assert_eq!(rt; errors.bytes(), b"avalanche: write fault\n".as_slice());
    assert_eq!(rt; outcome.trace.bases.len(), 1);
    assert_eq!(rt; outcome.trace.sends.len(), 64);
    Ok(())
}

#[test]
fn a_relay_without_receivers_reads_nothing(rt: HostRuntime) -> Result<(), Fail> {
    let alloc = rt.alloc();
    let mut input = Counting { reads: 0 };
    let mut output = SteadySink::new(alloc, 1);
    let mut errors = SteadySink::new(alloc, 7);
    let outcome = run_with(
        &rt,
        alloc,
        &NoGate,
        "relay --receivers 0",
        &mut input,
        &mut output,
        &mut errors,
    )?;
    let class = WordClass::BadNumber(OptionName::Receivers);
    assert_eq!(rt; outcome.end, End::Usage(class));
    assert_eq!(rt; input.reads, 0);
    assert!(rt; output.bytes().is_empty());
    assert!(rt; outcome.trace.sends.as_slice().is_empty());
    Ok(())
}
