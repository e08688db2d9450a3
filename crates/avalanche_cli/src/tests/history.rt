//! Receivers in threads, and the one history that is kept of them.
ghost use Rattle.std.specs.Prelude.{◌<◌, IfOk};
ghost use Rattle.linear_spec.specs.Packet.{Fits};

use super::fetching::stream_of;
use super::*;
use basis_core::{BasisTrace, CallerOffers, CallerTrace, Event, Replayed, merge, replay_if_fit};
use linear_spec::{Packet, Record, SymVec};
use plain_basis::PlainBasis;
use std::hint::spin_loop;
use std::sync::atomic::{AtomicBool, AtomicU32, Ordering};

/// Holds each receiver at its first packet until two are there at once, or its patience is over, and knows who came.
#[derive(Drop)]
struct MeetingGate {
    inside: AtomicU32,
    met: AtomicBool,
    first_came: AtomicBool,
    second_came: AtomicBool,
}

const PATIENCE: u64 = 100_000_000;

impl Gate for MeetingGate {
    fn before(&self, caller: u32, call: u32) {
        match caller {
            0 => self.first_came.store(true, Ordering::SeqCst),
            1 => self.second_came.store(true, Ordering::SeqCst),
            _ => {}
        }
        if self.inside.fetch_add(1, Ordering::SeqCst) == 1 {
            self.met.store(true, Ordering::SeqCst);
        }
        for _turn in 0..PATIENCE {
            if call > 0 || self.met.load(Ordering::SeqCst) {
                return;
            }
            spin_loop();
        }
    }

    fn after(&self, _caller: u32, _call: u32) {
        self.inside.fetch_sub(1, Ordering::SeqCst);
    }
}

/// Whether both receivers came, and were inside at once, while the command of a line ran to its end.
fn both_meet<R: Threads + Sync>(rt: &R, alloc: Global, line: &str) -> Result<bool, Fail> {
    let gate = MeetingGate {
        inside: AtomicU32::new(0),
        met: AtomicBool::new(false),
        first_came: AtomicBool::new(false),
        second_came: AtomicBool::new(false),
    };
    let mut input = SteadySource::new(list_of(alloc, &ABC_STREAM)?, 50);
    let mut output = SteadySink::new(alloc, 2);
    let mut errors = SteadySink::new(alloc, 1);
    let outcome = run_with(rt, alloc, &gate, line, &mut input, &mut output, &mut errors)?;
    let both_came = gate.first_came.load(Ordering::SeqCst)
        && gate.second_came.load(Ordering::SeqCst);
    Ok(outcome.end == End::Done && both_came && gate.met.load(Ordering::SeqCst))
}

#[test]
fn both_receivers_are_inside_at_once(rt: HostRuntime) -> Result<(), Fail> {
    let alloc = rt.alloc();
    for line in ["fetch", "relay --coded 0"] {
        assert!(rt; both_meet(&rt, alloc, line)?, "{line}");
    }
    Ok(())
}

/// Packets that are true to the blocks 0x6162 and 0x6300.
const TRUE_PACKETS: [[u16; 3]; 9] = [
    [1, 0, 0x6162],
    [1, 1, 0x0262],
    [2, 0, 0xC2C4],
    [0, 0, 0],
    [1, 2, 0xA762],
    [2, 2, 0x04C4],
    [0, 1, 0x6300],
    [1, 1, 0x0262],
    [0, 2, 0xC600],
];

fn packet_of(alloc: Global, symbols: &[u16; 3]) -> Result<Packet, Memory>
    ensures { IfOk result (Fits 2 1) }
{
    let packet = Packet {
        generation: 0,
        coeffs: SymVec::from_slice(alloc, &symbols[..2])?,
        payload: SymVec::from_slice(alloc, &symbols[2..])?,
    };
    linear_spec::laws::packet_fits(&packet);
    Ok(packet)
}

/// What the packets that are dealt to a receiver say of its offers, none of which failed a check.
fn offers_of(alloc: Global, receivers: usize, receiver: usize) -> Result<CallerOffers, Memory>
    requires { 0 < receivers }
{
    let mut packets = List::new(alloc);
    let mut failed = List::new(alloc);
    for (index, symbols) in TRUE_PACKETS.iter().enumerate() {
        if index % receivers == receiver {
            packets.push(packet_of(alloc, symbols)?)?;
            failed.push(None)?;
        }
    }
    Ok(CallerOffers { packets, failed })
}

fn all_offers(alloc: Global, receivers: usize) -> Result<List<CallerOffers>, Memory>
    requires { 0 < receivers }
{
    let mut offers = List::new(alloc);
    for receiver in 0..receivers {
        offers.push(offers_of(alloc, receivers, receiver)?)?;
    }
    Ok(offers)
}

/// Replays events that are found to fit.
fn replayed(alloc: Global, events: &List<Event>) -> Result<Replayed, Fail> {
    if events.len() > 1000 {
        return Err("too many events")?;
    }
    Ok(replay_if_fit(alloc, 2, 1, events)?.ok_or("an event that does not fit")?)
}

/// The answer that was kept of the call that an event is, where the packets were dealt to so many receivers.
fn kept_answer(callers: &List<CallerTrace>, receivers: usize, event: &Event) -> Option<Answer>
    requires { 0 < receivers }
{
    let (Event::Offer { caller, tag, .. } | Event::Draw { caller, tag }) = event;
    let place = *tag as usize / receivers;
    let call = callers.get(*caller as usize)?.calls.get(place)?;
    if call.tag == *tag {
        Some(call.answer)
    } else {
        None
    }
}

fn is_same(a: &Record, b: &Record) -> bool {
    a.caller == b.caller
        && a.call == b.call
        && a.packet.coeffs.as_slice() == b.packet.coeffs.as_slice()
        && a.packet.payload.as_slice() == b.packet.payload.as_slice()
}

/// Whether what was kept of a basis is what the replay of its merge gives.
fn is_replayed(alloc: Global, receivers: usize, basis: &BasisTrace) -> Result<bool, Fail>
    requires { 0 < receivers }
{
    let offers = all_offers(alloc, receivers)?;
    let events = merge(alloc, basis, &offers)?;
    let done = replayed(alloc, &events)?;
    for (event, answer) in events.as_slice().iter().zip(done.answers.as_slice()) {
        if kept_answer(&basis.callers, receivers, event) != Some(*answer) {
            return Ok(false);
        }
    }
    let records = basis.records.as_slice().iter().zip(done.records.as_slice());
    for (record, again) in records {
        if !is_same(record, again) {
            return Ok(false);
        }
    }
    let complete = events.len() == TRUE_PACKETS.len() && done.answers.len() == TRUE_PACKETS.len();
    Ok(complete && done.records.len() == basis.records.len())
}

#[test]
fn the_merge_replays_to_what_was_kept(rt: HostRuntime) -> Result<(), Fail> {
    let alloc = rt.alloc();
    let stream = stream_of(alloc, &TRUE_PACKETS)?;
    let cases = [
        ("fetch --receivers 1", 1),
        ("fetch --receivers 2", 2),
        ("fetch --receivers 8", 8),
    ];
    for (line, receivers) in cases {
        for _round in 0..50 {
            let ran = run_line(&rt, alloc, line, stream.as_slice())?;
            assert_eq!(rt; ran.outcome.end, End::Done);
            assert_eq!(rt; ran.output.bytes(), b"abc".as_slice());
            let basis = ran.outcome.trace.bases.get(0).ok_or("a basis")?;
            assert_eq!(rt; basis.records.len(), 2);
            assert!(rt; is_replayed(alloc, receivers, basis)?);
        }
    }
    Ok(())
}

/// The bytes of the blocks that a plain basis solves of the same packets.
fn plainly_solved(alloc: Global) -> Result<List<u8>, Fail> {
    let mut basis = PlainBasis::new(alloc, 2, 1);
    for symbols in &TRUE_PACKETS {
        basis.offer(packet_of(alloc, symbols)?)?;
    }
    if basis.rank() != 2 {
        return Err("a basis that is not full")?;
    }
    let mut bytes = List::new(alloc);
    for block in basis.solve()?.as_slice() {
        block.append_be_bytes(&mut bytes)?;
    }
    Ok(bytes)
}

#[test]
fn a_plain_basis_gives_the_same_bytes(rt: HostRuntime) -> Result<(), Fail> {
    let alloc = rt.alloc();
    let stream = stream_of(alloc, &TRUE_PACKETS)?;
    let ran = run_line(&rt, alloc, "fetch --receivers 8", stream.as_slice())?;
    let bytes = plainly_solved(alloc)?;
    assert_eq!(rt; Some(ran.output.bytes()), bytes.as_slice().get(..3));
    Ok(())
}
