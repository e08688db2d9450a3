//! Offers, looks, draws and closings by one thread and by several, against answers that were worked out by hand.
ghost use Rattle.std.specs.Prelude.{◌≡◌, ◌<◌, ◌≤◌, ◌+◌, length, IfOk};
ghost use Rattle.linear_spec.specs.Packet.{Fits};
ghost use Rattle.table_rows.specs.Worked.{IsSmall};
ghost use Rattle.shared_basis.specs.Passes.{IsNewPass, IsPassOf};

use super::*;
use basis_core::{Answer, BasisTrace, CallerOffers, Event, Replayed, merge, replay_if_fit};
use gf16::{Gf, Memory};
use linear_spec::{Drawn, Equations, List, Packet, Record, Reply};
use std::alloc::Global;
use std::test::Fail;
use std::thread::{Threads, join};

/// A new basis for packets of two coefficients and one symbol, and its two passes.
fn small_basis(alloc: Global, room: u32) -> Result<(SharedBasis, Pass, Pass), Memory>
    ensures small { IfOk result (λ made. IsSmall made.0.parameters) }
    ensures generation { IfOk result (λ made. made.0.parameters.generation ≡ 0) }
    ensures first { IfOk result (λ made. IsNewPass made.0 0 room made.1) }
    ensures second { IfOk result (λ made. IsNewPass made.0 1 room made.2) }
{
    let equations = Equations::without_checks(alloc, 2, 1, 1)?;
    let params = Params {
        peer: 0,
        generation: 0,
        k: 2,
        s: 1,
    };
    let Created { basis, mut passes } = SharedBasis::create(alloc, &params, &equations, 2, room)?;
    let second = passes.pop().unwrap();
    let first = passes.pop().unwrap();
    Ok((basis, first, second))
}

/// A packet of two coefficients and one symbol.
fn packet(alloc: Global, coeffs: [u16; 2], symbol: u16) -> Result<Packet, Memory>
    ensures { IfOk result (λ packet. Fits 2 1 packet × (packet.generation ≡ 0)) }
{
    let packet = Packet::from_slices(alloc, 0, &coeffs, &[symbol])?;
    linear_spec::laws::packet_fits(&packet);
    Ok(packet)
}

/// Offers a packet with a pass of a small basis.
fn offer(basis: &SharedBasis, pass: &mut Pass, packet: &Packet) -> Reply
    requires basis { IsSmall basis.now.parameters × (basis.now.parameters.generation ≡ 0) }
    requires pass { IsPassOf basis.now pass.old × (0 < pass.old.spare) }
    requires packet { Fits 2 1 packet.now × (packet.now.generation ≡ 0) }
    ensures pass { IsPassOf basis.now pass.new × (pass.new.number ≡ pass.old.number) }
    ensures room { pass.old.spare ≤ pass.new.spare + 1 }
{
    basis.offer(pass, 0, packet)
}

/// Offers a packet in a thread of its own, and gives the pass back.
fn offered(basis: &SharedBasis, mut pass: Pass, packet: &Packet) -> (Reply, Pass)
    requires basis { IsSmall basis.now.parameters × (basis.now.parameters.generation ≡ 0) }
    requires pass { IsPassOf basis.now pass × (0 < pass.spare) }
    requires packet { Fits 2 1 packet.now × (packet.now.generation ≡ 0) }
    ensures pass { IsPassOf basis.now result.1 × (result.1.number ≡ pass.number) }
{
    let reply = offer(basis, &mut pass, packet);
    (reply, pass)
}

/// Closes a small basis.
fn closed(alloc: Global, basis: SharedBasis, first: Pass, second: Pass) -> Result<Closed, Memory>
    requires basis { IsSmall basis.parameters }
    requires first { IsPassOf basis first × (first.number ≡ 0) }
    requires second { IsPassOf basis second × (second.number ≡ 1) }
{
    let mut passes = List::new(alloc);
    passes.push(first)?;
    passes.push(second)?;
    let Ok(closed) = basis.close(alloc, passes) else {
        return Err(Memory);
    };
    Ok(closed)
}

/// Offers two packets in two threads, one with each pass.
fn offered_by_two<R: Threads>(
    rt: &R,
    basis: &SharedBasis,
    first: Pass,
    second: Pass,
    one: &Packet,
    other: &Packet,
) -> ((Reply, Pass), (Reply, Pass))
    requires basis { IsSmall basis.now.parameters × (basis.now.parameters.generation ≡ 0) }
    requires first { IsPassOf basis.now first × (0 < first.spare) }
    requires second { IsPassOf basis.now second × (0 < second.spare) }
    requires one { Fits 2 1 one.now × (one.now.generation ≡ 0) }
    requires other { Fits 2 1 other.now × (other.now.generation ≡ 0) }
    ensures first { IsPassOf basis.now result.0.1 × (result.0.1.number ≡ first.number) }
    ensures second { IsPassOf basis.now result.1.1 × (result.1.1.number ≡ second.number) }
{
    join(
        rt,
        || offered(basis, first, one),
        || offered(basis, second, other),
    )
}

/// What came of two offers: their replies, what either pass had seen once they had met, and the closed basis.
#[derive(Drop)]
struct Outcome {
    replies: (Reply, Reply),
    seen: (u16, u16),
    closed: Closed,
}

/// Offers two packets in two threads, lets the passes meet, and closes.
fn run_two<R: Threads>(
    rt: &R,
    alloc: Global,
    one: &Packet,
    other: &Packet,
) -> Result<Outcome, Memory>
    requires one { Fits 2 1 one.now × (one.now.generation ≡ 0) }
    requires other { Fits 2 1 other.now × (other.now.generation ≡ 0) }
{
    let (basis, first, second) = small_basis(alloc, 1)?;
    let (left, right) = offered_by_two(rt, &basis, first, second, one, other);
    let (reply, mut first) = left;
    let (answer, mut second) = right;
    basis.meet(&mut first, &mut second);
    let seen = (first.seen(), second.seen());
    let closed = closed(alloc, basis, first, second)?;
    Ok(Outcome {
        replies: (reply, answer),
        seen,
        closed,
    })
}

/// What a pass tells: its number, how many records it has seen, and for how many calls there is room.
fn told(pass: &Pass) -> (u32, u16, u32) {
    (pass.number(), pass.seen(), pass.spare())
}

/// What two new passes tell that have room for one call.
fn told_by_two(alloc: Global) -> Result<((u32, u16, u32), (u32, u16, u32)), Memory> {
    let (_, first, second) = small_basis(alloc, 1)?;
    Ok((told(&first), told(&second)))
}

/// What a look at a new basis answers, and how much room is left where room for three calls was asked for.
fn looked(alloc: Global) -> Result<(u16, u32), Memory> {
    let (basis, mut pass, _) = small_basis(alloc, 1)?;
    pass.reserve(3)?;
    let seen = basis.look(&mut pass);
    Ok((seen, pass.spare()))
}

/// The replies to two packets of a new basis.
fn replies(alloc: Global, one: &Packet, other: &Packet) -> Result<(Reply, Reply), Memory>
    requires one { Fits 2 1 one.now × (one.now.generation ≡ 0) }
    requires other { Fits 2 1 other.now × (other.now.generation ≡ 0) }
{
    let (basis, mut pass, _) = small_basis(alloc, 2)?;
    let reply = offer(&basis, &mut pass, one);
    Ok((reply, offer(&basis, &mut pass, other)))
}

/// Reads the packet and the row of the first record into the two packets, and answers which columns are missing.
fn read_back(
    basis: &SharedBasis,
    pass: &mut Pass,
    packet: &mut Packet,
    row: &mut Packet,
) -> [bool; 2]
    requires basis { IsSmall basis.now.parameters }
    requires pass { IsPassOf basis.now pass.old × (0 < length pass.old.seen) }
    requires packet { Fits 2 1 packet.old }
    requires row { Fits 2 1 row.old }
{
    basis.read_packet(pass, 0, packet);
    basis.read_row(pass, 0, row);
    let mut missing = [false; 2];
    basis.missing_columns(pass, &mut missing);
    missing
}

/// What is read again of a new basis on which this packet was recorded.
fn recorded(
    alloc: Global,
    packet: &Packet,
    read: &mut Packet,
    row: &mut Packet,
) -> Result<[bool; 2], Memory>
    requires packet { Fits 2 1 packet.now × (packet.now.generation ≡ 0) }
    requires read { Fits 2 1 read.old }
    requires row { Fits 2 1 row.old }
{
    let (basis, mut pass, _) = small_basis(alloc, 1)?;
    offer(&basis, &mut pass, packet);
    if pass.seen() == 0 {
        return Ok([true; 2]);
    }
    Ok(read_back(&basis, &mut pass, read, row))
}

/// What is drawn from a new basis before and after this packet was recorded, which is then added twice over to `out`.
fn drawn_and_added(
    alloc: Global,
    packet: &Packet,
    out: &mut Packet,
) -> Result<(Drawn, Drawn), Memory>
    requires packet { Fits 2 1 packet.now × (packet.now.generation ≡ 0) }
    requires out { Fits 2 1 out.old }
{
    let (basis, mut pass, _) = small_basis(alloc, 3)?;
    let before = basis.draw_front(&mut pass, 7);
    offer(&basis, &mut pass, packet);
    let after = basis.draw_front(&mut pass, 8);
    if pass.seen() > 0 {
        basis.add_packet(&mut pass, 0, Gf(2), out);
    }
    Ok((before, after))
}

/// Whether the record is of this caller's first call, and of the packet with these symbols.
fn is_record(record: &Record, caller: u32, coeffs: [u16; 2], symbol: u16) -> bool {
    record.caller == caller && record.call == 0 && holds(&record.packet, coeffs, symbol)
}

/// Whether the packet has these symbols.
fn holds(packet: &Packet, coeffs: [u16; 2], symbol: u16) -> bool {
    packet.coeffs.as_slice() == coeffs.as_slice()
        && packet.payload.as_slice() == [symbol].as_slice()
}

/// Replays events that are found to fit.
fn replayed(alloc: Global, events: &List<Event>) -> Result<Replayed, Fail> {
    if events.len() > 1000 {
        return Err("too many events")?;
    }
    Ok(replay_if_fit(alloc, 2, 1, events)?.ok_or("an event that does not fit")?)
}

/// What a trace of two callers does not keep: that each offered this packet, which passes.
fn offers_of(alloc: Global, offered: &Packet) -> Result<List<CallerOffers>, Memory> {
    let mut offers = List::new(alloc);
    for _ in 0..2 {
        let mut packets = List::new(alloc);
        let mut failed = List::new(alloc);
        packets.push(offered.copy(alloc)?)?;
        failed.push(None)?;
        offers.push(CallerOffers { packets, failed })?;
    }
    Ok(offers)
}

/// The merge of a closed basis in which both callers offered this packet.
fn merged(alloc: Global, closed: Closed, offered: &Packet) -> Result<List<Event>, Memory> {
    let basis = BasisTrace {
        peer: 0,
        generation: 0,
        records: closed.records,
        callers: closed.callers,
    };
    merge(alloc, &basis, &offers_of(alloc, offered)?)
}

/// The caller of an event.
fn caller_of(event: &Event) -> u32 {
    match event {
        Event::Offer { caller, .. } | Event::Draw { caller, .. } => *caller,
    }
}

const RECORDED: Reply = Reply::Innovative { at: 0 };

const RECORDED_NEXT: Reply = Reply::Innovative { at: 1 };

const NOTHING_NEW: Reply = Reply::NotInnovative { front: 1 };

#[test]
fn new_passes_have_seen_nothing(rt: HostRuntime) -> Result<(), Fail> {
    let ((number, seen, spare), second) = told_by_two(rt.alloc())?;
    assert_eq!(rt; (number, seen), (0, 0));
    assert!(rt; spare >= 1);
    assert_eq!(rt; (second.0, second.1), (1, 0));
    assert!(rt; second.2 >= 1);
    let (seen, spare) = looked(rt.alloc())?;
    assert_eq!(rt; seen, 0);
    assert!(rt; spare >= 3);
    Ok(())
}

/// Whether the closed basis has the record of each caller's packet, in this order or the other, and a second row (0, 1 | 0x6300).
fn has_both(closed: &Closed, first_won: bool) -> bool {
    let [record, next] = closed.records.as_slice() else {
        return false;
    };
    let [_, row] = closed.rows.as_slice() else {
        return false;
    };
    let (mine, others) = if first_won {
        (record, next)
    } else {
        (next, record)
    };
    is_record(mine, 0, [1, 1], 0x0262)
        && is_record(others, 1, [1, 2], 0xA762)
        && holds(row, [0, 1], 0x6300)
}

#[test]
fn two_threads_record_two_packets(rt: HostRuntime) -> Result<(), Fail> {
    let alloc = rt.alloc();
    let one = packet(alloc, [1, 1], 0x0262)?;
    let other = packet(alloc, [1, 2], 0xA762)?;
    let done = run_two(&rt, alloc, &one, &other)?;
    let first_won = done.replies == (RECORDED, RECORDED_NEXT);
    assert!(rt; first_won || done.replies == (RECORDED_NEXT, RECORDED));
    assert_eq!(rt; done.seen, (2, 2));
    assert!(rt; has_both(&done.closed, first_won));
    Ok(())
}

/// The callers of two events.
fn two_callers(events: &List<Event>) -> Option<(u32, u32)> {
    let [first, second] = events.as_slice() else {
        return None;
    };
    Some((caller_of(first), caller_of(second)))
}

#[test]
fn the_same_packet_is_recorded_once(rt: HostRuntime) -> Result<(), Fail> {
    let alloc = rt.alloc();
    let packet = packet(alloc, [1, 1], 0x0262)?;
    let done = run_two(&rt, alloc, &packet, &packet)?;
    let first_won = done.replies == (RECORDED, NOTHING_NEW);
    assert!(rt; first_won || done.replies == (NOTHING_NEW, RECORDED));
    assert_eq!(rt; done.seen, (1, 1));
    let events = merged(alloc, done.closed, &packet)?;
    let winner = if first_won { 0 } else { 1 };
    assert_eq!(rt; two_callers(&events), Some((winner, 1 - winner)));
    let run = replayed(alloc, &events)?;
    let kept = [Answer::Offered(RECORDED), Answer::Offered(NOTHING_NEW)];
    assert_eq!(rt; run.answers.as_slice(), kept.as_slice());
    assert_eq!(rt; run.records.len(), 1);
    let record = run.records.get(0).ok_or("a record")?;
    assert!(rt; is_record(record, winner, [1, 1], 0x0262));
    Ok(())
}

#[test]
fn packets_at_the_empty_front(rt: HostRuntime) -> Result<(), Fail> {
    let alloc = rt.alloc();
    let zero = packet(alloc, [0, 0], 0)?;
    let lone = packet(alloc, [0, 0], 1)?;
    let (nothing_new, conflicting) = replies(alloc, &zero, &lone)?;
    assert_eq!(rt; nothing_new, Reply::NotInnovative { front: 0 });
    assert_eq!(rt; conflicting, Reply::Conflicting { front: 0 });
    Ok(())
}

#[test]
fn a_recorded_packet_is_read_again(rt: HostRuntime) -> Result<(), Fail> {
    let alloc = rt.alloc();
    let unit = packet(alloc, [1, 0], 0x6162)?;
    let mut read = packet(alloc, [0, 0], 0)?;
    let mut row = packet(alloc, [0, 0], 0)?;
    let missing = recorded(alloc, &unit, &mut read, &mut row)?;
    assert!(rt; holds(&read, [1, 0], 0x6162) && holds(&row, [1, 0], 0x6162));
    assert!(rt; missing == [false, true]);
    Ok(())
}

#[test]
fn a_pass_draws_and_adds_a_packet(rt: HostRuntime) -> Result<(), Fail> {
    let alloc = rt.alloc();
    let offered = packet(alloc, [1, 1], 0x0262)?;
    let mut out = packet(alloc, [0, 0], 0)?;
    let drawn = drawn_and_added(alloc, &offered, &mut out)?;
    assert_eq!(rt; drawn, (Drawn::Nothing, Drawn::Sent { front: 1 }));
    assert!(rt; out.generation == 0 && holds(&out, [2, 2], 0x04C4));
    Ok(())
}
