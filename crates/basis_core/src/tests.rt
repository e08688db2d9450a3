//! Tests of the merge of kept calls and of its replay.

use super::*;
use gf16::Memory;
use linear_spec::{Drawn, List, Packet, Record, Reply};
use std::alloc::Global;
use std::test::Fail;

/// A packet of two coefficients and one payload symbol.
fn packet(alloc: Global, coeffs: [u16; 2], symbol: u16) -> Result<Packet, Memory> {
    Packet::from_slices(alloc, 0, &coeffs, &[symbol])
}

/// The trace of one caller, from its tags and answers.
fn trace(alloc: Global, number: u32, calls: &[(u64, Answer)]) -> Result<CallerTrace, Memory> {
    let mut kept = List::new(alloc);
    for (tag, answer) in calls {
        kept.push(Call {
            tag: *tag,
            answer: *answer,
        })?;
    }
    Ok(CallerTrace {
        number,
        calls: kept,
    })
}

/// Replays events that are found to fit.
fn replayed(alloc: Global, events: &List<Event>) -> Result<Replayed, Fail> {
    if events.len() > 1000 {
        return Err("too many events")?;
    }
    Ok(replay_if_fit(alloc, 2, 1, events)?.ok_or("an event that does not fit")?)
}

/// The packets of a caller's offers, each by its coefficients and its symbol, and the checks that they failed.
fn offers(alloc: Global, rows: &[([u16; 2], u16, Option<u8>)]) -> Result<CallerOffers, Memory> {
    let mut packets = List::new(alloc);
    let mut failed = List::new(alloc);
    for (coeffs, symbol, check) in rows {
        packets.push(packet(alloc, *coeffs, *symbol)?)?;
        failed.push(*check)?;
    }
    Ok(CallerOffers { packets, failed })
}

fn tags(alloc: Global, events: &List<Event>) -> Result<List<u64>, Memory> {
    let mut tags = List::new(alloc);
    for event in events.as_slice() {
        let tag = match event {
            Event::Offer { tag, .. } => *tag,
            Event::Draw { tag, .. } => *tag,
        };
        tags.push(tag)?;
    }
    Ok(tags)
}

/// The replies that the tests expect.
const FRESH_0: Answer = Answer::Offered(Reply::Innovative { at: 0 });

const FRESH_1: Answer = Answer::Offered(Reply::Innovative { at: 1 });

const WITHIN_1: Answer = Answer::Offered(Reply::NotInnovative { front: 1 });

const OTHER_1: Answer = Answer::Offered(Reply::Conflicting { front: 1 });

const OTHER_2: Answer = Answer::Offered(Reply::Conflicting { front: 2 });

const FAILED_0: Answer = Answer::Offered(Reply::FailedCheck { check: 3, front: 0 });

const NOTHING: Answer = Answer::Drew(Drawn::Nothing);

const SENT_1: Answer = Answer::Drew(Drawn::Sent { front: 1 });

const SENT_2: Answer = Answer::Drew(Drawn::Sent { front: 2 });

/// The tags of the merged calls, and the replay.
fn outcome(
    alloc: Global,
    callers: List<CallerTrace>,
    offered: &List<CallerOffers>,
) -> Result<(List<u64>, Replayed), Fail> {
    let basis = BasisTrace {
        peer: 0,
        generation: 0,
        records: List::new(alloc),
        callers,
    };
    let events = merge(alloc, &basis, offered)?;
    let tags = tags(alloc, &events)?;
    let replayed = replayed(alloc, &events)?;
    Ok((tags, replayed))
}

/// The last record: its caller, its call, and its payload's symbol.
fn last_record(records: &List<Record>) -> Option<(u32, u32, u16)> {
    let record = records.as_slice().last()?;
    let symbol = record.packet.payload.as_slice().first()?;
    Some((record.caller, record.call, *symbol))
}

fn two_callers(alloc: Global) -> Result<List<CallerTrace>, Memory> {
    let mut callers = List::new(alloc);
    callers.push(trace(alloc, 0, &[(0, FRESH_0)])?)?;
    callers.push(trace(alloc, 1, &[(1, WITHIN_1)])?)?;
    Ok(callers)
}

fn two_offers(alloc: Global) -> Result<List<CallerOffers>, Memory> {
    let mut offered = List::new(alloc);
    offered.push(offers(alloc, &[([1, 1], 0x0262, None)])?)?;
    offered.push(offers(alloc, &[([1, 1], 0x0262, None)])?)?;
    Ok(offered)
}

#[test]
fn two_callers_offer_one_packet(rt: HostRuntime) -> Result<(), Fail> {
    let alloc = rt.alloc();
    let offered = two_offers(alloc)?;
    let (tags, done) = outcome(alloc, two_callers(alloc)?, &offered)?;
    assert_eq!(rt; tags.as_slice(), [0, 1].as_slice());
    assert_eq!(rt; done.answers.as_slice(), [FRESH_0, WITHIN_1].as_slice());
    assert_eq!(rt; done.records.len(), 1);
    assert_eq!(rt; last_record(&done.records), Some((0, 0, 0x0262)));
    Ok(())
}

fn three_callers(alloc: Global) -> Result<List<CallerTrace>, Memory> {
    let first = [(10, NOTHING), (11, FRESH_0), (12, SENT_2), (13, OTHER_2)];
    let second = [(20, FAILED_0), (21, WITHIN_1), (22, FRESH_1)];
    let third = [(30, NOTHING), (31, OTHER_1), (32, SENT_1)];
    let mut callers = List::new(alloc);
    callers.push(trace(alloc, 0, &first)?)?;
    callers.push(trace(alloc, 1, &second)?)?;
    callers.push(trace(alloc, 7, &third)?)?;
    Ok(callers)
}

fn three_offers(alloc: Global) -> Result<List<CallerOffers>, Memory> {
    let first = [([1, 1], 0x0262, None), ([1, 1], 0x0263, None)];
    let second = [
        ([1, 0], 1, Some(3)),
        ([2, 2], 0x04C4, None),
        ([0, 1], 0x6300, None),
    ];
    let third = [([1, 1], 0x0263, None)];
    let mut offered = List::new(alloc);
    offered.push(offers(alloc, &first)?)?;
    offered.push(offers(alloc, &second)?)?;
    offered.push(offers(alloc, &third)?)?;
    Ok(offered)
}

#[test]
fn three_callers_of_every_kind(rt: HostRuntime) -> Result<(), Fail> {
    let alloc = rt.alloc();
    let offered = three_offers(alloc)?;
    let (tags, done) = outcome(alloc, three_callers(alloc)?, &offered)?;
    assert_eq!(rt;
        tags.as_slice(),
        [10, 20, 30, 11, 21, 31, 32, 22, 12, 13].as_slice()
    );
    let answers = [
        NOTHING, FAILED_0, NOTHING, FRESH_0, WITHIN_1, OTHER_1, SENT_1, FRESH_1, SENT_2, OTHER_2,
    ];
    assert_eq!(rt; done.answers.as_slice(), answers.as_slice());
    assert_eq!(rt; done.records.len(), 2);
    assert_eq!(rt; last_record(&done.records), Some((1, 2, 0x6300)));
    Ok(())
}
