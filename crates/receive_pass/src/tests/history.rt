//! Eight workers in threads, and the one history that they leave.
ghost use Rattle.std.specs.Prelude.{◌≡◌, ◌<◌, length, IfOk};
ghost use Rattle.std.specs.List.{All};
ghost use Rattle.linear_spec.specs.Passing.{AreEquations};
ghost use Rattle.receive_pass.specs.Workers.{HavePasses};
ghost use Rattle.receive_pass.specs.Worked.{AreNumbered, IsForPasses, HasPasses, IsOfFirst};

use super::making::{basis_with, make_equations, make_workers};
use crate::{NoGate, TaggedPacket, Worker, receive_all};
use basis_core::{
    Answer, BasisTrace, Call, CallerOffers, CallerTrace, Event, Replayed, merge, replay_if_fit,
};
use gf16::{Gf, Memory};
use linear_spec::{Equations, List, Packet, Record, Reply, SymVec};
use shared_basis::{Pass, SharedBasis};
use std::alloc::Global;
use std::test::Fail;
use std::thread::Threads;

const CALLERS: u32 = 8;

const EACH: u64 = 64;

const ROUNDS: u32 = 5;

/// The source: for each of two symbols, that symbol of 64 blocks.
#[derive(Drop)]
struct Source {
    first: [u16; 64],
    second: [u16; 64],
}

/// Writes symbols of a linear congruential generator.
fn randomize(symbols: &mut [u16], state: &mut u32) {
    for symbol in symbols.iter_mut() {
        *state = state.wrapping_mul(1_664_525).wrapping_add(1_013_904_223);
        *symbol = (*state >> 16) as u16;
    }
}

fn make_source(state: &mut u32) -> Source {
    let mut source = Source {
        first: [0; 64],
        second: [0; 64],
    };
    randomize(&mut source.first, state);
    randomize(&mut source.second, state);
    source
}

/// One symbol of a combination of the source's blocks.
fn combined(coeffs: &[u16], symbols: &[u16]) -> u16 {
    let mut sum = Gf(0);
    for (coeff, symbol) in coeffs.iter().zip(symbols) {
        sum = sum.add(Gf(*coeff).mul(Gf(*symbol)));
    }
    sum.0
}

/// Combinations of the source with coefficients from the generator, each with its place as its tag.
fn dense_inbox(
    alloc: Global,
    source: &Source,
    state: &mut u32,
) -> Result<List<TaggedPacket>, Memory> {
    let mut inbox = List::new(alloc);
    for tag in 0..EACH {
        let mut coeffs = [0; 64];
        randomize(&mut coeffs, state);
        let payload = [
            combined(&coeffs, &source.first),
            combined(&coeffs, &source.second),
        ];
        let packet = Packet {
            generation: 0,
            coeffs: SymVec::from_slice(alloc, &coeffs)?,
            payload: SymVec::from_slice(alloc, &payload)?,
        };
        inbox.push(TaggedPacket { tag, packet })?;
    }
    Ok(inbox)
}

fn dense_inboxes(alloc: Global, state: &mut u32) -> Result<List<List<TaggedPacket>>, Memory> {
    let source = make_source(state);
    let mut inboxes = List::new(alloc);
    for _caller in 0..CALLERS {
        inboxes.push(dense_inbox(alloc, &source, state)?)?;
    }
    Ok(inboxes)
}

/// What the packets of an inbox say of a caller's offers, none of which failed a check.
fn offers_of(alloc: Global, inbox: &List<TaggedPacket>) -> Result<CallerOffers, Memory> {
    let mut packets = List::new(alloc);
    let mut failed = List::new(alloc);
    for tagged in inbox.as_slice() {
        packets.push(tagged.packet.copy(alloc)?)?;
        failed.push(None)?;
    }
    Ok(CallerOffers { packets, failed })
}

/// The one pass of a worker.
fn pass_of(bases: &List<SharedBasis>, mut passes: List<Pass>) -> Result<Pass, Fail>
    requires one { length bases.now.items ≡ 1 }
    requires passes { HavePasses bases.now.items 0 passes.items }
    ensures { IfOk result (IsOfFirst bases.now.items) }
{
    let pass = passes.pop().ok_or("a pass")?;
    Ok(pass)
}

/// The passes of workers, which come by falling number, and their offers, both in the order of the numbers.
fn taken_apart(
    alloc: Global,
    bases: &List<SharedBasis>,
    mut workers: List<Worker>,
) -> Result<(List<Pass>, List<CallerOffers>), Fail>
    requires one { length bases.now.items ≡ 1 }
    requires workers { All (HasPasses bases.now.items) workers.items }
    ensures { IfOk result (λ taken. AreNumbered bases.now.items taken.0.items) }
{
    let mut passes = List::new(alloc);
    let mut offered = List::new(alloc);
    for _worker in 0..workers.len() {
        let worker = workers.pop().ok_or("a worker")?;
        offered.push(offers_of(alloc, &worker.inbox)?)?;
        let pass = pass_of(bases, worker.passes)?;
        if pass.number() as usize != passes.len() {
            return Err("a pass out of order")?;
        }
        passes.push(pass)?;
    }
    Ok((passes, offered))
}

fn close(
    alloc: Global,
    mut bases: List<SharedBasis>,
    passes: List<Pass>,
) -> Result<BasisTrace, Fail>
    requires one { length bases.items ≡ 1 }
    requires count { IsForPasses 8 bases.items }
    requires passes { AreNumbered bases.items passes.items }
{
    let basis = bases.pop().ok_or("a basis")?;
    if passes.len() != 8 {
        return Err("a pass is missing")?;
    }
    let Ok(closed) = basis.close(alloc, passes) else {
        return Err("no memory to close")?;
    };
    Ok(BasisTrace {
        peer: 0,
        generation: 0,
        records: closed.records,
        callers: closed.callers,
    })
}

/// Replays events that are found to fit.
fn replayed(alloc: Global, events: &List<Event>) -> Result<Replayed, Fail> {
    if events.len() > 1000 {
        return Err("too many events")?;
    }
    Ok(replay_if_fit(alloc, 64, 2, events)?.ok_or("an event that does not fit")?)
}

/// Lets eight workers receive, and closes: what was kept, its events in the order of the merge, and their replay.
fn received<R: Threads + Sync>(
    rt: &R,
    alloc: Global,
    equations: &Equations,
    state: &mut u32,
) -> Result<(BasisTrace, List<Event>, Replayed), Fail>
    requires equations { AreEquations equations.now }
    requires shape { (equations.now.k ≡ 64) × (equations.now.generations ≡ 1) }
{
    let (bases, passes) = basis_with(alloc, equations, CALLERS, 64)?;
    let inboxes = dense_inboxes(alloc, state)?;
    let mut workers = make_workers(alloc, equations, &bases, passes, inboxes)?;
    receive_all(rt, &NoGate, &bases, equations, &mut workers);
    let (passes, offered) = taken_apart(alloc, &bases, workers)?;
    let trace = close(alloc, bases, passes)?;
    let events = merge(alloc, &trace, &offered)?;
    let done = replayed(alloc, &events)?;
    Ok((trace, events, done))
}

/// The answer that was kept of the call that an event is.
fn kept_answer(callers: &List<CallerTrace>, event: &Event) -> Option<Answer> {
    let (Event::Offer { caller, tag, .. } | Event::Draw { caller, tag }) = event;
    let call = callers.get(*caller as usize)?.calls.get(*tag as usize)?;
    if call.tag == *tag {
        Some(call.answer)
    } else {
        None
    }
}

fn is_same(a: &Record, b: &Record) -> bool {
    a.caller == b.caller
        && a.call == b.call
        && a.packet.coeffs.as_slice() == b.packet.coeffs.as_slice()
        && a.packet.payload.as_slice() == b.packet.payload.as_slice()
}

#[test]
fn eight_workers_keep_one_history(rt: HostRuntime) -> Result<(), Fail> {
    let alloc = rt.alloc();
    let equations = make_equations(alloc, 0, 64, 2, &[], &[])?;
    let mut state = 2026;
    for _round in 0..ROUNDS {
        let (trace, events, done) = received(&rt, alloc, &equations, &mut state)?;
        assert_eq!(rt; events.len(), 512);
        assert_eq!(rt; done.answers.len(), 512);
        for (event, answer) in events.as_slice().iter().zip(done.answers.as_slice()) {
            assert_eq!(rt; kept_answer(&trace.callers, event), Some(*answer));
        }
        assert_eq!(rt; trace.records.len(), 64);
        assert_eq!(rt; done.records.len(), 64);
        let records = trace.records.as_slice().iter().zip(done.records.as_slice());
        for (record, replayed) in records {
            assert!(rt; is_same(record, replayed));
        }
    }
    Ok(())
}
