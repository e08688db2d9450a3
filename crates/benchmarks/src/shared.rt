//! The same packets offered by threads to a shared basis.
ghost use Rattle.std.specs.Prelude.{◌≡◌, ◌*◌, ◌<◌, ◌≤◌, ◌^◌, ◌+◌, length, IfOk, OnOk, slice_index_or};
ghost use Rattle.std.specs.List.{All};
ghost use Rattle.linear_spec.specs.Passing.{AreEquations};
ghost use Rattle.receive_pass.specs.Workers.{IsReady};
ghost use Rattle.shared_basis.specs.Bases.{BasisValue};
ghost use Rattle.benchmarks.specs.Offers.{HasFirstPass, IsOffered, IsOnlyBasis, IsRoomyPassOf};

use crate::exchanges::{Exchanges, exchanges_of};
use crate::offers::Offers;
use crate::tables::no_checks;
use gf16::Memory;
use linear_spec::{Equations, List, Packet};
use receive_pass::{NoGate, TaggedPacket, Worker, receive_all};
use shared_basis::{Created, Params, Pass, SharedBasis};
use std::alloc::Global;
use std::thread::Threads;

/// Offers that are dealt in turn to the passes of a shared basis, each pass in a thread of its own.
#[derive(Clone, Copy, Debug, PartialEq, Eq)]
pub struct SharedOffers {
    offers: Offers,
    passes: u32,
    ghost some_passes: { (1 ≤ passes) × (passes ≤ 16) },
}

impl SharedOffers {
    /// The offers that words name, or `None` where they name none: `k` is from 1 to 64, and `passes` from 1 to 16.
    pub fn named(k: &str, s: &str, count: &str, passes: &str, turns: &str) -> Option<SharedOffers> {
        let offers = Offers::named(k, s, count, turns)?;
        let passes = passes.parse::<u32>().ok()?;
        if passes < 1 || passes > 16 {
            return None;
        }
        Some(SharedOffers { offers, passes })
    }

    /// The outcome of all turns together, each of which has a shared basis of its own.
    pub fn outcome<R: Threads + Sync>(&self, rt: &R, alloc: Global) -> Result<Outcome, Memory>
        ensures records { IfOk result (λ outcome. outcome.records ≤ self.now.offers.turns * self.now.offers.k) }
        ensures tried { IfOk result (λ outcome. outcome.exchanges.tried ≤ self.now.offers.turns * (self.now.passes * self.now.offers.k)) }
        ensures lost { IfOk result (λ outcome. outcome.exchanges.lost ≤ outcome.exchanges.tried) }
    {
        let equations = no_checks(alloc, self.offers.k, self.offers.s)?;
        let packets = self.offers.packets(alloc)?;
        let mut records = 0;
        let mut tried = 0;
        let mut lost = 0;
        for _turn in 0..self.offers.turns {
            let of_turn = shared_outcome(rt, alloc, &equations, self.passes, packets.as_slice())?;
            records += of_turn.records;
            tried += of_turn.exchanges.tried;
            lost += of_turn.exchanges.lost;
        }
        Ok(Outcome {
            records,
            exchanges: Exchanges { tried, lost },
        })
    }
}

/// What offers to a shared basis come to.
#[derive(Clone, Copy, Debug, PartialEq, Eq)]
pub struct Outcome {
    pub records: u64,
    pub exchanges: Exchanges,
}

/// The outcome of a new shared basis whose passes receive copies of these packets.
#[tactic(auto, using(crate::proofs::SharedLemmas::new_roomy, crate::proofs::SharedLemmas::first_received, crate::proofs::SharedLemmas::each_has_one))]
fn shared_outcome<R: Threads + Sync>(
    rt: &R,
    alloc: Global,
    equations: &Equations,
    passes: u32,
    packets: &[Packet],
) -> Result<Outcome, Memory>
    requires equations { AreEquations equations.now × (equations.now.generations ≡ 1) }
    requires blocks { (1 ≤ equations.now.k) × (equations.now.k ≤ 64) }
    requires passes { (1 ≤ passes) × (passes ≤ 16) }
    requires packets { All (IsOffered equations.now.k equations.now.s) packets.now }
    requires few { length packets.now < 2 ^ 16 }
    ensures records { IfOk result (λ outcome. outcome.records ≤ equations.now.k) }
    ensures tried { IfOk result (λ outcome. outcome.exchanges.tried ≤ passes * equations.now.k) }
    ensures lost { IfOk result (λ outcome. outcome.exchanges.lost ≤ outcome.exchanges.tried) }
{
    let params = Params {
        peer: 0,
        generation: 0,
        k: equations.k,
        s: equations.s,
    };
    let room = packets.len() as u32;
    let Created {
        basis,
        passes: list,
    } = SharedBasis::create(alloc, &params, equations, passes, room)?;
    let mut bases = List::new(alloc);
    bases.push(basis)?;
    let mut workers = workers_of(alloc, &bases, equations, list, packets)?;
    receive_all(rt, &NoGate, &bases, equations, &mut workers);
    // Counted before the look, by which a pass sees records without an exchange.
    let exchanges = exchanges_of(equations, &workers);
    let records = seen_by_first(&bases, &mut workers);
    Ok(Outcome {
        records: u64::from(records),
        exchanges,
    })
}

/// How many records of the first basis the first worker's pass sees at last.
fn seen_by_first(bases: &List<SharedBasis>, workers: &mut List<Worker>) -> u16
    requires { HasFirstPass bases.now.items workers.old.items }
    ensures { (basis : BasisValue) → result ≤ (slice_index_or bases.now.items 0 basis).parameters.k }
{
    let worker = &mut workers.as_mut_slice()[0];
    let pass = &mut worker.passes.as_mut_slice()[0];
    let seen = bases.as_slice()[0].look(pass);
    pass.has_seen();
    seen
}

/// A worker for each pass, with copies of the packets that are its by turns.
fn workers_of(
    alloc: Global,
    bases: &List<SharedBasis>,
    equations: &Equations,
    mut passes: List<Pass>,
    packets: &[Packet],
) -> Result<List<Worker>, Memory>
    requires basis { IsOnlyBasis equations.now bases.now.items }
    requires passes { All (IsRoomyPassOf bases.now.items (length packets.now)) passes.items }
    requires packets { All (IsOffered equations.now.k equations.now.s) packets.now }
    ensures count { IfOk result (λ workers. length workers.items ≡ length passes.items) }
    ensures ready { IfOk result (λ workers. All (IsReady equations.now bases.now.items) workers.items) }
{
    let count = passes.len();
    let mut workers = List::new(alloc);
    while let Some(pass) = passes.pop() {
        let inbox = dealt(
            alloc,
            equations.k,
            equations.s,
            packets,
            passes.len(),
            count,
        )?;
        let worker = worker_with(alloc, bases, equations, pass, inbox, packets.len())?;
        workers.push(worker)?;
    }
    Ok(workers)
}

/// A worker with one pass and this inbox.
fn worker_with(
    alloc: Global,
    bases: &List<SharedBasis>,
    equations: &Equations,
    pass: Pass,
    inbox: List<TaggedPacket>,
    room: usize,
) -> Result<Worker, Memory>
    requires basis { IsOnlyBasis equations.now bases.now.items }
    requires pass { IsRoomyPassOf bases.now.items room pass }
    requires few { length inbox.items ≤ room }
    requires inbox { All (λ tagged. IsOffered equations.now.k equations.now.s tagged.packet) inbox.items }
    ensures { IfOk result (IsReady equations.now bases.now.items) }
{
    let _ = bases;
    let _ = equations;
    let _ = room;
    let caller = pass.number();
    let mut passes = List::new(alloc);
    passes.push(pass)?;
    Ok(Worker {
        caller,
        passes,
        inbox,
    })
}

/// Copies of the packets at every so many places from a first one on.
fn dealt(
    alloc: Global,
    k: u16,
    s: u16,
    packets: &[Packet],
    first: usize,
    step: usize,
) -> Result<List<TaggedPacket>, Memory>
    requires step { 0 < step }
    requires packets { All (IsOffered k s) packets.now }
    ensures few { IfOk result (λ inbox. length inbox.items ≤ length packets.now) }
    ensures offered { IfOk result (λ inbox. All (λ tagged. IsOffered k s tagged.packet) inbox.items) }
{
    let mut inbox = List::new(alloc);
    for (place, packet) in packets.iter().enumerate() {
        if place % step == first {
            put_copy(alloc, k, s, &mut inbox, place as u64, packet)?;
        }
    }
    Ok(inbox)
}

/// Appends a copy of a packet, with this tag.
fn put_copy(
    alloc: Global,
    k: u16,
    s: u16,
    inbox: &mut List<TaggedPacket>,
    tag: u64,
    packet: &Packet,
) -> Result<(), Memory>
    requires packet { IsOffered k s packet.now }
    requires inbox { All (λ tagged. IsOffered k s tagged.packet) inbox.old.items }
    ensures length { OnOk result (length inbox.new.items ≡ length inbox.old.items + 1) }
    ensures inbox { OnOk result (All (λ tagged. IsOffered k s tagged.packet) inbox.new.items) }
{
    let _ = k;
    let _ = s;
    let packet = packet.copy(alloc)?;
    inbox.push(TaggedPacket { tag, packet })
}
