//! Equations, a basis with its passes, and workers with what they are to receive.
ghost use Rattle.std.specs.Prelude.{◌≡◌, ◌<◌, ◌≤◌, ◌*◌, length, IfOk, IsTrue};
ghost use Rattle.std.specs.List.{All};
ghost use Rattle.linear_spec.specs.Passing.{AreEquations};
ghost use Rattle.receive_pass.specs.Workers.{AreBases, IsReady, IsReceivable};
ghost use Rattle.receive_pass.specs.Worked.{IsForPasses, IsOfFirst};

use crate::{TaggedPacket, Worker};
use gf16::Memory;
use linear_spec::{Equations, List, Packet, SymVec};
use shared_basis::{Created, Params, Pass, SharedBasis};
use std::alloc::Global;
use std::test::Fail;

/// Equations for one generation.
pub fn make_equations(
    alloc: Global,
    checks: u8,
    k: u16,
    s: u16,
    weights: &[u16],
    sums: &[u16],
) -> Result<Equations, Memory>
    requires weights { length weights.now ≡ checks * s }
    requires sums { length sums.now ≡ checks * k }
    ensures equations { IfOk result AreEquations }
    ensures shape { IfOk result (λ e. (e.k ≡ k) × (e.s ≡ s) × (e.generations ≡ 1)) }
{
    let weights = SymVec::from_slice(alloc, weights)?;
    let sums = SymVec::from_slice(alloc, sums)?;
    weights.is_vector();
    sums.is_vector();
    Ok(Equations {
        checks,
        k,
        s,
        generations: 1,
        weights,
        sums,
    })
}

/// A basis for packets that these equations test, alone in a list, and its passes.
pub fn basis_with(
    alloc: Global,
    equations: &Equations,
    passes: u32,
    room: u32,
) -> Result<(List<SharedBasis>, List<Pass>), Memory>
    requires passes { (1 ≤ passes) × (passes ≤ 16) }
    requires shape { (1 ≤ equations.now.k) × (equations.now.k ≤ 64) × (equations.now.generations ≡ 1) }
    requires equations { AreEquations equations.now }
    ensures bases { IfOk result (λ made. AreBases equations.now made.0.items) }
    ensures one { IfOk result (λ made. length made.0.items ≡ 1) }
    ensures count { IfOk result (λ made. IsForPasses passes made.0.items) }
    ensures passes { IfOk result (λ made. All (IsOfFirst made.0.items) made.1.items) }
{
    let params = Params {
        peer: 0,
        generation: 0,
        k: equations.k,
        s: equations.s,
    };
    let Created { basis, passes } = SharedBasis::create(alloc, &params, equations, passes, room)?;
    let mut bases = List::new(alloc);
    bases.push(basis)?;
    Ok((bases, passes))
}

/// Packets of two coefficients and one symbol, each with its place as its tag.
pub fn make_inbox(alloc: Global, rows: &[([u16; 2], u16)]) -> Result<List<TaggedPacket>, Memory> {
    let mut inbox = List::new(alloc);
    for (place, (coeffs, symbol)) in rows.iter().enumerate() {
        let packet = Packet {
            generation: 0,
            coeffs: SymVec::from_slice(alloc, coeffs)?,
            payload: SymVec::from_slice(alloc, &[*symbol])?,
        };
        inbox.push(TaggedPacket {
            tag: place as u64,
            packet,
        })?;
    }
    Ok(inbox)
}

fn is_receivable(equations: &Equations, bases: &List<SharedBasis>, tagged: &TaggedPacket) -> bool
    ensures { IsTrue result → IsReceivable equations.now bases.now.items tagged.now }
{
    let packet = &tagged.packet;
    linear_spec::laws::packet_fits(packet);
    packet.coeffs.len() == usize::from(equations.k)
        && packet.payload.len() == usize::from(equations.s)
        && usize::from(packet.generation) < bases.len()
}

fn all_receivable(equations: &Equations, bases: &List<SharedBasis>, inbox: &[TaggedPacket]) -> bool
    ensures { IsTrue result → All (IsReceivable equations.now bases.now.items) inbox.now }
{
    for tagged in inbox {
        if !is_receivable(equations, bases, tagged) {
            return false;
        }
    }
    true
}

/// A worker with one pass, where that has room for the whole inbox and each packet may be received.
pub fn make_worker(
    alloc: Global,
    equations: &Equations,
    bases: &List<SharedBasis>,
    pass: Pass,
    inbox: List<TaggedPacket>,
) -> Result<Worker, Fail>
    requires bases { AreBases equations.now bases.now.items }
    requires one { length bases.now.items ≡ 1 }
    requires pass { IsOfFirst bases.now.items pass }
    ensures { IfOk result (IsReady equations.now bases.now.items) }
{
    if !all_receivable(equations, bases, inbox.as_slice()) {
        return Err("a packet that does not fit")?;
    }
    if (pass.spare() as usize) < inbox.len() {
        return Err("a pass with too little room")?;
    }
    let caller = pass.number();
    let mut passes = List::new(alloc);
    passes.push(pass)?;
    Ok(Worker {
        caller,
        passes,
        inbox,
    })
}

/// A worker for each pass, the last one first, with the inbox at the pass's place.
pub fn make_workers(
    alloc: Global,
    equations: &Equations,
    bases: &List<SharedBasis>,
    mut passes: List<Pass>,
    mut inboxes: List<List<TaggedPacket>>,
) -> Result<List<Worker>, Fail>
    requires bases { AreBases equations.now bases.now.items }
    requires one { length bases.now.items ≡ 1 }
    requires passes { All (IsOfFirst bases.now.items) passes.items }
    ensures { IfOk result (λ workers. All (IsReady equations.now bases.now.items) workers.items) }
{
    let mut workers = List::new(alloc);
    for _worker in 0..passes.len() {
        let pass = passes.pop().ok_or("a pass")?;
        let inbox = inboxes.pop().ok_or("an inbox")?;
        let worker = make_worker(alloc, equations, bases, pass, inbox)?;
        workers.push(worker)?;
    }
    Ok(workers)
}
