//! The packets of a stream, received by threads on shared bases, and the file that they determine.
ghost use Rattle.std.specs.Prelude.{◌≡◌, ◌<◌, ◌≤◌, ◌^◌, length, take, IfOk, IfErr, OnOk};
ghost use Rattle.std.specs.List.{All};
ghost use Rattle.sha2.specs.Sha256.{sha256};
ghost use Rattle.generation.specs.Shape.{IsShape, symbols_per_block};
ghost use Rattle.packet_wire.specs.Stream.{IsManifest, IsPacket, IsTicket};
ghost use Rattle.avalanche_cli.specs.Files.{IsOnlyFileOf};
ghost use Rattle.avalanche_cli.specs.Reception.{AppendsSolution, HasAtMost, HaveShape, IsClosedBasis, IsFull, IsJudged, IsShort, IsStop, packets_in, traces_of};
ghost use Rattle.avalanche_cli.specs.Trace.{IsLegalFetch};

use crate::Trace;
use back_subst::solve;
use basis_core::BasisTrace;
use digest_file::digest;
use generation::{Shape, Ticket};
use gf16::Memory;
use linear_spec::{List, Packet};
use packet_wire::Manifest;
use receive_pass::Gate;
use shared_basis::Closed;
use shared_reception::receive_packets;
use src_check::make_equations;
use std::alloc::Global;
use std::thread::Threads;

/// Why a stream's packets give no file.
#[derive(Clone, Copy, Debug, PartialEq, Eq)]
pub(crate) enum NoFile {
    /// The packets of this generation that pass do not determine its blocks: they have this rank. Those of each generation
    /// before it do.
    Incomplete { generation: u16, rank: u16 },
    /// The file of the solved blocks has another digest than the manifest says: the one found.
    Mismatch { found: [u8; 32] },
    /// Memory was wanted and refused.
    Memory,
}

impl From<Memory> for NoFile {
    ghost use Rattle.std.specs.Prelude.{◌≡◌};
    ghost use Rattle.avalanche_cli.specs.declared.reception.NoFile.TheVariants.{Memory as OutOfMemory};

    ghost from_gives = { λ _ reason. reason ≡ OutOfMemory };

    fn from(_want: Memory) -> NoFile {
        NoFile::Memory
    }
}

/// What receiving the packets of a stream gave: the calls and records, and the file with the manifest's digest, or why
/// there is none.
#[derive(Debug, Drop)]
pub(crate) struct Reception {
    pub trace: Trace,
    pub file: Result<List<u8>, NoFile>,
}

/// Receives the packets of a stream on the bases of their generations, which the receivers share, and solves its file.
///
/// Want of memory while packets are received is the error. While the file is solved it is the reason why there is none, and
/// the trace is there.
pub(crate) fn receive<R: Threads + Sync, G: Gate>(
    rt: &R,
    alloc: Global,
    gate: &G,
    manifest: &Manifest,
    ticket: &Ticket,
    packets: List<Packet>,
    receivers: u32,
) -> Result<Reception, Memory>
    requires manifest { IsManifest manifest.now }
    requires ticket { IsTicket manifest.now.shape ticket.now }
    requires packets { All (IsPacket manifest.now.shape) packets.items }
    requires few { length packets.items < 2 ^ 32 }
    requires some { 1 ≤ receivers }
    requires at_most { receivers ≤ 8 }
    ensures legal { IfOk result (λ r. IsLegalFetch receivers
        (record { manifest = manifest.now; ticket = ticket.now; packets = packets.items }) r.trace) }
    ensures judged { IfOk result (λ r. IsJudged
        (record { manifest = manifest.now; ticket = ticket.now; packets = packets.items }) r.trace r.file) }
{
    let equations = make_equations(alloc, &manifest.shape, ticket)?;
    let bases = receive_packets(rt, alloc, gate, &equations, packets, receivers)?;
    basis_core::laws::records();
    basis_core::laws::callers();
    basis_core::laws::calls();
    linear_spec::laws::spans();
    linear_spec::laws::ranks();
    let file = solved(rt, alloc, manifest, &bases);
    let traces = traces_of(alloc, bases)?;
    let trace = Trace {
        bases: traces,
        sends: List::new(alloc),
    };
    Ok(Reception { trace, file })
}

/// What is kept of the bases of all generations.
pub(crate) fn traces_of(alloc: Global, mut bases: List<Closed>) -> Result<List<BasisTrace>, Memory>
    requires { length bases.items ≤ 256 }
    ensures { IfOk result (λ traces. traces.items ≡ traces_of 0 bases.items) }
{
    let mut traces = List::new(alloc);
    traces.reserve(bases.len())?;
    while let Some(basis) = bases.pop() {
        traces.put(BasisTrace {
            peer: 0,
            generation: bases.len() as u16,
            records: basis.records,
            callers: basis.callers,
        });
    }
    traces.as_mut_slice().reverse();
    Ok(traces)
}

/// The file of the records of all bases, where it has the manifest's digest.
fn solved<R: Threads + Sync>(
    rt: &R,
    alloc: Global,
    manifest: &Manifest,
    bases: &List<Closed>,
) -> Result<List<u8>, NoFile>
    requires { HaveShape manifest.now.shape bases.now.items }
    ensures full { OnOk result (All (IsFull manifest.now.shape.k) bases.now.items) }
    ensures file { IfOk result (λ file. IsOnlyFileOf manifest.now.shape (packets_in bases.now.items) file.items) }
    ensures digest { IfOk result (λ file. sha256 file.items ≡ manifest.now.digest) }
    ensures stop { IfErr result (IsStop manifest.now bases.now.items) }
{
    all_full(manifest.shape.k(), bases)?;
    let file = joined(rt, alloc, &manifest.shape, bases)?;
    let found = digest(file.as_slice());
    if found != manifest.digest {
        return Err(NoFile::Mismatch { found });
    }
    Ok(file)
}

/// Tests whether each basis has as many records as a generation has blocks.
fn all_full(k: u16, bases: &List<Closed>) -> Result<(), NoFile>
    requires at_most { All (HasAtMost k) bases.now.items }
    requires few { length bases.now.items ≤ 256 }
    ensures full { OnOk result (All (IsFull k) bases.now.items) }
    ensures short { IfErr result (IsShort k bases.now.items) }
{
    for (generation, basis) in bases.as_slice().iter().enumerate() {
        let rank = rank_of(k, basis);
        if rank < k {
            return Err(NoFile::Incomplete {
                generation: generation as u16,
                rank,
            });
        }
    }
    Ok(())
}

/// The number of records of a basis, which is the rank of their coefficients.
fn rank_of(k: u16, basis: &Closed) -> u16
    requires { HasAtMost k basis.now }
    ensures { result ≡ length basis.now.records.items }
{
    let _ = k;
    basis.records.len() as u16
}

/// The file of the blocks that solve the records of all bases, which are full.
#[tactic(auto, unfolding(generation::specs::Blocks::file_of))]
fn joined<R: Threads + Sync>(
    rt: &R,
    alloc: Global,
    shape: &Shape,
    bases: &List<Closed>,
) -> Result<List<u8>, Memory>
    requires shape { HaveShape shape.now bases.now.items }
    requires full { All (IsFull shape.now.k) bases.now.items }
    ensures { IfOk result (λ file. IsOnlyFileOf shape.now (packets_in bases.now.items) file.items) }
{
    let len = shape.len() as usize;
    let mut file = List::new(alloc);
    file.reserve(len + usize::from(shape.k()) * usize::from(shape.block()))?;
    for basis in bases.as_slice() {
        append_solved(rt, alloc, shape, basis, &mut file)?;
    }
    cut(&mut file, len);
    linear_spec::laws::bytes_spell_symbols();
    Ok(file)
}

/// Appends the bytes of the blocks that solve a full basis.
fn append_solved<R: Threads + Sync>(
    rt: &R,
    alloc: Global,
    shape: &Shape,
    basis: &Closed,
    bytes: &mut List<u8>,
) -> Result<(), Memory>
    requires shape { IsShape shape.now }
    requires basis { IsClosedBasis shape.now.k (symbols_per_block shape.now) basis.now }
    requires full { IsFull shape.now.k basis.now }
    ensures { OnOk result (AppendsSolution shape.now.k (symbols_per_block shape.now) basis.now bytes.old.items bytes.new.items) }
{
    let _ = shape;
    let blocks = solve(rt, alloc, basis)?;
    for block in blocks.as_slice() {
        block.append_be_bytes(bytes)?;
    }
    Ok(())
}

/// Drops the bytes past a length.
fn cut(bytes: &mut List<u8>, len: usize)
    ensures { bytes.new.items ≡ take len bytes.old.items }
{
    while bytes.len() > len {
        let _past = bytes.pop();
    }
}
