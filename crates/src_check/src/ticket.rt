//! Tickets made of a file's blocks.
ghost use Rattle.std.specs.Prelude.{◌≡◌, ◌*◌, ◌<◌, ◌≤◌, ◌++◌, IfOk, OnOk, length, map};
ghost use Rattle.std.specs.List.{All, flat_map, range_with_len};
ghost use Rattle.gf16.specs.Sums.{dot_of};
ghost use Rattle.linear_spec.specs.Symbols.{IsVector};
ghost use Rattle.generation.specs.Shape.{generations_of, symbols_per_block};
ghost use Rattle.src_check.specs.Tickets.{IsTicketOf, generation_blocks_of};
ghost use Rattle.src_check.specs.Weights.{sums_by};

use crate::passing::{LANES, piece};
use crate::weights::weights_of_checks;
use generation::{Shape, Ticket};
use gf_lanes::dot;
use gf16::Memory;
use linear_spec::{List, SymVec};
use std::alloc::Global;

/// The ticket of a file by this key: for each generation and check, the weighted sum of each block.
pub fn make_ticket(
    alloc: Global,
    shape: &Shape,
    file: &[u8],
    key: [u8; 32],
    checks: u8,
) -> Result<Ticket, Memory>
    requires file { length file.now ≡ shape.now.len }
    requires checks { checks ≤ 8 }
    ensures key { IfOk result (λ ticket. ticket.key ≡ key) }
    ensures checks { IfOk result (λ ticket. ticket.checks ≡ checks) }
    ensures sums { IfOk result (IsTicketOf shape.now file.now) }
    ensures vector { IfOk result (λ ticket. IsVector (generations_of shape.now * checks * shape.now.k) ticket.sums) }
{
    let s = shape.symbols_per_block();
    let weights = weights_of_checks(alloc, &key, s, checks)?;
    let mut sums = List::new(alloc);
    for g in 0..shape.generations() {
        let blocks = generation_blocks(alloc, shape, file, g)?;
        append_generation_sums(weights.as_slice(), s, checks, &blocks, &mut sums)?;
    }
    let sums = SymVec::from_slice(alloc, sums.as_slice())?;
    // A law for the proof: the call does nothing.
    sums.is_vector();
    Ok(Ticket { key, checks, sums })
}

/// The blocks of a generation.
#[tactic(auto, unfolding(crate::specs::Tickets::generation_blocks_of))]
fn generation_blocks(
    alloc: Global,
    shape: &Shape,
    file: &[u8],
    g: u16,
) -> Result<List<SymVec>, Memory>
    requires file { length file.now ≡ shape.now.len }
    requires generation { g < generations_of shape.now }
    ensures blocks { IfOk result (λ blocks. blocks.items ≡ generation_blocks_of shape.now file.now g) }
    ensures vectors { IfOk result (λ blocks. All (IsVector (symbols_per_block shape.now)) blocks.items) }
{
    let mut blocks = List::new(alloc);
    for i in 0..shape.k() {
        let block = shape.symbols(alloc, file, g, i)?;
        blocks.push(block)?;
    }
    Ok(blocks)
}

/// Appends the sums of blocks of `s` symbols, check after check. The weights stand check after check.
#[tactic(auto, using(crate::proofs::Places::pieces_more), unfolding(crate::specs::Weights::sums_by))]
fn append_generation_sums(
    weights: &[u16],
    s: u16,
    checks: u8,
    blocks: &List<SymVec>,
    sums: &mut List<u16>,
) -> Result<(), Memory>
    requires weights { length weights.now ≡ checks * s }
    requires blocks { All (IsVector s) blocks.now.items }
    ensures { OnOk result (sums.new.items
        ≡ sums.old.items ++ flat_map (sums_by weights.now s blocks.now.items) (range_with_len 0 checks)) }
{
    for check in 0..checks {
        let check_weights = piece(weights, usize::from(check), usize::from(s));
        append_check_sums(check_weights, blocks, sums)?;
    }
    Ok(())
}

/// Appends the weighted sum of each block.
fn append_check_sums(
    weights: &[u16],
    blocks: &List<SymVec>,
    sums: &mut List<u16>,
) -> Result<(), Memory>
    requires { All (IsVector (length weights.now)) blocks.now.items }
    ensures { OnOk result (sums.new.items ≡ sums.old.items ++ map (dot_of weights.now) blocks.now.items) }
{
    for block in blocks.as_slice() {
        let sum = dot::<LANES>(weights, block.as_slice());
        sums.push(sum.0)?;
    }
    Ok(())
}
