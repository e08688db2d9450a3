//! Packets reduced by rows, as Gaussian elimination does it, and the first symbol that is not 0.
ghost use Rattle.std.specs.Prelude.{◌≡◌, ◌<◌, ◌↔◌, length, replicate, slice_index, IsTrue, MatchOption};
ghost use Rattle.std.specs.List.{All};
ghost use Rattle.gf16.specs.Field.{product_of};
ghost use Rattle.gf16.specs.Sums.{plus_scaled};
ghost use Rattle.linear_spec.specs.Packet.{Fits, vector_of};
ghost use Rattle.linear_spec.specs.Rows.{pivot_of, first_nonzero, remainder_of};

use crate::{List, Packet};
use gf16::{Gf, Kernel};

/// Reduces a packet by rows of its lengths, row after row.
pub fn reduce<A: Kernel>(packet: &mut Packet, rows: &List<Packet>)
    requires fit { All (Fits (length packet.old.coeffs) (length packet.old.payload)) rows.now.items }
    requires pivots { All (λ row. pivot_of row < length packet.old.coeffs) rows.now.items }
    ensures vector { vector_of packet.new ≡ remainder_of rows.now.items (vector_of packet.old) }
    ensures coeffs { length packet.new.coeffs ≡ length packet.old.coeffs }
    ensures payload { length packet.new.payload ≡ length packet.old.payload }
    ensures generation { packet.new.generation ≡ packet.old.generation }
{
    let rows = rows.as_slice();
    for row in rows {
        reduce_by::<A>(packet, row);
    }
}

/// Subtracts from a packet the row times the packet's coefficient at the row's pivot. Here to subtract is to add.
pub fn reduce_by<A: Kernel>(packet: &mut Packet, row: &Packet)
    requires coeffs { length row.now.coeffs ≡ length packet.old.coeffs }
    requires payload { length row.now.payload ≡ length packet.old.payload }
    requires pivot { pivot_of row.now < length row.now.coeffs }
    ensures vector { vector_of packet.new ≡ plus_scaled (vector_of packet.old) (slice_index (vector_of packet.old) (pivot_of row.now)) (vector_of row.now) }
    ensures coeffs { length packet.new.coeffs ≡ length packet.old.coeffs }
    ensures payload { length packet.new.payload ≡ length packet.old.payload }
    ensures generation { packet.new.generation ≡ packet.old.generation }
{
    if let Some(pivot) = place_of_first(row.coeffs.as_slice()) {
        let factor = Gf(packet.coeffs.as_slice()[pivot]);
        packet.add_scaled::<A>(factor, row);
    }
}

/// The inverse of the first symbol that is not 0, or `None` where all are.
pub fn inverse_of_first(symbols: &[u16]) -> Option<Gf>
    ensures { MatchOption result (symbols.now ≡ replicate (length symbols.now) 0) (λ inverse. product_of (slice_index symbols.now (first_nonzero symbols.now)) inverse.0 ≡ 1) }
{
    let place = place_of_first(symbols)?;
    Gf(symbols[place]).inv()
}

/// Whether all symbols are 0.
pub fn is_zero(symbols: &[u16]) -> bool
    ensures { IsTrue result ↔ (symbols.now ≡ replicate (length symbols.now) 0) }
{
    symbols.iter().all(|symbol| *symbol == 0)
}

/// The place of the first symbol that is not 0, or `None` where all are.
pub fn place_of_first(symbols: &[u16]) -> Option<usize>
    ensures { MatchOption result (symbols.now ≡ replicate (length symbols.now) 0) (λ place. (place ≡ first_nonzero symbols.now) × (place < length symbols.now)) }
{
    symbols.iter().position(|symbol| *symbol != 0)
}
