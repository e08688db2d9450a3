//! The packets that carry the blocks themselves.
ghost use Rattle.std.specs.Prelude.{◌≡◌, ◌<◌, IfOk, length};
ghost use Rattle.linear_spec.specs.Packet.{Fits};
ghost use Rattle.linear_spec.specs.Symbols.{IsVector};
ghost use Rattle.linear_spec.specs.UnitVector.{unit_of};
ghost use Rattle.generation.specs.Shape.{generations_of, symbols_per_block};
ghost use Rattle.recode.specs.Systematic.{systematic_packet};

use generation::Shape;
use gf16::Memory;
use linear_spec::{Packet, SymVec};
use std::alloc::Global;

/// The packet of column `i` of generation `g`: block `i` itself, S symbols, under the K unit coefficients of its column. The only
/// error is that memory is wanting.
pub fn systematic(
    alloc: Global,
    shape: &Shape,
    file: &[u8],
    g: u16,
    i: u16,
) -> Result<Packet, Memory>
    requires file { length file.now ≡ shape.now.len }
    requires generation { g < generations_of shape.now }
    requires block { i < shape.now.k }
    ensures value { IfOk result (λ packet. packet ≡ systematic_packet shape.now file.now g i) }
    ensures fits { IfOk result (Fits shape.now.k (symbols_per_block shape.now)) }
{
    let coeffs = unit(alloc, shape.k(), i)?;
    let payload = shape.symbols(alloc, file, g, i)?;
    Ok(Packet {
        generation: g,
        coeffs,
        payload,
    })
}

/// The unit vector of a column.
fn unit(alloc: Global, k: u16, column: u16) -> Result<SymVec, Memory>
    requires { column < k }
    ensures value { IfOk result (λ v. v ≡ unit_of k column) }
    ensures vector { IfOk result (IsVector k) }
{
    let mut coeffs = SymVec::zeros(alloc, usize::from(k))?;
    coeffs.as_mut_slice()[usize::from(column)] = 1;
    // A law for the proof: the call does nothing.
    coeffs.is_vector();
    Ok(coeffs)
}
