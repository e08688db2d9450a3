//! Combinations of packets: each symbol of the result is the sum of the coefficients times the packets' symbols there.
ghost use Rattle.std.specs.Prelude.{◌≡◌, length};
ghost use Rattle.std.specs.List.{All};
ghost use Rattle.linear_spec.specs.Combination.{combination_of};
ghost use Rattle.linear_spec.specs.Packet.{Fits, coefficients_of, payloads_of};

use crate::{List, Packet};
use gf16::{Gf, Kernel, Plain};

/// Writes the combination of the packets with these coefficients, one for each packet, into `out`. Its generation stays.
/// All packets are as long as `out`, which says how long they are. Takes no memory.
pub fn combine(coeffs: &[u16], packets: &List<Packet>, out: &mut Packet)
    requires count { length coeffs.now ≡ length packets.now.items }
    requires fit { All (Fits (length out.old.coeffs) (length out.old.payload)) packets.now.items }
    ensures coeffs { out.new.coeffs ≡ combination_of (length out.old.coeffs) coeffs.now (coefficients_of packets.now.items) }
    ensures payload { out.new.payload ≡ combination_of (length out.old.payload) coeffs.now (payloads_of packets.now.items) }
    ensures generation { out.new.generation ≡ out.old.generation }
{
    combine_with::<Plain>(coeffs, packets, out);
}

/// The same by a kernel.
pub fn combine_with<A: Kernel>(coeffs: &[u16], packets: &List<Packet>, out: &mut Packet)
    requires count { length coeffs.now ≡ length packets.now.items }
    requires fit { All (Fits (length out.old.coeffs) (length out.old.payload)) packets.now.items }
    ensures coeffs { out.new.coeffs ≡ combination_of (length out.old.coeffs) coeffs.now (coefficients_of packets.now.items) }
    ensures payload { out.new.payload ≡ combination_of (length out.old.payload) coeffs.now (payloads_of packets.now.items) }
    ensures generation { out.new.generation ≡ out.old.generation }
{
    gf16::laws::field();
    out.clear();
    let packets = packets.as_slice();
    for (i, coeff) in coeffs.iter().enumerate() {
        out.add_scaled::<A>(Gf(*coeff), &packets[i]);
    }
}
