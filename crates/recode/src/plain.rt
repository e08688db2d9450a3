//! Draws over a list.
ghost use Rattle.std.specs.Prelude.{◌≡◌, ◌≤◌, length};
ghost use Rattle.std.specs.List.{All};
ghost use Rattle.linear_spec.specs.Packet.{Fits};
ghost use Rattle.recode.specs.Draws.{drawn_packet};

use crate::coefficients::draw_coefficients;
use gf_lanes::Lanes;
use linear_spec::{List, Packet, combine_with};

/// Draws over a list of 1 to 64 packets, all of the lengths and the generation of `out`: `out` becomes the combination of them with
/// the draw's coefficients. Takes no memory.
pub fn draw_plain(key: &[u8; 32], link: u32, q: u32, packets: &List<Packet>, out: &mut Packet)
    requires some { 1 ≤ length packets.now.items }
    requires few { length packets.now.items ≤ 64 }
    requires fit { All (Fits (length out.old.coeffs) (length out.old.payload)) packets.now.items }
    requires generation { All (λ packet. packet.generation ≡ out.old.generation) packets.now.items }
    ensures { out.new ≡ drawn_packet (length out.old.coeffs) (length out.old.payload) out.old.generation key.now link q packets.now.items }
{
    let mut coefficients = [0; 64];
    let coefficients = &mut coefficients[..packets.len()];
    draw_coefficients(key, link, q, coefficients);
    combine_with::<Lanes<16>>(coefficients, packets, out);
}
