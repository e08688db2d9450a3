//! The pollution of polluted draws.
ghost use Rattle.std.specs.Prelude.{◌≡◌, ◌≤◌, length};
ghost use Rattle.recode.specs.Draws.{pollution_of, polluted_packet};

use crate::coefficients::{draw_rng, low_half};
use gf16::Gf;
use linear_spec::Packet;
use rand_core::utils::NextWord;

/// Adds the change of a polluted draw to the first symbol of the payload, and touches nothing else of `out`. Takes no memory.
pub fn pollute(key: &[u8; 32], link: u32, q: u32, out: &mut Packet)
    requires { 1 ≤ length out.old.payload }
    ensures { out.new ≡ polluted_packet key.now link q out.old }
{
    let change = Gf(pollution(key, link, q));
    let payload = out.payload.as_mut_slice();
    payload[0] = Gf(payload[0]).add(change).0;
}

/// What a polluted draw adds, which is not zero.
#[tactic(auto, unfolding(crate::specs::Draws::pollution_of, crate::specs::Draws::draw_word))]
fn pollution(key: &[u8; 32], link: u32, q: u32) -> u16
    ensures { result ≡ pollution_of key.now link q }
{
    let symbol = low_half(draw_rng(key, link, q, 255).next_word());
    if symbol == 0 { 1 } else { symbol }
}
