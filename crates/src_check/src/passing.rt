//! Which check a packet fails first.
ghost use Rattle.std.specs.Prelude.{◌≡◌, ◌↔◌, ℕ, Some, ◌+◌, ◌*◌, ◌<◌, ◌≤◌, IfSome, IsNone, IsTrue, length, take, drop};
ghost use Rattle.linear_spec.specs.Passing.{AreEquations, IsFirstFailing, IsTestable, Meets, Passes, sums_of, weights_of};

use gf_lanes::dot;
use linear_spec::{Equations, Packet};

/// The lanes of the sums.
pub(crate) const LANES: usize = 16;

/// The least check that the packet fails, or `None` where it passes. Takes no memory.
pub fn first_failed(equations: &Equations, packet: &Packet) -> Option<u8>
    requires { IsTestable equations.now packet.now }
    ensures fails { IfSome result (IsFirstFailing equations.now packet.now) }
    ensures first { (t : ℕ) → IsFirstFailing equations.now packet.now t → result ≡ Some t }
    ensures passes { IsNone result ↔ Passes equations.now packet.now }
{
    for check in 0..equations.checks {
        if !meets(equations, packet, check) {
            return Some(check);
        }
    }
    None
}

/// Whether the packet meets a check.
fn meets(equations: &Equations, packet: &Packet, check: u8) -> bool
    requires testable { IsTestable equations.now packet.now }
    requires check { check < equations.now.checks }
    ensures { IsTrue result ↔ Meets equations.now packet.now check }
{
    let weights = weights_of(equations, check);
    let sums = sums_of(equations, packet.generation, check);
    dot::<LANES>(weights, packet.payload.as_slice()) == dot::<LANES>(packet.coeffs.as_slice(), sums)
}

/// The weights of a check.
fn weights_of(equations: &Equations, check: u8) -> &[u16]
    requires equations { AreEquations equations.now }
    requires check { check < equations.now.checks }
    ensures value { result.now ≡ weights_of equations.now check }
    ensures length { length result.now ≡ equations.now.s }
{
    piece(
        equations.weights.as_slice(),
        usize::from(check),
        usize::from(equations.s),
    )
}

/// The sums of a check over the blocks of a generation.
#[tactic(auto, using(crate::proofs::Places::sums_within))]
fn sums_of(equations: &Equations, generation: u16, check: u8) -> &[u16]
    requires equations { AreEquations equations.now }
    requires generation { generation < equations.now.generations }
    requires check { check < equations.now.checks }
    ensures value { result.now ≡ sums_of equations.now generation check }
    ensures length { length result.now ≡ equations.now.k }
{
    let checks = usize::from(equations.checks);
    let line = usize::from(generation) * checks + usize::from(check);
    piece(equations.sums.as_slice(), line, usize::from(equations.k))
}

/// Piece number `at` of symbols that are cut into pieces of `len`.
pub(crate) fn piece(symbols: &[u16], at: usize, len: usize) -> &[u16]
    requires { at * len + len ≤ length symbols.now }
    ensures value { result.now ≡ take len (drop (at * len) symbols.now) }
    ensures length { length result.now ≡ len }
{
    let start = at * len;
    &symbols[start..start + len]
}
