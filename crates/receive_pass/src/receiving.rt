//! One packet tested and offered.
ghost use Rattle.std.specs.Prelude.{◌≡◌, ◌<◌, ◌≤◌, ◌+◌, ◌*◌, length};
ghost use Rattle.basis_core.specs.Calls.{KeptOffer, point_of_reply};
ghost use Rattle.basis_core.specs.Legal.{IsAnsweredOver};
ghost use Rattle.table_rows.specs.Views.{width_of};
ghost use Rattle.shared_basis.specs.Passes.{HasCalled, IsAtFront, IsFor, IsPassOf, SeesOn};

use linear_spec::{Equations, Packet, Reply};
use shared_basis::{Pass, SharedBasis};
use src_check::first_failed;

/// Tests a packet against the basis's equations, and offers it where it passes. It is answered `FailedCheck` exactly where a
/// check fails, with the first that does.
pub fn receive(
    basis: &SharedBasis,
    pass: &mut Pass,
    equations: &Equations,
    tag: u64,
    packet: &Packet,
) -> Reply
    requires pass { IsPassOf basis.now pass.old }
    requires equations { basis.now.parameters.equations.value ≡ equations.now }
    requires packet { IsFor basis.now.parameters packet.now }
    requires room { 0 < pass.old.spare }
    ensures prefix { SeesOn pass.old pass.new }
    ensures call { HasCalled pass.old pass.new (KeptOffer tag packet.now result) }
    ensures answered { IsAnsweredOver equations.now pass.new.seen (KeptOffer tag packet.now result) }
    ensures point { length pass.old.seen ≤ point_of_reply result }
    ensures front { IsAtFront pass.old pass.new packet.now result }
    ensures moves { pass.new.moves ≤ pass.old.moves + basis.now.parameters.k + 1 }
    ensures reads { pass.new.reads ≤ pass.old.reads + length pass.new.seen * width_of basis.now.parameters }
{
    basis.is_basis();
    match first_failed(equations, packet) {
        Some(check) => basis.refuse(pass, tag, packet, check),
        None => basis.offer(pass, tag, packet),
    }
}
