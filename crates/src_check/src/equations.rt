//! The equations of a ticket.
ghost use Rattle.std.specs.Prelude.{◌≡◌, ◌*◌, ◌≤◌, IfOk, length};
ghost use Rattle.linear_spec.specs.Passing.{AreEquations};
ghost use Rattle.generation.specs.Shape.{generations_of};
ghost use Rattle.src_check.specs.Tickets.{AreEquationsOf};

use crate::weights::weights_of_checks;
use generation::{Shape, Ticket};
use gf16::Memory;
use linear_spec::Equations;
use std::alloc::Global;

/// The equations of a ticket for a file of this shape: the weights of its key, and its sums.
pub fn make_equations(alloc: Global, shape: &Shape, ticket: &Ticket) -> Result<Equations, Memory>
    requires checks { ticket.now.checks ≤ 8 }
    requires sums { length ticket.now.sums ≡ generations_of shape.now * ticket.now.checks * shape.now.k }
    ensures value { IfOk result (AreEquationsOf shape.now ticket.now) }
    ensures lists { IfOk result AreEquations }
{
    let s = shape.symbols_per_block();
    let weights = weights_of_checks(alloc, &ticket.key, s, ticket.checks)?;
    let sums = ticket.sums.copy(alloc)?;
    // Laws for the proof: the calls do nothing.
    weights.is_vector();
    sums.is_vector();
    Ok(Equations {
        checks: ticket.checks,
        k: shape.k(),
        s,
        generations: shape.generations(),
        weights,
        sums,
    })
}
