//! Laws over the definitions alone: each is the contract of a function that does nothing but take other laws.
mod check_laws;
mod row_laws;
mod solving_laws;
mod span_laws;
mod vector_laws;

ghost use Rattle.std.specs.Prelude.{length};
ghost use Rattle.linear_spec.specs.Packet.{Fits};
ghost use Rattle.linear_spec.specs.SymbolLaws.{SymbolLaws};

use crate::Packet;
pub use check_laws::checks;
pub use row_laws::{decision, filling, missing_columns, one_case, ranks, reduction, rows};
pub use solving_laws::{solutions, solving};
pub use span_laws::{combinations, full_rank, spans};
pub use vector_laws::{changed_place, unit_vectors, vectors};

/// Symbols and their bytes determine each other.
pub fn bytes_spell_symbols()
    ensures { SymbolLaws }
{}

/// A packet of the type fits its own lengths.
pub fn packet_fits(packet: &Packet)
    ensures { Fits (length packet.now.coeffs) (length packet.now.payload) packet.now }
{
    packet.coeffs.is_vector();
    packet.payload.is_vector();
}
