//! The case of a packet, as rows tell it.
ghost use Rattle.std.specs.Prelude.{IfOk};
ghost use Rattle.linear_spec.specs.Told.{AreRowsFor, Tells};

use crate::reduction::{inverse_of_first, is_zero, reduce};
use crate::{List, Packet};
use gf16::{Kernel, Memory};
use std::alloc::Global;

/// What a packet is after others that rows stand for.
#[derive(Debug, Drop)]
pub enum Case {
    /// No combination of the others has its coefficients. Its row stands for it after them.
    Fresh(Packet),
    /// It is a combination of the others.
    Within,
    /// Combinations of the others have its coefficients, and none has its payload as well.
    Conflicting,
}

/// The case of a packet after the packets that the rows stand for. The row takes memory of `alloc`.
pub fn examine<A: Kernel>(
    alloc: Global,
    rows: &List<Packet>,
    packet: &Packet,
) -> Result<Case, Memory>
    requires { AreRowsFor packet.now rows.now.items }
    ensures { IfOk result (Tells rows.now.items packet.now) }
{
    gf16::laws::field();
    let mut row = packet.copy(alloc)?;
    reduce::<A>(&mut row, rows);
    match inverse_of_first(row.coeffs.as_slice()) {
        Some(inverse) => {
            row.scale::<A>(inverse);
            Ok(Case::Fresh(row))
        }
        None => {
            if is_zero(row.payload.as_slice()) {
                Ok(Case::Within)
            } else {
                Ok(Case::Conflicting)
            }
        }
    }
}
