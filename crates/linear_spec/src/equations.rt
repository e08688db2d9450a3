//! The equations of a ticket.
ghost use Rattle.std.specs.Prelude.{◌≡◌, [], IfOk};
ghost use Rattle.linear_spec.specs.Passing.{without_checks};

use crate::SymVec;
use gf16::Memory;
use std::alloc::Global;

/// The equations of a ticket, which packets are tested by: T checks of G generations of K blocks of S symbols.
///
/// The weights stand check by check, S symbols for each. The sums stand by generation, then by check, then by block.
#[derive(Debug, Drop)]
pub struct Equations {
    /// T.
    pub checks: u8,
    /// K.
    pub k: u16,
    /// S.
    pub s: u16,
    /// G.
    pub generations: u16,
    pub weights: SymVec,
    pub sums: SymVec,
}

impl Equations {
    /// The equations with no check, which every packet passes.
    pub fn without_checks(
        alloc: Global,
        k: u16,
        s: u16,
        generations: u16,
    ) -> Result<Equations, Memory>
        ensures { IfOk result (λ equations. equations ≡ without_checks k s generations) }
    {
        let weights = SymVec::zeros(alloc, 0)?;
        let sums = SymVec::zeros(alloc, 0)?;
        Ok(Equations {
            checks: 0,
            k,
            s,
            generations,
            weights,
            sums,
        })
    }
}
