//! Tables of shared words, filled by one thread.
ghost use Rattle.std.specs.Prelude.{◌≡◌, ◌*◌, ◌≤◌, IfOk};
ghost use Rattle.linear_spec.specs.Passing.{AreEquations};
ghost use Rattle.table_rows.specs.Layout.{basis_length};

use gf16::Memory;
use linear_spec::{Equations, SymVec};
use std::alloc::Global;
use table_rows::{BasisTable, words_of_basis};

/// Tables that are made one after another, each of a basis with no checks.
#[derive(Clone, Copy, Debug, PartialEq, Eq)]
pub struct Tables {
    k: u16,
    s: u16,
    passes: u32,
    turns: u32,
    ghost some_blocks: { (1 ≤ k) × (k ≤ 64) },
    ghost some_passes: { (1 ≤ passes) × (passes ≤ 16) },
}

impl Tables {
    /// The tables that words name, or `None` where they name none: `k` is from 1 to 64, and `passes` from 1 to 16.
    pub fn named(k: &str, s: &str, passes: &str, turns: &str) -> Option<Tables> {
        let k = k.parse::<u16>().ok()?;
        let s = s.parse::<u16>().ok()?;
        let passes = passes.parse::<u32>().ok()?;
        let turns = turns.parse::<u32>().ok()?;
        if k < 1 || k > 64 || passes < 1 || passes > 16 {
            return None;
        }
        Some(Tables {
            k,
            s,
            passes,
            turns,
        })
    }

    /// The number of words of all tables. Each is dropped before the next is made.
    pub fn words_made(&self, alloc: Global) -> Result<u64, Memory>
        ensures { IfOk result (λ n. n ≡ self.now.turns * basis_length self.now.k self.now.s self.now.passes) }
    {
        let equations = no_checks(alloc, self.k, self.s)?;
        let mut words = 0;
        for _turn in 0..self.turns {
            BasisTable::make(alloc, 0, self.k, self.s, self.passes, &equations)?;
            words += words_of_basis(self.k, self.s, self.passes);
        }
        Ok(words)
    }
}

/// Equations with no checks, for one generation.
pub(crate) fn no_checks(alloc: Global, k: u16, s: u16) -> Result<Equations, Memory>
    ensures equations { IfOk result AreEquations }
    ensures shape { IfOk result (λ e. (e.k ≡ k) × (e.s ≡ s) × (e.generations ≡ 1)) }
{
    Ok(Equations {
        checks: 0,
        k,
        s,
        generations: 1,
        weights: SymVec::zeros(alloc, 0)?,
        sums: SymVec::zeros(alloc, 0)?,
    })
}
