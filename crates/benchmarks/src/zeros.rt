//! A source of zeros.
ghost use Rattle.std.specs.Prelude.{◌≡◌, ◌≤◌, IfOk, length, replicate};

use crate::work::total;
use gf16::Memory;
use std::alloc::Global;

/// Symbols that are overwritten by zeros, turn after turn.
#[derive(Clone, Copy, Debug, PartialEq, Eq)]
pub struct Zeros {
    symbols: usize,
    turns: u32,
    ghost some_turns: { 1 ≤ turns },
}

impl Zeros {
    /// The work that words name, or `None` where they name none: one turn or more. Of an odd number of bytes the last is
    /// left out.
    pub fn named(bytes: &str, turns: &str) -> Option<Zeros> {
        let symbols = bytes.parse::<usize>().ok()? / 2;
        let turns = turns.parse::<u32>().ok()?;
        if turns < 1 {
            return None;
        }
        Some(Zeros { symbols, turns })
    }

    /// The sum of all symbols after the work. At first they are ones.
    pub fn sum_after(&self, alloc: Global) -> Result<u16, Memory>
        ensures { IfOk result (λ sum. sum ≡ 0) }
    {
        let mut symbols = Vec::from_elem(alloc, 1u16, self.symbols)?;
        Ok(overwritten_sum(&mut symbols, self.turns))
    }
}

/// The sum of symbols that are overwritten first.
fn overwritten_sum(symbols: &mut [u16], turns: u32) -> u16
    requires { 1 ≤ turns }
    ensures { result ≡ 0 }
{
    overwrite(symbols, turns);
    total(symbols)
}

/// Writes zeros over all symbols, turn after turn.
fn overwrite(symbols: &mut [u16], turns: u32)
    requires { 1 ≤ turns }
    ensures { symbols.new ≡ replicate (length symbols.old) 0 }
{
    for _turn in 0..turns {
        symbols.fill(0);
    }
}
