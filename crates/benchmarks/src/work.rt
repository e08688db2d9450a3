//! A job over slices of symbols, and its checksum.
ghost use Rattle.std.specs.Prelude.{◌≡◌, length, IfOk};
ghost use Rattle.gf16.specs.Field.{total_of};
ghost use Rattle.gf_lanes.specs.Lanes.{IsLaneCount};
ghost use Rattle.benchmarks.specs.Turns.{after_turns, spread_symbols, sum_after};

use crate::kernel::Kernel;
use gf16::{Gf, Memory};
use std::alloc::Global;

/// Turns of a kernel over vectors of `symbols` symbols, with vectors of `lanes` lanes.
#[derive(Clone, Copy, Debug, PartialEq, Eq)]
pub struct Work {
    pub kernel: Kernel,
    pub lanes: Lanes,
    pub symbols: usize,
    pub turns: u32,
}

/// The widths of the kernels.
#[derive(Clone, Copy, Debug, PartialEq, Eq)]
pub enum Lanes {
    Eight,
    Sixteen,
    ThirtyTwo,
}

impl Lanes {
    fn named(name: &str) -> Option<Lanes> {
        match name {
            "8" => Some(Lanes::Eight),
            "16" => Some(Lanes::Sixteen),
            "32" => Some(Lanes::ThirtyTwo),
            _ => None,
        }
    }
}

impl Work {
    /// The work that words name, or `None` where they name none. Of an odd number of bytes the last is left out.
    pub fn named(kernel: &str, lanes: &str, bytes: &str, turns: &str) -> Option<Work> {
        Some(Work {
            kernel: Kernel::named(kernel)?,
            lanes: Lanes::named(lanes)?,
            symbols: bytes.parse::<usize>().ok()? / 2,
            turns: turns.parse().ok()?,
        })
    }

    /// The sum of all symbols after the work.
    #[tactic(auto, unfolding(crate::specs::Turns::sum_after))]
    pub fn sum_after(&self, alloc: Global) -> Result<u16, Memory>
        ensures { IfOk result (λ sum. sum ≡ sum_after self.now.kernel self.now.turns self.now.symbols) }
    {
        let mut dst = spread(alloc, self.symbols, 1)?;
        let src = spread(alloc, self.symbols, 40503)?;
        self.take_all_turns(&mut dst, &src);
        Ok(total(&dst))
    }

    fn take_all_turns(&self, dst: &mut [u16], src: &[u16])
        requires { length src.now ≡ length dst.old }
        ensures { dst.new ≡ after_turns self.now.kernel self.now.turns dst.old src.now }
    {
        match self.lanes {
            Lanes::Eight => take_turns::<8>(self.kernel, self.turns, dst, src),
            Lanes::Sixteen => take_turns::<16>(self.kernel, self.turns, dst, src),
            Lanes::ThirtyTwo => take_turns::<32>(self.kernel, self.turns, dst, src),
        }
    }
}

/// Symbols of many values: `factor` times each place, cut to 16 bits.
#[tactic(auto, unfolding(crate::specs::Turns::spread_symbols), using(crate::proofs::TurnLemmas::spread_more))]
fn spread(alloc: Global, len: usize, factor: u16) -> Result<Vec<u16>, Memory>
    ensures symbols { IfOk result (λ symbols. symbols.items ≡ spread_symbols factor len) }
    ensures len { IfOk result (λ symbols. length symbols.items ≡ len) }
{
    let mut symbols = Vec::with_capacity(alloc, len)?;
    for place in 0..len {
        symbols.push(factor.wrapping_mul((place % 65536) as u16))?;
    }
    Ok(symbols)
}

#[tactic(auto, using(crate::proofs::TurnLemmas::after_turns_none, crate::proofs::TurnLemmas::after_turns_more))]
fn take_turns<const LANES: usize>(kernel: Kernel, turns: u32, dst: &mut [u16], src: &[u16])
    requires lanes { IsLaneCount LANES }
    requires lengths { length src.now ≡ length dst.old }
    ensures { dst.new ≡ after_turns kernel turns dst.old src.now }
{
    for turn in 0..turns {
        let factor = (turn % 65535 + 1) as u16;
        kernel.turn::<LANES>(dst, Gf(factor), src);
    }
}

#[tactic(auto, using(crate::proofs::Sums::total_more))]
pub fn total(symbols: &[u16]) -> u16
    ensures { result ≡ total_of symbols.now }
{
    let mut sum = 0;
    for symbol in symbols {
        sum ^= *symbol;
    }
    sum
}
