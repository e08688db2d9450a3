//! Kernels over slices of symbols.
ghost use Rattle.std.specs.Prelude.{◌≡◌, length, slice_set};
ghost use Rattle.benchmarks.specs.Turns.{sums_of, turn_of};
ghost use Rattle.gf_lanes.specs.Lanes.{IsLaneCount};

use gf_lanes::{add_scaled, dot, scale};
use gf16::Gf;

/// What is timed.
#[derive(Clone, Copy, Debug, PartialEq, Eq)]
pub enum Kernel {
    /// A multiple is added.
    AddScaled,
    /// All symbols are multiplied.
    Scale,
    /// A sum of products becomes the first symbol.
    Dot,
    /// A vector is added, by exclusive or alone: the measure of the others.
    Xor,
}

impl Kernel {
    /// The kernel of a name, or `None` where it is none's.
    pub fn named(name: &str) -> Option<Kernel> {
        match name {
            "add_scaled" => Some(Kernel::AddScaled),
            "scale" => Some(Kernel::Scale),
            "dot" => Some(Kernel::Dot),
            "xor" => Some(Kernel::Xor),
            _ => None,
        }
    }

    /// One turn on `dst`.
    pub fn turn<const LANES: usize>(self, dst: &mut [u16], c: Gf, src: &[u16])
        requires lanes { IsLaneCount LANES }
        requires lengths { length src.now ≡ length dst.old }
        ensures { dst.new ≡ turn_of self c.0 dst.old src.now }
    {
        match self {
            Kernel::AddScaled => add_scaled::<LANES>(dst, c, src),
            Kernel::Scale => scale::<LANES>(dst, c),
            Kernel::Dot => {
                let sum = dot::<LANES>(dst, src);
                set_first(dst, sum);
            }
            Kernel::Xor => add(dst, src),
        }
    }
}

fn set_first(dst: &mut [u16], symbol: Gf)
    ensures { dst.new ≡ slice_set dst.old 0 symbol.0 }
{
    if !dst.is_empty() {
        dst[0] = symbol.0;
    }
}

fn add(dst: &mut [u16], src: &[u16])
    requires { length src.now ≡ length dst.old }
    ensures { dst.new ≡ sums_of dst.old src.now }
{
    for (i, symbol) in dst.iter_mut().enumerate() {
        *symbol ^= src[i];
    }
}
