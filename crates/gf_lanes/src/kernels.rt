//! The kernels of one width of vectors.
ghost use Rattle.std.specs.Prelude.{◌≡◌, length};
ghost use Rattle.gf16.specs.Sums.{plus_scaled, scaled, dot_of};
ghost use Rattle.gf_lanes.specs.Lanes.{IsLaneCount};

use gf16::{Gf, Kernel};

/// The kernels of vectors of 8, 16 or 32 lanes.
#[derive(Clone, Copy, Debug)]
pub struct Lanes<const LANES: usize>;

impl Kernel for Lanes<8> {
    fn add_scaled(dst: &mut [u16], factor: Gf, src: &[u16]) {
        add_scaled::<8>(dst, factor, src);
    }

    fn scale(dst: &mut [u16], factor: Gf) {
        scale::<8>(dst, factor);
    }
}

impl Kernel for Lanes<16> {
    fn add_scaled(dst: &mut [u16], factor: Gf, src: &[u16]) {
        add_scaled::<16>(dst, factor, src);
    }

    fn scale(dst: &mut [u16], factor: Gf) {
        scale::<16>(dst, factor);
    }
}

impl Kernel for Lanes<32> {
    fn add_scaled(dst: &mut [u16], factor: Gf, src: &[u16]) {
        add_scaled::<32>(dst, factor, src);
    }

    fn scale(dst: &mut [u16], factor: Gf) {
        scale::<32>(dst, factor);
    }
}

/// Adds to each symbol of `dst` the symbol of `src` at its place times `c`.
pub fn add_scaled<const LANES: usize>(dst: &mut [u16], c: Gf, src: &[u16])
    requires lanes { IsLaneCount LANES }
    requires lengths { length src.now ≡ length dst.old }
    ensures { dst.new ≡ plus_scaled dst.old c.0 src.now }
{
    gf16::add_scaled(dst, c, src);
}

/// Multiplies each symbol of `dst` by `c`.
pub fn scale<const LANES: usize>(dst: &mut [u16], c: Gf)
    requires lanes { IsLaneCount LANES }
    ensures { dst.new ≡ scaled c.0 dst.old }
{
    gf16::scale(dst, c);
}

/// The sum of the products of the symbols of `a` and `b` at the same places: 0 where there are none.
pub fn dot<const LANES: usize>(a: &[u16], b: &[u16]) -> Gf
    requires lanes { IsLaneCount LANES }
    requires lengths { length b.now ≡ length a.now }
    ensures { result.0 ≡ dot_of a.now b.now }
{
    gf16::dot(a, b)
}
