//! Kernels over slices of symbols: the plain loops, symbol by symbol, and the trait of whatever does the same faster.
ghost use Rattle.std.specs.Prelude.{◌≡◌, length};
ghost use Rattle.gf16.specs.Sums.{plus_scaled, scaled, dot_of};

use crate::Gf;

/// What adds multiples of slices and multiplies them, as the plain loops do.
pub trait Kernel {
    /// Adds to each symbol of `dst` the symbol of `src` at its place times `factor`.
    fn add_scaled(dst: &mut [u16], factor: Gf, src: &[u16])
        requires { length src.now ≡ length dst.old }
        ensures { dst.new ≡ plus_scaled dst.old factor.0 src.now };

    /// Multiplies each symbol of `dst` by `factor`.
    fn scale(dst: &mut [u16], factor: Gf)
        ensures { dst.new ≡ scaled factor.0 dst.old };
}

/// The plain loops as a kernel.
#[derive(Clone, Copy, Debug)]
pub struct Plain;

impl Kernel for Plain {
    fn add_scaled(dst: &mut [u16], factor: Gf, src: &[u16]) {
        add_scaled(dst, factor, src);
    }

    fn scale(dst: &mut [u16], factor: Gf) {
        scale(dst, factor);
    }
}

/// Adds to each symbol of `dst` the symbol of `src` at its place times `factor`.
pub fn add_scaled(dst: &mut [u16], factor: Gf, src: &[u16])
    requires { length src.now ≡ length dst.old }
    ensures { dst.new ≡ plus_scaled dst.old factor.0 src.now }
{
    for (i, symbol) in dst.iter_mut().enumerate() {
        *symbol = Gf(*symbol).add(factor.mul(Gf(src[i]))).0;
    }
}

/// Multiplies each symbol of `dst` by `factor`.
pub fn scale(dst: &mut [u16], factor: Gf)
    ensures { dst.new ≡ scaled factor.0 dst.old }
{
    for symbol in dst.iter_mut() {
        *symbol = factor.mul(Gf(*symbol)).0;
    }
}

/// The sum of the products of the symbols of `a` and `b` at the same places: 0 where there are none.
pub fn dot(a: &[u16], b: &[u16]) -> Gf
    requires { length b.now ≡ length a.now }
    ensures { result.0 ≡ dot_of a.now b.now }
{
    let mut sum = Gf(0);
    for (i, symbol) in a.iter().enumerate() {
        sum = sum.add(Gf(*symbol).mul(Gf(b[i])));
    }
    sum
}
