//! The field of 2^16 symbols: polynomials over two elements, modulo x^16 + x^12 + x^3 + x + 1.
ghost use Rattle.std.specs.Prelude.{◌≡◌, ◌↔◌, IsNone, IfSome};
ghost use Rattle.gf16.specs.Field.{sum_of, product_of, times_x};

/// What x^16 comes to: x^12 + x^3 + x + 1.
const REDUCTION: u16 = 0x100B;

/// A symbol: a polynomial in x of degree below 16 over the field of two elements. Bit i is the coefficient of x^i.
#[derive(Clone, Copy, Debug, PartialEq, Eq)]
pub struct Gf(pub u16);

impl Gf {
    /// The sum, which is the difference too.
    pub fn add(self, other: Gf) -> Gf
        ensures { result.0 ≡ sum_of self.0 other.0 }
    {
        Gf(self.0 ^ other.0)
    }

    /// The product modulo x^16 + x^12 + x^3 + x + 1.
    #[tactic(auto, using(crate::proofs::Steps::product_steps))]
    pub fn mul(self, other: Gf) -> Gf
        ensures { result.0 ≡ product_of self.0 other.0 }
    {
        let mut sum = 0;
        let mut multiple = self.0;
        for place in 0..16u32 {
            if (other.0 >> place) & 1 == 1 {
                sum ^= multiple;
            }
            multiple = times_x(multiple);
        }
        Gf(sum)
    }

    /// The inverse, which 0 alone lacks.
    #[tactic(auto, using(crate::proofs::Steps::inverse_steps))]
    pub fn inv(self) -> Option<Gf>
        ensures none { IsNone result ↔ (self.0 ≡ 0) }
        ensures value { IfSome result (λ inverse. product_of self.0 inverse.0 ≡ 1) }
    {
        if self.0 == 0 {
            return None;
        }
        // A symbol to the 2^16 is itself, so its inverse is its power 2^16 - 2 = 2 + 4 + .. + 2^15.
        let mut square = self;
        let mut inverse = Gf(1);
        for _round in 0..15u32 {
            square = square.mul(square);
            inverse = inverse.mul(square);
        }
        Some(inverse)
    }
}

#[tactic(auto, using(crate::proofs::TimesX::times_x_steps))]
fn times_x(symbol: u16) -> u16
    ensures { result ≡ times_x symbol }
{
    let shifted = symbol << 1;
    if symbol >> 15 == 1 {
        shifted ^ REDUCTION
    } else {
        shifted
    }
}
