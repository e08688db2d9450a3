//! The laws of the check: it is linear, so packets made of passing ones pass, and packets true to a source pass its sums.
ghost use Rattle.linear_spec.specs.CheckLaws.{CheckLaws};

/// The laws of the check, for all equations and packets: it is linear, and a packet that is true to blocks passes equations
/// that have the weighted sums of these blocks.
pub fn checks()
    ensures { CheckLaws }
{
    gf16::laws::field();
}
