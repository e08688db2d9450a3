//! The laws of the field. Each function does nothing: a caller has its law for a proof.

ghost use Rattle.gf16.specs.Field.{InverseLaw, IsField};

/// All laws of the field at once, for all symbols: what a proof about many symbols takes as its premise.
#[tactic(auto, using(crate::proofs::FieldRecord::the_field))]
pub fn field()
    ensures { IsField }
{}

/// Every symbol but 0 has one inverse, and no other.
#[tactic(auto, using(crate::proofs::Inverses::one_inverse))]
pub fn inverse()
    ensures { InverseLaw }
{}
