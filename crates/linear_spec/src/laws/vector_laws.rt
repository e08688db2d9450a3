//! The laws of single vectors.
ghost use Rattle.linear_spec.specs.VectorLaws.{VectorLaws, ChangedPlaceLaws, UnitVectorLaws};

/// The laws of sums and multiples of vectors.
pub fn vectors()
    ensures { VectorLaws }
{
    gf16::laws::field();
}

/// What becomes of the sum of the products of two lists once a place of one is changed: the change times the symbol that
/// the other has there is added.
pub fn changed_place()
    ensures { ChangedPlaceLaws }
{
    gf16::laws::field();
}

/// The unit vectors of k columns: a combination with one as its coefficients is the vector at its column, and those of all
/// columns span every vector of k symbols and have rank k.
pub fn unit_vectors()
    ensures { UnitVectorLaws }
{
    gf16::laws::field();
}
