//! The laws of combinations and spans, for all lists of vectors.
ghost use Rattle.linear_spec.specs.SpanLaws.{CombinationLaws, FullRankLaws, SpanLaws};

/// The laws of the span, for every list of vectors of n symbols.
pub fn spans()
    ensures { SpanLaws }
{
    gf16::laws::field();
}

/// The laws of combinations, for every list of vectors and of packets that fit.
pub fn combinations()
    ensures { CombinationLaws }
{
    gf16::laws::field();
}

/// Vectors of n symbols have rank n exactly where they span every vector of n symbols.
pub fn full_rank()
    ensures { FullRankLaws }
{
    gf16::laws::field();
}
