//! The laws of rows, cases and rank, for all lists of packets and vectors.
ghost use Rattle.linear_spec.specs.RowLaws.{CaseLaws, DecisionLaws, FillingLaws, MissingColumnLaws, ReductionLaws, RowLaws};
ghost use Rattle.linear_spec.specs.SpanLaws.{RankLaws};

/// Packets and the rows that stand for them have one span. Each packet is fresh after those before it, so the rank of both is
/// their number; and packets of which this holds have rows.
pub fn rows()
    ensures { RowLaws }
{
    gf16::laws::field();
}

/// A vector reduced by rows: it is 0 at the pivots, and with the vector it makes a vector of the rows' span.
pub fn reduction()
    ensures { ReductionLaws }
{
    gf16::laws::field();
}

/// What the remainder of a packet's vector by rows tells: whether the packet is fresh, within or conflicting, and the row
/// that a fresh packet gives.
pub fn decision()
    ensures { DecisionLaws }
{
    gf16::laws::field();
}

/// At each front that fits, exactly one case of a packet holds; the coefficients of a packet within follow from the front's.
pub fn one_case()
    ensures { CaseLaws }
{
    gf16::laws::field();
}

/// Every list of vectors of n symbols has exactly one rank. It is at most the number of vectors and at most n, a vector
/// outside the span makes it one greater, and lists of one span have one rank.
pub fn ranks()
    ensures { RankLaws }
{
    gf16::laws::field();
}

/// Rows that stand for the same packets are the same vectors, so the missing columns are a fact of the packets.
pub fn missing_columns()
    ensures { MissingColumnLaws }
{
    gf16::laws::field();
}

/// Rows and missing columns are k together. Packets with the unit vectors of the missing columns are fresh one after
/// another, and with them the span is full.
pub fn filling()
    ensures { FillingLaws }
{
    gf16::laws::field();
}
