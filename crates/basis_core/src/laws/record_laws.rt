//! What a legal history says of its records and of each of its callers.
ghost use Rattle.basis_core.specs.RecordLaws.{RecordLaws, CallerLaws};

/// The records of a legal history: each packet passes and is fresh at those before it, so there are at most K of them; and
/// any records of which this holds are a legal history by themselves, nobody's calls being given.
pub fn records()
    ensures { RecordLaws }
{
    linear_spec::laws::rows();
}

/// The given callers of a legal history: each call was answered as the sequential basis does over the records, at its
/// point, which is at most their number; the merge has the caller's calls once each, in the caller's own order;
/// and each of the caller's records is its call of the record's number.
pub fn callers()
    ensures { CallerLaws }
{}
