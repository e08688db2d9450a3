//! What the calls of the given callers say of the records.
ghost use Rattle.basis_core.specs.CallLaws.{CallLaws};

/// The calls of a legal history and its records: what a call recorded is the record at its point, the caller's own; an
/// offered packet that passes has coefficients in the span of the records', whatever its reply; and the rank of these is the
/// number of the records.
pub fn calls()
    ensures { CallLaws }
{
    linear_spec::laws::rows();
    linear_spec::laws::spans();
    linear_spec::laws::ranks();
    linear_spec::laws::one_case();
}
