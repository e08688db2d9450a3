//! Calls that are answered one at a time.
ghost use Rattle.basis_core.specs.StepLaws.{StepLaws};

use crate::laws::histories;

/// A given caller's call that is answered over all the records there are keeps the history legal, with the record that it
/// adds; and no caller has then seen more records than there are.
pub fn steps()
    ensures { StepLaws }
{
    histories();
}
