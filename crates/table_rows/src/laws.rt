//! That each kind of step keeps the rule: whatever the words and the views are, if they meet the rule and the seat has the view
//! that is said, there is a view that the seat has after the step, with which they meet it again, and which is as the kind says.
mod region_laws;

ghost use Rattle.table_rows.specs.StepLaws.{AccessLaws, ClosingLaw, ExchangeLaw, JoinCallerLaw, JoinNoteLaw, LookLaw, NoteLaw, NumberLaw, OpeningLaw, ReadLaw, WriteLaw};

pub use region_laws::{filling, meeting, packing, reading, records, region};

/// Words that are all 0 and the view of a founder that has given no number meet the rule.
pub fn opening()
    ensures { OpeningLaw }
{}

/// Look: a load of the next word of the directory.
pub fn look()
    ensures { LookLaw }
{}

/// Read: a load of a word of a region that is known.
pub fn read()
    ensures { ReadLaw }
{}

/// Write: a store to the own draft.
pub fn write()
    ensures { WriteLaw }
{}

/// Append and Lose: an exchange of the next word of the directory from 0 to the own draft, won or lost. The draft has a whole
/// record of this caller, and a record may come next that is such after those that were read.
pub fn exchange()
    ensures { ExchangeLaw }
{}

/// No step loads, stores or exchanges a word besides its own: the next of the directory, one of a known region, or one of the
/// own draft.
pub fn access()
    ensures { AccessLaws }
{}

/// Number: a new caller is cut off the founder.
pub fn number()
    ensures { NumberLaw }
{}

/// Note: a note of what a caller knows is cut off it.
pub fn note()
    ensures { NoteLaw }
{}

/// Join of a note into a caller.
pub fn join_note()
    ensures { JoinNoteLaw }
{}

/// Join of a caller into the founder.
pub fn join_caller()
    ensures { JoinCallerLaw }
{}

/// Words that meet the rule with the founder's view hold what it brought together.
pub fn closing()
    ensures { ClosingLaw }
{}
