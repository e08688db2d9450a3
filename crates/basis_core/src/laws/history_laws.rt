//! The law of legal histories.
ghost use Rattle.basis_core.specs.HistoryLaws.{HistoryLaws};

/// How a legal history grows, and how the histories of callers that know nothing of each other become one.
pub fn histories()
    ensures { HistoryLaws }
{}
