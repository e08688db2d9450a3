//! What a run comes to: its end and its trace.
ghost use Rattle.std.specs.Prelude.{◌≡◌, []};

use crate::{End, Trace};
use linear_spec::List;
use std::alloc::Global;

/// What a run did: how it ended, and the calls on its bases. Where the end says nothing of the packets, the trace is empty.
#[derive(Debug, Drop)]
pub struct Outcome {
    pub end: End,
    pub trace: Trace,
}

impl Outcome {
    /// An outcome with an empty trace.
    pub(crate) fn without_trace(alloc: Global, end: End) -> Outcome
        ensures end { result.end ≡ end }
        ensures bases { result.trace.bases.items ≡ [] }
        ensures sends { result.trace.sends.items ≡ [] }
    {
        Outcome {
            end,
            trace: Trace {
                bases: List::new(alloc),
                sends: List::new(alloc),
            },
        }
    }
}
