//! What a run leaves behind of its bases and of what it sent.
use basis_core::BasisTrace;
use linear_spec::{Drawn, List};

/// A draw that was made to be sent: in which round, over which link, from which peer's basis of which generation, as which draw on
/// that link, and what it was answered. At `Nothing` no packet was sent.
#[derive(Clone, Copy, Debug, PartialEq, Eq)]
pub struct SendEntry {
    pub round: u32,
    pub link: u32,
    pub peer: u16,
    pub generation: u16,
    pub q: u32,
    pub drawn: Drawn,
}

/// The calls that are kept of a run: its bases, by generation, and the draws that were made to be sent.
#[derive(Debug, Drop)]
pub struct Trace {
    pub bases: List<BasisTrace>,
    pub sends: List<SendEntry>,
}
