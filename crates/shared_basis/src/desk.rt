//! What a pass works with at the words.
use linear_spec::{List, Packet};
use table_rows::CallerSeat;

/// A seat, and what a pass keeps beside it so that no step takes memory.
#[derive(Drop)]
pub(crate) struct Desk {
    pub seat: CallerSeat,
    /// The region that the seat writes.
    pub draft: u64,
    /// The regions that are known, in order; there is room for all.
    pub known: List<u64>,
    /// The words of a region.
    pub words: Vec<u64>,
    /// What is left of a packet that is reduced.
    pub left: Packet,
    /// A row that was read or made, or a packet that was read.
    pub row: Packet,
}
