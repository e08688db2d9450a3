//! What the seats at a table know. No value of these types is made: contracts and proofs alone speak of them. An array there is
//! a list of any length.
use linear_spec::Equations;
use std::snapshot::Snapshot;

/// What all seats at one table agree on.
#[derive(Drop)]
pub struct Parameters {
    pub generation: u16,
    pub k: u16,
    pub s: u16,
    /// How many numbers may be given to callers.
    pub passes: u32,
    pub equations: Snapshot<Equations>,
}

/// The regions that the directory is known to name, in its order, and for each of them its words, where they were read.
pub struct Front {
    pub known: [u64; 0],
    pub read: [[Option<u64>; 0]; 0],
}

/// What a seat has seen, and fronts that were brought together in it: each is a part of its own front.
pub struct Sight {
    pub parameters: Parameters,
    pub front: Front,
    pub olds: [Front; 0],
}

/// What a caller knows.
pub struct CallerView {
    pub sight: Sight,
    pub number: u32,
    /// The region that it alone writes.
    pub draft: u64,
    /// The words of the draft, where they were written.
    pub written: [Option<u64>; 0],
    /// The position and the call of each record that it appended.
    pub own: [(u64, u64); 0],
    /// How many of its looks found no region, and the place of the last of them.
    pub empty_looks: u64,
    pub last_empty: u64,
    /// How many looks and exchanges it made.
    pub moves: u64,
    /// How many words of known regions it read.
    pub reads: u64,
}

/// What the founder knows.
pub struct FounderView {
    pub sight: Sight,
    /// For each number that it gave, the own list of the caller, once that was joined.
    pub joined: [Option<[(u64, u64); 0]>; 0],
}

/// What a seat knows.
pub enum View {
    Founder(FounderView),
    Caller(CallerView),
    Note(Sight),
    /// Another seat has taken it in.
    Spent,
}
