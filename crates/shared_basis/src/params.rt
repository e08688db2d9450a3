//! What a basis is made with, and what it gives at its ends.
use crate::{Pass, SharedBasis};
use basis_core::CallerTrace;
use linear_spec::{List, Packet, Record};

/// Which basis: the peer and the generation that it is of, and the lengths of its packets, K coefficients and S payload symbols.
#[derive(Clone, Copy, Debug, PartialEq, Eq)]
pub struct Params {
    pub peer: u16,
    pub generation: u16,
    pub k: u16,
    pub s: u16,
}

/// A basis that was made, and its passes, numbered from 0.
#[derive(Drop)]
pub struct Created {
    pub basis: SharedBasis,
    pub passes: List<Pass>,
}

/// What a basis held when it was closed: its records in order, the row of each, and the calls of each caller, by number.
#[derive(Debug, Drop)]
pub struct Closed {
    pub records: List<Record>,
    pub rows: List<Packet>,
    pub callers: List<CallerTrace>,
}

/// A basis that could not be closed for want of memory, and its passes: all is as it was.
#[derive(Drop)]
pub struct CloseRefused {
    pub basis: SharedBasis,
    pub passes: List<Pass>,
}
