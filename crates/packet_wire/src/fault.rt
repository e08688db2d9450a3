//! Faults of a stream: what is wrong, and at which byte.

/// What is wrong at the place of a fault. `as u8` gives each kind's number.
#[derive(Clone, Copy, Debug, PartialEq, Eq)]
pub enum FaultKind {
    BadMagic = 1,
    BadVersion = 2,
    BadKind = 3,
    BadLength = 4,
    BadField = 5,
    OutOfOrder = 6,
    Truncated = 7,
    AfterEnd = 8,
}

/// A fault of a stream, and the place of its byte from the stream's first byte on.
#[derive(Clone, Copy, Debug, PartialEq, Eq)]
pub struct WireFault {
    pub offset: u64,
    pub kind: FaultKind,
}

/// Why a decoder goes no further.
#[derive(Clone, Copy, Debug, PartialEq, Eq)]
pub enum FeedError {
    Fault(WireFault),
    Memory,
}
