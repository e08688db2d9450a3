//! What is kept of the calls on a basis, and the calls as events.
use linear_spec::{Drawn, List, Packet, Record, Reply};

/// What a call was answered.
#[derive(Clone, Copy, Debug, PartialEq, Eq)]
pub enum Answer {
    /// To an offer.
    Offered(Reply),
    /// To a draw.
    Drew(Drawn),
}

/// A call as it was kept. The caller's tag says which of its calls this is; no rule of a basis reads it.
#[derive(Clone, Copy, Debug, PartialEq, Eq)]
pub struct Call {
    pub tag: u64,
    pub answer: Answer,
}

/// The calls of one caller, in its own order.
#[derive(Debug, Drop)]
pub struct CallerTrace {
    pub number: u32,
    pub calls: List<Call>,
}

/// All that is kept of one basis: its records in order, and the calls of its callers by number.
#[derive(Debug, Drop)]
pub struct BasisTrace {
    pub peer: u16,
    pub generation: u16,
    pub records: List<Record>,
    pub callers: List<CallerTrace>,
}

/// What a trace does not keep of the offers of one caller: their packets, and the first check that each failed, in the
/// caller's order.
#[derive(Debug, Drop)]
pub struct CallerOffers {
    pub packets: List<Packet>,
    pub failed: List<Option<u8>>,
}

/// A call that is to be answered.
#[derive(Debug, Drop)]
pub enum Event {
    /// An offer. `failed` is the first check that the packet fails, `None` where it passes.
    Offer {
        caller: u32,
        tag: u64,
        failed: Option<u8>,
        packet: Packet,
    },
    Draw {
        caller: u32,
        tag: u64,
    },
}

/// What a run from the empty basis gives: an answer to each event, and the records at the end.
#[derive(Debug, Drop)]
pub struct Replayed {
    pub answers: List<Answer>,
    pub records: List<Record>,
}
