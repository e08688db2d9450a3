//! Records, and what a draw answers.
use crate::Packet;

/// A packet that was recorded: by which caller, and as which of the caller's calls, counted from 0.
#[derive(Debug, Drop)]
pub struct Record {
    pub caller: u32,
    pub call: u32,
    pub packet: Packet,
}

/// What a caller gets who draws from a basis.
#[derive(Clone, Copy, Debug, PartialEq, Eq)]
pub enum Drawn {
    /// A combination of the first `front` records.
    Sent { front: u16 },
    /// There is no record yet.
    Nothing,
}
