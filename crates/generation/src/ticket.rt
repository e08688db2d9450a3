//! Tickets: the key of a server's weights, and the sums of each generation's blocks.
use linear_spec::SymVec;

/// What a peer tests packets with: the key of its random weights, the number of checks, and the weighted sums of the source's blocks.
#[derive(Debug, Drop)]
pub struct Ticket {
    pub key: [u8; 32],
    pub checks: u8,
    pub sums: SymVec,
}
